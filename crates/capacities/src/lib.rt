// Lines of capacities: the numbers of a line stored at even distances in the working numbers, the two lines of a layer, and those of all layers.
#![tactic(auto)]

ghost use Rattle.std.specs.Prelude.{◌≡◌, true, ◌&&◌, ◌+◌, ◌-◌, ◌*◌, ◌<◌, ◌≤◌, leb, length};
ghost use Rattle.model.specs.Limits.{most_capacity};
ghost use Rattle.model.specs.Read.{capacity_lines};
ghost use Rattle.layout.specs.Dirs.{dirs_of};
ghost use Rattle.text.specs.Entries.{Brief};
ghost use Rattle.text.specs.Refusals.{place_of};
ghost use Rattle.lines.specs.Keyed.{one_line};
ghost use Rattle.lines.specs.Told.{list_in, mapped};
ghost use Rattle.capacities.specs.Reads.{capacity_line_by, zeros, judged_line_by, layer_in};
ghost use Rattle.capacities.specs.Capacities.{column};
ghost use Rattle.capacities.specs.Spread.{kept, spread, Room};
ghost use Rattle.capacities.specs.Entries.{list_at, list_line, finish};
ghost use Rattle.capacities.specs.Told.{list_told, answer_of, capacities_told, beyond_of};
ghost use Rattle.capacities.specs.Ran.{Stands, Ran};

use layout::{Heading, Shape};
use text::{Cursor, Fault, Numeral, Refusal};

// "Capacities run from 0 to 65,535."
const MOST_CAPACITY: usize = 65535;

// ---- one line

// One capacity is stored, where it is in its range; whether it and all before it are.
fn put(w: &mut [u32], to: usize, v: usize, inside: bool) -> bool
    requires { to < length w.old }
    ensures value { result ≡ (inside && leb v most_capacity) }
    ensures w_after { w.new ≡ kept w.old to v }
{
    if MOST_CAPACITY < v {
        return false;
    }
    w[to] = v as u32;
    inside
}

// The places from which six bytes are left are those before this one. It is the same for a whole text, so that a loop over places tests each
// by one comparison.
fn brief_until(s: &[u8]) -> usize
    ensures { result ≡ length s.now - 5 }
{
    s.len().saturating_sub(5)
}

// The number at `at`, a comma behind it, and the place after that, where six bytes are left: the common case, without a loop. None says
// nothing.
fn brief_comma(s: &[u8], at: usize) -> Option<Numeral>
    ensures { Brief s.now at 44 result }
{
    if brief_until(s) <= at {
        return None;
    }
    text::brief(s, at, b',')
}

// How far the capacities of a line are read: the place of the next one and where it is stored, how many come before the last, and whether all so far
// are in their range.
#[derive(Clone, Copy)]
struct Run {
    at: usize,
    to: usize,
    left: usize,
    inside: bool,
}

// The capacities from here on that are read without a loop, up to another or to the last.
fn brief_run(s: &[u8], w: &mut [u32], k: usize, from: Run) -> Run
    requires { Stands s.now k w.old from }
    ensures { Ran s.now k w.old from w.new result }
{
    let mut at = from.at;
    let mut to = from.to;
    let mut left = from.left;
    let mut inside = from.inside;
    // not a `for`: how many are left when it stops is handed on
    while 0 < left {
        let Some(n) = brief_comma(s, at) else {
            break;
        };
        inside = put(w, to, n.value, inside);
        at = n.next;
        to += k;
        left -= 1;
    }
    Run {
        at,
        to,
        left,
        inside,
    }
}

// Where the capacities of a line are stored: the first at `first`, and each other `k` places after the one before; how many they are.
#[derive(Clone, Copy)]
struct Column {
    first: usize,
    k: usize,
    count: usize,
}

// The answer for a list whose form is right, read up to `at`: whether all its capacities are in their range.
fn answer(at: usize, line: usize, inside: bool) -> Result<Cursor, Refusal>
    ensures { result ≡ answer_of at line inside }
{
    if inside {
        return Ok(Cursor { at, line });
    }
    Err(Refusal::Line(Fault::Range, line))
}

// The capacities of a column, which stand from c on. Behind the last is byte 10, and behind each other a comma. They are read in runs; those
// near the end of the text one by one.
fn entries(s: &[u8], c: Cursor, w: &mut [u32], to: Column) -> Result<Cursor, Refusal>
    requires at_in_bounds { c.at ≤ length s.now }
    requires room { Room to.k to.first to.count (length w.old) }
    ensures result_after { list_told s.now w.new result ≡ finish to.k c.line true w.old to.first (list_at to.count s.now c.at) }
    ensures list_in { list_in (length s.now) c.line result }
    ensures w_len_unchanged { length w.new ≡ length w.old }
{
    if to.count == 0 {
        return answer(c.at, c.line, true);
    }
    let start = Run {
        at: c.at,
        to: to.first,
        left: to.count - 1,
        inside: true,
    };
    let mut r = brief_run(s, w, to.k, start);
    // not a `for`: a turn reads a whole run of them
    while 0 < r.left {
        let Some(n) = text::ended(s, r.at, b',') else {
            return Err(Refusal::Line(Fault::Form, c.line));
        };
        let more = Run {
            at: n.next,
            to: r.to + to.k,
            left: r.left - 1,
            inside: put(w, r.to, n.value, r.inside),
        };
        r = brief_run(s, w, to.k, more);
    }
    let Some(n) = text::ended(s, r.at, b'\n') else {
        return Err(Refusal::Line(Fault::Form, c.line));
    };
    let all = put(w, r.to, n.value, r.inside);
    answer(n.next, c.line, all)
}

// The same up to the line's end, where the column may be empty: then the value is empty.
fn list(s: &[u8], c: Cursor, w: &mut [u32], to: Column) -> Result<Cursor, Refusal>
    requires at_in_bounds { c.at ≤ length s.now }
    requires room { Room to.k to.first to.count (length w.old) }
    ensures result_after { list_told s.now w.new result ≡ finish to.k c.line true w.old to.first (list_line to.count s.now c.at) }
    ensures list_in { list_in (length s.now) c.line result }
    ensures w_len_unchanged { length w.new ≡ length w.old }
{
    if 0 < to.count {
        return entries(s, c, w, to);
    }
    if s.len() <= c.at || s[c.at] != b'\n' {
        return Err(Refusal::Line(Fault::Form, c.line));
    }
    Ok(Cursor {
        at: c.at + 1,
        line: c.line,
    })
}

// A line of capacities.
fn capacity_line<'a>(
    s: &'a [u8],
    c: Cursor,
    key: &'a [u8],
    w: &mut [u32],
    to: Column,
) -> Result<Cursor, Refusal>
    requires at_in_bounds { (c.at ≤ length s.now) × (c.line < 1048576) × (one_line key.now ≡ true) }
    requires room { Room to.k to.first to.count (length w.old) }
    ensures result_after { list_told s.now w.new result ≡ mapped (spread to.k w.old to.first) (capacity_line_by key.now to.count (place_of s.now c)) }
    ensures list_in { list_in (length s.now) (c.line + 1) result }
    ensures w_len_unchanged { length w.new ≡ length w.old }
{
    let d = lines::expect_line(s, c, key)?;
    list(s, d, w, to)
}

// Whether a column holds nothing but 0.
fn all_zero(w: &[u32], of: Column) -> bool
    requires { Room of.k of.first of.count (length w.now) }
    ensures { result ≡ zeros (column of.k w.now of.first of.count) }
{
    let mut at = of.first;
    for _ in 0..of.count {
        if w[at] != 0 {
            return false;
        }
        at += of.k;
    }
    true
}

// A line of capacities, and whether its layer runs the way of its edges: where it does not, nothing but 0 may stand there.
fn judged_line<'a>(
    s: &'a [u8],
    c: Cursor,
    key: &'a [u8],
    w: &mut [u32],
    to: Column,
    along: bool,
) -> Result<Cursor, Refusal>
    requires at_in_bounds { (c.at ≤ length s.now) × (c.line < 1048576) × (one_line key.now ≡ true) }
    requires room { Room to.k to.first to.count (length w.old) }
    ensures result_after { list_told s.now w.new result ≡ mapped (spread to.k w.old to.first) (judged_line_by key.now to.count along (place_of s.now c)) }
    ensures list_in { list_in (length s.now) (c.line + 1) result }
    ensures w_len_unchanged { length w.new ≡ length w.old }
{
    let d = capacity_line(s, c, key, w, to)?;
    if along || all_zero(w, to) {
        return Ok(d);
    }
    Err(Refusal::Line(Fault::Closed, d.line))
}

// ---- the layers

// Both capacity lines of one layer, 0 being the bottom one: edge e's capacity is stored at e * K + layer.
fn layer_lines(
    s: &[u8],
    c: Cursor,
    w: &mut [u32],
    g: Shape,
    layer: usize,
) -> Result<Cursor, Refusal>
    requires at_in_bounds { (c.at ≤ length s.now) × (c.line < 100) }
    requires layer_lt_k { (layer < g.k) × (g.k * g.e ≤ length w.old) }
    ensures result_after { list_told s.now w.new result ≡ mapped (spread g.k w.old layer) (layer_in g.w g.h (dirs_of g.k g.dirs) (layer + 1) (place_of s.now c)) }
    ensures list_in { list_in (length s.now) (c.line + 2) result }
    ensures w_len_unchanged { length w.new ≡ length w.old }
{
    let eastward = layout::runs(g.dirs, Heading::East.number(), layer);
    let northward = layout::runs(g.dirs, Heading::North.number(), layer);
    let east = Column {
        first: layer,
        k: g.k,
        count: g.east,
    };
    let d = judged_line(s, c, b"east=", w, east, eastward)?;
    let north = Column {
        first: layer + g.east * g.k,
        k: g.k,
        count: g.e - g.east,
    };
    judged_line(s, d, b"north=", w, north, northward)
}

// The capacity lines of all layers.
pub fn all_layers(s: &[u8], from: Cursor, w: &mut [u32], g: Shape) -> Result<Cursor, Refusal>
    requires at_in_bounds { (from.at ≤ length s.now) × (from.line < 50) }
    requires e_in_bounds { g.k * g.e ≤ length w.old }
    ensures result_after { capacities_told s.now g w.new result ≡ capacity_lines g.w g.h (dirs_of g.k g.dirs) 1 g.k (place_of s.now from) }
    ensures beyond_of { beyond_of g w.old w.new result }
    ensures list_in { list_in (length s.now) (from.line + 2 * g.k) result }
    ensures w_len_unchanged { length w.new ≡ length w.old }
{
    let mut c = from;
    for layer in 0..g.k {
        c = layer_lines(s, c, w, g, layer)?;
    }
    Ok(c)
}
