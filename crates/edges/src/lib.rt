// The `edges` line of a net, judged from left to right: the form of the whole line first, then range, the same edge twice, reach, and layers that run the
// ways of its edges. Its edges are marked by tile, their ends joined, and each is counted into the flat demand; whether they have a ring is told.
#![tactic(auto)]

ghost use Rattle.std.specs.Prelude.{◌≡◌, true, false, List, [], ◌∷◌, ◌++◌, ℕ, ◌+◌, ◌-◌, ◌<◌, ◌≤◌, ◌*◌, length, drop, get_or, set};
ghost use Rattle.std.proofs.Math.Option.{some};
ghost use Rattle.layout.specs.Areas.{demand_at, tiles_at, links_at, chosen_at, tiles_of, links_of};
ghost use Rattle.layout.specs.Dirs.{heading_number};
ghost use Rattle.layout.specs.Parts.{Outside};
ghost use Rattle.layout.specs.Shapes.{sizes_of};
ghost use Rattle.marks.specs.Words.{most_stamp};
ghost use Rattle.model.specs.Job.{Pin};
ghost use Rattle.model.specs.Lists.{all};
ghost use Rattle.model.specs.Read.{Triple, edge_inside, has_layer};
ghost use Rattle.scan.specs.Pins.{triple};
ghost use Rattle.model.specs.Text.{cut_line};
ghost use Rattle.scan.specs.Ways.{edges_of, edges_cut};
ghost use Rattle.union.specs.Links.{Links, Merged};
ghost use Rattle.ways.specs.Ends.{ends_of, ends_after};
ghost use Rattle.edges.specs.Reading.{edges_on, Reading, Few, Begun, Shown, goes_on, GoesOn, Ready};
ghost use Rattle.edges.specs.Line.{reached_by, verdict_of, EntriesRead, JoinedRead, LineRead};
ghost use Rattle.edges.specs.Served.{goes, EntriesAt};

use layout::{Heading, Shape};
use text::{Cursor, Entry, Fault, Refusal};

// What the entries of a line have shown so far, the worst of it: "On one line the lower number wins".
#[derive(Clone, Copy)]
pub enum Judged {
    Fine,
    Ring,
    Twice,
    Range,
}

// How many entries there were, and in how many parts the net's tiles lie.
#[derive(Clone, Copy)]
pub struct Seen {
    pub entries: usize,
    pub parts: usize,
    pub judged: Judged,
}

// The entries of an `edges` line: where they stand, how many they are, and whether they have a ring.
#[derive(Clone, Copy)]
pub struct Edges {
    pub from: usize,
    pub entries: usize,
    pub ring: bool,
}

// "both ends inside the grid"
fn inside(g: Shape, x: usize, y: usize, d: usize) -> bool
    ensures { result ≡ edge_inside g.w g.h (triple x y d) }
{
    if g.w <= x || g.h <= y {
        return false;
    }
    if d == 0 { x + 1 < g.w } else { y + 1 < g.h }
}

// Marks an edge in its two tiles: how many of them had no mark, or nothing where the edge is marked already.
fn put_marks(
    w: &mut [u32],
    g: Shape,
    stamp: u32,
    here: usize,
    there: usize,
    d: u32,
) -> Option<usize>
    requires g_in_bounds { (chosen_at g ≤ length w.old) × (here < g.t) × (there < g.t) × (d ≤ 1) × (stamp ≤ most_stamp) }
    ensures value { result ≡ ends_of stamp (tiles_of g w.old) here there d }
    ensures w_after { tiles_of g w.new ≡ ends_after stamp (tiles_of g w.old) here there d }
    ensures outside { Outside (tiles_at g) g.t w.old w.new }
{
    let from = layout::tiles_at(g);
    let to = layout::links_at(g);
    ways::mark_ends(&mut w[from..to], stamp, here, there, d)
}

// Counts an edge into the flat demand.
fn put_demand(w: &mut [u32], g: Shape, edge: usize)
    requires g_in_bounds { (chosen_at g ≤ length w.old) × (edge < g.e) × (get_or w.old (demand_at g + edge) 0 ≤ most_stamp) }
    ensures { w.new ≡ set w.old (demand_at g + edge) (get_or w.old (demand_at g + edge) 0 + 1) }
{
    let i = layout::demand_at(g) + edge;
    w[i] += 1;
}

// One more edge inside the grid, where none is there twice. It is counted first: where it is there twice, its line is refused.
fn add_edge(w: &mut [u32], g: Shape, stamp: u32, v: Seen, e: Entry) -> Seen
    requires g_in_bounds { (chosen_at g ≤ length w.old) × (stamp ≤ most_stamp) × (v.entries < 4294967296) × (e.third ≤ 1) × (edge_inside g.w g.h (triple e.x e.y e.third) ≡ true) }
    requires ready { Ready g stamp v.parts w.old × GoesOn v.judged }
    ensures shown { (ps : List Pin) (w₀ : List ℕ) (ts : List Triple) → Shown g stamp ps w₀ ts v.parts w.old v.judged → Shown g stamp ps w₀ (ts ++ (triple e.x e.y e.third ∷ [])) result.parts w.new result.judged }
    ensures entries_value { result.entries ≡ v.entries + 1 }
    ensures w_len_unchanged { length w.new ≡ length w.old }
{
    let here = layout::tile_at(g, e.x, e.y);
    let out = ways::way_on(g, here, e.y, e.third);
    let there = out.tile;
    let edge = out.edge;
    let entries = v.entries + 1;
    put_demand(w, g, edge);
    let Some(k) = put_marks(w, g, stamp, here, there, e.third as u32) else {
        return Seen {
            entries,
            parts: v.parts,
            judged: Judged::Twice,
        };
    };
    let parts = v.parts + k;
    if union::put_join(w, g, stamp, here, there) {
        return Seen {
            entries,
            parts: parts - 1,
            judged: v.judged,
        };
    }
    Seen {
        entries,
        parts,
        judged: Judged::Ring,
    }
}

// Whether edges are still marked.
fn goes_on(j: Judged) -> bool
    ensures { result ≡ goes_on j }
{
    matches!(j, Judged::Fine | Judged::Ring)
}

// One more entry. Where one has left the grid, or an edge is there twice, nothing is marked any more: only form and range can still decide.
fn put_edge(w: &mut [u32], g: Shape, stamp: u32, v: Seen, e: Entry) -> Seen
    requires g_in_bounds { (chosen_at g ≤ length w.old) × (stamp ≤ most_stamp) × (v.entries < 4294967296) × (e.third ≤ 1) }
    requires ready { GoesOn v.judged → Ready g stamp v.parts w.old }
    ensures shown { (ps : List Pin) (w₀ : List ℕ) (ts : List Triple) → Shown g stamp ps w₀ ts v.parts w.old v.judged → Shown g stamp ps w₀ (ts ++ (triple e.x e.y e.third ∷ [])) result.parts w.new result.judged }
    ensures entries_value { result.entries ≡ v.entries + 1 }
    ensures w_len_unchanged { length w.new ≡ length w.old }
{
    let entries = v.entries + 1;
    let parts = v.parts;
    if !inside(g, e.x, e.y, e.third) {
        return Seen {
            entries,
            parts,
            judged: Judged::Range,
        };
    }
    let judged = v.judged;
    if goes_on(judged) {
        return add_edge(w, g, stamp, v, e);
    }
    Seen {
        entries,
        parts,
        judged,
    }
}

// The verdict on reach, where range and the same edge twice are judged; with a ring or without.
fn reach(v: Seen, from: usize, c: Cursor, ring: bool) -> Result<(Edges, Cursor), Refusal>
    ensures { result ≡ reached_by v.parts v.entries from c ring }
{
    if v.parts != 1 {
        return Err(Refusal::Line(Fault::Apart, c.line));
    }
    let e = Edges {
        from,
        entries: v.entries,
        ring,
    };
    Ok((e, c))
}

// The verdict on a line whose form is right: its entries stand from `from` on, and c is the place after it.
fn verdict(v: Seen, from: usize, c: Cursor) -> Result<(Edges, Cursor), Refusal>
    ensures { result ≡ verdict_of v from c }
{
    let judged = v.judged;
    match judged {
        Judged::Range => Err(Refusal::Line(Fault::Range, c.line)),
        Judged::Twice => Err(Refusal::Line(Fault::EdgeTwice, c.line)),
        Judged::Ring => reach(v, from, c, true),
        Judged::Fine => reach(v, from, c, false),
    }
}

// The entries of an `edges` line, which stand from c on.
fn entries(
    s: &[u8],
    c: Cursor,
    w: &mut [u32],
    g: Shape,
    stamp: u32,
    parts: usize,
) -> Result<(Edges, Cursor), Refusal>
    requires g_in_bounds { (chosen_at g ≤ length w.old) × (stamp ≤ most_stamp) × (length s.now ≤ 1048576) }
    requires few { Few g stamp w.old × Begun g stamp parts w.old }
    ensures entries_read { (ps : List Pin) (w₀ : List ℕ) → 1 ≤ length ps → Reading g stamp ps [] parts w₀ w.old → EntriesRead g stamp s.now c ps w₀ w.new (edges_of (drop c.at s.now)) result }
    ensures w_len_unchanged { length w.new ≡ length w.old }
{
    let mut i = c.at;
    let mut v = Seen {
        entries: 0,
        parts,
        judged: Judged::Fine,
    };
    // not an iterator: between an entry and the end of the line there is a third answer, an entry out of form
    loop {
        let Some(e) = text::edge_at(s, i) else {
            return Err(Refusal::Line(Fault::Form, c.line));
        };
        v = put_edge(w, g, stamp, v, e);
        i = e.next;
        if e.last {
            let next = Cursor {
                at: i,
                line: c.line,
            };
            return verdict(v, c.at, next);
        }
    }
}

// The same, where there may be none: then byte 10 stands at c.
fn list(
    s: &[u8],
    c: Cursor,
    w: &mut [u32],
    g: Shape,
    stamp: u32,
    parts: usize,
) -> Result<(Edges, Cursor), Refusal>
    requires g_in_bounds { (chosen_at g ≤ length w.old) × (stamp ≤ most_stamp) × (length s.now ≤ 1048576) }
    requires few { Few g stamp w.old × Begun g stamp parts w.old }
    ensures entries_read { (ps : List Pin) (w₀ : List ℕ) → 1 ≤ length ps → Reading g stamp ps [] parts w₀ w.old → EntriesRead g stamp s.now c ps w₀ w.new (edges_cut (cut_line (drop c.at s.now))) result }
    ensures w_len_unchanged { length w.new ≡ length w.old }
{
    let at = c.at;
    if s.len() <= at {
        return Err(Refusal::Line(Fault::Form, c.line));
    }
    if s[at] == b'\n' {
        let v = Seen {
            entries: 0,
            parts,
            judged: Judged::Fine,
        };
        let next = Cursor {
            at: at + 1,
            line: c.line,
        };
        return verdict(v, at, next);
    }
    entries(s, c, w, g, stamp, parts)
}

// The `edges` line at c, behind the `pins` line of the net, whose tiles lie in so many parts: all its tests but the last, that every edge has a layer.
fn joined_line(
    s: &[u8],
    c: Cursor,
    w: &mut [u32],
    g: Shape,
    stamp: u32,
    parts: usize,
) -> Result<(Edges, Cursor), Refusal>
    requires g_in_bounds { (chosen_at g ≤ length w.old) × (stamp ≤ most_stamp) × (length s.now ≤ 1048576) × (c.at ≤ length s.now) × (c.line < 1048576) }
    requires few { Few g stamp w.old × Begun g stamp parts w.old }
    ensures joined_read { (ps : List Pin) (w₀ : List ℕ) → 1 ≤ length ps → Reading g stamp ps [] parts w₀ w.old → JoinedRead g stamp s.now c ps w₀ w.new result }
    ensures w_len_unchanged { length w.new ≡ length w.old }
{
    let d = match lines::open_line(s, c, b"edges=") {
        Ok(place) => place,
        Err(place) => return Err(Refusal::Line(Fault::Form, place.line)),
    };
    list(s, d, w, g, stamp, parts)
}

// Whether the edges of all entries from `from` on have this heading. The line was found right and is read again, so none is malformed. Few jobs have a
// way without a layer: the short form of entries stays where each line is read first, and the compiler puts it into that one loop.
fn one_way(s: &[u8], from: usize, heading: Heading) -> bool
    ensures { (ts : List Triple) (rest : List ℕ) → edges_of (drop from s.now) ≡ some (ts, rest) → result ≡ all (goes (heading_number heading)) ts }
{
    let way = heading.number() as usize;
    let mut i = from;
    // not an iterator: that of crate `known` stands above this one, and reads what is known to be right
    loop {
        let Some(e) = text::long_edge(s, i) else {
            return true;
        };
        if e.third != way {
            return false;
        }
        if e.last {
            return true;
        }
        i = e.next;
    }
}

// Whether every edge of a line goes a way that has a layer. Where no layer runs one way, all edges must go the other.
fn served(s: &[u8], e: Edges, g: Shape) -> bool
    ensures { (ts : List Triple) → EntriesAt g s.now e ts → result ≡ all (has_layer (sizes_of g)) (edges_on g ts) }
{
    if e.entries == 0 {
        return true;
    }
    let dirs = g.dirs;
    if !layout::has_layer(dirs, Heading::East, g.k) {
        return one_way(s, e.from, Heading::North);
    }
    if !layout::has_layer(dirs, Heading::North, g.k) {
        return one_way(s, e.from, Heading::East);
    }
    true
}

// The `edges` line at c, behind the `pins` line of the net, whose tiles lie in so many parts, and the place of the next line. After a refusal nothing is
// said of the working numbers but their length.
pub fn edges_line(
    s: &[u8],
    c: Cursor,
    w: &mut [u32],
    g: Shape,
    stamp: u32,
    parts: usize,
) -> Result<(Edges, Cursor), Refusal>
    requires g_in_bounds { (chosen_at g ≤ length w.old) × (stamp ≤ most_stamp) × (length s.now ≤ 1048576) × (c.at ≤ length s.now) × (c.line < 1048576) }
    requires few { Few g stamp w.old × Begun g stamp parts w.old }
    ensures line_read { (ps : List Pin) (w₀ : List ℕ) → 1 ≤ length ps → Reading g stamp ps [] parts w₀ w.old → LineRead g stamp s.now c ps w₀ w.new result }
    ensures w_len_unchanged { length w.new ≡ length w.old }
{
    let (e, d) = joined_line(s, c, w, g, stamp, parts)?;
    if !served(s, e, g) {
        return Err(Refusal::Line(Fault::NoLayer, d.line));
    }
    Ok((e, d))
}
