// The `pins` line of a net, judged and marked from left to right: the form of the whole line first, then range, then the same pin twice.
#![tactic(auto)]

ghost use Rattle.std.specs.Prelude.{◌≡◌, true, false, ℕ, ◌+◌, ◌-◌, ◌*◌, ◌<◌, ◌≤◌, length, drop};
ghost use Rattle.layout.specs.Shapes.{sizes_of};
ghost use Rattle.marks.specs.Marks.{marks_after, Older};
ghost use Rattle.marks.specs.Words.{most_stamp};
ghost use Rattle.model.specs.Read.{pin_inside, pins_line};
ghost use Rattle.scan.specs.Pins.{triple, pins_of};
ghost use Rattle.lines.specs.Told.{mapped};
ghost use Rattle.text.specs.Refusals.{place_of};
ghost use Rattle.pins.specs.Pins.{marked_seen, seen_after, work_after, verdict_of, pins_in, start, pins_told, finish, pins_marked};

use layout::Shape;
use marks::Put;
use text::{Cursor, Entry, Fault, Refusal};

// What the entries of a line have shown so far: in how many tiles they are, all inside the grid, one of them twice.
#[derive(Clone, Copy)]
pub struct Seen {
    pub tiles: usize,
    pub inside: bool,
    pub twice: bool,
}

// The entries of a `pins` line: where they stand, and in how many tiles they are.
#[derive(Clone, Copy)]
pub struct Pins {
    pub from: usize,
    pub tiles: usize,
}

// "x is below W, y below H, l is 1 to K"
fn inside(g: Shape, x: usize, y: usize, l: usize) -> bool
    ensures { result ≡ pin_inside g.w g.h g.k (triple x y l) }
{
    x < g.w && y < g.h && 1 <= l && l <= g.k
}

// One more pin inside the grid, on layer l of the tile `here`.
fn mark_pin(a: &mut [u32], stamp: u32, here: usize, l: usize, v: Seen) -> Seen
    requires { (here < length a.old) × (1 ≤ l) × (l ≤ 8) × (stamp ≤ most_stamp) × (v.tiles < 4294967296) }
    ensures value { result ≡ marked_seen stamp a.old here l v }
    ensures a_after { a.new ≡ marks_after stamp a.old here (l - 1) }
{
    match marks::set_mark(a, stamp, here, (l - 1) as u32) {
        Put::Twice => Seen { twice: true, ..v },
        Put::Fresh => Seen {
            tiles: v.tiles + 1,
            ..v
        },
        Put::Known => v,
    }
}

// One more entry.
fn put_pin(a: &mut [u32], g: Shape, stamp: u32, v: Seen, e: Entry) -> Seen
    requires t_in_bounds { (g.t ≤ length a.old) × (stamp ≤ most_stamp) × (v.tiles < 4294967296) }
    ensures value { result ≡ seen_after g stamp a.old v (triple e.x e.y e.third) }
    ensures a_after { a.new ≡ work_after g stamp a.old (triple e.x e.y e.third) }
{
    if !inside(g, e.x, e.y, e.third) {
        return Seen { inside: false, ..v };
    }
    let here = layout::tile_at(g, e.x, e.y);
    mark_pin(a, stamp, here, e.third, v)
}

// The verdict on a line whose form is right: its entries stand from `from` on, and c is the place after it.
#[tactic(auto, unfolding(crate::specs::Pins::verdict_of))]
fn verdict(v: Seen, from: usize, c: Cursor) -> Result<(Pins, Cursor), Refusal>
    ensures { result ≡ verdict_of v from c }
{
    if !v.inside {
        return Err(Refusal::Line(Fault::Range, c.line));
    }
    if v.twice {
        return Err(Refusal::Line(Fault::PinTwice, c.line));
    }
    let p = Pins {
        from,
        tiles: v.tiles,
    };
    Ok((p, c))
}

// The entries of a `pins` line, which stand from c on.
fn entries(
    s: &[u8],
    c: Cursor,
    a: &mut [u32],
    g: Shape,
    stamp: u32,
) -> Result<(Pins, Cursor), Refusal>
    requires t_in_bounds { (g.t ≤ length a.old) × (stamp ≤ most_stamp) × (length s.now ≤ 1048576) }
    ensures result_after { pins_told s.now a.new result ≡ finish g stamp c.line start a.old (pins_of (drop c.at s.now)) }
    ensures pins_in { pins_in (length s.now) c.at c.line result }
    ensures a_len_unchanged { length a.new ≡ length a.old }
{
    let mut i = c.at;
    let mut v = Seen {
        tiles: 0,
        inside: true,
        twice: false,
    };
    // not an iterator: between an entry and the end of the line there is a third answer, an entry out of form
    loop {
        let Some(e) = text::pin_at(s, i) else {
            return Err(Refusal::Line(Fault::Form, c.line));
        };
        v = put_pin(a, g, stamp, v, e);
        i = e.next;
        if e.last {
            let next = Cursor {
                at: i,
                line: c.line,
            };
            return verdict(v, c.at, next);
        }
    }
}

// The `pins` line at c, and the place of the next line. The marks are those of earlier nets.
pub fn pins_line(
    s: &[u8],
    c: Cursor,
    a: &mut [u32],
    g: Shape,
    stamp: u32,
) -> Result<(Pins, Cursor), Refusal>
    requires t_in_bounds { (g.t ≤ length a.old) × (stamp ≤ most_stamp) × (length s.now ≤ 1048576) × (c.at ≤ length s.now) × (c.line < 1048576) }
    requires older { Older stamp a.old }
    ensures result_after { pins_told s.now a.new result ≡ mapped (pins_marked stamp a.old) (pins_line (sizes_of g) (place_of s.now c)) }
    ensures pins_in { pins_in (length s.now) (c.at + 5) (c.line + 1) result }
    ensures a_len_unchanged { length a.new ≡ length a.old }
{
    let d = match lines::open_line(s, c, b"pins=") {
        Ok(place) => place,
        Err(place) => return Err(Refusal::Line(Fault::Form, place.line)),
    };
    entries(s, d, a, g, stamp)
}
