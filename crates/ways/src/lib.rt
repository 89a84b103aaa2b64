// An edge as an entry names it: the tile that it leads to and its number. The edges of the net at hand, marked by tile: the way on where an edge starts, and
// the way back where it ends.
#![tactic(auto)]

ghost use Rattle.std.specs.Prelude.{true, ◌≡◌, ◌+◌, ◌/◌, ◌<◌, ◌≤◌, length};
ghost use Rattle.layout.specs.Shapes.{way_of};
ghost use Rattle.marks.specs.Marks.{marks_after};
ghost use Rattle.marks.specs.Words.{most_stamp};
ghost use Rattle.model.specs.Read.{edge_inside};
ghost use Rattle.scan.specs.Pins.{triple};
ghost use Rattle.ways.specs.Entry.{edge_of};
ghost use Rattle.ways.specs.Ends.{first_mark, ends_of, ends_after};

use layout::{Shape, Way};
use marks::Put;

// The way east, 0, or north, 1, out of the tile `here` in row y: what `layout::way_out` finds, without a division.
pub fn way_on(g: Shape, here: usize, y: usize, d: usize) -> Way
    requires here_lt_t { (here < g.t) × (here / g.w ≡ y) × (d ≤ 1) }
    ensures { result ≡ way_of g here d }
{
    match d {
        0 => Way {
            tile: here + 1,
            edge: here - y,
        },
        _ => Way {
            tile: here + g.w,
            edge: g.east + here,
        },
    }
}

// The number of the edge that an entry inside the grid names.
pub fn edge_of(g: Shape, x: usize, y: usize, d: usize) -> usize
    requires d_bound { (d ≤ 1) × (edge_inside g.w g.h (triple x y d) ≡ true) }
    ensures { (result ≡ edge_of g (triple x y d)) × (result < g.e) }
{
    let here = layout::tile_at(g, x, y);
    match d {
        0 => here - y,
        _ => g.east + here,
    }
}

// The way back, marked in the tile where an edge ends: 1 if that tile had no mark.
fn mark_back(a: &mut [u32], stamp: u32, there: usize, d: u32) -> usize
    requires { (there < length a.old) × (d ≤ 1) × (stamp ≤ most_stamp) }
    ensures value { result ≡ first_mark stamp a.old there }
    ensures a_after { a.new ≡ marks_after stamp a.old there (10 + d) }
{
    match marks::set_mark(a, stamp, there, 10 + d) {
        Put::Twice => 0,
        Put::Fresh => 1,
        Put::Known => 0,
    }
}

// Marks an edge in its two tiles: way d, 0 for east and 1 for north, where it starts, and where it ends the way back, d + 2. How many of the two had no mark
// is told, or nothing where the edge is marked already.
pub fn mark_ends(a: &mut [u32], stamp: u32, here: usize, there: usize, d: u32) -> Option<usize>
    requires { (here < length a.old) × (there < length a.old) × (d ≤ 1) × (stamp ≤ most_stamp) }
    ensures value { result ≡ ends_of stamp a.old here there d }
    ensures a_after { a.new ≡ ends_after stamp a.old here there d }
{
    match marks::set_mark(a, stamp, here, 8 + d) {
        Put::Twice => None,
        Put::Fresh => Some(1 + mark_back(a, stamp, there, d)),
        Put::Known => Some(mark_back(a, stamp, there, d)),
    }
}
