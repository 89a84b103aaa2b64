// The walk: "breadth first from the net's lowest-numbered tile. The four ways out of a tile come in the order east, north, west, south, leaving out the
// way back." The tiles of the net at hand are numbered in this order; by place, w has the tile, the edge above it, the end of its branches, and its pins.
#![tactic(auto)]

ghost use Rattle.std.specs.Prelude.{◌≡◌, true, [], ◌∷◌, ℕ, ◌+◌, ◌*◌, ◌<◌, ◌≤◌, length, get_or};
ghost use Rattle.layout.specs.Areas.{tiles_at, stops_at, areas_end};
ghost use Rattle.layout.specs.Shapes.{WayRoom};
ghost use Rattle.marks.specs.Words.{bits_in, bit_of, most_stamp, stamp_unit};
ghost use Rattle.model.specs.Job.{Job, Net};
ghost use Rattle.walk.specs.Steps.{onward, four_ways, put_ways, tile_in, marks_in, branches_in, visited};
ghost use Rattle.walk.specs.Walked.{Walks, WalkReady, Walked};

use layout::Shape;

// A tile that is taken out: its marks, and the edge above it.
#[derive(Clone, Copy)]
pub struct Stop {
    pub tile: usize,
    pub marks: u32,
    pub above: usize,
}

// Writes the tile at the end of way d of tile x as place n, if the net goes there and it is not the way back.
fn step(w: &mut [u32], g: Shape, x: Stop, d: usize, n: usize) -> usize
    requires g_in_bounds { areas_end g ≤ length w.old }
    requires d_bound { d < 4 }
    requires way_room { bit_of x.marks (8 + d) ≡ true → WayRoom g x.tile d }
    requires d_bound_2 { n + length (onward g x.tile x.marks x.above (d ∷ [])) ≤ g.m }
    ensures value { result ≡ n + length (onward g x.tile x.marks x.above (d ∷ [])) }
    ensures w_after { w.new ≡ put_ways (stops_at g) g.m w.old n (onward g x.tile x.marks x.above (d ∷ [])) }
{
    if !marks::bit(x.marks, (marks::WAYS + d) as u32) {
        return n;
    }
    let y = layout::way_out(g, x.tile, d);
    if y.edge == x.above {
        return n;
    }
    w[layout::stops_at(g) + n] = y.tile as u32;
    w[layout::above_at(g) + n] = y.edge as u32;
    n + 1
}

// Writes the branches of tile x from place n on: its four ways in order. Returns where they end.
fn branches(w: &mut [u32], g: Shape, x: Stop, n: usize) -> usize
    requires g_in_bounds { areas_end g ≤ length w.old }
    requires by_index { (d : ℕ) → d < 4 → bit_of x.marks (8 + d) ≡ true → WayRoom g x.tile d }
    requires four_ways_bound { n + length (onward g x.tile x.marks x.above four_ways) ≤ g.m }
    ensures value { result ≡ n + length (onward g x.tile x.marks x.above four_ways) }
    ensures w_after { w.new ≡ put_ways (stops_at g) g.m w.old n (onward g x.tile x.marks x.above four_ways) }
{
    let mut end = n;
    for d in 0..4 {
        end = step(w, g, x, d, end);
    }
    end
}

// The bits of a word whose stamp is not above this one: none where it is below.
fn latest_bits(word: u32, stamp: u32) -> u32
    requires { (stamp ≤ most_stamp) × (word < (stamp + 1) * stamp_unit) }
    ensures value { result ≡ bits_in stamp word }
    ensures upper_bound { result < stamp_unit }
{
    let first = stamp * marks::STAMP;
    if word < first {
        return 0;
    }
    word - first
}

// Takes out the tile at place i: writes its branches from place n on, and notes where they end and the layers of the tile's pins.
fn visit(w: &mut [u32], g: Shape, stamp: u32, i: usize, n: usize) -> usize
    requires g_in_bounds { areas_end g ≤ length w.old }
    requires i_lt_m { (i < g.m) × (tile_in g w.old i < g.t) }
    requires by_index { (d : ℕ) → d < 4 → bit_of (marks_in g stamp w.old i) (8 + d) ≡ true → WayRoom g (tile_in g w.old i) d }
    requires i_bound { n + length (branches_in g stamp w.old i) ≤ g.m }
    requires stamp_le_most_stamp { (stamp ≤ most_stamp) × (get_or w.old (tiles_at g + tile_in g w.old i) 0 < (stamp + 1) * stamp_unit) }
    ensures value { result ≡ n + length (branches_in g stamp w.old i) }
    ensures w_after { w.new ≡ visited g stamp w.old i n }
{
    let x = w[layout::stops_at(g) + i] as usize;
    let above = w[layout::above_at(g) + i] as usize;
    let m = latest_bits(w[layout::tiles_at(g) + x], stamp);
    let stop = Stop {
        tile: x,
        marks: m,
        above,
    };
    let end = branches(w, g, stop, n);
    w[layout::engine_at(g) + i] = end as u32;
    w[layout::engine_at(g) + g.m + i] = m % 256;
    end
}

// Numbers the tiles of the net at hand in walk order from `root` on, its lowest tile. No edge has the number E, which stands above the root.
// Returns how many tiles the net has.
pub fn walk(w: &mut [u32], g: Shape, stamp: u32, root: usize) -> usize
    requires g_in_bounds { areas_end g ≤ length w.old }
    requires walk_ready { WalkReady g stamp root w.old }
    requires stamp_le_most_stamp { stamp ≤ most_stamp }
    ensures { (j : Job) (net : Net) → Walks g stamp j net root w.old → Walked g j net w.old w.new result }
{
    w[layout::stops_at(g)] = root as u32;
    w[layout::above_at(g)] = g.e as u32;
    let mut n = 1;
    let mut i = 0;
    // not a `for`: the bound grows as tiles are found
    while i < n {
        n = visit(w, g, stamp, i, n);
        i += 1;
    }
    n
}
