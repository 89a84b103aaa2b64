// The lines of an accepted net, read again for placing. What the first pass found right is not tested again.
#![tactic(auto)]

ghost use Rattle.std.specs.Prelude.{true, ◌≡◌, ℕ, ◌+◌, ◌-◌, ◌*◌, ◌^◌, ◌<◌, ◌≤◌, min, max, length, get_or};
ghost use Rattle.layout.specs.Areas.{tiles_at, chosen_at, areas_end, tiles_of};
ghost use Rattle.layout.specs.Parts.{Outside};
ghost use Rattle.marks.specs.Marks.{marks_after, Older};
ghost use Rattle.marks.specs.Words.{Fits, most_stamp};
ghost use Rattle.model.specs.Job.{Net, Job};
ghost use Rattle.model.specs.Read.{edge_inside};
ghost use Rattle.net.specs.Left.{EdgesThere};
ghost use Rattle.net.specs.Table.{PinsAt, EdgesAt};
ghost use Rattle.scan.specs.Pins.{triple};
ghost use Rattle.netread.specs.Pins.{PinsThere, PinsMarked};
ghost use Rattle.netread.specs.Edges.{both_after, EdgeMarked, EdgesMarked};
ghost use Rattle.netread.specs.Net.{PinsPut, NetThere, LinesOf, NetRead};

use layout::Shape;
use text::Entry;

// What was read of a net again: its lowest tile, and how many entries its `edges` line has.
#[derive(Clone, Copy)]
pub struct Again {
    pub low: usize,
    pub entries: usize,
}

// Marks a pin. The lower of `low` and its tile.
fn mark_pin(a: &mut [u32], g: Shape, stamp: u32, low: usize, p: Entry) -> usize
    requires t_in_bounds { (g.t ≤ length a.old) × (stamp ≤ most_stamp) × (p.x < g.w) × (p.y < g.h) × (1 ≤ p.third) × (p.third ≤ 8) }
    ensures value { result ≡ min low (p.y * g.w + p.x) }
    ensures a_after { a.new ≡ marks_after stamp a.old (p.y * g.w + p.x) (p.third - 1) }
{
    let here = layout::tile_at(g, p.x, p.y);
    marks::set_mark(a, stamp, here, (p.third - 1) as u32);
    low.min(here)
}

// Marks the pins whose entries stand at `at`. Their lowest tile.
fn mark_pins(s: &[u8], at: usize, a: &mut [u32], g: Shape, stamp: u32) -> usize
    requires t_in_bounds { (g.t ≤ length a.old) × (stamp ≤ most_stamp) }
    requires pins_there { PinsThere s.now g at }
    ensures { (n : Net) → PinsAt s.now g.w g.h g.k at n → PinsMarked stamp n a.old a.new result }
{
    let mut low = layout::TILES;
    for p in known::pins_from(s, at) {
        low = mark_pin(a, g, stamp, low, p);
    }
    low
}

// Marks bit i of tile t, b being 2 ^ i. No stamp is above this one, so the larger of the tile's word and stamp × 4,096 has just the bits of the net at hand.
fn add_mark(a: &mut [u32], stamp: u32, t: usize, b: u32)
    requires t_in_bounds { (t < length a.old) × (stamp ≤ most_stamp) }
    requires fits { Fits stamp a.old }
    ensures { (i : ℕ) → i < 12 → b ≡ 2 ^ i → a.new ≡ marks_after stamp a.old t i }
{
    let kept = a[t].max(stamp * marks::STAMP);
    a[t] = kept | b;
}

// Marks an edge in its two tiles: way d, 0 for east and 1 for north, where it starts, and where it ends the way back, d + 2.
fn mark_both(a: &mut [u32], stamp: u32, here: usize, there: usize, d: u32)
    requires here_in_bounds { (here < length a.old) × (there < length a.old) × (d ≤ 1) × (stamp ≤ most_stamp) }
    requires fits { Fits stamp a.old }
    ensures { a.new ≡ both_after stamp a.old here there d }
{
    let way = 256 * (1 + d);
    add_mark(a, stamp, here, way);
    add_mark(a, stamp, there, 4 * way);
}

// Marks an edge in its two tiles, which are a part of the working numbers.
pub fn mark_ways(w: &mut [u32], g: Shape, stamp: u32, here: usize, there: usize, d: u32)
    requires g_in_bounds { (chosen_at g ≤ length w.old) × (here < g.t) × (there < g.t) × (d ≤ 1) × (stamp ≤ most_stamp) }
    requires fits { Fits stamp (tiles_of g w.old) }
    ensures w_after { tiles_of g w.new ≡ both_after stamp (tiles_of g w.old) here there d }
    ensures outside { Outside (tiles_at g) g.t w.old w.new }
{
    let from = layout::tiles_at(g);
    let to = layout::links_at(g);
    mark_both(&mut w[from..to], stamp, here, there, d);
}

// Marks an edge, and lists it behind those read before.
fn mark_edge(w: &mut [u32], g: Shape, stamp: u32, v: Again, e: Entry) -> Again
    requires g_in_bounds { (areas_end g ≤ length w.old) × (stamp ≤ most_stamp) × (v.entries < g.e) × (e.third ≤ 1) × (edge_inside g.w g.h (triple e.x e.y e.third) ≡ true) }
    requires fits { Fits stamp (tiles_of g w.old) }
    ensures { EdgeMarked g stamp (triple e.x e.y e.third) v w.old w.new result }
{
    let here = layout::tile_at(g, e.x, e.y);
    let way = layout::way_out(g, here, e.third);
    mark_ways(w, g, stamp, here, way.tile, e.third as u32);
    let i = layout::list_at(g) + v.entries;
    w[i] = way.edge as u32;
    Again {
        low: v.low.min(here),
        entries: v.entries + 1,
    }
}

// Marks and lists the edges whose entries stand at `at`, one or more.
fn mark_entries(s: &[u8], at: usize, w: &mut [u32], g: Shape, stamp: u32, low: usize) -> Again
    requires g_in_bounds { (areas_end g ≤ length w.old) × (stamp ≤ most_stamp) × Fits stamp (tiles_of g w.old) }
    requires edges_there { EdgesThere s.now g at × (get_or s.now at 0 ≡ 10 → ⊥) }
    ensures { (n : Net) → EdgesAt s.now g.w g.h at n → EdgesMarked g stamp low n.entries w.old w.new result }
{
    let mut v = Again { low, entries: 0 };
    for e in known::edges_from(s, at) {
        v = mark_edge(w, g, stamp, v, e);
    }
    v
}

// Marks and lists the edges of the line at `at`, which may be empty.
pub fn mark_edges(s: &[u8], at: usize, w: &mut [u32], g: Shape, stamp: u32, low: usize) -> Again
    requires g_in_bounds { (areas_end g ≤ length w.old) × (stamp ≤ most_stamp) × Fits stamp (tiles_of g w.old) }
    requires edges_there { EdgesThere s.now g at }
    ensures { (n : Net) → EdgesAt s.now g.w g.h at n → EdgesMarked g stamp low n.entries w.old w.new result }
{
    if s[at] == b'\n' {
        return Again { low, entries: 0 };
    }
    mark_entries(s, at, w, g, stamp, low)
}

// Marks the pins whose entries stand at `at` in their tiles, which are a part of the working numbers. Their lowest tile.
pub fn put_pins(s: &[u8], at: usize, w: &mut [u32], g: Shape, stamp: u32) -> usize
    requires g_in_bounds { (chosen_at g ≤ length w.old) × (stamp ≤ most_stamp) }
    requires pins_there { PinsThere s.now g at }
    ensures { (n : Net) → PinsAt s.now g.w g.h g.k at n → PinsPut g stamp n w.old w.new result }
{
    let from = layout::tiles_at(g);
    let to = layout::links_at(g);
    mark_pins(s, at, &mut w[from..to], g, stamp)
}

// Reads the lines of a net again, whose entries stand at `pins` and `edges`: the net is then at hand, where it keeps all its entries.
pub fn read_net(s: &[u8], pins: usize, edges: usize, w: &mut [u32], g: Shape, stamp: u32) -> Again
    requires g_in_bounds { (areas_end g ≤ length w.old) × (stamp ≤ most_stamp) × Older stamp (tiles_of g w.old) }
    requires net_there { NetThere s.now g pins edges }
    ensures { (j : Job) (n : Net) → LinesOf s.now g pins edges j n → n.edges ≡ n.entries → NetRead g stamp j n w.old w.new result }
{
    let low = put_pins(s, pins, w, g, stamp);
    mark_edges(s, edges, w, g, stamp, low)
}
