// The lines of a net whose entries have a ring, read again. "Going along an `edges` line, an edge that closes a ring with kept earlier ones is dropped"; then "a tile
// with one kept edge and no pin" loses that edge, "until none is left to lose". Its pins and the edges that it keeps are marked by tile.
#![tactic(auto)]

ghost use Rattle.std.specs.Prelude.{true, false, cond, List, [], ◌∷◌, ◌++◌, ◌≡◌, ℕ, ◌+◌, ◌*◌, ◌<◌, ◌≤◌, min, length, get_or};
ghost use Rattle.layout.specs.Areas.{demand_at, tiles_at, links_at, chosen_at, list_at, areas_end, tiles_of, links_of};
ghost use Rattle.layout.specs.Parts.{Outside};
ghost use Rattle.layout.specs.Bounds.{most_tiles};
ghost use Rattle.marks.specs.Marks.{marked, unmark, Older};
ghost use Rattle.marks.specs.Words.{Fits, most_stamp};
ghost use Rattle.model.specs.Job.{Pin, Net, Job};
ghost use Rattle.model.specs.Lists.{has};
ghost use Rattle.model.specs.Read.{edge_inside};
ghost use Rattle.net.specs.AtHand.{Drawn};
ghost use Rattle.net.specs.Left.{EdgesThere};
ghost use Rattle.net.specs.Table.{EdgesAt};
ghost use Rattle.netread.specs.Net.{NetRead};
ghost use Rattle.scan.specs.Pins.{triple};
ghost use Rattle.theory.specs.links.Reach.{lo_of};
ghost use Rattle.union.specs.Links.{Links, Merged};
ghost use Rattle.ways.specs.Entry.{edge_of};
ghost use Rattle.cut.specs.Bare.{only_of};
ghost use Rattle.cut.specs.Dropped.{Uncounted, MarkedSome, EntriesCounted, Dropping, RingCounted, CutDone};
ghost use Rattle.cut.specs.Joining.{Joined};
ghost use Rattle.cut.specs.Listing.{Listed, Listing};
ghost use Rattle.cut.specs.Net.{RingAt, RingThere, CutMarked};
ghost use Rattle.cut.specs.Stripping.{back_of, cleared};
ghost use Rattle.cut.specs.Strips.{both_tiles, Strippable, Stripped};

use layout::Shape;
use netread::Again;
use text::Entry;

// Joins the two tiles of an entry's edge, and marks the edge where they were apart.
fn join_edge(w: &mut [u32], g: Shape, stamp: u32, e: Entry)
    requires g_in_bounds { (chosen_at g ≤ length w.old) × (stamp ≤ most_stamp) × (e.third ≤ 1) × (edge_inside g.w g.h (triple e.x e.y e.third) ≡ true) }
    requires fits { Fits stamp (tiles_of g w.old) × Links stamp (links_of g w.old) }
    ensures by_index { (es w₀ : List ℕ) → has es (edge_of g (triple e.x e.y e.third)) ≡ false → Joined g stamp es w₀ w.old → Joined g stamp (es ++ (edge_of g (triple e.x e.y e.third) ∷ [])) w₀ w.new }
    ensures w_len_unchanged { length w.new ≡ length w.old }
{
    let here = layout::tile_at(g, e.x, e.y);
    let out = layout::way_out(g, here, e.third);
    if union::put_join(w, g, stamp, here, out.tile) {
        netread::mark_ways(w, g, stamp, here, out.tile, e.third as u32);
    }
}

// Joins the entries that stand at `at`, one or more, in the order of the line.
fn join_entries(s: &[u8], at: usize, w: &mut [u32], g: Shape, stamp: u32)
    requires g_in_bounds { (chosen_at g ≤ length w.old) × (stamp ≤ most_stamp) × Fits stamp (tiles_of g w.old) × Older stamp (links_of g w.old) }
    requires edges_there { EdgesThere s.now g at × (get_or s.now at 0 ≡ 10 → ⊥) }
    ensures joined { (n : Net) → EdgesAt s.now g.w g.h at n → Joined g stamp n.entries w.old w.new }
    ensures w_len_unchanged { length w.new ≡ length w.old }
{
    for e in known::edges_from(s, at) {
        join_edge(w, g, stamp, e);
    }
}

// The way that is a tile's only mark, where it has one such.
#[tactic(auto, unfolding(crate::specs::Bare::way_in))]
fn only_way(m: u32) -> Option<usize>
    ensures { result ≡ only_of m }
{
    match m {
        256 => Some(0),
        512 => Some(1),
        1024 => Some(2),
        2048 => Some(3),
        _ => None,
    }
}

// Takes away the marks of way d out of a tile: its own, and that of the way back in the tile `there`, to which it leads.
fn clear_way(a: &mut [u32], stamp: u32, here: usize, there: usize, d: usize)
    requires here_in_bounds { (here < length a.old) × (there < length a.old) × (d < 4) }
    requires d_value { (marked stamp a.old here (8 + d) ≡ true) × (marked stamp (unmark stamp a.old here (8 + d)) there (8 + back_of d) ≡ true) }
    ensures { a.new ≡ cleared stamp a.old here there d }
{
    marks::clear_mark(a, stamp, here, (marks::WAYS + d) as u32);
    marks::clear_mark(a, stamp, there, (marks::WAYS + (d + 2) % 4) as u32);
}

// From tile t on: while a tile has one edge and no pin, that edge goes, and on at its other end. There are no more steps than edges.
fn strip_from(a: &mut [u32], g: Shape, stamp: u32, t: usize)
    requires a_len { (length a.old ≡ g.t) × (t < g.t) }
    requires strippable { Strippable g stamp a.old }
    ensures { Stripped g stamp (t ∷ []) a.old a.new }
{
    let mut here = t;
    // counted down, as the proof has it: so many steps are left
    for left in (0..g.e).rev() {
        let Some(d) = only_way(marks::bits(a[here], stamp)) else {
            return;
        };
        let out = layout::way_out(g, here, d);
        clear_way(a, stamp, here, out.tile, d);
        here = out.tile;
    }
}

// The same from both tiles of an entry's edge.
fn strip_edge(a: &mut [u32], g: Shape, stamp: u32, e: Entry)
    requires a_len { (length a.old ≡ g.t) × (e.third ≤ 1) × (edge_inside g.w g.h (triple e.x e.y e.third) ≡ true) }
    requires strippable { Strippable g stamp a.old }
    ensures { Stripped g stamp (both_tiles g (edge_of g (triple e.x e.y e.third) ∷ [])) a.old a.new }
{
    let here = layout::tile_at(g, e.x, e.y);
    let out = layout::way_out(g, here, e.third);
    strip_from(a, g, stamp, here);
    strip_from(a, g, stamp, out.tile);
}

// The same along the entries that stand at `at`, one or more.
fn strip_entries(s: &[u8], at: usize, a: &mut [u32], g: Shape, stamp: u32)
    requires a_len { (length a.old ≡ g.t) × Strippable g stamp a.old }
    requires edges_there { EdgesThere s.now g at × (get_or s.now at 0 ≡ 10 → ⊥) }
    ensures stripped { (n : Net) → EdgesAt s.now g.w g.h at n → Stripped g stamp (both_tiles g n.entries) a.old a.new }
    ensures a_len_unchanged { length a.new ≡ length a.old }
{
    for e in known::edges_from(s, at) {
        strip_edge(a, g, stamp, e);
    }
}

// The same, where the tiles are a part of the working numbers.
fn strip_net(s: &[u8], at: usize, w: &mut [u32], g: Shape, stamp: u32)
    requires g_in_bounds { (chosen_at g ≤ length w.old) × Strippable g stamp (tiles_of g w.old) }
    requires edges_there { EdgesThere s.now g at × (get_or s.now at 0 ≡ 10 → ⊥) }
    ensures stripped { (n : Net) → EdgesAt s.now g.w g.h at n → Stripped g stamp (both_tiles g n.entries) (tiles_of g w.old) (tiles_of g w.new) }
    ensures outside { Outside (tiles_at g) g.t w.old w.new }
{
    let from = layout::tiles_at(g);
    let to = layout::links_at(g);
    strip_entries(s, at, &mut w[from..to], g, stamp);
}

// Marks the pins of a net whose entries have a ring, and the edges that it keeps. The lowest tile of its pins.
pub fn mark_net(s: &[u8], pins: usize, edges: usize, w: &mut [u32], g: Shape, stamp: u32) -> usize
    requires g_in_bounds { (chosen_at g ≤ length w.old) × (stamp ≤ most_stamp) × Older stamp (tiles_of g w.old) × Older stamp (links_of g w.old) }
    requires ring_there { RingThere s.now g pins edges }
    ensures { (n : Net) → RingAt s.now g pins edges n → CutMarked g stamp n w.old w.new result }
{
    let low = netread::put_pins(s, pins, w, g, stamp);
    join_entries(s, edges, w, g, stamp);
    strip_net(s, edges, w, g, stamp);
    low
}

// Whether the edge of an entry is marked, in the tile where it starts.
pub fn keeps(w: &[u32], g: Shape, stamp: u32, e: Entry) -> bool
    requires g_in_bounds { (chosen_at g ≤ length w.now) × (e.third ≤ 1) × (edge_inside g.w g.h (triple e.x e.y e.third) ≡ true) }
    ensures { (ps : List Pin) (es : List ℕ) → Drawn g stamp ps es (tiles_of g w.now) → result ≡ has es (edge_of g (triple e.x e.y e.third)) }
{
    let here = layout::tile_at(g, e.x, e.y);
    let m = marks::bits(w[layout::tiles_at(g) + here], stamp);
    marks::bit(m, (marks::WAYS + e.third) as u32)
}

// Takes an entry that is not marked out of the flat demand. 1 where it was taken out.
fn drop_edge(w: &mut [u32], g: Shape, stamp: u32, e: Entry) -> usize
    requires g_in_bounds { (chosen_at g ≤ length w.old) × (e.third ≤ 1) × (edge_inside g.w g.h (triple e.x e.y e.third) ≡ true) }
    requires bound { 1 ≤ get_or w.old (demand_at g + edge_of g (triple e.x e.y e.third)) 0 }
    ensures uncounted { (ps : List Pin) (es xs w₀ : List ℕ) (k : ℕ) → Drawn g stamp ps es (tiles_of g w.old) → Uncounted g es xs w₀ w.old k → Uncounted g es (xs ++ (edge_of g (triple e.x e.y e.third) ∷ [])) w₀ w.new (k + result) }
    ensures upper_bound { (result ≤ 1) × Outside (demand_at g) g.e w.old w.new }
{
    if keeps(w, g, stamp, e) {
        return 0;
    }
    let i = layout::demand_at(g) + ways::edge_of(g, e.x, e.y, e.third);
    w[i] = w[i] - 1;
    1
}

// The same of the entries that stand at `at`, one or more. How many were taken out.
fn drop_entries(s: &[u8], at: usize, w: &mut [u32], g: Shape, stamp: u32) -> usize
    requires g_in_bounds { (chosen_at g ≤ length w.old) × MarkedSome g stamp (tiles_of g w.old) }
    requires edges_there { EdgesThere s.now g at × (get_or s.now at 0 ≡ 10 → ⊥) }
    requires entries_counted { EntriesCounted s.now g at w.old }
    ensures dropping { (n : Net) → EdgesAt s.now g.w g.h at n → Dropping g stamp n.entries w.old w.new result }
    ensures w_len_unchanged { length w.new ≡ length w.old }
{
    let mut dropped = 0;
    for e in known::edges_from(s, at) {
        dropped += drop_edge(w, g, stamp, e);
    }
    dropped
}

// Cuts the rings of a net whose lines were read, and all of whose entries are counted: those that it does not keep are taken out of the flat demand. How many they
// are.
pub fn cut_net(s: &[u8], pins: usize, edges: usize, w: &mut [u32], g: Shape, stamp: u32) -> usize
    requires g_in_bounds { (chosen_at g ≤ length w.old) × (stamp ≤ most_stamp) × Older stamp (tiles_of g w.old) × Older stamp (links_of g w.old) }
    requires ring_counted { RingCounted s.now g pins edges w.old }
    ensures cut_done { (n : Net) → RingAt s.now g pins edges n → CutDone g stamp n w.old w.new result }
    ensures w_len_unchanged { length w.new ≡ length w.old }
{
    mark_net(s, pins, edges, w, g, stamp);
    drop_entries(s, edges, w, g, stamp)
}

// ---- for placing

// The lower of `low` and the first tile of an entry's edge, where it is marked.
fn kept_low(w: &[u32], g: Shape, stamp: u32, low: usize, e: Entry) -> usize
    requires g_in_bounds { (chosen_at g ≤ length w.now) × (e.third ≤ 1) × (edge_inside g.w g.h (triple e.x e.y e.third) ≡ true) }
    ensures { (ps : List Pin) (es : List ℕ) → Drawn g stamp ps es (tiles_of g w.now) → result ≡ cond (has es (edge_of g (triple e.x e.y e.third))) (min low (lo_of g.w g.h (edge_of g (triple e.x e.y e.third)))) low }
{
    if keeps(w, g, stamp, e) {
        let here = layout::tile_at(g, e.x, e.y);
        return low.min(here);
    }
    low
}

// Lists the edge of an entry behind those read before.
fn list_edge(w: &mut [u32], g: Shape, stamp: u32, v: Again, e: Entry) -> Again
    requires g_in_bounds { (areas_end g ≤ length w.old) × (v.entries < g.e) × (e.third ≤ 1) × (edge_inside g.w g.h (triple e.x e.y e.third) ≡ true) }
    ensures listed { (ps : List Pin) (es xs w₀ : List ℕ) (low : ℕ) → Drawn g stamp ps es (tiles_of g w.old) → Listed g es xs low w₀ w.old v → Listed g es (xs ++ (edge_of g (triple e.x e.y e.third) ∷ [])) low w₀ w.new result }
    ensures outside { Outside (list_at g) (2 * g.t) w.old w.new }
{
    let low = kept_low(w, g, stamp, v.low, e);
    let edge = ways::edge_of(g, e.x, e.y, e.third);
    let i = layout::list_at(g) + v.entries;
    w[i] = edge as u32;
    Again {
        low,
        entries: v.entries + 1,
    }
}

// Lists the entries that stand at `at`, one or more. How many they are, and the lowest of `low` and the tiles of those that are marked.
fn list_entries(s: &[u8], at: usize, w: &mut [u32], g: Shape, stamp: u32, low: usize) -> Again
    requires g_in_bounds { (areas_end g ≤ length w.old) × MarkedSome g stamp (tiles_of g w.old) }
    requires edges_there { EdgesThere s.now g at × (get_or s.now at 0 ≡ 10 → ⊥) }
    ensures listing { (n : Net) → EdgesAt s.now g.w g.h at n → Listing g stamp n.entries low w.old w.new result }
    ensures w_len_unchanged { length w.new ≡ length w.old }
{
    let mut v = Again { low, entries: 0 };
    for e in known::edges_from(s, at) {
        v = list_edge(w, g, stamp, v, e);
    }
    v
}

// Reads the lines of a net again, whose entries stand at `pins` and `edges` and have a ring: the net is then at hand, as `netread::read_net` has any other.
pub fn read_net(s: &[u8], pins: usize, edges: usize, w: &mut [u32], g: Shape, stamp: u32) -> Again
    requires g_in_bounds { (areas_end g ≤ length w.old) × (stamp ≤ most_stamp) × Older stamp (tiles_of g w.old) × Older stamp (links_of g w.old) }
    requires ring_there { RingThere s.now g pins edges }
    ensures { (j : Job) (n : Net) → RingAt s.now g pins edges n → g.w ≡ j.width → g.h ≡ j.height → NetRead g stamp j n w.old w.new result }
{
    let low = mark_net(s, pins, edges, w, g, stamp);
    list_entries(s, edges, w, g, stamp, low)
}
