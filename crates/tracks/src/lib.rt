// Nets and capacities on the layers of each edge, in the working numbers: the legal layers of an edge, and one more net on a layer.
#![tactic(auto)]

ghost use Rattle.std.specs.Prelude.{◌≡◌, cond, ℕ, ◌+◌, ◌-◌, ◌*◌, ◌^◌, ◌<◌, ◌≤◌, length, get_or};
ghost use Rattle.layout.specs.Areas.{demand_at, flat_at, areas_end};
ghost use Rattle.layout.specs.Dirs.{heading_number};
ghost use Rattle.layout.specs.Fill.{Filled};
ghost use Rattle.model.specs.Limits.{most_layers, most_nets};
ghost use Rattle.net.specs.Places.{SmallCapacities};
ghost use Rattle.net.specs.SoFar.{closed_load};
ghost use Rattle.tracks.specs.Legal.{room_of, open_to, open_in, legal_mask};
ghost use Rattle.tracks.specs.Masks.{bits_up};
ghost use Rattle.tracks.specs.Shut.{row_at, shut_at, Shut, Closed};
ghost use Rattle.tracks.specs.Occupied.{full_of, occupied, Free};
ghost use Rattle.tracks.specs.OccupiedAll.{edges_of, layers_in, occupied_all, CanTake};

use layout::{Heading, Shape};

// By how much a layer may pass its capacity: the limit where the edge has overflow left.
fn room_of(left: u32, limit: u32) -> u32
    ensures { result ≡ room_of left limit }
{
    if 0 < left {
        return limit;
    }
    0
}

// The value given where one more net may go on a layer, and else 0.
fn open_to(load: u32, cap: u32, room: u32, value: u32) -> u32
    requires { cap + room < 2 ^ 32 }
    ensures { result ≡ cond (open_to load cap room) value 0 }
{
    if load < cap + room {
        return value;
    }
    0
}

// Which of k layers one more net may go on: bit i is the layer with its capacity at caps + i and its nets at loads + i.
fn open_layers(w: &[u32], caps: usize, loads: usize, k: usize, room: u32) -> u32
    requires k_in_bounds { (caps + k ≤ length w.now) × (loads + k ≤ length w.now) × (k ≤ most_layers) }
    requires by_index { (i : ℕ) → i < k → get_or w.now (caps + i) 0 + room < 2 ^ 32 }
    ensures { result ≡ bits_up (open_in w.now caps loads room) 0 k }
{
    let mut mask = 0u32;
    let mut value = 1u32;
    for i in 0..k {
        mask += open_to(w[loads + i], w[caps + i], room, value);
        value = 2 * value;
    }
    mask
}

// The legal layers of an edge: bit l - 1 is layer l. Eight layers go in two fours, loops of a known length that become comparisons of four at once.
pub fn legal(w: &[u32], g: Shape, edge: usize, limit: u32) -> u32
    requires edge_lt_e { (edge < g.e) × (flat_at g ≤ length w.now) × (limit ≤ most_nets) }
    requires small_capacities { SmallCapacities g w.now }
    ensures value { result ≡ legal_mask g w.now edge limit }
    ensures upper_bound { result < 256 }
{
    let caps = layout::edge_at(g, edge);
    let loads = layout::loads_at(g) + caps;
    let room = room_of(w[layout::demand_at(g) + edge], limit);
    if g.k == 8 {
        let low = open_layers(w, caps, loads, 4, room);
        let high = open_layers(w, caps + 4, loads + 4, 4, room);
        return low + 16 * high;
    }
    open_layers(w, caps, loads, g.k, room)
}

// So many nets close a layer: no capacity and no limit comes near it.
const CLOSED: u32 = 2147483648;

// The nets on a layer: as they are where it runs the way of its edge, and else so many that it is closed.
fn shut(along: bool, load: u32) -> u32
    ensures { result ≡ cond along load closed_load }
{
    if along {
        return load;
    }
    CLOSED
}

// Closes the layers of an edge with this heading that run the other way.
fn close_edge(w: &mut [u32], g: Shape, edge: usize, heading: Heading)
    requires edge_lt_e { (edge < g.e) × (demand_at g ≤ length w.old) }
    ensures { Filled (row_at g edge) g.k (shut_at g (heading_number heading) w.old edge) w.old w.new }
{
    let dirs = g.dirs;
    let at = layout::loads_at(g) + layout::edge_at(g, edge);
    for l in 0..g.k {
        let nets = w[at + l];
        w[at + l] = shut(layout::runs(dirs, heading.number(), l), nets);
    }
}

// The same for the edges from `from` on, up to `to`.
fn close_edges(w: &mut [u32], g: Shape, from: usize, to: usize, heading: Heading)
    requires from_le_to { (from ≤ to) × (to ≤ g.e) × (demand_at g ≤ length w.old) }
    ensures { Shut g from to (heading_number heading) w.old w.new }
{
    for e in from..to {
        close_edge(w, g, e, heading);
    }
}

// Closes the layers of each edge that run the other way, where the job says which way its layers run.
pub fn close_layers(w: &mut [u32], g: Shape)
    requires g_in_bounds { demand_at g ≤ length w.old }
    ensures { Closed g w.old w.new }
{
    if g.dirs.is_none() {
        return;
    }
    close_edges(w, g, 0, g.east, Heading::East);
    close_edges(w, g, g.east, g.e, Heading::North);
}

// 1 where a layer is full.
fn full_of(load: u32, cap: u32) -> u32
    ensures { result ≡ full_of load cap }
{
    u32::from(cap <= load)
}

// One more net on a layer, 1 to K, of an edge. Where the layer was full, the edge has less overflow left.
pub fn occupy(w: &mut [u32], g: Shape, edge: usize, layer: usize)
    requires edge_lt_e { (edge < g.e) × (1 ≤ layer) × (layer ≤ g.k) × (flat_at g ≤ length w.old) }
    requires free { Free g w.old edge layer }
    ensures { w.new ≡ occupied g w.old edge layer }
{
    let cap = layout::edge_at(g, edge) + (layer - 1);
    let load = layout::loads_at(g) + cap;
    let left = layout::demand_at(g) + edge;
    let nets = w[load];
    let spare = w[left];
    let rest = spare - full_of(nets, w[cap]);
    w[left] = rest;
    w[load] = nets + 1;
}

// One more net, with n tiles in its walk: the edge above each but the first, on the layer chosen for it.
pub fn occupy_all(w: &mut [u32], g: Shape, n: usize)
    requires n_le_m { (n ≤ g.m) × (areas_end g ≤ length w.old) }
    requires can_take { CanTake g w.old (edges_of g n w.old) (layers_in g n w.old) }
    ensures { w.new ≡ occupied_all g w.old (edges_of g n w.old) (layers_in g n w.old) }
{
    let above = layout::above_at(g);
    let layers = layout::engine_at(g) + 3 * g.m;
    for i in 1..n {
        let edge = w[above + i] as usize;
        let layer = w[layers + i] as usize;
        occupy(w, g, edge, layer);
    }
}
