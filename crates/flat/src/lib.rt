// The flat plan in the working numbers: c(e), the overflow of each edge, TO and MO, and the limits on one layer's overflow.
#![tactic(auto)]

ghost use Rattle.std.specs.Prelude.{◌≡◌, ℕ, ◌+◌, ◌-◌, ◌<◌, ◌≤◌, max, length, get_or};
ghost use Rattle.layout.specs.Areas.{loads_at, demand_at, flat_at, tiles_at};
ghost use Rattle.layout.specs.Dirs.{heading_number};
ghost use Rattle.layout.specs.Parts.{Outside};
ghost use Rattle.model.specs.Job.{Job, edge_count};
ghost use Rattle.model.specs.Limits.{most_layers, most_capacity, most_nets};
ghost use Rattle.model.specs.Overflow.{over, ceil_div};
ghost use Rattle.net.specs.SoFar.{Capacities};
ghost use Rattle.net.specs.Places.{SmallCapacities};
ghost use Rattle.flat.specs.FlatPlan.{AllCounted, FlatCapacities, FlatDemands, Overflows, sum_at, most_at, capacity_sum};
ghost use Rattle.flat.specs.Limited.{way_limit, limits_of, limit_at};

use layout::{Heading, Shape};

// TO and MO of the flat plan.
#[derive(Clone, Copy)]
pub struct Flat {
    pub total: u64,
    pub most: u32,
}

// The sum of k capacities from `at` on.
fn sum_of(w: &[u32], at: usize, k: usize) -> u32
    requires k_in_bounds { (at + k ≤ length w.now) × (k ≤ most_layers) }
    requires by_index { (l : ℕ) → l < k → get_or w.now (at + l) 0 ≤ most_capacity }
    ensures { result ≡ sum_at at k w.now }
{
    let mut sum = 0u32;
    for &capacity in &w[at..at + k] {
        sum += capacity;
    }
    sum
}

// The sum of an edge's K capacities.
fn edge_capacity(w: &[u32], g: Shape, edge: usize) -> u32
    requires edge_lt_e { (edge < g.e) × (loads_at g ≤ length w.now) }
    requires small_capacities { SmallCapacities g w.now }
    ensures { result ≡ capacity_sum g w.now edge }
{
    let at = layout::edge_at(g, edge);
    // a sum of known length is laid out flat by the compiler
    if g.k == 8 {
        return sum_of(w, at, 8);
    }
    sum_of(w, at, g.k)
}

// Puts c(e), the sum of the edge's K capacities, in its place for each edge.
pub fn flat_capacities(w: &mut [u32], g: Shape)
    requires g_in_bounds { tiles_at g ≤ length w.old }
    requires small_capacities { SmallCapacities g w.old }
    ensures flat_capacities { (j : Job) → Capacities g j w.old → g.k ≡ j.layers → AllCounted j → FlatCapacities g j w.new }
    ensures outside { Outside (flat_at g) g.e w.old w.new }
{
    let flat = layout::flat_at(g);
    for e in 0..g.e {
        let c = edge_capacity(w, g, e);
        w[flat + e] = c;
    }
}

// Puts o(e) in the place of d(e) for each edge, and returns TO and MO.
pub fn overflows(w: &mut [u32], g: Shape) -> Flat
    requires g_in_bounds { tiles_at g ≤ length w.old }
    requires by_index { (e : ℕ) → e < g.e → get_or w.old (demand_at g + e) 0 ≤ most_nets }
    ensures overflows { (j : Job) → FlatDemands g j w.old → FlatCapacities g j w.old → g.e ≡ edge_count j → Overflows g j w.new result }
    ensures outside { Outside (demand_at g) g.e w.old w.new }
{
    let demand = layout::demand_at(g);
    let flat = layout::flat_at(g);
    let mut total = 0u64;
    let mut most = 0u32;
    for e in 0..g.e {
        // "d − c or 0, whichever is larger"
        let o = w[demand + e].saturating_sub(w[flat + e]);
        w[demand + e] = o;
        total += u64::from(o);
        most = most.max(o);
    }
    Flat { total, most }
}

// ---- the limits on the overflow of one layer

// The largest of n numbers from `at` on, and 0 where there are none.
fn most_of(w: &[u32], at: usize, n: usize) -> u32
    requires { at + n ≤ length w.now }
    ensures { result ≡ most_at at n w.now }
{
    let mut most = 0u32;
    for &over in &w[at..at + n] {
        most = most.max(over);
    }
    most
}

// The overflow divided by the number of layers, "rounded up, and 0 where it has [..] no layer".
fn share(most: u32, layers: usize) -> u32
    requires { (most ≤ most_nets) × (layers ≤ most_layers) }
    ensures { result ≡ ceil_div most layers }
{
    if layers == 0 {
        return 0;
    }
    let n = layers as u32;
    (most + (n - 1)) / n
}

// The limit of n edges from the first one on, all of which have this heading: o(e) stands in the place of d(e).
fn way_limit(w: &[u32], g: Shape, heading: Heading, first: usize, n: usize) -> u32
    requires n_bound { (first + n ≤ g.e) × (flat_at g ≤ length w.now) }
    requires by_index { (e : ℕ) → e < g.e → get_or w.now (demand_at g + e) 0 ≤ most_nets }
    ensures { result ≡ way_limit g w.now (heading_number heading) first n }
{
    let dirs = g.dirs;
    let most = most_of(w, layout::demand_at(g) + first, n);
    share(most, layout::layers_in(dirs, heading.number(), g.k))
}

// The limits of the edges that go east, which are those before the border, and of those that go north.
#[derive(Clone, Copy)]
pub struct Limits {
    pub border: usize,
    pub east: u32,
    pub north: u32,
}

// The limits, where o(e) stands in the place of d(e): in a job without directions "MO/K rounded up" for all edges, and else for each direction its own.
pub fn limits_of(w: &[u32], g: Shape, most: u32) -> Limits
    requires g_in_bounds { (flat_at g ≤ length w.now) × (most ≤ most_nets) }
    requires by_index { (e : ℕ) → e < g.e → get_or w.now (demand_at g + e) 0 ≤ most_nets }
    ensures { result ≡ limits_of g w.now most }
{
    let border = g.east;
    if g.dirs.is_none() {
        let each = share(most, g.k);
        return Limits {
            border,
            east: each,
            north: each,
        };
    }
    let east = way_limit(w, g, Heading::East, 0, border);
    let north = way_limit(w, g, Heading::North, border, g.e - border);
    Limits {
        border,
        east,
        north,
    }
}

// The limit of an edge.
pub fn limit_at(m: Limits, edge: usize) -> u32
    ensures { result ≡ limit_at m edge }
{
    if edge < m.border {
        return m.east;
    }
    m.north
}

// The largest limit of all edges.
pub fn largest_limit(m: Limits) -> u32
    ensures { result ≡ max m.east m.north }
{
    m.east.max(m.north)
}
