// The scores of all nets of an accepted job, each in the net's row of the net table.
#![tactic(auto)]

ghost use Rattle.std.specs.Prelude.{true, List, [], ◌∷◌, ◌++◌, ◌≡◌, ℕ, suc, ◌+◌, ◌*◌, ◌^◌, ◌<◌, ◌≤◌, length, get_or};
ghost use Rattle.cut.specs.Again.{KeptAt};
ghost use Rattle.layout.specs.Areas.{tiles_at, chosen_at};
ghost use Rattle.layout.specs.Table.{tiles_column, dropped_in};
ghost use Rattle.model.specs.Job.{Net, Job, net_count, net_of};
ghost use Rattle.model.specs.Read.{Lent, edge_inside};
ghost use Rattle.model.specs.Score as scores;
ghost use Rattle.net.specs.Dropped.{Unmarked, Remarked};
ghost use Rattle.net.specs.Left.{EdgesThere};
ghost use Rattle.net.specs.Table.{EdgesAt, PinTiles, Marks};
ghost use Rattle.scan.specs.Pins.{triple};
ghost use Rattle.flat.specs.FlatPlan.{FlatDemands, FlatCapacities};
ghost use Rattle.ways.specs.Entry.{edge_of};
ghost use Rattle.order.specs.Density.{Added, DensityOf, Weighed};
ghost use Rattle.order.specs.Sums.{KeptSums};
ghost use Rattle.order.specs.Ready.{Ready, SomeJob, SomeNet, Scored};

use layout::{Column, Shape};
use text::Entry;

// alpha, beta and gamma of a job; and the stamp under which its first net is marked where its rings are cut again, after which each net has one of its own.
#[derive(Clone, Copy)]
pub struct Weights {
    pub alpha: u64,
    pub beta: u64,
    pub gamma: u64,
    pub stamp: u32,
}

// D and C of a net: the sums of d(e) and c(e) over its edges.
#[derive(Clone, Copy)]
pub struct Density {
    pub demand: u64,
    pub capacity: u64,
}

// ---- the score of a net from its numbers

// "A zero divisor counts as 1."
fn floor_of(n: u64, d: u64) -> u64
    ensures value { result ≡ scores.quotient n d }
    ensures upper_bound { result ≤ n }
{
    if d == 0 {
        return n;
    }
    n / d
}

// "Score = floor(1000 × alpha / L) + 1000 × beta × P + floor(1000 × gamma × D / C)"
fn score(a: Weights, edges: u64, pins: u64, x: Density) -> u64
    requires { (a.alpha ≤ 255) × (a.beta ≤ 255) × (a.gamma ≤ 255) × (pins ≤ 1048576) × (x.demand ≤ 4294967296) }
    ensures value { result ≡ scores.length_term a.alpha edges + scores.pin_term a.beta pins + scores.density_term a.gamma x.demand x.capacity }
    ensures upper_bound { result < 2 ^ 60 }
{
    floor_of(1000 * a.alpha, edges)
        + 1000 * a.beta * pins
        + floor_of(1000 * a.gamma * x.demand, x.capacity)
}

// ---- D and C

// d(e) and c(e) of one edge more.
fn add_edge(w: &[u32], g: Shape, v: Density, edge: usize) -> Density
    requires g_in_bounds { (tiles_at g ≤ length w.now) × (edge < g.e) × (v.demand ≤ 2 ^ 60) × (v.capacity ≤ 2 ^ 60) }
    ensures { Added g w.now edge v result }
{
    let demand = u64::from(w[layout::demand_at(g) + edge]);
    let capacity = u64::from(w[layout::flat_at(g) + edge]);
    Density {
        demand: v.demand + demand,
        capacity: v.capacity + capacity,
    }
}

// d(e) and c(e) of the edge that an entry inside the grid names.
fn add_entry(w: &[u32], g: Shape, v: Density, x: usize, y: usize, d: usize) -> Density
    requires g_in_bounds { (tiles_at g ≤ length w.now) × (v.demand ≤ 2 ^ 60) × (v.capacity ≤ 2 ^ 60) × (d ≤ 1) × (edge_inside g.w g.h (triple x y d) ≡ true) }
    ensures { Added g w.now (edge_of g (triple x y d)) v result }
{
    let edge = ways::edge_of(g, x, y, d);
    add_edge(w, g, v, edge)
}

// D and C over the entries that stand at `at`, one or more.
fn entries_density(s: &[u8], at: usize, w: &[u32], g: Shape) -> Density
    requires g_in_bounds { tiles_at g ≤ length w.now }
    requires edges_there { EdgesThere s.now g at × (get_or s.now at 0 ≡ 10 → ⊥) }
    ensures { (j : Job) (n : Net) → EdgesAt s.now g.w g.h at n → FlatDemands g j w.now → FlatCapacities g j w.now → DensityOf j n.entries result }
{
    let mut v = Density {
        demand: 0,
        capacity: 0,
    };
    for e in known::edges_from(s, at) {
        v = add_entry(w, g, v, e.x, e.y, e.third);
    }
    v
}

// D and C over the entries of the line at `at`, which may be empty.
fn net_density(s: &[u8], at: usize, w: &[u32], g: Shape) -> Density
    requires g_in_bounds { tiles_at g ≤ length w.now }
    requires edges_there { EdgesThere s.now g at }
    ensures { (j : Job) (n : Net) → EdgesAt s.now g.w g.h at n → FlatDemands g j w.now → FlatCapacities g j w.now → DensityOf j n.entries result }
{
    if s[at] == b'\n' {
        return Density {
            demand: 0,
            capacity: 0,
        };
    }
    entries_density(s, at, w, g)
}

// D and C of a net that keeps all entries of the line at `at`, as the score needs them: where gamma is 0 they weigh nothing and are not summed.
fn weighed_density(s: &[u8], at: usize, w: &[u32], g: Shape, gamma: u64) -> Density
    requires g_in_bounds { tiles_at g ≤ length w.now }
    requires edges_there { EdgesThere s.now g at }
    ensures { (j : Job) (n : Net) → EdgesAt s.now g.w g.h at n → n.edges ≡ n.entries → FlatDemands g j w.now → FlatCapacities g j w.now → Weighed gamma j n result }
{
    if gamma == 0 {
        return Density {
            demand: 0,
            capacity: 0,
        };
    }
    net_density(s, at, w, g)
}

// ---- the same of a net that has dropped entries: they are none of its edges

// d(e) and c(e) of the edge of an entry inside the grid, if it is marked under the stamp.
fn add_kept(w: &[u32], g: Shape, stamp: u32, v: Density, e: Entry) -> Density
    requires g_in_bounds { (chosen_at g ≤ length w.now) × (v.demand ≤ 2 ^ 60) × (v.capacity ≤ 2 ^ 60) × (e.third ≤ 1) × (edge_inside g.w g.h (triple e.x e.y e.third) ≡ true) }
    ensures { (xs : List ℕ) → KeptSums g stamp w.now xs v → KeptSums g stamp w.now (xs ++ (edge_of g (triple e.x e.y e.third) ∷ [])) result }
{
    if cut::keeps(w, g, stamp, e) {
        return add_entry(w, g, v, e.x, e.y, e.third);
    }
    v
}

// D and C over those of the entries that stand at `at`, one or more, whose edges are marked under the stamp.
fn kept_density(s: &[u8], at: usize, w: &[u32], g: Shape, stamp: u32) -> Density
    requires g_in_bounds { chosen_at g ≤ length w.now }
    requires edges_there { EdgesThere s.now g at × (get_or s.now at 0 ≡ 10 → ⊥) }
    ensures { (j : Job) (n : Net) → KeptAt s.now g at stamp w.now n → FlatDemands g j w.now → FlatCapacities g j w.now → DensityOf j n.edges result }
{
    let mut v = Density {
        demand: 0,
        capacity: 0,
    };
    for e in known::edges_from(s, at) {
        v = add_kept(w, g, stamp, v, e);
    }
    v
}

// D and C of net i, counted from 0, as the score needs them: its edges are marked again.
fn cut_density(s: &[u8], w: &mut [u32], g: Shape, a: Weights, table: &[u32], i: usize) -> Density
    requires g_in_bounds { (chosen_at g ≤ length w.old) × Unmarked g (a.stamp + i) w.old }
    requires some_net { SomeNet s.now g a w.old table.now i × (0 < dropped_in table.now i) }
    ensures weighed { (lent : Lent) (j : Job) → Ready s.now g a w.old table.now lent j → i < net_count j → Weighed a.gamma j (net_of j (suc i)) result }
    ensures remarked { Remarked g (a.stamp + (i + 1)) w.old w.new }
{
    if a.gamma == 0 {
        return Density {
            demand: 0,
            capacity: 0,
        };
    }
    let pins = table[Column::Pins.at(i)] as usize;
    let edges = table[Column::Edges.at(i)] as usize;
    let stamp = a.stamp + i as u32;
    cut::mark_net(s, pins, edges, w, g, stamp);
    kept_density(s, edges, w, g, stamp)
}

// ---- all nets

// The score of net i, counted from 0.
fn net_score(s: &[u8], w: &mut [u32], g: Shape, a: Weights, table: &[u32], i: usize) -> u64
    requires g_in_bounds { (chosen_at g ≤ length w.old) × Unmarked g (a.stamp + i) w.old }
    requires some_net { SomeNet s.now g a w.old table.now i }
    ensures value { (lent : Lent) (j : Job) → Ready s.now g a w.old table.now lent j → i < net_count j → get_or table.now (tiles_column i) 0 ≡ scores.different_tiles (net_of j (suc i)).pins → result ≡ scores.score j (net_of j (suc i)) }
    ensures upper_bound { result < 2 ^ 60 }
    ensures remarked { Remarked g (a.stamp + (i + 1)) w.old w.new }
{
    let at = table[Column::Edges.at(i)] as usize;
    let dropped = layout::dropped_in(table, i);
    let edges = (layout::entries_in(table, i) - dropped) as u64;
    let pins = u64::from(table[Column::Tiles.at(i)]);
    if dropped != 0 {
        let x = cut_density(s, w, g, a, table, i);
        return score(a, edges, pins, x);
    }
    let x = weighed_density(s, at, w, g, a.gamma);
    score(a, edges, pins, x)
}

// The scores of the n nets, each in the net's row of the table.
pub fn score_nets(s: &[u8], w: &mut [u32], g: Shape, a: Weights, table: &mut [u32], n: usize)
    requires g_in_bounds { (chosen_at g ≤ length w.old) × Unmarked g (suc (2 * n)) w.old }
    requires some_job { SomeJob s.now g a w.old table.old n }
    ensures scored { (lent : Lent) (j : Job) → Ready s.now g a w.old table.old lent j → PinTiles j table.old → Marks j table.old → n ≡ net_count j → Scored s.now j table.new }
    ensures remarked { Remarked g (suc (3 * n)) w.old w.new }
{
    for i in 0..n {
        let v = net_score(s, w, g, a, table, i);
        layout::put_score(table, i, v);
    }
}
