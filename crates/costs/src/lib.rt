// The cost rows of a net, in a part w of the working numbers that has room for m tiles (12 m numbers):
//   0 .. m      at i, the place after the last branch of tile i, which is where the branches of tile i + 1 begin
//   m .. 2m     at m + i, the layers of the pins in tile i, as a mask
//   2m .. 3m    at 2m + i, the legal layers of the edge above tile i, as a mask
//   3m .. 4m    at 3m + i, the layer chosen for the edge above tile i
//   4m .. 12m   from 4m + 8 i on, the cost row of tile i: for each layer of the edge above it, the least cost of the tile
//               and of all that hangs below it
// The n tiles of the net come in walk order: tile 0 is the root, and the root's branches begin at 1. A mask has digit l - 1 for layer l.
//
// A tile's cost is not taken over combinations of its branches' layers. On eight layers, without pins or with one branch and pins on one layer, what
// hangs at it meets two by two: each meeting is a sum on each layer and a sweep up and a sweep down, which add the vias. Otherwise the cost is taken over
// intervals of layers: the vias from one end to the other, and for each branch its least cost within. Eight layers have functions of their own, whose
// loops have a fixed number of turns; fewer layers go through the same leaves with the number of layers as it is. Inside these functions layers are
// counted from 0.
#![tactic(auto)]

ghost use Rattle.std.specs.Prelude.{◌≡◌, cond, ℕ, suc, ◌+◌, ◌-◌, ◌*◌, ◌/◌, ◌%◌, ◌^◌, ◌<◌, ◌≤◌, min, leb, eqb, get_or, length};
ghost use Rattle.model.specs.Lists.{up_from};
ghost use Rattle.theory.specs.engine.Interval.{least_in};
ghost use Rattle.sets.specs.Mask.{with_layer, span_of};
ghost use Rattle.costs.specs.Rows.{illegal_cost, LeastCost, Eight, TileCosts, RowPut, RowWritten, first_in, branches_in, pins_in, legal_in, root_branches, LayerMask, Shape, RowsFrom};
ghost use Rattle.costs.specs.Intervals.{within, interval, Taken, around, PinEnds};
ghost use Rattle.costs.specs.Sweeps.{swept_up, swept_down, swept, Small, met, pair_met, triple_met};

use sets::Chart;

// The cost of an illegal layer, above the cost of any net.
pub const ILLEGAL: u32 = 536870912;

// ---- a tile's costs over intervals

// Adds to v, for each end b, the least cost of a branch on the layers s to b. The branch's row stands from `at` on.
fn add_branch(v: &mut [u32; 8], w: &[u32], at: usize, layers: usize, s: usize)
    requires layers_bound { layers ≤ 8 }
    requires at_bound { at ≤ 33554432 }
    requires layers_in_bounds { at + layers ≤ length w.now }
    requires v_len { length v.old ≡ 8 }
    requires by_index { (b : ℕ) → s ≤ b → b < layers → get_or v.old b 0 ≤ 7 + 2 * illegal_cost }
    ensures { Eight v.new (λ b. get_or v.old b 0 + within w.now at s b) s layers }
{
    let mut least = ILLEGAL;
    for b in s..layers {
        least = w[at + b].min(least);
        v[b] = v[b] + least;
    }
}

// The vias from s to each layer b from s on.
fn vias_from(layers: usize, s: usize) -> [u32; 8]
    requires { layers ≤ 8 }
    ensures { Eight result (λ b. b - s) s layers }
{
    let mut v = [0u32; 8];
    for b in s..layers {
        v[b] = (b - s) as u32;
    }
    v
}

// A tile's branches: they lead to so many tiles from `first` on, whose rows are counted from `rows`.
#[derive(Clone, Copy)]
pub struct Branches {
    pub rows: usize,
    pub first: usize,
    pub count: usize,
}

// The costs of the intervals from s to each layer from s on: the vias, and for each branch its least cost within.
fn intervals_from(w: &[u32], b: Branches, layers: usize, s: usize) -> [u32; 8]
    requires count_bound { (b.count ≤ 3) × (layers ≤ 8) }
    requires first_bound { (b.first ≤ 65536) × (b.rows ≤ 16777216) }
    requires count_in_bounds { b.rows + 8 * (b.first + b.count) ≤ length w.now }
    ensures { Eight result (interval w.now b.rows b.first b.count s) s layers }
{
    let mut v = vias_from(layers, s);
    for c in 0..b.count {
        add_branch(&mut v, w, b.rows + 8 * (b.first + c), layers, s);
    }
    v
}

// The cost of the interval that ends at b, where it may end there.
fn ended(v: &[u32; 8], high: usize, b: usize) -> u32
    requires { b < 8 }
    ensures { result ≡ cond (leb high b) (get_or v.now b 0) illegal_cost }
{
    if high <= b {
        return v[b];
    }
    ILLEGAL
}

// Takes the intervals that start at s and end at `high` or above into the costs of the layers that they hold.
fn take_intervals(c: &mut [u32; 8], v: &[u32; 8], layers: usize, s: usize, high: usize)
    requires s_le_layers { (s ≤ layers) × (layers ≤ 8) }
    requires c_len { length c.old ≡ 8 }
    ensures { Taken c.old c.new v.now layers s high }
{
    let mut least = ILLEGAL;
    for b in (s..layers).rev() {
        least = ended(v, high, b).min(least);
        c[b] = c[b].min(least);
    }
}

// Takes the intervals that start at s, of a tile with these branches, into the costs c of those that start below s.
fn take_start(c: &mut [u32; 8], w: &[u32], b: Branches, layers: usize, s: usize, high: usize)
    requires count_bound { (b.count ≤ 3) × (s < layers) × (layers ≤ 8) }
    requires first_bound { (b.first ≤ 65536) × (b.rows ≤ 16777216) }
    requires count_in_bounds { b.rows + 8 * (b.first + b.count) ≤ length w.now }
    requires eight { Eight c.old (around w.now b.rows b.first b.count layers s high) 0 layers }
    ensures { Eight c.new (around w.now b.rows b.first b.count layers (s + 1) high) 0 layers }
{
    let v = intervals_from(w, b, layers, s);
    take_intervals(c, &v, layers, s, high);
}

// The costs of a tile with these branches over the intervals that start below `starts` and end at `high` or above.
fn interval_costs(w: &[u32], b: Branches, layers: usize, starts: usize, high: usize) -> [u32; 8]
    requires count_bound { (b.count ≤ 3) × (starts ≤ layers) × (layers ≤ 8) }
    requires first_bound { (b.first ≤ 65536) × (b.rows ≤ 16777216) }
    requires count_in_bounds { b.rows + 8 * (b.first + b.count) ≤ length w.now }
    ensures { Eight result (around w.now b.rows b.first b.count layers starts high) 0 layers }
{
    let mut c = [ILLEGAL; 8];
    for s in 0..starts {
        take_start(&mut c, w, b, layers, s, high);
    }
    c
}

// The same on eight layers. Each start, and how many branches there are, is a number of its own, so that what is done for it is known before the program runs.
fn eight_intervals(
    w: &[u32],
    o: usize,
    first: usize,
    k: usize,
    starts: usize,
    high: usize,
) -> [u32; 8]
    requires k_bound { (k ≤ 3) × (1 ≤ starts) × (starts ≤ 8) }
    requires first_bound { (first ≤ 65536) × (o ≤ 16777216) }
    requires k_in_bounds { o + 8 * (first + k) ≤ length w.now }
    ensures { Eight result (around w.now o first k 8 starts high) 0 8 }
{
    let b = Branches {
        rows: o,
        first,
        count: k,
    };
    let mut c = [ILLEGAL; 8];
    take_start(&mut c, w, b, 8, 0, high);
    if starts == 1 {
        return c;
    }
    take_start(&mut c, w, b, 8, 1, high);
    if starts == 2 {
        return c;
    }
    take_start(&mut c, w, b, 8, 2, high);
    if starts == 3 {
        return c;
    }
    take_start(&mut c, w, b, 8, 3, high);
    if starts == 4 {
        return c;
    }
    take_start(&mut c, w, b, 8, 4, high);
    if starts == 5 {
        return c;
    }
    take_start(&mut c, w, b, 8, 5, high);
    if starts == 6 {
        return c;
    }
    take_start(&mut c, w, b, 8, 6, high);
    if starts == 7 {
        return c;
    }
    take_start(&mut c, w, b, 8, 7, high);
    c
}

// ---- a tile with no pin, in sweeps

fn sweep_up(w: &[u32], at: usize, layers: usize) -> [u32; 8]
    requires layers_bound { layers ≤ 8 }
    requires at_bound { at ≤ 33554432 }
    requires layers_in_bounds { at + layers ≤ length w.now }
    ensures { Eight result (λ l. swept_up (λ t. get_or w.now (at + t) 0) (suc l)) 0 layers }
{
    let mut c = [0u32; 8];
    let mut x = ILLEGAL;
    for l in 0..layers {
        x = (x + 1).min(w[at + l]).min(ILLEGAL);
        c[l] = x;
    }
    c
}

fn sweep_down(c: &mut [u32; 8], layers: usize)
    requires layers_bound { layers ≤ 8 }
    requires c_len { length c.old ≡ 8 }
    requires by_index { (l : ℕ) → l < layers → get_or c.old l 0 ≤ illegal_cost }
    ensures { Eight c.new (λ l. swept_down (λ t. get_or c.old t 0) layers (layers - l)) 0 layers }
{
    let mut x = ILLEGAL;
    for l in (0..layers).rev() {
        x = (x + 1).min(c[l]);
        c[l] = x;
    }
}

// The costs of what hangs at one layer, whose costs by layer stand from `at` on: the least of a layer's cost and the vias to that layer.
fn sweep_costs(w: &[u32], at: usize, layers: usize) -> [u32; 8]
    requires layers_bound { layers ≤ 8 }
    requires at_bound { at ≤ 33554432 }
    requires layers_in_bounds { at + layers ≤ length w.now }
    ensures { Eight result (swept (λ u. get_or w.now (at + u) 0) layers) 0 layers }
{
    let mut c = sweep_up(w, at, layers);
    sweep_down(&mut c, layers);
    c
}

// The sum of two costs on each layer.
fn sum_of(a: &[u32; 8], b: &[u32; 8]) -> [u32; 8]
    requires small { Small a.now }
    requires small_2 { Small b.now }
    ensures { Eight result (λ l. get_or a.now l 0 + get_or b.now l 0) 0 8 }
{
    let mut c = [0u32; 8];
    for l in 0..8 {
        c[l] = a[l] + b[l];
    }
    c
}

// The costs of two things that meet at a layer of their own.
fn meet(a: &[u32; 8], b: &[u32; 8]) -> [u32; 8]
    requires small { Small a.now }
    requires small_2 { Small b.now }
    ensures { Eight result (met (λ l. get_or a.now l 0) (λ l. get_or b.now l 0) 8) 0 8 }
{
    let s = sum_of(a, b);
    sweep_costs(&s, 0, 8)
}

// The less of the costs c and the sum of two costs, on each layer.
fn least_sum(c: &[u32; 8], a: &[u32; 8], b: &[u32; 8]) -> [u32; 8]
    requires small { Small a.now }
    requires small_2 { Small b.now }
    ensures { Eight result (λ l. min (get_or c.now l 0) (get_or a.now l 0 + get_or b.now l 0)) 0 8 }
{
    let mut d = [0u32; 8];
    for l in 0..8 {
        d[l] = c[l].min(a[l] + b[l]);
    }
    d
}

// Two branches and no pin: they meet.
fn pair_costs(w: &[u32], at: usize) -> [u32; 8]
    requires at_bound { at ≤ 33554400 }
    requires at_in_bounds { at + 16 ≤ length w.now }
    ensures { Eight result (pair_met (λ u. get_or w.now (at + u) 0) (λ u. get_or w.now (at + 8 + u) 0) 8) 0 8 }
{
    let a = sweep_costs(w, at, 8);
    let b = sweep_costs(w, at + 8, 8);
    meet(&a, &b)
}

// Three branches and no pin: two of them meet, whichever they are, and then the third meets them.
fn triple_costs(w: &[u32], at: usize) -> [u32; 8]
    requires at_bound { at ≤ 33554400 }
    requires at_in_bounds { at + 24 ≤ length w.now }
    ensures { Eight result (triple_met (λ u. get_or w.now (at + u) 0) (λ u. get_or w.now (at + 8 + u) 0) (λ u. get_or w.now (at + 16 + u) 0) 8) 0 8 }
{
    let x = sweep_costs(w, at, 8);
    let y = sweep_costs(w, at + 8, 8);
    let z = sweep_costs(w, at + 16, 8);
    let yz = meet(&y, &z);
    let c = sum_of(&x, &yz);
    let xz = meet(&x, &z);
    let d = least_sum(&c, &y, &xz);
    let xy = meet(&x, &y);
    let e = least_sum(&d, &z, &xy);
    sweep_costs(&e, 0, 8)
}

// ---- the costs of a tile

// A tile without branches: its vias.
fn leaf_costs(chart: &Chart, pins: u32) -> [u32; 8]
    requires { pins < 256 }
    ensures { Eight result (λ l. span_of (with_layer pins (suc l))) 0 8 }
{
    let mut c = [0u32; 8];
    if pins == 0 {
        return c;
    }
    for l in 0..8 {
        c[l] = chart.span(sets::with_layer(pins, l + 1));
    }
    c
}

// Where the intervals of a tile with these pins may start, and where they may end.
#[derive(Clone, Copy)]
struct Bounds {
    starts: usize,
    high: usize,
}

fn pin_ends(pins: u32, layers: usize) -> Bounds
    requires le_layers { (1 ≤ layers) × (layers ≤ 8) }
    requires layer_mask { LayerMask layers pins }
    ensures { PinEnds layers pins result.starts result.high }
{
    if pins == 0 {
        return Bounds {
            starts: layers,
            high: 0,
        };
    }
    Bounds {
        starts: sets::lowest(pins) as usize + 1,
        high: sets::highest(pins) as usize,
    }
}

// One branch, and pins that are all on one layer: the branch meets them.
fn pin_costs(w: &[u32], at: usize, pins: u32, chart: &Chart) -> [u32; 8]
    requires at_bound { at ≤ 33554432 }
    requires at_in_bounds { at + 8 ≤ length w.now }
    requires pins_bound { pins < 256 }
    ensures { Eight result (met (swept (λ u. get_or w.now (at + u) 0) 8) (λ l. span_of (with_layer pins (suc l))) 8) 0 8 }
{
    let a = sweep_costs(w, at, 8);
    let p = leaf_costs(chart, pins);
    meet(&a, &p)
}

// A tile with k branches, one or more, on eight layers. For speed it stands apart from fewer layers: the numbers of its loops are known before the program runs.
fn eight_costs(w: &[u32], o: usize, first: usize, k: usize, pins: u32, chart: &Chart) -> [u32; 8]
    requires le_k { (1 ≤ k) × (k ≤ 3) }
    requires layer_mask { LayerMask 8 pins }
    requires first_bound { (first ≤ 65536) × (o ≤ 16777216) }
    requires k_in_bounds { o + 8 * (first + k) ≤ length w.now }
    ensures { TileCosts w.now o first k 8 pins result }
{
    if pins == 0 {
        if k == 1 {
            return sweep_costs(w, o + 8 * first, 8);
        }
        if k == 2 {
            return pair_costs(w, o + 8 * first);
        }
        return triple_costs(w, o + 8 * first);
    }
    let e = pin_ends(pins, 8);
    if k == 1 {
        if e.starts == e.high + 1 {
            return pin_costs(w, o + 8 * first, pins, chart);
        }
        return eight_intervals(w, o, first, 1, e.starts, e.high);
    }
    if k == 2 {
        return eight_intervals(w, o, first, 2, e.starts, e.high);
    }
    eight_intervals(w, o, first, 3, e.starts, e.high)
}

// The least cost of a tile with these branches, for each layer above it.
fn tile_costs(w: &[u32], b: Branches, layers: usize, pins: u32, chart: &Chart) -> [u32; 8]
    requires count_bound { b.count ≤ 3 }
    requires layer_mask { LayerMask layers pins }
    requires le_layers { (1 ≤ layers) × (layers ≤ 8) }
    requires first_bound { (b.first ≤ 65536) × (b.rows ≤ 16777216) }
    requires count_in_bounds { b.rows + 8 * (b.first + b.count) ≤ length w.now }
    ensures { TileCosts w.now b.rows b.first b.count layers pins result }
{
    if b.count == 0 {
        return leaf_costs(chart, pins);
    }
    if layers == 8 {
        return eight_costs(w, b.rows, b.first, b.count, pins, chart);
    }
    if pins == 0 {
        if b.count == 1 {
            return sweep_costs(w, b.rows + 8 * b.first, layers);
        }
    }
    let e = pin_ends(pins, layers);
    interval_costs(w, b, layers, e.starts, e.high)
}

// ---- rows

// The number of a row at a layer: the cost where the layer is legal.
fn legal_cost(c: &[u32; 8], legal: u32, l: usize) -> u32
    requires { l < 8 }
    ensures { result ≡ cond (eqb (legal / 2 ^ l % 2) 1) (get_or c.now l 0) illegal_cost }
{
    if (legal >> (l as u32)) % 2 == 1 {
        return c[l];
    }
    ILLEGAL
}

// Writes a row from `at` on.
fn put_row(w: &mut [u32], at: usize, c: &[u32; 8], legal: u32)
    requires at_bound { at ≤ 33554432 }
    requires at_in_bounds { at + 8 ≤ length w.old }
    ensures { RowPut w.old w.new c.now at 8 legal }
{
    for l in 0..8 {
        w[at + l] = legal_cost(c, legal, l);
    }
}

// The number at p.
pub fn at(w: &[u32], p: usize) -> usize
    requires p_bound { p ≤ 16777216 }
    requires p_in_bounds { p < length w.now }
    ensures value { result ≡ get_or w.now p 0 }
    ensures upper_bound { result < 4294967296 }
{
    w[p] as usize
}

// Writes the row of tile i, which is not the root.
fn tile_row(w: &mut [u32], m: usize, n: usize, i: usize, layers: usize, chart: &Chart)
    requires shape { Shape w.old m n layers }
    requires le_i { (1 ≤ i) × (i < n) }
    ensures { RowWritten w.old w.new (4 * m) i (first_in w.old i) (branches_in w.old i) layers (pins_in w.old m i) (legal_in w.old m i) }
{
    let first = at(w, i - 1);
    let end = at(w, i);
    let pins = at(w, m + i) as u32;
    let legal = at(w, 2 * m + i) as u32;
    let b = Branches {
        rows: 4 * m,
        first,
        count: end - first,
    };
    let c = tile_costs(w, b, layers, pins, chart);
    put_row(w, 4 * m + 8 * i, &c, legal);
}

// Writes the cost rows of the tiles n - 1 down to 1: each is taken over the rows of its branches, which stand further on.
pub fn costs(w: &mut [u32], m: usize, n: usize, layers: usize, chart: &Chart)
    requires shape { Shape w.old m n layers }
    ensures { RowsFrom w.old w.new m n layers 1 }
{
    for i in (1..n).rev() {
        tile_row(w, m, n, i, layers, chart);
    }
}

// ---- the root

// The least of a tile's costs.
fn least_cost(c: &[u32; 8], layers: usize) -> u32
    requires { layers ≤ 8 }
    ensures { result ≡ least_in illegal_cost (λ t. get_or c.now t 0) (up_from 0 layers) }
{
    let mut least = ILLEGAL;
    for l in 0..layers {
        least = c[l].min(least);
    }
    least
}

// The least cost of the root, and so of the net. No layer is above the root: it could be any.
pub fn root_least(w: &[u32], m: usize, n: usize, layers: usize, chart: &Chart) -> u32
    requires shape { Shape w.now m n layers }
    ensures { LeastCost w.now (4 * m) 1 (root_branches w.now) layers (get_or w.now m 0) result }
{
    let end = at(w, 0);
    let pins = at(w, m) as u32;
    let b = Branches {
        rows: 4 * m,
        first: 1,
        count: end - 1,
    };
    let c = tile_costs(w, b, layers, pins, chart);
    least_cost(&c, layers)
}
