// The layers of one net: at each tile, from the root on, the first combination of branch layers that reaches the tile's least cost. The numbers
// stand in a part w of the working numbers that has room for m tiles, 12 m numbers, as crate `costs` describes it: where the branches end (m),
// pins (m), legal layers (m), chosen layers (m), and cost rows (8 m).
#![tactic(auto)]

ghost use Rattle.std.specs.Prelude.{◌≡◌, List, ℕ, ◌+◌, ◌-◌, ◌*◌, ◌<◌, ◌≤◌, eqb, ltb, length, get_or};
ghost use Rattle.std.proofs.lemmas.List.Edits.{sets};
ghost use Rattle.model.specs.Job.{Job, Net};
ghost use Rattle.theory.specs.engine.Loops.{comb};
ghost use Rattle.sets.specs.Mask.{span_of};
ghost use Rattle.costs.specs.Rows.{illegal_cost, layers_tried, Shape, RowsFrom};
ghost use Rattle.engine.specs.Layers.{branch_cost, branch_mask, Attained, FirstCombination, FirstWritten, RootLeast, RootReady, RootChosen, TileReady, TileChosen, ChosenUpTo};
ghost use Rattle.engine.specs.Net.{Holds, HoldsNet, Placed};

use sets::Chart;

// ---- combinations: a layer for each of a tile's k branches, which lead to the tiles from `first` on. The cost rows stand from o on. Loops count
// branches and layers from 0.

// The cost of branch c on layer l, and nothing where there is no such branch.
fn branch_cost(w: &[u32], o: usize, first: usize, k: usize, c: usize, l: usize) -> u32
    requires k_bound { (k ≤ 3) × (l < 8) }
    requires first_bound { (first ≤ 65536) × (o ≤ 16777216) }
    requires k_in_bounds { o + 8 * (first + k) ≤ length w.now }
    ensures { result ≡ branch_cost w.now o first k c l }
{
    if c < k {
        return w[o + 8 * (first + c) + l];
    }
    0
}

// The tile's set with layer l of branch c.
fn branch_mask(mask: u32, k: usize, c: usize, l: usize) -> u32
    requires l_bound { l < 8 }
    requires mask_bound { mask < 256 }
    ensures value { result ≡ branch_mask mask k c l }
    ensures upper_bound { result < 256 }
{
    if c < k {
        return sets::with_layer(mask, l + 1);
    }
    mask
}

// The cost and the vias of the set make just `goal`.
fn reaches(chart: &Chart, goal: u32, cost: u32, mask: u32) -> bool
    requires { mask < 256 }
    ensures { result ≡ eqb (span_of mask + cost) goal }
{
    if goal < cost {
        return false;
    }
    chart.span(mask) == goal - cost
}

// The cost and the vias of the set are over `goal`: so is every combination that adds to them.
fn exceeds(chart: &Chart, goal: u32, cost: u32, mask: u32) -> bool
    requires { mask < 256 }
    ensures { result ≡ ltb goal (span_of mask + cost) }
{
    if goal < cost {
        return true;
    }
    goal - cost < chart.span(mask)
}

// How many layers the loop of the j-th branch tries: one without a branch has one turn.
fn layers_tried(j: usize, k: usize, layers: usize) -> usize
    requires { layers ≤ 8 }
    ensures value { result ≡ layers_tried j k layers }
    ensures upper_bound { result ≤ 8 }
{
    if j <= k {
        return layers;
    }
    1
}

// A tile whose branches are to get their layers: the tiles that they lead to begin at `first`, its pins and the layer above it are the set `base`,
// and the combination that is looked for costs `goal`.
#[derive(Clone, Copy)]
struct Tile {
    first: usize,
    base: u32,
    goal: u32,
}

#[derive(Clone, Copy)]
struct Combination {
    a: usize,
    b: usize,
    c: usize,
}

// "the first combination, in rising order, that reaches this least cost": the loops are left at the first that costs the goal. What costs more
// already with its first branches and their vias is passed over.
fn first_combination(
    w: &[u32],
    o: usize,
    t: Tile,
    k: usize,
    layers: usize,
    chart: &Chart,
) -> Combination
    requires k_bound { k ≤ 3 }
    requires base_bound { t.base < 256 }
    requires le_layers { (1 ≤ layers) × (layers ≤ 8) }
    requires first_bound { (t.first ≤ 65536) × (o ≤ 16777216) }
    requires k_in_bounds { o + 8 * (t.first + k) ≤ length w.now }
    requires attained { Attained w.now o t.first k layers t.base t.goal }
    ensures { FirstCombination w.now o t.first k layers t.base t.goal result.a result.b result.c }
{
    let n1 = layers_tried(1, k, layers);
    let n2 = layers_tried(2, k, layers);
    let n3 = layers_tried(3, k, layers);
    let mut x = 1;
    let mut y = 1;
    let mut z = 1;
    'search: for a in 0..n1 {
        let p = branch_cost(w, o, t.first, k, 0, a);
        let m1 = branch_mask(t.base, k, 0, a);
        if exceeds(chart, t.goal, p, m1) {
            continue;
        }
        for b in 0..n2 {
            let q = branch_cost(w, o, t.first, k, 1, b);
            let m2 = branch_mask(m1, k, 1, b);
            if exceeds(chart, t.goal - p, q, m2) {
                continue;
            }
            for c in 0..n3 {
                let r = branch_cost(w, o, t.first, k, 2, c);
                let m3 = branch_mask(m2, k, 2, c);
                if reaches(chart, t.goal - p - q, r, m3) {
                    x = a + 1;
                    y = b + 1;
                    z = c + 1;
                    break 'search;
                }
            }
        }
    }
    Combination { a: x, b: y, c: z }
}

// ---- the choice of layers

// Stores the layers of k branches from `at` on.
fn put_layers(w: &mut [u32], at: usize, k: usize, a: usize, b: usize, c: usize)
    requires k_bound { k ≤ 3 }
    requires a_bound { (a ≤ 8) × (b ≤ 8) × (c ≤ 8) }
    requires at_bound { at ≤ 16777216 }
    requires k_in_bounds { at + k ≤ length w.old }
    ensures { w.new ≡ sets w.old at (comb k a b c) }
{
    if k == 0 {
        return;
    }
    w[at] = a as u32;
    if k == 1 {
        return;
    }
    w[at + 1] = b as u32;
    if k == 2 {
        return;
    }
    w[at + 2] = c as u32;
}

// Chooses the layers of a tile's k branches: the first combination that costs the goal. On all eight layers the numbers of branches and layers are
// constants, so that loops without a branch fall away and the others have a known length.
fn choose_branches(w: &mut [u32], m: usize, t: Tile, k: usize, layers: usize, chart: &Chart)
    requires k_bound { k ≤ 3 }
    requires base_bound { t.base < 256 }
    requires le_layers { (1 ≤ layers) × (layers ≤ 8) }
    requires k_bound_2 { (t.first + k ≤ m) × (m ≤ 65536) }
    requires m_in_bounds { 12 * m ≤ length w.old }
    requires attained { Attained w.old (4 * m) t.first k layers t.base t.goal }
    ensures { FirstWritten w.old w.new m t.first k layers t.base t.goal }
{
    let o = 4 * m;
    let at = 3 * m + t.first;
    if layers == 8 {
        if k == 1 {
            let l = first_combination(w, o, t, 1, 8, chart);
            put_layers(w, at, 1, l.a, l.b, l.c);
            return;
        }
        if k == 2 {
            let l = first_combination(w, o, t, 2, 8, chart);
            put_layers(w, at, 2, l.a, l.b, l.c);
            return;
        }
        if k == 3 {
            let l = first_combination(w, o, t, 3, 8, chart);
            put_layers(w, at, 3, l.a, l.b, l.c);
            return;
        }
    }
    let l = first_combination(w, o, t, k, layers, chart);
    put_layers(w, at, k, l.a, l.b, l.c);
}

// Chooses the layers of the branches of tile i, which is not the root and has its own layer already.
fn choose_below(w: &mut [u32], m: usize, i: usize, layers: usize, chart: &Chart)
    requires tile_ready { TileReady w.old m i layers }
    requires m_bound { (m ≤ 65536) × (1 ≤ i) × (i < m) × (1 ≤ layers) × (layers ≤ 8) }
    requires m_in_bounds { 12 * m ≤ length w.old }
    ensures { TileChosen w.old w.new m i layers }
{
    let first = costs::at(w, i - 1);
    let end = costs::at(w, i);
    if first == end {
        return;
    }
    let l = costs::at(w, 3 * m + i);
    let goal = costs::at(w, 4 * m + 8 * i + (l - 1)) as u32;
    let base = sets::with_layer(costs::at(w, m + i) as u32, l);
    let t = Tile { first, base, goal };
    choose_branches(w, m, t, end - first, layers, chart);
}

// Chooses the layers of the root's branches. The root has no layer above it.
fn choose_root(w: &mut [u32], m: usize, layers: usize, goal: u32, chart: &Chart)
    requires root_ready { RootReady w.old m layers goal }
    requires m_bound { (m ≤ 65536) × (1 ≤ m) × (1 ≤ layers) × (layers ≤ 8) }
    requires m_in_bounds { 12 * m ≤ length w.old }
    ensures { RootChosen w.old w.new m layers goal }
{
    let end = costs::at(w, 0);
    let pins = costs::at(w, m) as u32;
    let t = Tile {
        first: 1,
        base: pins,
        goal,
    };
    choose_branches(w, m, t, end - 1, layers, chart);
}

// Chooses the layers of all edges from the cost rows, the root's branches first, and returns the least cost of the root. There must be a way:
// that cost is below the cost of an illegal layer.
pub fn choose(w: &mut [u32], m: usize, n: usize, layers: usize, chart: &Chart) -> u32
    requires shape { Shape w.old m n layers }
    requires rows_from { RowsFrom w.old w.old m n layers 1 }
    requires by_index { (v : ℕ) → RootLeast w.old m layers v → v < illegal_cost }
    ensures root_least { RootLeast w.old m layers result }
    ensures chosen_up_to { ChosenUpTo w.old w.new m n layers result n }
{
    let least = costs::root_least(w, m, n, layers, chart);
    choose_root(w, m, layers, least, chart);
    for i in 1..n {
        choose_below(w, m, i, layers, chart);
    }
    least
}

// The layers of one net. The caller knows, in its proof, the job, the net and the layers that each edge may have, and that the slice holds them
// (`Holds`): it gives that record once to `requires`, inside a `HoldsNet`, and once more to `ensures`, which answers with `Placed` for this job, net
// and layers: the layers of the choice with the fewest vias from 3m + 1 on, by edge in walk order, and these vias as the number returned.
pub fn place_layers(w: &mut [u32], m: usize, n: usize, layers: usize, chart: &Chart) -> u32
    requires { HoldsNet w.old m n layers }
    ensures { (j : Job) (net : Net) (allowed : ℕ → List ℕ) → Holds j net allowed w.old m n layers → Placed (λ l. l) j net allowed w.old w.new m result }
{
    costs::costs(w, m, n, layers, chart);
    choose(w, m, n, layers, chart)
}
