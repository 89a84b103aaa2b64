// Layer directives: over all edges, how many nets must go without a track on a layer that they want. The nets are counted by edge and wanted layer where the
// loads of the placing will stand, which are still zero and are zeroed again.
#![tactic(auto)]

ghost use Rattle.std.specs.Prelude.{true, false, List, [], ◌∷◌, ◌++◌, ◌≡◌, ℕ, suc, ◌+◌, ◌*◌, ◌<◌, ◌≤◌, length, get_or};
ghost use Rattle.cut.specs.Again.{KeptAt};
ghost use Rattle.layout.specs.Areas.{demand_at, chosen_at};
ghost use Rattle.layout.specs.Table.{dropped_in, low_in, table_size};
ghost use Rattle.marks.specs.Words.{most_stamp};
ghost use Rattle.model.specs.Job.{Net, Job, net_count, net_of};
ghost use Rattle.model.specs.Limits.{most_nets};
ghost use Rattle.model.specs.Lists.{up_from, sum};
ghost use Rattle.model.specs.Print.{ldof_line};
ghost use Rattle.model.specs.Read.{Lent, edge_inside};
ghost use Rattle.net.specs.Dropped.{Unmarked, Remarked};
ghost use Rattle.net.specs.Left.{EdgesThere};
ghost use Rattle.net.specs.SoFar.{Capacities};
ghost use Rattle.net.specs.Table.{EdgesAt};
ghost use Rattle.print.specs.Texts.{ldof_text};
ghost use Rattle.scan.specs.Pins.{triple};
ghost use Rattle.ways.specs.Entry.{edge_of};
ghost use Rattle.directives.specs.Counts.{cell, one_more, marked, marked_net, marked_nets, excess_in, any_low, Few, SmallRooms};
ghost use Rattle.directives.specs.Asked.{Asked, AskedSome, SomeNet};
ghost use Rattle.directives.specs.Counting.{KeptCounted};

use layout::{Column, Shape};
use text::Entry;

// ---- the nets that want a layer of an edge

// One more net that wants layer `low`, from 2 on, of an edge.
fn count_edge(w: &mut [u32], g: Shape, low: usize, edge: usize)
    requires edge_lt_e { (edge < g.e) × (1 ≤ low) × (low ≤ g.k) × (demand_at g ≤ length w.old) × (get_or w.old (cell g edge low) 0 < most_nets) }
    ensures { w.new ≡ one_more g low edge w.old }
{
    let at = layout::loads_at(g) + (layout::edge_at(g, edge) + (low - 1));
    w[at] = w[at] + 1;
}

// The same for the edge that an entry inside the grid names.
fn count_entry(w: &mut [u32], g: Shape, low: usize, x: usize, y: usize, d: usize)
    requires le_low { (1 ≤ low) × (low ≤ g.k) × (demand_at g ≤ length w.old) × (d ≤ 1) × (edge_inside g.w g.h (triple x y d) ≡ true) }
    requires low_bound { get_or w.old (cell g (edge_of g (triple x y d)) low) 0 < most_nets }
    ensures { w.new ≡ one_more g low (edge_of g (triple x y d)) w.old }
{
    let edge = ways::edge_of(g, x, y, d);
    count_edge(w, g, low, edge);
}

// One more net that wants layer `low`, whose entries stand at `at`, one or more, and are all its edges.
fn count_entries(s: &[u8], at: usize, w: &mut [u32], g: Shape, low: usize)
    requires le_low { (1 ≤ low) × (low ≤ g.k) × (demand_at g ≤ length w.old) × Few g low w.old }
    requires edges_there { EdgesThere s.now g at × (get_or s.now at 0 ≡ 10 → ⊥) }
    ensures w_after { (n : Net) → EdgesAt s.now g.w g.h at n → w.new ≡ marked g low n.entries w.old }
    ensures w_len_unchanged { length w.new ≡ length w.old }
{
    for e in known::edges_from(s, at) {
        count_entry(w, g, low, e.x, e.y, e.third);
    }
}

// The same of a line that may be empty.
fn count_line(s: &[u8], at: usize, w: &mut [u32], g: Shape, low: usize)
    requires le_low { (1 ≤ low) × (low ≤ g.k) × (demand_at g ≤ length w.old) × Few g low w.old }
    requires edges_there { EdgesThere s.now g at }
    ensures w_after { (n : Net) → EdgesAt s.now g.w g.h at n → w.new ≡ marked g low n.entries w.old }
    ensures w_len_unchanged { length w.new ≡ length w.old }
{
    if s[at] != b'\n' {
        count_entries(s, at, w, g, low);
    }
}

// One more net on the edge of an entry inside the grid, if it is marked under the stamp.
fn count_if_kept(w: &mut [u32], g: Shape, low: usize, stamp: u32, e: Entry)
    requires le_low { (1 ≤ low) × (low ≤ g.k) × (chosen_at g ≤ length w.old) × (e.third ≤ 1) × (edge_inside g.w g.h (triple e.x e.y e.third) ≡ true) }
    requires low_bound { get_or w.old (cell g (edge_of g (triple e.x e.y e.third)) low) 0 < most_nets }
    ensures by_index { (w₀ xs : List ℕ) → KeptCounted g low stamp w₀ xs w.old → KeptCounted g low stamp w₀ (xs ++ (edge_of g (triple e.x e.y e.third) ∷ [])) w.new }
    ensures w_len_unchanged { length w.new ≡ length w.old }
{
    if cut::keeps(w, g, stamp, e) {
        count_entry(w, g, low, e.x, e.y, e.third);
    }
}

// One more net that wants layer `low`, whose entries stand at `at`, one or more, and whose edges are marked under the stamp.
fn count_kept(s: &[u8], at: usize, w: &mut [u32], g: Shape, low: usize, stamp: u32)
    requires le_low { (1 ≤ low) × (low ≤ g.k) × (chosen_at g ≤ length w.old) × Few g low w.old }
    requires edges_there { EdgesThere s.now g at × (get_or s.now at 0 ≡ 10 → ⊥) }
    ensures w_after { (n : Net) → KeptAt s.now g at stamp w.old n → w.new ≡ marked g low n.edges w.old }
    ensures w_len_unchanged { length w.new ≡ length w.old }
{
    for e in known::edges_from(s, at) {
        count_if_kept(w, g, low, stamp, e);
    }
}

// Net i, counted from 0, which wants a layer above 1 and has dropped entries: its edges are marked again.
fn count_cut(s: &[u8], w: &mut [u32], g: Shape, table: &[u32], i: usize, stamp: u32)
    requires g_in_bounds { (chosen_at g ≤ length w.old) × (stamp ≤ most_stamp) × Unmarked g stamp w.old }
    requires some_net { SomeNet s.now g w.old table.now i × (0 < dropped_in table.now i) × (1 < low_in table.now i) }
    ensures remarked { (lent : Lent) (j : Job) → Asked s.now g table.now lent j → i < net_count j → Remarked g (stamp + 1) (marked_net g (net_of j (suc i)) w.old) w.new }
    ensures w_len_unchanged { length w.new ≡ length w.old }
{
    let low = layout::low_in(table, i) as usize;
    let pins = table[Column::Pins.at(i)] as usize;
    let edges = table[Column::Edges.at(i)] as usize;
    cut::mark_net(s, pins, edges, w, g, stamp);
    count_kept(s, edges, w, g, low, stamp);
}

// Net i, counted from 0: it counts where it wants a layer above 1. `stamp` is that of net 0.
fn count_net(s: &[u8], w: &mut [u32], g: Shape, table: &[u32], i: usize, stamp: u32)
    requires g_in_bounds { (chosen_at g ≤ length w.old) × (stamp + i ≤ most_stamp) × Unmarked g (stamp + i) w.old }
    requires some_net { SomeNet s.now g w.old table.now i }
    ensures remarked { (lent : Lent) (j : Job) → Asked s.now g table.now lent j → i < net_count j → Remarked g (stamp + i + 1) (marked_net g (net_of j (suc i)) w.old) w.new }
    ensures w_len_unchanged { length w.new ≡ length w.old }
{
    let low = layout::low_in(table, i) as usize;
    if 1 < low {
        if 0 < layout::dropped_in(table, i) {
            count_cut(s, w, g, table, i, stamp + i as u32);
            return;
        }
        let at = table[Column::Edges.at(i)] as usize;
        count_line(s, at, w, g, low);
    }
}

// All n nets.
fn count_nets(s: &[u8], w: &mut [u32], g: Shape, table: &[u32], n: usize)
    requires g_in_bounds { (chosen_at g ≤ length w.old) × Unmarked g (suc (3 * n)) w.old }
    requires asked_some { AskedSome s.now g w.old table.now n }
    ensures remarked { (lent : Lent) (j : Job) → Asked s.now g table.now lent j → n ≡ net_count j → Remarked g (suc (4 * n)) (marked_nets g j.nets w.old) w.new }
    ensures w_len_unchanged { length w.new ≡ length w.old }
{
    for i in 0..n {
        count_net(s, w, g, table, i, (3 * n + 1) as u32);
    }
}

// ---- what finds no track

// The excess of one edge, summed from the top layer down to layer 2: `room` are the tracks so far, and `served` the nets that find one there.
fn edge_excess(w: &[u32], g: Shape, edge: usize) -> u32
    requires edge_lt_e { (edge < g.e) × (demand_at g ≤ length w.now) × SmallRooms g w.now edge }
    ensures value { result ≡ excess_in g w.now edge }
    ensures upper_bound { result ≤ 8 * most_nets }
{
    let caps = layout::edge_at(g, edge);
    let needs = layout::loads_at(g) + caps;
    let mut room = 0u32;
    let mut served = 0u32;
    let mut excess = 0u32;
    for t in (1..g.k).rev() {
        room += w[caps + t];
        let demand = w[needs + t] + served;
        // "The excess of demand over capacity, or 0"
        excess += demand.saturating_sub(room);
        served = demand.min(room);
    }
    excess
}

// "summed over t and edges"
fn sum_excess(w: &[u32], g: Shape) -> u64
    requires g_in_bounds { (demand_at g ≤ length w.now) × ((e : ℕ) → e < g.e → SmallRooms g w.now e) }
    ensures { result ≡ sum (excess_in g w.now) (up_from 0 g.e) }
{
    let mut total = 0u64;
    for e in 0..g.e {
        total += edge_excess(w, g, e) as u64;
    }
    total
}

// ---- the printed sum

// Whether some of n nets has a line `low`.
fn any_low(table: &[u32], n: usize) -> bool
    requires { (n ≤ most_nets) × (table_size ≤ length table.now) }
    ensures { result ≡ any_low table.now n }
{
    for i in 0..n {
        if 0 < layout::low_in(table, i) {
            return true;
        }
    }
    false
}

// The number of the line `ldof`, where it is printed, for a job whose n nets are scored and not yet placed.
pub fn ldof_of(s: &[u8], w: &mut [u32], g: Shape, table: &[u32], n: usize) -> Option<u64>
    requires g_in_bounds { (chosen_at g ≤ length w.old) × Unmarked g (suc (3 * n)) w.old }
    requires asked_some { AskedSome s.now g w.old table.now n }
    ensures result_value { (lent : Lent) (j : Job) → Asked s.now g table.now lent j → Capacities g j w.old → n ≡ net_count j → ldof_text result ≡ ldof_line j }
    ensures remarked { Remarked g (suc (4 * n)) w.old w.new }
{
    if !any_low(table, n) {
        return None;
    }
    count_nets(s, w, g, table, n);
    let sum = sum_excess(w, g);
    layout::clear_part(w, layout::loads_at(g), layout::demand_at(g));
    Some(sum)
}
