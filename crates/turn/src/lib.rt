// One net of an accepted job takes its turn: it is read again and walked, its legal layers are found over the nets placed before it, its layers are
// chosen and written into its stretch of the answer list, and one more net is on these layers.
#![tactic(auto)]

ghost use Rattle.std.specs.Prelude.{true, List, ◌≡◌, ℕ, ◌*◌, ◌≤◌, length};
ghost use Rattle.engine.specs.Net.{Holds, HoldsNet, Placed};
ghost use Rattle.flat.specs.Limited.{limit_at};
ghost use Rattle.layout.specs.Areas.{chosen_at, engine_at, areas_end};
ghost use Rattle.layout.specs.Parts.{Outside};
ghost use Rattle.marks.specs.Words.{most_stamp};
ghost use Rattle.model.specs.Job.{Job, Net};
ghost use Rattle.model.specs.Limits.{most_nets};
ghost use Rattle.tracks.specs.OccupiedAll.{edges_of, layers_in};
ghost use Rattle.net.specs.Places.{SmallCapacities};
ghost use Rattle.turn.specs.Turn.{Turn, turn_net, turn_limit, turn_vias, Before, BeforeSome, TurnAt, TurnSome, NetAgain, NetWalked, WalkedSome, NetChosen, ChosenSome, NetPlaced, TurnDone};
ghost use Rattle.turn.specs.Steps.{KnownEdges, LegalPut, engine_of, put_by, ChosenCleared, KnownList, CanAnswer, listed_layers};

use flat::Limits;
use layout::Shape;
use sets::Chart;

// A net's entries stand at `pins` and `edges` of the text, and it is read under this stamp; whether some of its entries were dropped.
#[derive(Clone, Copy)]
pub struct NetAt {
    pub pins: usize,
    pub edges: usize,
    pub stamp: u32,
    pub dropped: bool,
}

// What is the same at every turn: the grid, and the limits on one layer's overflow.
#[derive(Clone, Copy)]
pub struct Frame {
    pub shape: Shape,
    pub limits: Limits,
}

// Puts the legal layers of the edge above each of n walk places but the first.
fn put_legal(w: &mut [u32], g: Shape, n: usize, limits: Limits)
    requires g_in_bounds { (areas_end g ≤ length w.old) × (1 ≤ n) × (n ≤ g.m) × ((e : ℕ) → limit_at limits e ≤ most_nets) }
    requires small_capacities { SmallCapacities g w.old × KnownEdges g n w.old }
    ensures { LegalPut g n (limit_at limits) w.old w.new }
{
    let above = layout::above_at(g);
    let masks = layout::engine_at(g) + 2 * g.m;
    for i in 1..n {
        let edge = w[above + i] as usize;
        let limit = flat::limit_at(limits, edge);
        let mask = tracks::legal(w, g, edge, limit);
        w[masks + i] = mask;
    }
}

// Chooses the layers of the net with n tiles that stands in the engine's part. Its vias.
fn place(w: &mut [u32], g: Shape, n: usize, chart: &Chart) -> u32
    requires g_in_bounds { areas_end g ≤ length w.old }
    requires holds_net { HoldsNet (engine_of g w.old) g.m n g.k }
    ensures placed { (j : Job) (net : Net) (allowed : ℕ → List ℕ) → Holds j net allowed (engine_of g w.old) g.m n g.k → Placed (λ l. l) j net allowed (engine_of g w.old) (engine_of g w.new) g.m result }
    ensures outside { Outside (engine_at g) (12 * g.m) w.old w.new }
{
    let from = layout::engine_at(g);
    let to = from + 12 * g.m;
    engine::place_layers(&mut w[from..to], g.m, n, g.k, chart)
}

// Puts the chosen layers of the edges above the walk places by edge.
fn put_chosen(w: &mut [u32], g: Shape, n: usize)
    requires g_in_bounds { (areas_end g ≤ length w.old) × (n ≤ g.m) × KnownEdges g n w.old }
    ensures { w.new ≡ put_by (chosen_at g) w.old (edges_of g n w.old) (layers_in g n w.old) }
{
    let above = layout::above_at(g);
    let layers = layout::engine_at(g) + 3 * g.m;
    let chosen = layout::chosen_at(g);
    for i in 1..n {
        let edge = w[above + i] as usize;
        let layer = w[layers + i];
        w[chosen + edge] = layer;
    }
}

// Writes the net's layers in the order of its line into its stretch of the answer list.
fn put_answer(w: &[u32], g: Shape, out: &mut [u8])
    requires g_in_bounds { (areas_end g ≤ length w.now) × (length out.old ≤ 2 * g.t) }
    requires can_answer { CanAnswer g (length out.old) w.now }
    ensures { out.new ≡ listed_layers g w.now (length out.old) }
{
    let list = layout::list_at(g);
    let chosen = layout::chosen_at(g);
    for (i, byte) in out.iter_mut().enumerate() {
        let edge = w[list + i] as usize;
        *byte = w[chosen + edge] as u8;
    }
}

// Takes away the layers that stand for the first n edges listed.
fn clear_chosen(w: &mut [u32], g: Shape, n: usize)
    requires g_in_bounds { (areas_end g ≤ length w.old) × (n ≤ 2 * g.t) × KnownList g n w.old }
    ensures { ChosenCleared g n w.old w.new }
{
    let list = layout::list_at(g);
    let chosen = layout::chosen_at(g);
    for i in 0..n {
        let edge = w[list + i] as usize;
        w[chosen + edge] = 0;
    }
}

// Reads a net again, some of whose entries were dropped: for these nothing is chosen. Its lowest tile.
fn read_cut(s: &[u8], net: NetAt, w: &mut [u32], g: Shape) -> usize
    requires g_in_bounds { (areas_end g ≤ length w.old) × (net.stamp ≤ most_stamp) }
    requires before_some { BeforeSome s.now net.pins net.edges true g net.stamp w.old }
    ensures { (u : Turn) → Before s.now net.pins net.edges true g net.stamp w.old u → NetAgain g net.stamp w.old w.new result u }
{
    let again = cut::read_net(s, net.pins, net.edges, w, g, net.stamp);
    clear_chosen(w, g, again.entries);
    again.low
}

// Reads any net again. Its lowest tile.
fn read_again(s: &[u8], net: NetAt, w: &mut [u32], g: Shape) -> usize
    requires g_in_bounds { (areas_end g ≤ length w.old) × (net.stamp ≤ most_stamp) }
    requires before_some { BeforeSome s.now net.pins net.edges net.dropped g net.stamp w.old }
    ensures { (u : Turn) → Before s.now net.pins net.edges net.dropped g net.stamp w.old u → NetAgain g net.stamp w.old w.new result u }
{
    if net.dropped {
        return read_cut(s, net, w, g);
    }
    let again = netread::read_net(s, net.pins, net.edges, w, g, net.stamp);
    again.low
}

// Reads the net again, and walks it. How many tiles it has.
fn read_and_walk(s: &[u8], net: NetAt, w: &mut [u32], g: Shape) -> usize
    requires g_in_bounds { (areas_end g ≤ length w.old) × (net.stamp ≤ most_stamp) }
    requires before_some { BeforeSome s.now net.pins net.edges net.dropped g net.stamp w.old }
    ensures net_walked { (u : Turn) → Before s.now net.pins net.edges net.dropped g net.stamp w.old u → NetWalked g net.stamp result w.new u }
    ensures w_len_unchanged { length w.new ≡ length w.old }
{
    let low = read_again(s, net, w, g);
    walk::walk(w, g, net.stamp, low)
}

// Chooses the layers of the net with n tiles that is walked. Its vias.
fn choose_layers(w: &mut [u32], g: Shape, n: usize, limits: Limits, chart: &Chart) -> u32
    requires g_in_bounds { areas_end g ≤ length w.old }
    requires walked_some { WalkedSome g n (limit_at limits) w.old }
    ensures net_chosen { (u : Turn) (stamp : ℕ) → NetWalked g stamp n w.old u → ((e : ℕ) → limit_at limits e ≡ turn_limit u e) → NetChosen g stamp n w.new u × (result ≡ turn_vias u) }
    ensures w_len_unchanged { length w.new ≡ length w.old }
{
    put_legal(w, g, n, limits);
    place(w, g, n, chart)
}

// Writes the chosen layers into the net's stretch `out` of the answer list, and puts one more net on them.
fn write_layers(w: &mut [u32], g: Shape, n: usize, out: &mut [u8])
    requires g_in_bounds { areas_end g ≤ length w.old }
    requires chosen_some { ChosenSome g n (length out.old) w.old }
    ensures net_placed { (u : Turn) (stamp : ℕ) → NetChosen g stamp n w.old u → length out.old ≡ length (turn_net u).entries → NetPlaced g stamp w.new out.new u }
    ensures w_len_unchanged { length w.new ≡ length w.old }
{
    put_chosen(w, g, n);
    put_answer(w, g, out);
    tracks::occupy_all(w, g, n);
}

// A net takes its turn. `out` is its own stretch of the answer list.
// The caller knows, in its proof, the job and the plan so far: it says once to `requires` that this is some net's turn (`TurnSome`), and once more to
// `ensures` which (`TurnAt`), and has the net's layers in `out`, its vias as the number returned, and the plan with this net in the working numbers.
pub fn take_turn(
    s: &[u8],
    net: NetAt,
    w: &mut [u32],
    frame: Frame,
    out: &mut [u8],
    chart: &Chart,
) -> u32
    requires shape_in_bounds { (areas_end frame.shape ≤ length w.old) × (net.stamp ≤ most_stamp) }
    requires turn_some { TurnSome s.now net.pins net.edges net.dropped frame.shape net.stamp (limit_at frame.limits) w.old (length out.old) }
    ensures turn_done { (u : Turn) → TurnAt s.now net.pins net.edges net.dropped frame.shape net.stamp (limit_at frame.limits) w.old (length out.old) u → TurnDone frame.shape net.stamp w.new out.new result u }
    ensures w_len_unchanged { length w.new ≡ length w.old }
{
    let g = frame.shape;
    let n = read_and_walk(s, net, w, g);
    let vias = choose_layers(w, g, n, frame.limits, chart);
    write_layers(w, g, n, out);
    vias
}
