// The nets of an accepted job in placing order, each in its turn. Its layers go into its own stretch of the answer list, and its vias into the net table.
#![tactic(auto)]

ghost use Rattle.std.specs.Prelude.{◌≡◌, ℕ, ◌*◌, ◌<◌, ◌≤◌, length, set};
ghost use Rattle.flat.specs.Limited.{limit_at};
ghost use Rattle.layout.specs.Areas.{areas_end};
ghost use Rattle.layout.specs.Table.{vias_column, table_size};
ghost use Rattle.marks.specs.Words.{most_stamp};
ghost use Rattle.model.specs.Job.{Job};
ghost use Rattle.model.specs.Limits.{most_nets};
ghost use Rattle.model.specs.Read.{Lent};
ghost use Rattle.turn.specs.Turn.{Turn};
ghost use Rattle.placing.specs.Turns.{row_of, RowTurn, RowTurnSome, RowDone, Start, StartSome, AllPlaced};

use layout::Column;
use sets::Chart;
use turn::{Frame, NetAt};

// Of a net: where its entries stand in the text, where its layers begin in the answer list, how many they are, and whether some of them were dropped.
#[derive(Clone, Copy)]
pub struct NetRow {
    pub pins: usize,
    pub edges: usize,
    pub first: usize,
    pub count: usize,
    pub dropped: bool,
}

// The row of net i, counted from 0.
fn row_of(table: &[u32], i: usize) -> NetRow
    requires { (i < most_nets) × (table_size ≤ length table.now) }
    ensures value { result ≡ row_of table.now i }
    ensures first_bound { (result.first < 4294967296) × (result.count < 4294967296) }
{
    NetRow {
        pins: table[Column::Pins.at(i)] as usize,
        edges: table[Column::Edges.at(i)] as usize,
        first: table[Column::First.at(i)] as usize,
        count: layout::entries_in(table, i),
        dropped: 0 < layout::dropped_in(table, i),
    }
}

// The turn of a net, counted from 0, and the stamp under which it is read.
#[derive(Clone, Copy)]
pub struct NetTurn {
    pub frame: Frame,
    pub net: usize,
    pub stamp: u32,
}

// A net's turn. Its vias.
fn turn_of(
    s: &[u8],
    w: &mut [u32],
    table: &mut [u32],
    answer: &mut [u8],
    chart: &Chart,
    turn: NetTurn,
) -> u32
    requires shape_in_bounds { (areas_end turn.frame.shape ≤ length w.old) × (turn.stamp ≤ most_stamp) × (turn.net < most_nets) × (table_size ≤ length table.old) }
    requires row_turn_some { RowTurnSome s.now turn.frame.shape turn.stamp (limit_at turn.frame.limits) w.old table.old (length answer.old) turn.net }
    ensures row_done { (u : Turn) → RowTurn s.now turn.frame.shape turn.stamp (limit_at turn.frame.limits) w.old table.old (length answer.old) turn.net u → RowDone turn.frame.shape turn.stamp w.new answer.old answer.new turn.net result u }
    ensures table_after { table.new ≡ set table.old (vias_column turn.net) result }
    ensures w_len_unchanged { (length w.new ≡ length w.old) × (length answer.new ≡ length answer.old) }
{
    let row = row_of(table, turn.net);
    let from = row.first;
    let to = row.first + row.count;
    let net = NetAt {
        pins: row.pins,
        edges: row.edges,
        stamp: turn.stamp,
        dropped: row.dropped,
    };
    let vias = turn::take_turn(s, net, w, turn.frame, &mut answer[from..to], chart);
    table[Column::Vias.at(turn.net)] = vias;
    vias
}

// What is to be placed: how many nets, and what is the same at every turn.
#[derive(Clone, Copy)]
pub struct ToPlace {
    pub frame: Frame,
    pub nets: usize,
}

// All nets, in the order that the net table has. The vias of the plan.
pub fn place_all(
    s: &[u8],
    w: &mut [u32],
    table: &mut [u32],
    answer: &mut [u8],
    chart: &Chart,
    job: ToPlace,
) -> u64
    requires shape_in_bounds { (areas_end job.frame.shape ≤ length w.old) × (job.nets ≤ most_nets) × (table_size ≤ length table.old) }
    requires start_some { StartSome s.now job.frame.shape job.nets (limit_at job.frame.limits) w.old table.old (length answer.old) }
    ensures all_placed { (lent : Lent) (j : Job) → Start s.now job.frame.shape job.nets (limit_at job.frame.limits) w.old table.old (length answer.old) lent j → AllPlaced j answer.old answer.new table.new result }
    ensures w_len_unchanged { (length w.new ≡ length w.old) × (length table.new ≡ length table.old) × (length answer.new ≡ length answer.old) }
{
    let frame = job.frame;
    let mut vias = 0u64;
    for k in 0..job.nets {
        let i = table[Column::Turn.at(k)] as usize - 1;
        let turn = NetTurn {
            frame,
            net: i,
            stamp: (4 * job.nets + 1 + k) as u32,
        };
        vias += turn_of(s, w, table, answer, chart, turn) as u64;
    }
    vias
}
