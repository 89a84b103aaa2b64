// The printed plan, or a refusal's line, written into a lent buffer.
#![tactic(auto)]

ghost use Rattle.std.specs.Prelude.{[], ◌∷◌, ◌≡◌, ◌+◌, ◌*◌, ◌≤◌, ◌<◌, length, get_or};
ghost use Rattle.std.proofs.lemmas.List.Edits.{sets};
ghost use Rattle.layout.specs.Table.{turn_column, first_column, vias_column, net_columns};
ghost use Rattle.model.specs.Calls.{refusal};
ghost use Rattle.model.specs.Limits.{most_nets};
ghost use Rattle.model.specs.Print.{print_line, print_net};
ghost use Rattle.model.specs.Program.{written};
ghost use Rattle.model.specs.Text.{decimal, decimals};
ghost use Rattle.print.specs.Texts.{row_text, nets_text, turns_of, totals_text, lines_text, ldof_text, plan_text, RowInside, Rows};
ghost use Rattle.put.specs.Wrote.{Wrote, Room};

use layout::Column;
use put::Writer;

// ---- the nets in placing order

// The net whose turn is k, counted from 0, as the net table has it.
fn turn_of(table: &[u32], k: usize) -> u32
    requires { (k < most_nets) × (turn_column k < length table.now) }
    ensures { result ≡ get_or table.now (turn_column k) 0 }
{
    table[Column::Turn.at(k)]
}

// The nets of n turns.
fn put_turns(w: &mut Writer<'_>, table: &[u32], n: usize)
    requires n_le_most_nets { (n ≤ most_nets) × (net_columns * n ≤ length table.now) }
    requires n_in_bounds { Room w.old (decimals (turns_of table.now n)) }
    ensures { Wrote w.old (decimals (turns_of table.now n)) w.new }
{
    if n == 0 {
        return;
    }
    w.number(turn_of(table, 0) as u64);
    for k in 1..n {
        w.next_number(turn_of(table, k) as u64);
    }
}

// The line `order`.
fn put_order(w: &mut Writer<'_>, table: &[u32], n: usize)
    requires n_le_most_nets { (n ≤ most_nets) × (net_columns * n ≤ length table.now) }
    requires n_in_bounds { Room w.old (print_line "order" (turns_of table.now n)) }
    ensures { Wrote w.old (print_line "order" (turns_of table.now n)) w.new }
{
    w.text(b"order=");
    put_turns(w, table, n);
    w.byte(b'\n')
}

// ---- one net

// The line `layers`.
fn put_layers(w: &mut Writer<'_>, layers: &[u8])
    requires { Room w.old (print_line "layers" layers.now) }
    ensures { Wrote w.old (print_line "layers" layers.now) w.new }
{
    w.text(b"layers=");
    w.bytes(layers);
    w.byte(b'\n')
}

// The three lines of net i.
fn put_net(w: &mut Writer<'_>, i: usize, vias: u32, layers: &[u8])
    requires { Room w.old (print_net i vias layers.now) }
    ensures { Wrote w.old (print_net i vias layers.now) w.new }
{
    w.line(b"net=", i as u64);
    w.line(b"vias=", vias as u64);
    put_layers(w, layers)
}

// ---- the nets, as the net table has them

// Of the net at place i of the table, counted from 0: where its layers begin in the answer list, and its vias.
fn first_of(table: &[u32], i: usize) -> u32
    requires { (i < most_nets) × (first_column i < length table.now) }
    ensures { result ≡ get_or table.now (first_column i) 0 }
{
    table[Column::First.at(i)]
}

fn vias_of(table: &[u32], i: usize) -> u32
    requires { (i < most_nets) × (vias_column i < length table.now) }
    ensures { result ≡ get_or table.now (vias_column i) 0 }
{
    table[Column::Vias.at(i)]
}

// Its lines: it has the number i + 1.
fn put_row(w: &mut Writer<'_>, i: usize, table: &[u32], answer: &[u8])
    requires row_inside { RowInside table.now answer.now i }
    requires i_in_bounds { Room w.old (row_text table.now answer.now i) }
    ensures { Wrote w.old (row_text table.now answer.now i) w.new }
{
    let first = first_of(table, i) as usize;
    let count = layout::entries_in(table, i);
    let vias = vias_of(table, i);
    put_net(w, i + 1, vias, &answer[first..first + count])
}

// The lines of all n nets.
fn put_nets(w: &mut Writer<'_>, n: usize, table: &[u32], answer: &[u8])
    requires rows { Rows n table.now answer.now }
    requires n_in_bounds { Room w.old (nets_text table.now answer.now 0 n) }
    ensures { Wrote w.old (nets_text table.now answer.now 0 n) w.new }
{
    for i in 0..n {
        put_row(w, i, table, answer);
    }
}

// ---- the whole print

fn put_totals(w: &mut Writer<'_>, vias: u64, total: u64, most: u64)
    requires { Room w.old (totals_text vias total most) }
    ensures { Wrote w.old (totals_text vias total most) w.new }
{
    w.line(b"total_vias=", vias);
    w.line(b"total_overflow=", total);
    w.line(b"max_overflow=", most)
}

// "printed as a last line `ldof`, in jobs that have a `low` line"
fn put_ldof(w: &mut Writer<'_>, last: Option<u64>)
    requires { Room w.old (ldof_text last) }
    ensures { Wrote w.old (ldof_text last) w.new }
{
    if let Some(v) = last {
        w.line(b"ldof=", v);
    }
}

// The numbers of a plan: how many nets it has, its totals, and the number of the last line, in jobs that have it.
#[derive(Clone, Copy)]
pub struct Counts {
    pub nets: usize,
    pub vias: u64,
    pub total: u64,
    pub most: u64,
    pub last: Option<u64>,
}

// The lines of every plan: the net table has a row for each net, and in them the nets in placing order.
fn put_lines(w: &mut Writer<'_>, table: &[u32], answer: &[u8], p: Counts)
    requires rows { Rows p.nets table.now answer.now }
    requires most_in_bounds { Room w.old (lines_text p.nets table.now answer.now p.vias p.total p.most) }
    ensures { Wrote w.old (lines_text p.nets table.now answer.now p.vias p.total p.most) w.new }
{
    put_order(w, table, p.nets);
    put_nets(w, p.nets, table, answer);
    put_totals(w, p.vias, p.total, p.most)
}

// The printed plan from place 0 on.
pub fn put_plan(b: &mut [u8], table: &[u32], answer: &[u8], p: Counts) -> usize
    requires rows { Rows p.nets table.now answer.now }
    requires last_in_bounds { length (plan_text p.nets table.now answer.now p.vias p.total p.most p.last) ≤ length b.old }
    ensures b_after { b.new ≡ sets b.old 0 (plan_text p.nets table.now answer.now p.vias p.total p.most p.last) }
    ensures value { result ≡ length (plan_text p.nets table.now answer.now p.vias p.total p.most p.last) }
{
    let mut w = Writer::new(b);
    put_lines(&mut w, table, answer, p);
    put_ldof(&mut w, p.last);
    w.at
}

// "or `refused=number,line`"
pub fn put_refusal(b: &mut [u8], number: usize, line: usize) -> usize
    requires { length (written (refusal number line)) ≤ length b.old }
    ensures b_after { b.new ≡ sets b.old 0 (written (refusal number line)) }
    ensures value { result ≡ length (written (refusal number line)) }
{
    let mut w = Writer::new(b);
    w.text(b"refused=");
    w.number(number as u64);
    w.next_number(line as u64);
    w.byte(b'\n');
    w.at
}
