// The lines of all nets, behind the head of a job text: each net's three or four lines judged, and its row put into the net table.
#![tactic(auto)]

ghost use Rattle.std.specs.Prelude.{◌≡◌, ◌+◌, ◌*◌, ◌<◌, ◌≤◌, length, get_or, set};
ghost use Rattle.std.specs.Option.{unwrap_or};
ghost use Rattle.layout.specs.Areas.{tiles_at, chosen_at, tiles_of, links_of};
ghost use Rattle.layout.specs.Parts.{Outside};
ghost use Rattle.layout.specs.Shapes.{sizes_of};
ghost use Rattle.layout.specs.Table.{vias_column, table_size};
ghost use Rattle.lines.specs.Told.{list_in, mapped};
ghost use Rattle.marks.specs.Marks.{Older};
ghost use Rattle.marks.specs.Words.{most_stamp};
ghost use Rattle.model.specs.Limits.{most_nets};
ghost use Rattle.model.specs.Job.{Net};
ghost use Rattle.model.specs.Read.{net_line, low_line, pins_line, net_lines, nets};
ghost use Rattle.theory.specs.links.JobText.{option_lines};
ghost use Rattle.pins.specs.Pins.{pins_in, pins_told, pins_marked};
ghost use Rattle.text.specs.Refusals.{place_of};
ghost use Rattle.cut.specs.Dropped.{CutDone};
ghost use Rattle.nets.specs.Rows.{most_entries, row_put};
ghost use Rattle.nets.specs.Rings.{LinesAt, LinesCounted};
ghost use Rattle.nets.specs.Nets.{turn_told, low_at, low_told, low_holds, body_in, rest_in, NetReady, NetTold, NetsReady, NetsTold};

use edges::Edges;
use layout::{Column, Shape};
use pins::Pins;
use text::{Cursor, Fault, Refusal};

// The line `net`: "1, 2, 3 and so on". The place of the next line.
fn net_line(s: &[u8], c: Cursor, turn: usize) -> Result<Cursor, Refusal>
    requires { (c.at ≤ length s.now) × (c.line < 1048576) }
    ensures result_value { turn_told s.now result ≡ net_line turn (place_of s.now c) }
    ensures list_in { list_in (length s.now) (c.line + 1) result }
{
    let (n, d) = lines::number_line(s, c, b"net=")?;
    if n != turn {
        return Err(Refusal::Line(Fault::Turn, d.line));
    }
    Ok(d)
}

// The line `low` of a net in a job of k layers, where it stands: its lowest wanted layer, and the place of the next line.
fn low_line(s: &[u8], c: Cursor, k: usize) -> Result<(Option<u32>, Cursor), Refusal>
    requires { (c.at ≤ length s.now) × (c.line < 1048576) × (k ≤ 8) }
    ensures result_value { low_told s.now result ≡ low_line k (place_of s.now c) }
    ensures low_holds { low_holds (length s.now) c.line result }
{
    if lines::open_line(s, c, b"low=").is_err() {
        return Ok((None, c));
    }
    let (n, d) = lines::ranged(s, c, b"low=", 1, k)?;
    Ok((Some(n as u32), d))
}

// The `pins` line, its pins marked by tile.
fn net_pins(
    s: &[u8],
    c: Cursor,
    w: &mut [u32],
    g: Shape,
    stamp: u32,
) -> Result<(Pins, Cursor), Refusal>
    requires g_in_bounds { (chosen_at g ≤ length w.old) × (stamp ≤ most_stamp) × (length s.now ≤ 1048576) × (c.at ≤ length s.now) × (c.line < 1048576) }
    requires older { Older stamp (tiles_of g w.old) }
    ensures result_after { pins_told s.now (tiles_of g w.new) result ≡ mapped (pins_marked stamp (tiles_of g w.old)) (pins_line (sizes_of g) (place_of s.now c)) }
    ensures pins_in { pins_in (length s.now) (c.at + 5) (c.line + 1) result }
    ensures outside { Outside (tiles_at g) g.t w.old w.new }
{
    let from = layout::tiles_at(g);
    let to = layout::links_at(g);
    pins::pins_line(s, c, &mut w[from..to], g, stamp)
}

// A row of the net table: of net i, counted from 0, whose layers go from `first` on in the answer list.
#[derive(Clone, Copy)]
pub struct Row {
    pub i: usize,
    pub first: usize,
}

// The lowest wanted layer of net i in its row, 0 where it has none.
fn put_low(table: &mut [u32], i: usize, low: Option<u32>)
    requires { (i < most_nets) × (table_size ≤ length table.old) }
    ensures { table.new ≡ set table.old (vias_column i) (unwrap_or low 0) }
{
    table[Column::Vias.at(i)] = low.unwrap_or(0);
}

// What the `pins` and `edges` lines of a net say in its row: above 16 bits of its entries stand those that it drops.
fn put_row(table: &mut [u32], row: Row, pins: Pins, edges: Edges, dropped: usize)
    requires i_lt_most_nets { (row.i < most_nets) × (table_size ≤ length table.old) }
    requires from_bound { (pins.from ≤ 16777216) × (edges.from ≤ 16777216) × (pins.tiles ≤ 16777216) × (row.first ≤ most_entries) }
    requires entries_bound { (edges.entries < 65536) × (dropped < 65536) }
    ensures { table.new ≡ row_put table.old row.i pins.from edges.from pins.tiles row.first (edges.entries + 65536 * dropped) }
{
    let i = row.i;
    table[Column::Pins.at(i)] = pins.from as u32;
    table[Column::Edges.at(i)] = edges.from as u32;
    table[Column::Tiles.at(i)] = pins.tiles as u32;
    table[Column::First.at(i)] = row.first as u32;
    table[Column::Count.at(i)] = (edges.entries + 65536 * dropped) as u32;
}

// Cuts the rings of a net whose two lines are read, under a stamp of their own. How many of its entries it drops.
fn cut_rings(s: &[u8], w: &mut [u32], g: Shape, stamp: u32, p: Pins, e: Edges) -> usize
    requires g_in_bounds { (chosen_at g ≤ length w.old) × (stamp ≤ most_stamp) × Older stamp (tiles_of g w.old) × Older stamp (links_of g w.old) }
    requires lines_counted { LinesCounted s.now g p.from e.from e.ring w.old }
    ensures cut_done { (n : Net) → LinesAt s.now g p.from e.from e.ring n → CutDone g stamp n w.old w.new result }
    ensures w_len_unchanged { length w.new ≡ length w.old }
{
    if !e.ring {
        return 0;
    }
    cut::cut_net(s, p.from, e.from, w, g, stamp)
}

// The `pins` and `edges` lines of a net, behind its other ones, whose row has its lowest wanted layer already. The rings of its entries are cut.
fn net_body(
    s: &[u8],
    c: Cursor,
    w: &mut [u32],
    g: Shape,
    table: &mut [u32],
    row: Row,
) -> Result<(Cursor, usize), Refusal>
    requires at_in_bounds { (c.at ≤ length s.now) × (c.line < 100000) × (length s.now ≤ 1048576) }
    requires table_size_in_bounds { (table_size ≤ length table.old) × (row.first ≤ most_entries) }
    requires net_ready { NetReady g row.i w.old }
    ensures net_told { NetTold s.now g row.i row.first (λ _. c.line + 2) w.old w.new table.old table.new (body_in (sizes_of g) (low_at (get_or table.old (vias_column row.i) 0)) (place_of s.now c)) result }
    ensures w_len_unchanged { (length w.new ≡ length w.old) × (length table.new ≡ length table.old) }
{
    let stamp = (2 * row.i + 1) as u32;
    let (p, d) = net_pins(s, c, w, g, stamp)?;
    let (e, f) = edges::edges_line(s, d, w, g, stamp, p.tiles)?;
    let dropped = cut_rings(s, w, g, stamp + 1, p, e);
    put_row(table, row, p, e, dropped);
    Ok((f, e.entries))
}

// The lines of a net behind its `net` line.
fn net_rest(
    s: &[u8],
    c: Cursor,
    w: &mut [u32],
    g: Shape,
    table: &mut [u32],
    row: Row,
) -> Result<(Cursor, usize), Refusal>
    requires at_in_bounds { (c.at ≤ length s.now) × (c.line < 95000) × (length s.now ≤ 1048576) }
    requires table_size_in_bounds { (table_size ≤ length table.old) × (row.first ≤ most_entries) }
    requires net_ready { NetReady g row.i w.old }
    ensures net_told { NetTold s.now g row.i row.first (λ n. c.line + 2 + option_lines n.low) w.old w.new table.old table.new (rest_in (sizes_of g) (place_of s.now c)) result }
    ensures w_len_unchanged { (length w.new ≡ length w.old) × (length table.new ≡ length table.old) }
{
    let (low, d) = low_line(s, c, g.k)?;
    put_low(table, row.i, low);
    net_body(s, d, w, g, table, row)
}

// The lines of a net: the place after them, and the entries of its `edges` line.
fn read_net(
    s: &[u8],
    c: Cursor,
    w: &mut [u32],
    g: Shape,
    table: &mut [u32],
    row: Row,
) -> Result<(Cursor, usize), Refusal>
    requires at_in_bounds { (c.at ≤ length s.now) × (c.line < 90000) × (length s.now ≤ 1048576) }
    requires table_size_in_bounds { (table_size ≤ length table.old) × (row.first ≤ most_entries) }
    requires net_ready { NetReady g row.i w.old }
    ensures net_told { NetTold s.now g row.i row.first (λ n. c.line + 3 + option_lines n.low) w.old w.new table.old table.new (net_lines (sizes_of g) (row.i + 1) (place_of s.now c)) result }
    ensures w_len_unchanged { (length w.new ≡ length w.old) × (length table.new ≡ length table.old) }
{
    let d = net_line(s, c, row.i + 1)?;
    net_rest(s, d, w, g, table, row)
}

// The lines of all n nets: the place after them, and the entries of all `edges` lines.
pub fn read_nets(
    s: &[u8],
    from: Cursor,
    w: &mut [u32],
    g: Shape,
    table: &mut [u32],
    n: usize,
) -> Result<(Cursor, usize), Refusal>
    requires at_in_bounds { (from.at ≤ length s.now) × (from.line < 1000) × (length s.now ≤ 1048576) × (n ≤ most_nets) }
    requires nets_ready { NetsReady g w.old table.old }
    ensures nets_told { NetsTold s.now g n from.line w.old w.new table.new (nets (sizes_of g) 1 n (place_of s.now from)) result }
    ensures w_len_unchanged { (length w.new ≡ length w.old) × (length table.new ≡ length table.old) }
{
    let mut c = from;
    let mut entries = 0;
    for i in 0..n {
        let row = Row { i, first: entries };
        let (d, count) = read_net(s, c, w, g, table, row)?;
        c = d;
        entries += count;
    }
    Ok((c, entries))
}
