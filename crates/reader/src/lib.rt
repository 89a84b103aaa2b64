// The whole job text read once: a job or its one refusal. An accepted job leaves its capacities and flat demand in the working numbers, and the net table
// has where each net's lines stand.
#![tactic(auto)]

ghost use Rattle.std.specs.Prelude.{◌≡◌, ◌+◌, ◌*◌, ◌<◌, ◌≤◌, length};
ghost use Rattle.layout.specs.Areas.{chosen_at};
ghost use Rattle.layout.specs.Table.{table_size};
ghost use Rattle.model.specs.Limits.{most_nets};
ghost use Rattle.model.specs.Read.{nets, print_need, print_fits};
ghost use Rattle.text.specs.Refusals.{place_of};
ghost use Rattle.nets.specs.Nets.{turn_told, CountsCleared, NetsReady};
ghost use Rattle.nets.specs.Rows.{most_entries};
ghost use Rattle.reader.specs.Whole.{print_lent, lent_by, end_in, RestTold, HeadTold, JobTold};

use head::Head;
use layout::Shape;
use text::{Cursor, Fault, Refusal};

// What is lent beside the working numbers: the lengths of the order list, of the answer list and of the print buffer, which Plan has not.
#[derive(Clone, Copy)]
pub struct Lists {
    pub order: usize,
    pub answer: usize,
    pub print: Option<usize>,
}

// Whether the print of n nets with so many entries on their `edges` lines fits: "256 + 64 × N + 2 × A bytes".
fn print_fits(n: usize, entries: usize, print: Option<usize>) -> bool
    requires { (n ≤ most_nets) × (entries ≤ most_entries) }
    ensures { result ≡ print_fits (print_need n entries) (print_lent print) }
{
    match print {
        None => true,
        Some(m) => 256 + 64 * n + 2 * entries <= m,
    }
}

// The end of the text, and whether what is lent is long enough.
fn read_end(s: &[u8], c: Cursor, n: usize, entries: usize, lists: Lists) -> Result<Cursor, Refusal>
    requires { (c.at ≤ length s.now) × (c.line < 1048576) × (n ≤ most_nets) × (entries ≤ most_entries) }
    ensures { turn_told s.now result ≡ end_in n entries lists.answer (print_lent lists.print) (place_of s.now c) }
{
    if c.at < s.len() {
        return Err(Refusal::Line(Fault::Form, c.line + 1));
    }
    if lists.answer < entries {
        return Err(Refusal::Short(c.line));
    }
    if !print_fits(n, entries, lists.print) {
        return Err(Refusal::Short(c.line));
    }
    Ok(c)
}

// The nets behind the head, and the end of the text.
fn read_rest(
    s: &[u8],
    h: Head,
    c: Cursor,
    w: &mut [u32],
    table: &mut [u32],
    lists: Lists,
) -> Result<Head, Refusal>
    requires at_in_bounds { (c.at ≤ length s.now) × (c.line < 1000) × (length s.now ≤ 1048576) × (h.nets ≤ most_nets) }
    requires nets_ready { NetsReady h.shape w.old table.old }
    ensures rest_told { RestTold s.now h lists.answer lists.print (place_of s.now c) w.old w.new table.new result }
    ensures w_len_unchanged { (length w.new ≡ length w.old) × (length table.new ≡ length table.old) }
{
    let (d, entries) = nets::read_nets(s, c, w, h.shape, table, h.nets)?;
    read_end(s, d, h.nets, entries, lists)?;
    Ok(h)
}

// Zeroes what the nets are counted and marked in: the nets on each layer, d(e), and what is kept by tile.
fn clear_counts(w: &mut [u32], g: Shape)
    requires g_in_bounds { chosen_at g ≤ length w.old }
    ensures { CountsCleared g w.old w.new }
{
    layout::clear_part(w, layout::loads_at(g), layout::flat_at(g));
    layout::clear_part(w, layout::tiles_at(g), layout::chosen_at(g));
}

// The head of the text s, and the working numbers made ready for its nets; they may hold anything before. `order` is the length of the lent order list. Never put
// into its caller: compiled code would hold the head's numbers through the loops over the nets (docs/DECISIONS.md).
#[inline(never)]
pub fn open_head(s: &[u8], w: &mut [u32], order: usize) -> Result<(Head, Cursor), Refusal>
    ensures head_told { HeadTold s.now (length w.old) order w.new result }
    ensures w_len_unchanged { length w.new ≡ length w.old }
{
    let (h, c) = head::read_head(s, w, order)?;
    clear_counts(w, h.shape);
    Ok((h, c))
}

// The whole text s, whose head is read: of an accepted job, what its head says. The head is not read here, where compiled code would hold its numbers
// through the loops over the nets. After a refusal the working numbers and the net table may hold anything.
pub fn read_job(
    s: &[u8],
    w: &mut [u32],
    table: &mut [u32],
    head: Result<(Head, Cursor), Refusal>,
    lists: Lists,
) -> Result<Head, Refusal>
    requires head_told { HeadTold s.now (length w.old) lists.order w.old head }
    requires table_size_in_bounds { table_size ≤ length table.old }
    ensures job_told { JobTold s.now (lent_by (length w.old) lists.order lists.answer lists.print) w.new table.new result }
    ensures w_len_unchanged { (length w.new ≡ length w.old) × (length table.new ≡ length table.old) }
{
    let (h, c) = head?;
    read_rest(s, h, c, w, table, lists)
}
