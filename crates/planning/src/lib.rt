// A call but for its order list: a job text is read and its nets are scored; then, in the order that the net table has, they are placed, and the plan is printed. The
// working numbers are zero after every call.
#![tactic(auto)]

ghost use Rattle.std.specs.Prelude.{◌≡◌, ℕ, suc, ◌*◌, ◌≤◌, length, replicate, Ok};
ghost use Rattle.layout.specs.Table.{table_size};
ghost use Rattle.model.specs.Job.{Job};
ghost use Rattle.model.specs.Limits.{most_nets};
ghost use Rattle.model.specs.Read.{Lent};
ghost use Rattle.reader.specs.Whole.{lent_by, HeadTold};
ghost use Rattle.planning.specs.Opening.{OpenTold, nets_of};
ghost use Rattle.planning.specs.Closing.{Turned, TurnedSome, ToClose, PrintSome, ToPrint, PlanMade, PlanClosed, PrintDone, PrintClosed};

use head::Head;
use order::Weights;
use placing::ToPlace;
use print::Counts;
use reader::Lists;
use sets::Chart;
use text::{Cursor, Refusal};
use turn::Frame;

// Total vias, total and maximum of the plan.
#[derive(Clone, Copy)]
pub struct Totals {
    pub vias: u64,
    pub total: u64,
    pub maximum: u64,
}

// ---- before the order list stands

// The weights of a job, and the first stamp that its scoring has: two to each net are those of the reading.
fn weights_of(h: Head) -> Weights
    requires { h.nets ≤ most_nets }
    ensures { (result.alpha ≡ h.weights.alpha) × (result.beta ≡ h.weights.beta) × (result.gamma ≡ h.weights.gamma) × (result.stamp ≡ suc (2 * h.nets)) }
{
    Weights {
        alpha: h.weights.alpha as u64,
        beta: h.weights.beta as u64,
        gamma: h.weights.gamma as u64,
        stamp: (2 * h.nets + 1) as u32,
    }
}

// Reads the text behind its head, and scores the nets of its job.
fn open_job(
    s: &[u8],
    w: &mut [u32],
    table: &mut [u32],
    head: Result<(Head, Cursor), Refusal>,
    lists: Lists,
) -> Result<Head, Refusal>
    requires head_told { HeadTold s.now (length w.old) lists.order w.old head }
    requires table_size_in_bounds { table_size ≤ length table.old }
    ensures { OpenTold s.now (lent_by (length w.old) lists.order lists.answer lists.print) w.new table.new result }
{
    let h = reader::read_job(s, w, table, head, lists)?;
    flat::flat_capacities(w, h.shape);
    order::score_nets(s, w, h.shape, weights_of(h), table, h.nets);
    Ok(h)
}

// The text read, and the nets of its job scored: what the head of the job says, or the refusal of the text.
pub fn open(s: &[u8], w: &mut [u32], table: &mut [u32], lists: Lists) -> Result<Head, Refusal>
    requires { table_size ≤ length table.old }
    ensures { OpenTold s.now (lent_by (length w.old) lists.order lists.answer lists.print) w.new table.new result }
{
    let head = reader::open_head(s, w, lists.order);
    open_job(s, w, table, head, lists)
}

// How many entries of the order list there are to write.
pub fn nets_of(o: Result<Head, Refusal>) -> usize
    ensures { result ≡ nets_of o }
{
    o.map_or(0, |h| h.nets)
}

// ---- once the net table has the order

// Places the nets in their turns.
fn place_nets(s: &[u8], h: Head, w: &mut [u32], table: &mut [u32], answer: &mut [u8]) -> Totals
    requires { TurnedSome 4 s.now h w.old table.old (length answer.old) }
    ensures plan_made { (lent : Lent) (j : Job) → Turned 4 s.now h w.old table.old (length answer.old) lent j → PlanMade j answer.old answer.new table.new result }
    ensures w_len_unchanged { length w.new ≡ length w.old }
{
    let shape = h.shape;
    let flat = flat::overflows(w, shape);
    let limits = flat::limits_of(w, shape, flat.most);
    tracks::close_layers(w, shape);
    let chart = Chart::new();
    let job = ToPlace {
        frame: Frame { shape, limits },
        nets: h.nets,
    };
    let vias = placing::place_all(s, w, table, answer, &chart, job);
    Totals {
        vias,
        total: flat.total,
        maximum: flat::largest_limit(limits) as u64,
    }
}

// The nets of a job placed; a refusal is passed on.
fn plan_opened(
    s: &[u8],
    w: &mut [u32],
    table: &mut [u32],
    answer: &mut [u8],
    o: Result<Head, Refusal>,
) -> Result<Totals, Refusal>
    requires { ToClose s.now w.old table.old (length answer.old) o }
    ensures plan_closed { PlanClosed s.now w.old table.old answer.old answer.new o result }
    ensures w_len_unchanged { length w.new ≡ length w.old }
{
    let h = o?;
    Ok(place_nets(s, h, w, table, answer))
}

// Plan after the order list: the nets are placed, and the working numbers cleared.
pub fn close_plan(
    s: &[u8],
    w: &mut [u32],
    table: &mut [u32],
    answer: &mut [u8],
    o: Result<Head, Refusal>,
) -> Result<Totals, Refusal>
    requires { ToClose s.now w.old table.old (length answer.old) o }
    ensures plan_closed { PlanClosed s.now w.old table.old answer.old answer.new o result }
    ensures w_after { w.new ≡ replicate (length w.old) 0 }
{
    let r = plan_opened(s, w, table, answer, o);
    layout::clear(w);
    r
}

// Places the nets, and writes the print of their plan: its length too.
fn print_nets(
    s: &[u8],
    h: Head,
    w: &mut [u32],
    table: &mut [u32],
    answer: &mut [u8],
    out: &mut [u8],
) -> (Totals, usize)
    requires { PrintSome s.now h w.old table.old (length answer.old) (length out.old) }
    ensures print_done { PrintDone s.now h w.old table.old answer.old answer.new out.old out.new (Ok result) }
    ensures w_len_unchanged { length w.new ≡ length w.old }
{
    let last = directives::ldof_of(s, w, h.shape, table, h.nets);
    let t = place_nets(s, h, w, table, answer);
    let counts = Counts {
        nets: h.nets,
        vias: t.vias,
        total: t.total,
        most: t.maximum,
        last,
    };
    let size = print::put_plan(out, table, answer, counts);
    (t, size)
}

// The same, and the print of the plan written: its length too.
fn print_opened(
    s: &[u8],
    w: &mut [u32],
    table: &mut [u32],
    answer: &mut [u8],
    out: &mut [u8],
    o: Result<Head, Refusal>,
) -> Result<(Totals, usize), Refusal>
    requires { ToPrint s.now w.old table.old (length answer.old) (length out.old) o }
    ensures print_closed { PrintClosed s.now w.old table.old answer.old answer.new out.old out.new o result }
    ensures w_len_unchanged { length w.new ≡ length w.old }
{
    let h = o?;
    Ok(print_nets(s, h, w, table, answer, out))
}

// Print after the order list, likewise.
pub fn close_print(
    s: &[u8],
    w: &mut [u32],
    table: &mut [u32],
    answer: &mut [u8],
    out: &mut [u8],
    o: Result<Head, Refusal>,
) -> Result<(Totals, usize), Refusal>
    requires { ToPrint s.now w.old table.old (length answer.old) (length out.old) o }
    ensures print_closed { PrintClosed s.now w.old table.old answer.old answer.new out.old out.new o result }
    ensures w_after { w.new ≡ replicate (length w.old) 0 }
{
    let r = print_opened(s, w, table, answer, out, o);
    layout::clear(w);
    r
}
