// The two calls. The job text is read and its nets are scored; the order list is made in the lent entries; then the nets are placed, and printed. A refused job has no
// net, so nothing is written for it, and the working numbers are zero after every call.
#![tactic(auto)]

ghost use Rattle.std.specs.Prelude.{◌≡◌};
ghost use Rattle.model.specs.Calls.{plan_lent, plan_call, print_lent, print_call};
ghost use Rattle.model.specs.Demand3.{Met};
ghost use Rattle.model.specs.Job.{Job};
ghost use Rattle.model.specs.Read.{Place, found, read};
ghost use Rattle.calls.specs.Calls.{buffers_of, returned_of, plan_of, size_of};

use planning::Totals;
use reader::Lists;
use sort::Entry;
use text::Refusal;

// "Plan takes the text."
pub fn plan(
    text: &[u8],
    work: &mut [u32],
    order: &mut [Entry],
    answer: &mut [u8],
) -> Result<Totals, Refusal>
    ensures answer_after { record { returned = returned_of result; buffers = buffers_of work.new order.new answer.new } ≡ plan_call text.now (buffers_of work.old order.old answer.old) }
    ensures met { (j : Job) (p : Place) → read (plan_lent (buffers_of work.old order.old answer.old)) text.now ≡ found j p → Met j (returned_of result) (buffers_of work.new order.new answer.new) }
{
    let mut table = [0u32; layout::TABLE];
    let lists = Lists {
        order: order.len(),
        answer: answer.len(),
        print: None,
    };
    let job = planning::open(text, work, &mut table, lists);
    let nets = planning::nets_of(job);
    sort::arrange(order, &mut table, nets);
    planning::close_plan(text, work, &mut table, answer, job)
}

// "Print does the same and also writes the text below." Beside the totals it returns the length of that text.
pub fn print(
    text: &[u8],
    work: &mut [u32],
    order: &mut [Entry],
    answer: &mut [u8],
    out: &mut [u8],
) -> Result<(Totals, usize), Refusal>
    ensures out_after { record { returned = returned_of (plan_of result); length = size_of result; buffers = buffers_of work.new order.new answer.new; print = out.new } ≡ print_call text.now (buffers_of work.old order.old answer.old) out.old }
    ensures met { (j : Job) (p : Place) → read (print_lent (buffers_of work.old order.old answer.old) out.old) text.now ≡ found j p → Met j (returned_of (plan_of result)) (buffers_of work.new order.new answer.new) }
{
    let mut table = [0u32; layout::TABLE];
    let lists = Lists {
        order: order.len(),
        answer: answer.len(),
        print: Some(out.len()),
    };
    let job = planning::open(text, work, &mut table, lists);
    let nets = planning::nets_of(job);
    sort::arrange(order, &mut table, nets);
    planning::close_print(text, work, &mut table, answer, out, job)
}
