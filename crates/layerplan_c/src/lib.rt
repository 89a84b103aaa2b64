// Both calls under the names that C and Rust link: include/layerplan.h declares them. A slice is passed as pointer and length.
#![tactic(auto)]

ghost use Rattle.std.specs.Prelude.{◌≡◌, Ok, Err};
ghost use Rattle.calls.specs.Calls.{buffers_of, returned_of};
ghost use Rattle.model.specs.Calls.{plan_lent, plan_call, print_lent, print_call};
ghost use Rattle.model.specs.Demand3.{Met};
ghost use Rattle.model.specs.Job.{Job};
ghost use Rattle.model.specs.Read.{Place, found, read};
ghost use Rattle.layerplan_c.specs.Results.{told_by, result_with, plan_result, print_result};

use planning::Totals;
use sort::Entry;
use text::Refusal;

// "number, line, total vias, total and maximum", and the length of the printed text.
#[repr(C)]
#[derive(Clone, Copy)]
pub struct LayerplanResult {
    pub number: u64,
    pub line: u64,
    pub vias: u64,
    pub total: u64,
    pub maximum: u64,
    pub length: u64,
}

// The result for a plan that is made, with the length of its text.
fn made(t: Totals, length: u64) -> LayerplanResult
    ensures { result ≡ result_with (returned_of (Ok t)) length }
{
    LayerplanResult {
        number: 0,
        line: 0,
        vias: t.vias,
        total: t.total,
        maximum: t.maximum,
        length,
    }
}

// The result for a refusal: its number and line, and zeros.
fn refused(f: Refusal) -> LayerplanResult
    ensures { result ≡ plan_result (Err f) }
{
    let number = f.number();
    let line = f.line();
    LayerplanResult {
        number: number as u64,
        line: line as u64,
        vias: 0,
        total: 0,
        maximum: 0,
        length: 0,
    }
}

fn plan_result(p: Result<Totals, Refusal>) -> LayerplanResult
    ensures { result ≡ plan_result p }
{
    match p {
        Ok(t) => made(t, 0),
        Err(f) => refused(f),
    }
}

fn print_result(p: Result<(Totals, usize), Refusal>) -> LayerplanResult
    ensures { result ≡ print_result p }
{
    match p {
        Ok((t, size)) => made(t, size as u64),
        Err(f) => refused(f),
    }
}

#[unsafe(no_mangle)]
pub extern "C" fn layerplan_plan(
    text: &[u8],
    work: &mut [u32],
    order: &mut [Entry],
    answer: &mut [u8],
) -> LayerplanResult
    ensures answer_after { record { returned = told_by result; buffers = buffers_of work.new order.new answer.new } ≡ plan_call text.now (buffers_of work.old order.old answer.old) }
    ensures length_value { result.length ≡ 0 }
    ensures met { (j : Job) (p : Place) → read (plan_lent (buffers_of work.old order.old answer.old)) text.now ≡ found j p → Met j (told_by result) (buffers_of work.new order.new answer.new) }
{
    plan_result(calls::plan(text, work, order, answer))
}

#[unsafe(no_mangle)]
pub extern "C" fn layerplan_print(
    text: &[u8],
    work: &mut [u32],
    order: &mut [Entry],
    answer: &mut [u8],
    out: &mut [u8],
) -> LayerplanResult
    ensures out_after { record { returned = told_by result; length = result.length; buffers = buffers_of work.new order.new answer.new; print = out.new } ≡ print_call text.now (buffers_of work.old order.old answer.old) out.old }
    ensures met { (j : Job) (p : Place) → read (print_lent (buffers_of work.old order.old answer.old) out.old) text.now ≡ found j p → Met j (told_by result) (buffers_of work.new order.new answer.new) }
{
    print_result(calls::print(text, work, order, answer, out))
}
