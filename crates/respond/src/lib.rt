// What the program writes: the printed plan of the job in its input, or the line of its refusal.
#![tactic(auto)]

ghost use Rattle.std.specs.Prelude.{◌≡◌, ◌≤◌, length};
ghost use Rattle.model.specs.Calls.{refusal, overwrite};
ghost use Rattle.model.specs.Program.{written, program};
ghost use Rattle.respond.specs.Told.{Answered};
ghost use Rattle.text.specs.Refusals.{number_of, line_of};

use planning::Totals;
use sort::Entry;
use text::Refusal;

// "reads standard input of at most 65,536 bytes (more gives 1, 0)"
pub const MOST_INPUT: usize = 65536;

// "It lends 16,384 working numbers, 4,096 order entries and 65,536 bytes each for answer and print"
const WORKING: usize = 16384;

const ENTRIES: usize = 4096;

const ANSWER: usize = 65536;

pub const PRINT: usize = 65536;

// Print of an input, over the storage that the program lends.
fn print_input(input: &[u8], out: &mut [u8]) -> Result<(Totals, usize), Refusal>
    ensures { Answered input.now out.old out.new result }
{
    let mut work = [0u32; WORKING];
    let mut order = [Entry {
        net: 0,
        low: 0,
        score: 0,
    }; ENTRIES];
    let mut answer = [0u8; ANSWER];
    calls::print(input, &mut work, &mut order, &mut answer, out)
}

// Writes the line of a refusal.
fn refuse(out: &mut [u8], r: Refusal) -> usize
    requires { 50 ≤ length out.old }
    ensures out_after { out.new ≡ overwrite (written (refusal (number_of r) (line_of r))) out.old }
    ensures value { result ≡ length (written (refusal (number_of r) (line_of r))) }
{
    let number = r.number();
    let line = r.line();
    print::put_refusal(out, number, line)
}

// The text for an input, at the start of `out`, and its length.
pub fn respond(input: &[u8], out: &mut [u8; PRINT]) -> usize
    ensures out_after { out.new ≡ overwrite (program input.now) out.old }
    ensures value { (result ≡ length (program input.now)) × (result ≤ 65536) }
    ensures out_len { length out.new ≡ 65536 }
{
    if MOST_INPUT < input.len() {
        return refuse(out, Refusal::TooLong);
    }
    match print_input(input, out) {
        Ok((_, size)) => size,
        Err(r) => refuse(out, r),
    }
}
