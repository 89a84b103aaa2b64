// Reads job texts from standard input, each behind a header with its lent lengths, and writes one line for each: the number and the line of its refusal, or
// 0,0 where the job is accepted. tests/reader/corpus makes the input and what is to be written.
#![tactic(auto)]

ghost use Rattle.std.specs.Prelude.{◌≡◌, ◌<◌, ◌≤◌, length, IfOk};
ghost use Rattle.layout.specs.Table.{table_size};
ghost use Rattle.model.specs.Read.{read};
ghost use Rattle.reader.specs.Whole.{lent_by};
ghost use Rattle.cases.specs.Told.{told_by, told_in};

use head::Head;
use reader::Lists;
use std::io;
use std::io::{Read, Write};
use text::Refusal;

// A header, as `work=0000108 order=0000002 answer=0000003 print=0000390 bytes=0000245 fill=0000000` with byte 10: the lent lengths, the bytes of the text
// that follow, and how many bytes 10 go behind them. Plan has `print=-------`.
const HEADER: usize = 83;

const WORK: usize = 5;

const ORDER: usize = 19;

const ANSWER: usize = 34;

const PRINT: usize = 48;

const BYTES: usize = 62;

const FILL: usize = 75;

// Number and line of a refusal, 0 and 0 for an accepted job.
#[derive(Clone, Copy)]
struct Told {
    number: usize,
    line: usize,
}

fn answer_told(r: Result<Head, Refusal>) -> Told
    ensures { result ≡ told_by r }
{
    match r {
        Ok(_) => Told { number: 0, line: 0 },
        Err(f) => {
            let number = f.number();
            let line = f.line();
            Told { number, line }
        }
    }
}

// What the definitions say of the text s and the lent lengths, told by the reader.
fn judge(
    s: &[u8],
    w: &mut [u32],
    table: &mut [u32],
    order: usize,
    answer: usize,
    print: Option<usize>,
) -> Told
    requires { table_size ≤ length table.old }
    ensures value { result ≡ told_in (read (lent_by (length w.old) order answer print) s.now) }
    ensures table_len_unchanged { length table.new ≡ length table.old }
{
    let head = reader::open_head(s, w, order);
    let lists = Lists {
        order,
        answer,
        print,
    };
    answer_told(reader::read_job(s, w, table, head, lists))
}

fn digit(b: u8) -> usize
    ensures { result ≤ 9 }
{
    if b.is_ascii_digit() {
        (b - b'0') as usize
    } else {
        0
    }
}

// The number of seven digits at `at`.
fn field(h: &[u8; HEADER], at: usize) -> usize
    requires { at ≤ 75 }
    ensures { result < 10000000 }
{
    let mut v = 0;
    for &b in &h[at..at + 7] {
        v = (10 * v + digit(b)) % 10000000;
    }
    v
}

fn room(h: &[u8; HEADER]) -> Option<usize> {
    if h[PRINT] == b'-' {
        return None;
    }
    Some(field(h, PRINT))
}

fn print<O: Write>(to: &mut O, v: Told) -> io::Result<()> {
    writeln!(to, "{},{}", v.number, v.line)
}

// Reads the text behind a header into the front of t; returns its length.
fn load<I: Read>(from: &mut I, h: &[u8; HEADER], t: &mut [u8]) -> io::Result<usize>
    ensures ok { IfOk result (λ n. n ≤ length t.new) }
    ensures t_len_unchanged { length t.new ≡ length t.old }
{
    let bytes = field(h, BYTES).min(t.len());
    input::read_full(from, &mut t[..bytes])?;
    let end = (bytes + field(h, FILL)).min(t.len());
    t[bytes..end].fill(b'\n');
    Ok(end)
}

// One text; whether there was one.
fn case<I: Read, O: Write>(
    from: &mut I,
    to: &mut O,
    t: &mut [u8],
    w: &mut [u32],
    table: &mut [u32],
) -> io::Result<bool>
    requires { table_size ≤ length table.old }
    ensures { length table.new ≡ length table.old }
{
    let mut h = [0u8; HEADER];
    let n = input::read_full(from, &mut h)?;
    if n < HEADER {
        return Ok(false);
    }
    let end = load(from, &h, t)?;
    let work = field(&h, WORK).min(w.len());
    let told = judge(
        &t[..end],
        &mut w[..work],
        table,
        field(&h, ORDER),
        field(&h, ANSWER),
        room(&h),
    );
    print(to, told)?;
    Ok(true)
}

// Answers each text in turn.
fn run<I: Read, O: Write>(
    from: &mut I,
    to: &mut O,
    t: &mut [u8],
    w: &mut [u32],
    table: &mut [u32],
) -> io::Result<()>
    requires { table_size ≤ length table.old }
{
    // not an iterator: a text may end early or fail; a proved loop has to end, so it counts the texts, down from more than there are
    let mut left: usize = 1000000;
    while left > 0 && case(from, to, t, w, table)? {
        left -= 1;
    }
    Ok(())
}

// Room for texts of more than 1,048,576 bytes, and for the working numbers of a grid of 64 × 64 tiles with eight layers.
fn main(rt: HostRuntime) -> io::Result<()> {
    let mut t = [0u8; 1048704];
    let mut w = [0u32; 276224];
    let mut table = [0u32; layout::TABLE];
    run(
        &mut rt.reader(),
        &mut io::writer(&rt),
        &mut t,
        &mut w,
        &mut table,
    )
}
