// Reads a job text from standard input, and writes its printed plan or `refused=number,line`. All that is decided is decided in `respond`.
#![tactic(auto)]

use respond::{MOST_INPUT, PRINT};
use std::io;
use std::io::Write;

fn main(rt: HostRuntime) -> io::Result<()> {
    let mut bytes = [0u8; MOST_INPUT + 1];
    let n = input::read_full(&mut rt.reader(), &mut bytes)?;
    let mut out = [0u8; PRINT];
    let size = respond::respond(&bytes[..n], &mut out);
    io::writer(&rt).write_all(&out[..size])
}
