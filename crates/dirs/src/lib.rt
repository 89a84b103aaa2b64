// The line `dirs`, which may be left out: which way each layer runs.
#![tactic(auto)]

ghost use Rattle.std.specs.Prelude.{◌≡◌, ◌<◌, ◌≤◌, length};
ghost use Rattle.model.specs.Read.{dirs_line};
ghost use Rattle.text.specs.Refusals.{place_of};
ghost use Rattle.lines.specs.Keyed.{ender};
ghost use Rattle.dirs.specs.Letters.{letter_at, letters_from, ways_told, ways_in};
ghost use Rattle.dirs.specs.Told.{dirs_told, dirs_hold};

use layout::Dirs;
use text::{Cursor, Fault, Refusal};

// ---- the letters

// The way of the letter at `at`, with the byte `end` behind it, where that is there: 0 for `h`, and 1 for `v`.
fn letter_at(s: &[u8], at: usize, end: u8) -> Option<u32>
    requires { 0 < end }
    ensures { result ≡ letter_at s.now at end }
{
    if !text::room(s, at, 2) {
        return None;
    }
    if s[at + 1] != end {
        return None;
    }
    match s[at] {
        b'h' => Some(0),
        b'v' => Some(1),
        _ => None,
    }
}

// The byte behind a letter after which `more` others come.
fn end_of(more: usize) -> u8
    ensures { result ≡ ender more }
{
    if more == 0 {
        return b'\n';
    }
    b','
}

// The k letters that stand from `from` on, with commas between and byte 10 behind the last: the ways of the layers, bit l - 1 for layer l, and the place
// after the letters.
fn letters(s: &[u8], from: usize, k: usize) -> Option<(u32, usize)>
    requires { (from ≤ length s.now) × (k ≤ 8) }
    ensures result_value { ways_told k s.now result ≡ letters_from k s.now from }
    ensures ways_in { ways_in (length s.now) result }
{
    let mut at = from;
    let mut mask = 0u32;
    let mut value = 1u32;
    for i in 0..k {
        let way = letter_at(s, at, end_of(k - 1 - i))?;
        mask += way * value;
        value = 2 * value;
        at += 2;
    }
    Some((mask, at))
}

// ---- the line

// The line `dirs` of k layers, where it stands: the directions of the layers, and the place of the next line.
pub fn read_dirs(s: &[u8], c: Cursor, k: usize) -> Result<(Option<Dirs>, Cursor), Refusal>
    requires at_in_bounds { (c.at ≤ length s.now) × (c.line < 100) }
    requires le_k { (2 ≤ k) × (k ≤ 8) }
    ensures result_value { dirs_told k s.now result ≡ dirs_line k (place_of s.now c) }
    ensures dirs_hold { dirs_hold (length s.now) c.line k result }
{
    let Ok(d) = lines::open_line(s, c, b"dirs=") else {
        return Ok((None, c));
    };
    let line = d.line;
    let (north, at) = letters(s, d.at, k).ok_or(Refusal::Line(Fault::Form, line))?;
    Ok((Some(Dirs { north }), Cursor { at, line }))
}
