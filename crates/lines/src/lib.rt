// The reader, by which every line of the text is opened; lines with one number.
#![tactic(auto)]

ghost use Rattle.std.specs.Prelude.{◌≡◌, true, ◌+◌, ◌<◌, ◌≤◌, ◌^◌, length};
ghost use Rattle.text.specs.Refusals.{place_of};
ghost use Rattle.lines.specs.Keyed.{one_line, line_by, number_line_by, ranged_by};
ghost use Rattle.lines.specs.Told.{line_told, field_told, field_in};
ghost use Rattle.lines.specs.Reads.{keyed, behind_of, opening_of, expected_of};

use text::{Cursor, Fault, Refusal};

// ---- the reader

// A reader: the job text, and the place in it of the line that comes next.
#[derive(Clone, Copy)]
pub struct Reader<'a> {
    pub text: &'a [u8],
    pub place: Cursor,
}

// Whether the key stands at a place of the text: what the reader leaves to a function on slice and place.
fn key_at<'a>(s: &'a [u8], c: Cursor, key: &'a [u8]) -> bool
    requires { c.at ≤ length s.now }
    ensures { result ≡ keyed s.now c key.now }
{
    text::key_at(s, c.at, key)
}

// The place n bytes further, on the next line.
fn behind(c: Cursor, n: usize) -> Cursor
    requires { (c.at + n < 2 ^ 64) × (c.line < 1048576) }
    ensures { result ≡ behind_of c n }
{
    Cursor {
        at: c.at + n,
        line: c.line + 1,
    }
}

// A reader of the text, at a place.
pub fn reader_at<'a>(text: &'a [u8], place: Cursor) -> Reader<'a>
    ensures { (result.text ≡ text.entry) × (result.place ≡ place) }
{
    Reader { text, place }
}

// Whether the line at the reader's place has the key.
pub fn key_here<'a>(r: Reader<'a>, key: &'a [u8]) -> bool
    requires { r.place.at ≤ length r.text.now }
    ensures { result ≡ keyed r.entry.text.now r.entry.place key.now }
{
    key_at(r.text, r.place, key)
}

// The reader moved forward, n bytes and one line.
pub fn moved<'a>(r: Reader<'a>, n: usize) -> Reader<'a>
    requires { (r.place.at + n < 2 ^ 64) × (r.place.line < 1048576) }
    ensures { (result.text ≡ r.entry.text) × (result.place ≡ behind_of r.entry.place n) }
{
    Reader {
        text: r.text,
        place: behind(r.place, n),
    }
}

// The line at a place of the text: the place behind its key, one line further; where the key is not there, the same place as an error. Every line of the
// text is opened here, whatever follows its key; where the key is not there, whoever asks refuses the line, which that place names, or goes on without it.
pub fn open_line<'a>(s: &'a [u8], c: Cursor, key: &'a [u8]) -> Result<Cursor, Cursor>
    requires { (c.at ≤ length s.now) × (c.line < 1048576) }
    ensures { result ≡ opening_of s.now c key.now }
{
    let r = reader_at(s, c);
    let there = key_here(r, key);
    let place = moved(r, key.len()).place;
    if there { Ok(place) } else { Err(place) }
}

// The same, where the line may not be left out: without its key it is refused.
pub fn expect_line<'a>(s: &'a [u8], c: Cursor, key: &'a [u8]) -> Result<Cursor, Refusal>
    requires { (c.at ≤ length s.now) × (c.line < 1048576) × (one_line key.now ≡ true) }
    ensures result_value { line_told s.now result ≡ line_by key.now (place_of s.now c) }
    ensures opened { result ≡ expected_of s.now c key.now }
{
    match open_line(s, c, key) {
        Ok(place) => Ok(place),
        Err(place) => Err(Refusal::Line(Fault::Form, place.line)),
    }
}

// ---- lines with one number

// A line with one number: the number, and the place of the next line.
pub fn number_line<'a>(s: &'a [u8], c: Cursor, key: &'a [u8]) -> Result<(usize, Cursor), Refusal>
    requires { (c.at ≤ length s.now) × (c.line < 1048576) × (one_line key.now ≡ true) }
    ensures result_value { field_told s.now result ≡ number_line_by key.now (place_of s.now c) }
    ensures field_in { field_in (length s.now) (c.line + 1) result }
{
    let d = expect_line(s, c, key)?;
    let line = d.line;
    let n = text::ended(s, d.at, b'\n').ok_or(Refusal::Line(Fault::Form, line))?;
    Ok((n.value, Cursor { at: n.next, line }))
}

// A line with one number from `low` to `high`.
pub fn ranged<'a>(
    s: &'a [u8],
    c: Cursor,
    key: &'a [u8],
    low: usize,
    high: usize,
) -> Result<(usize, Cursor), Refusal>
    requires { (c.at ≤ length s.now) × (c.line < 1048576) × (one_line key.now ≡ true) }
    ensures result_value { field_told s.now result ≡ ranged_by key.now low high (place_of s.now c) }
    ensures field_in { field_in (length s.now) (c.line + 1) result }
{
    let (v, d) = number_line(s, c, key)?;
    if v < low || high < v {
        return Err(Refusal::Line(Fault::Range, d.line));
    }
    Ok((v, d))
}
