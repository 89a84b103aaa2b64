// Numbers, keys and entries at a place of the job text. Every function takes any place: past the end there is nothing to read.
#![tactic(auto)]

ghost use Rattle.std.specs.Prelude.{◌≡◌, ◌+◌, ◌-◌, ◌*◌, ◌<◌, ◌≤◌, leb, length, drop};
ghost use Rattle.std.proofs.Math.Seq.{slice};
ghost use Rattle.model.specs.Text.{value_from};
ghost use Rattle.text.specs.Number.{digit_run, number_at};
ghost use Rattle.text.specs.Entries.{starts_with, ended_at, Short, ThreeDigits, Three, Brief, Paired, broken, way_at, pin_entry_at, edge_entry_at, Told};
ghost use Rattle.text.specs.Refusals.{fault_number, number_of, line_of};

// The reading place: where the next line starts, and how many lines were read.
#[derive(Clone, Copy)]
pub struct Cursor {
    pub at: usize,
    pub line: usize,
}

// A fault of one line.
#[derive(Clone, Copy, Debug, PartialEq, Eq)]
pub enum Fault {
    Form,
    Range,
    Turn,
    PinTwice,
    EdgeTwice,
    Apart,
    Closed,
    NoLayer,
}

// What refuses a job.
#[derive(Clone, Copy, Debug, PartialEq, Eq)]
pub enum Refusal {
    TooLong,
    Line(Fault, usize),
    Working(usize),
    Order(usize),
    Short(usize),
}

// A number and the place after it.
#[derive(Clone, Copy)]
pub struct Numeral {
    pub value: usize,
    pub next: usize,
}

// Two numbers with a comma behind each, and the place after them.
#[derive(Clone, Copy)]
pub struct Pair {
    pub x: usize,
    pub y: usize,
    pub next: usize,
}

// An entry of three parts, the place after the byte behind it, and whether that byte ends the line. Of an edge the third part is 0 for east and 1 for north.
#[derive(Clone, Copy)]
pub struct Entry {
    pub x: usize,
    pub y: usize,
    pub third: usize,
    pub next: usize,
    pub last: bool,
}

// The first place from `at` on where no digit stands.
fn past_digits(s: &[u8], at: usize) -> usize
    ensures { result ≡ at + length (digit_run (drop at s.now)) }
{
    let mut i = at;
    // not an iterator: from a place past the end there is none, and that place is the answer
    while i < s.len() && s[i].is_ascii_digit() {
        i += 1;
    }
    i
}

fn digit_value(b: u8) -> usize
    ensures value { result ≡ b - 48 }
    ensures upper_bound { result ≤ 207 }
{
    b.saturating_sub(48) as usize
}

// What two digits spell: 528 is 10 × 48 + 48.
fn two_digits(a: u8, b: u8) -> usize
    requires { (48 ≤ a) × (48 ≤ b) }
    ensures { (result ≡ 10 * (a - 48) + (b - 48)) × (result ≤ 2277) }
{
    10 * (a as usize) + (b as usize) - 528
}

// What the bytes from `at` up to `end` spell.
fn value(s: &[u8], at: usize, end: usize) -> usize
    requires { (at ≤ end) × (end ≤ at + 5) × (end ≤ length s.now) }
    ensures { result ≡ value_from 0 (slice at end s.now) }
{
    let mut v = 0;
    for &b in &s[at..end] {
        v = 10 * v + digit_value(b);
    }
    v
}

// The number that stands at `at`.
pub fn number(s: &[u8], at: usize) -> Option<Numeral>
    ensures { result ≡ number_at s.now at }
{
    let next = past_digits(s, at);
    let n = next - at;
    if n < 1 || 5 < n {
        return None;
    }
    if s[at] == b'0' && n != 1 {
        return None;
    }
    let value = value(s, at, next);
    Some(Numeral { value, next })
}

// Whether the key stands at `at`.
pub fn key_at(s: &[u8], at: usize, key: &[u8]) -> bool
    requires { at ≤ length s.now }
    ensures { result ≡ starts_with key.now (drop at s.now) }
{
    s[at..].starts_with(key)
}

// Whether n bytes are left from `at` on.
pub fn room(s: &[u8], at: usize, n: usize) -> bool
    requires { n ≤ 8 }
    ensures { result ≡ leb (at + n) (length s.now) }
{
    n <= s.len() && at <= s.len() - n
}

// The number at `at` with the byte `end` behind it, where it has one or two digits: the common case, without a loop. None says nothing.
pub fn short(s: &[u8], at: usize, end: u8) -> Option<Numeral>
    requires { (at + 3 ≤ length s.now) × (end < 48) }
    ensures { Short s.now at end result }
{
    let a = s[at];
    if !a.is_ascii_digit() {
        return None;
    }
    let b = s[at + 1];
    if b == end {
        let value = digit_value(a);
        return Some(Numeral {
            value,
            next: at + 2,
        });
    }
    if a == b'0' || s[at + 2] != end || !b.is_ascii_digit() {
        return None;
    }
    let value = two_digits(a, b);
    Some(Numeral {
        value,
        next: at + 3,
    })
}

// What three digits spell: 5,328 is 111 × 48.
fn three_digits(a: u8, b: u8, c: u8) -> usize
    requires { (48 ≤ a) × (48 ≤ b) × (48 ≤ c) }
    ensures { (result ≡ 10 * (10 * (a - 48) + (b - 48)) + (c - 48)) × (result ≤ 22977) }
{
    100 * (a as usize) + 10 * (b as usize) + (c as usize) - 5328
}

// What the three bytes at `at` spell, where they are digits and the first is not 0, and the place after them.
fn three_at(s: &[u8], at: usize) -> Option<Numeral>
    requires { at + 6 ≤ length s.now }
    ensures { Three s.now at result }
{
    let a = s[at];
    if !a.is_ascii_digit() || a == b'0' {
        return None;
    }
    let b = s[at + 1];
    if !b.is_ascii_digit() {
        return None;
    }
    let c = s[at + 2];
    if !c.is_ascii_digit() {
        return None;
    }
    let value = three_digits(a, b, c);
    Some(Numeral {
        value,
        next: at + 3,
    })
}

// A number whose first three digits stand at `at` and spell u, where one or two more follow and then the byte `end`.
fn rest_of(s: &[u8], at: usize, end: u8, u: usize) -> Option<Numeral>
    requires { (at + 6 ≤ length s.now) × (end < 48) × ThreeDigits s.now at u }
    ensures { Brief s.now at end result }
{
    let d = s[at + 3];
    if !d.is_ascii_digit() {
        return None;
    }
    let e = s[at + 4];
    if e == end {
        let value = 10 * u + digit_value(d);
        return Some(Numeral {
            value,
            next: at + 5,
        });
    }
    if !e.is_ascii_digit() || s[at + 5] != end {
        return None;
    }
    let value = 100 * u + two_digits(d, e);
    Some(Numeral {
        value,
        next: at + 6,
    })
}

// The number at `at` with the byte `end` behind it, where it has three to five digits. None says nothing.
fn longer(s: &[u8], at: usize, end: u8) -> Option<Numeral>
    requires { (at + 6 ≤ length s.now) × (end < 48) }
    ensures { Brief s.now at end result }
{
    let n = three_at(s, at)?;
    if s[n.next] == end {
        return Some(Numeral {
            value: n.value,
            next: n.next + 1,
        });
    }
    rest_of(s, at, end, n.value)
}

// The same, where it has one to five digits: all that a number can have.
pub fn brief(s: &[u8], at: usize, end: u8) -> Option<Numeral>
    requires { (at + 6 ≤ length s.now) × (end < 48) }
    ensures { Brief s.now at end result }
{
    short(s, at, end).or_else(|| longer(s, at, end))
}

// The number at `at`, the byte `end` behind it, and the place after that.
pub fn ended(s: &[u8], at: usize, end: u8) -> Option<Numeral>
    requires { 0 < end }
    ensures { result ≡ ended_at s.now at end }
{
    let n = number(s, at)?;
    if s.len() <= n.next || s[n.next] != end {
        return None;
    }
    Some(Numeral {
        value: n.value,
        next: n.next + 1,
    })
}

// The entry x,y,third with the byte behind it, which stands at n, inside the text.
fn break_in(s: &[u8], x: usize, y: usize, third: usize, n: usize) -> Option<Entry>
    requires { n < length s.now }
    ensures { result ≡ broken s.now x y third n }
{
    let last = match s[n] {
        b';' => false,
        b'\n' => true,
        _ => return None,
    };
    Some(Entry {
        x,
        y,
        third,
        next: n + 1,
        last,
    })
}

// The same at any place.
fn break_at(s: &[u8], x: usize, y: usize, third: usize, n: usize) -> Option<Entry>
    ensures { result ≡ broken s.now x y third n }
{
    if s.len() <= n {
        return None;
    }
    break_in(s, x, y, third, n)
}

// The rest of an edge from its letter on, which stands at q, with a byte behind it.
fn way_in(s: &[u8], x: usize, y: usize, q: usize) -> Option<Entry>
    requires { q + 2 ≤ length s.now }
    ensures { result ≡ way_at s.now x y q }
{
    match s[q] {
        b'e' => break_in(s, x, y, 0, q + 1),
        b'n' => break_in(s, x, y, 1, q + 1),
        _ => None,
    }
}

// The x and y of an entry, where both have one or two digits and two bytes more are there. None says nothing.
fn short_pair(s: &[u8], at: usize) -> Option<Pair>
    ensures { Paired s.now at result }
{
    if !room(s, at, 8) {
        return None;
    }
    let x = short(s, at, b',')?;
    let y = short(s, x.next, b',')?;
    Some(Pair {
        x: x.value,
        y: y.value,
        next: y.next,
    })
}

// A pin and the byte behind it, where x and y have one or two digits and the layer has one. None says nothing.
fn short_pin(s: &[u8], at: usize) -> Option<Entry>
    ensures { Told (pin_entry_at s.now at) result }
{
    let p = short_pair(s, at)?;
    let b = s[p.next];
    if !b.is_ascii_digit() {
        return None;
    }
    break_in(s, p.x, p.y, digit_value(b), p.next + 1)
}

// The same with numbers of any length.
fn long_pin(s: &[u8], at: usize) -> Option<Entry>
    ensures { result ≡ pin_entry_at s.now at }
{
    let x = ended(s, at, b',')?;
    let y = ended(s, x.next, b',')?;
    let l = number(s, y.next)?;
    break_at(s, x.value, y.value, l.value, l.next)
}

// A pin and the byte behind it.
pub fn pin_at(s: &[u8], at: usize) -> Option<Entry>
    ensures { result ≡ pin_entry_at s.now at }
{
    short_pin(s, at).or_else(|| long_pin(s, at))
}

// An edge and the byte behind it, where x and y have one or two digits. None says nothing.
fn short_edge(s: &[u8], at: usize) -> Option<Entry>
    ensures { Told (edge_entry_at s.now at) result }
{
    let p = short_pair(s, at)?;
    way_in(s, p.x, p.y, p.next)
}

// The same with numbers of any length: all that an entry can be.
pub fn long_edge(s: &[u8], at: usize) -> Option<Entry>
    ensures { result ≡ edge_entry_at s.now at }
{
    let x = ended(s, at, b',')?;
    let y = ended(s, x.next, b',')?;
    if !room(s, y.next, 2) {
        return None;
    }
    way_in(s, x.value, y.value, y.next)
}

// An edge and the byte behind it.
pub fn edge_at(s: &[u8], at: usize) -> Option<Entry>
    ensures { result ≡ edge_entry_at s.now at }
{
    short_edge(s, at).or_else(|| long_edge(s, at))
}

impl Fault {
    // The papers' number for a fault of a line.
    fn number(self) -> usize
        ensures { result ≡ fault_number self }
    {
        match self {
            Fault::Form => 2,
            Fault::Range => 3,
            Fault::Turn => 4,
            Fault::PinTwice => 5,
            Fault::EdgeTwice => 6,
            Fault::Apart => 8,
            Fault::Closed => 12,
            Fault::NoLayer => 13,
        }
    }
}

impl Refusal {
    // The papers' number for a refusal.
    pub fn number(self) -> usize
        ensures { result ≡ number_of self }
    {
        match self {
            Refusal::TooLong => 1,
            Refusal::Line(f, _) => f.number(),
            Refusal::Working(_) => 9,
            Refusal::Order(_) => 10,
            Refusal::Short(_) => 11,
        }
    }

    // The line of a refusal.
    pub fn line(self) -> usize
        ensures { result ≡ line_of self }
    {
        match self {
            Refusal::TooLong => 0,
            Refusal::Line(_, l) => l,
            Refusal::Working(l) => l,
            Refusal::Order(l) => l,
            Refusal::Short(l) => l,
        }
    }
}
