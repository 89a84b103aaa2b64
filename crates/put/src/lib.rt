// Bytes, numbers and lines written into a lent buffer.
#![tactic(auto)]

ghost use Rattle.std.specs.Prelude.{[], ◌∷◌, ◌≡◌, ◌+◌, ◌*◌, ◌≤◌, ◌<◌, length, get_or};
ghost use Rattle.std.proofs.lemmas.List.Edits.{sets};
ghost use Rattle.model.specs.Text.{decimal, decimals};
ghost use Rattle.put.specs.Wrote.{Wrote, Room, line};

// A lent buffer, and the place in it where the next text is written.
#[derive(Drop)]
pub struct Writer<'a> {
    pub buf: &'a mut [u8],
    pub at: usize,
}

impl<'a> Writer<'a> {
    // At the start of the buffer.
    pub fn new(buf: &'a mut [u8]) -> Writer<'a>
        ensures same { result.buf.ghost_name ≡ buf.entry.ghost_name }
        ensures bytes { result.buf.now ≡ buf.old }
        ensures place { result.at ≡ 0 }
    {
        Writer { buf, at: 0 }
    }
}

impl Writer<'_> {
    // One byte.
    pub fn byte(&mut self, x: u8)
        requires { Room self.old (x ∷ []) }
        ensures { Wrote self.old (x ∷ []) self.new }
    {
        self.buf[self.at] = x;
        self.at += 1;
    }

    // The bytes of x.
    pub fn text(&mut self, x: &[u8])
        requires { Room self.old x.now }
        ensures { Wrote self.old x.now self.new }
    {
        let end = self.at + x.len();
        self.buf[self.at..end].copy_from_slice(x);
        self.at = end;
    }
}

// ---- a number in base ten

// How many digits n has: divided off one by one.
fn digits_divided(n: u64) -> usize
    ensures { result ≡ length (decimal n) }
{
    let mut count: usize = 1;
    let mut left = n;
    // not a `for`: the number of turns is what is looked for
    while 10 <= left {
        left = left / 10;
        count += 1;
    }
    count
}

// The same: of a number below 10000 by comparing alone.
fn digits(n: u64) -> usize
    ensures { result ≡ length (decimal n) }
{
    if n < 10 {
        return 1;
    }
    if n < 100 {
        return 2;
    }
    if n < 1000 {
        return 3;
    }
    if n < 10000 {
        return 4;
    }
    4 + digits_divided(n / 10000)
}

impl Writer<'_> {
    // The digits of n, the last one first.
    fn digits_at(&mut self, n: u64)
        requires { Room self.old (decimal n) }
        ensures { Wrote self.old (decimal n) self.new }
    {
        let start = self.at;
        let end = start + digits(n);
        let mut i = end;
        let mut left = n;
        // not a `for`: it ends with the number that is divided
        while 10 <= left {
            i -= 1;
            self.buf[i] = b'0' + (left % 10) as u8;
            left = left / 10;
        }
        self.buf[start] = b'0' + left as u8;
        self.at = end;
    }

    // The digits of n, the first one first.
    pub fn number(&mut self, n: u64)
        requires { Room self.old (decimal n) }
        ensures { Wrote self.old (decimal n) self.new }
    {
        if n < 10 {
            return self.byte(b'0' + n as u8);
        }
        self.digits_at(n)
    }

    // ---- numbers with commas between

    // One more number: a comma before it.
    pub fn next_number(&mut self, x: u64)
        requires { Room self.old (44 ∷ decimal x) }
        ensures { Wrote self.old (44 ∷ decimal x) self.new }
    {
        self.byte(b',');
        self.number(x)
    }

    // The bytes of xs as numbers.
    pub fn bytes(&mut self, xs: &[u8])
        requires { Room self.old (decimals xs.now) }
        ensures { Wrote self.old (decimals xs.now) self.new }
    {
        if xs.len() == 0 {
            return;
        }
        self.number(xs[0] as u64);
        for i in 1..xs.len() {
            self.next_number(xs[i] as u64);
        }
    }

    // ---- lines, each ended by byte 10

    // A line with one number; the key comes with its `=`.
    pub fn line(&mut self, key: &[u8], n: u64)
        requires { Room self.old (line key.now (decimal n)) }
        ensures { Wrote self.old (line key.now (decimal n)) self.new }
    {
        self.text(key);
        self.number(n);
        self.byte(b'\n')
    }
}
