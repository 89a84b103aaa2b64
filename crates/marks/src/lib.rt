// Which pins and ways the net at hand has in each tile. A word is stamp × 4,096 + bits; the bits of a word with another stamp are those of an earlier
// net and count as none, so nothing is cleared between nets. Bits 0 to 7 are pins on layers 1 to 8; bits 8 to 11 are the ways east, north, west, south.
#![tactic(auto)]

ghost use Rattle.std.specs.Prelude.{◌≡◌, true, cond, ℕ, ◌+◌, ◌-◌, ◌*◌, ◌^◌, ◌<◌, ◌≤◌, length, get_or};
ghost use Rattle.marks.specs.Words.{bits_in, bit_of, Fits, most_stamp, stamp_unit};
ghost use Rattle.marks.specs.Marks.{marked, mark, unmark, put_of, marks_after};

// The bits of a word are a number below this one, and its stamp stands above them.
pub const STAMP: u32 = 4096;

// The first bit that stands for a way.
pub const WAYS: usize = 8;

// What marking a bit of a tile found.
#[derive(Clone, Copy)]
pub enum Put {
    // it was marked already, and nothing changed
    Twice,
    // it is the first mark of this tile
    Fresh,
    // the tile had another mark
    Known,
}

// The bits of a word, none where its stamp is another one.
pub fn bits(word: u32, stamp: u32) -> u32
    ensures value { result ≡ bits_in stamp word }
    ensures upper_bound { result < stamp_unit }
{
    if word / STAMP == stamp {
        return word % STAMP;
    }
    0
}

// Bit i of m.
pub fn bit(m: u32, i: u32) -> bool
    requires { i < 32 }
    ensures { result ≡ bit_of m i }
{
    (m >> i) % 2 == 1
}

fn power(i: u32) -> u32
    requires { i < 12 }
    ensures value { result ≡ 2 ^ i }
    ensures upper_bound { result < stamp_unit }
{
    1u32 << i
}

// Marks bit i of tile t.
pub fn set_mark(a: &mut [u32], stamp: u32, t: usize, i: u32) -> Put
    requires { (t < length a.old) × (i < 12) × (stamp ≤ most_stamp) }
    ensures value { result ≡ put_of stamp a.old t i }
    ensures a_after { a.new ≡ marks_after stamp a.old t i }
{
    let m = bits(a[t], stamp);
    if bit(m, i) {
        return Put::Twice;
    }
    a[t] = stamp * STAMP + (m + power(i));
    if m == 0 {
        return Put::Fresh;
    }
    Put::Known
}

// Takes away bit i of tile t, which is marked.
pub fn clear_mark(a: &mut [u32], stamp: u32, t: usize, i: u32)
    requires { (t < length a.old) × (i < 12) × (marked stamp a.old t i ≡ true) }
    ensures { a.new ≡ unmark stamp a.old t i }
{
    a[t] = a[t] - power(i);
}
