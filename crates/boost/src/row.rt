// Large whole numbers as a row of 18 words of 16 bits, lowest first: for numerals too long for the short ways.
// So many words are just what 40 bytes of numeral can need. 40 digits make a number below 10^40, of 133 bits. It is taken in half units, times 2^150,
// less a power of two where it is to be divided: 283 bits, and 18 words have 288. 17 words, of 272 bits, do not hold 40 nines in half units.
// Times 10^38, the most that a row is multiplied by, 40 digits have 260 bits (proofs/Rooms.antt: `eighteen`, `not_seventeen`, `room_tens`).
ghost use Rattle.std.specs.Prelude.{◌≡◌, ◌+◌, ◌*◌, ◌%◌, ◌^◌, ◌<◌, ◌≤◌};
ghost use Rattle.boost.specs.Row.{up_to, value, limit, Scaled, Divided, Used, Quotient, Times};

use crate::powers::{ALL_FIVES, FIVES_MOST, TENS_MOST};

pub const WORDS: usize = 18;

pub type Words = [u16; WORDS];

// What a word counts up to.
pub const BASE: u64 = 0x1_0000;

// The row times m, plus `add` at the word `from`, below which there is nothing.
pub fn scale(row: &mut Words, from: usize, m: u64, add: u64)
    requires from_bound { from ≤ 18 }
    requires nothing_below { up_to row.old from ≡ 0 }
    requires factor { (m ≤ 2 ^ 47) × (add < m) }
    requires fits { value row.old * m + add * 0x1_0000 ^ from < limit }
    ensures { Scaled row.old row.new from m add }
{
    let mut carry = add;
    for i in from..WORDS {
        let t = u64::from(row[i]) * m + carry;
        row[i] = (t % BASE) as u16;
        carry = t / BASE;
    }
}

// The row's first `len` words over f: the rest is returned.
fn divide(row: &mut Words, len: usize, f: u64) -> u64
    requires len_bound { len ≤ 18 }
    requires divisor { (0 < f) × (f ≤ 2 ^ 47) }
    ensures { Divided row.old row.new len f result }
{
    let mut rest = 0u64;
    for i in (0..len).rev() {
        let t = rest * BASE + u64::from(row[i]);
        row[i] = (t / f) as u16;
        rest = t % f;
    }
    rest
}

// How many of the first `len` words are used: those above are 0.
pub fn used(row: &Words, len: usize) -> usize
    requires { len ≤ 18 }
    ensures { Used row.now len result }
{
    for i in (0..len).rev() {
        if row[i] != 0 {
            return i + 1;
        }
    }
    0
}

// The row times 10^n, where that fits.
pub fn tens(row: &mut Words, n: u32)
    requires { value row.old * 10 ^ n < limit }
    ensures { Times row.old row.new (10 ^ n) }
{
    let mut j = n;
    // Stays: a `for` over n / TENS_MOST passes takes one pass more where nothing is left for the last, and most calls take one or two.
    while 0 < j {
        let c = j.min(TENS_MOST);
        scale(row, 0, crate::powers::ten(c), 0);
        j -= c;
    }
}

// A quotient: how many words it has, and whether anything was left over.
// Stays: both hold of every quotient, so neither is an option on the other; and the words stand in the lent row, of which only `len` is said.
#[derive(Drop)]
pub struct Whole {
    pub len: usize,
    pub left: bool,
}

// The row over 5^n, by short divisions one after the other.
pub fn fives(row: &mut Words, n: u32) -> Whole
    ensures { Quotient row.old row.new n result.len result.left }
{
    let mut len = used(row, WORDS);
    let mut left = false;
    for _pass in 0..n / FIVES_MOST {
        let rest = divide(row, len, ALL_FIVES);
        left = crate::top::with_rest(left, rest);
        len = used(row, len);
    }
    let rest = divide(row, len, crate::powers::five(n % FIVES_MOST));
    Whole {
        len: used(row, len),
        left: crate::top::with_rest(left, rest),
    }
}
