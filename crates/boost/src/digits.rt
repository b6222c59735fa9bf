// The digits of a numeral. A first reading gives them and their number, cut off at 2^56: that is all a short numeral needs.
// A longer one has its digits read again, whole, into a row.
ghost use Rattle.std.specs.Prelude.{◌≡◌, ◌+◌, ◌-◌, ◌*◌, ◌^◌, ◌<◌, ◌≤◌, min, length};
ghost use Rattle.std.specs.List.{AllPass};
ghost use Rattle.rules.specs.Numerals.{is_digit, digits_on};
ghost use Rattle.boost.specs.Digits.{short_most, Reading, Holds, Filled, Held, number_of, NumberRow};

use crate::powers::TENS_MOST;
use crate::row::{WORDS, Words};

// From here on the number of a run of digits is cut off.
pub const SHORT_MOST: u64 = 0x100_0000_0000_0000;

// The digits that a text begins with: their number, cut off at 2^56, and what follows them.
#[derive(Drop)]
pub struct Run<'a> {
    pub digits: &'a [u8],
    pub value: u64,
    pub rest: &'a [u8],
}

// A numeral's digits before its point and behind it, and their number, cut off at 2^56.
#[derive(Drop)]
pub struct Digits<'a> {
    pub whole: &'a [u8],
    pub fraction: &'a [u8],
    pub value: u64,
    ghost held: { Held whole.now fraction.now value },
}

// One more digit, where the number before it is short.
fn one_more(v: u64, d: u64) -> u64
    requires { d < 10 }
    ensures { (v < short_most → result ≡ v * 10 + d) × (short_most ≤ v → result ≡ v) }
{
    if v < SHORT_MOST { v * 10 + d } else { v }
}

// The digits that the text begins with, read after the number `start`.
pub fn read(s: &[u8], start: u64) -> Run
    ensures { Reading s.now start result.digits.now result.value result.rest.now }
{
    let mut v = start;
    let mut rest = s;
    while let [c @ b'0'..=b'9', after @ ..] = rest {
        v = one_more(v, (*c - b'0') as u64);
        rest = after;
    }
    Run {
        digits: &s[..s.len() - rest.len()],
        value: v.min(SHORT_MOST),
        rest: rest,
    }
}

// The number of a few digits.
fn number_of(digits: &[u8]) -> u64
    requires few { length digits.now ≤ 14 }
    requires digits { AllPass is_digit digits.now }
    ensures number { result ≡ digits_on 0 digits.now }
    ensures small { result < 10 ^ length digits.now }
{
    let mut v = 0u64;
    for c in digits {
        v = v * 10 + (*c - b'0') as u64;
    }
    v
}

// The digits are read into the row, some at once, after the number that is there from the word `from` on.
fn fill(row: &mut Words, from: usize, digits: &[u8])
    requires digits { AllPass is_digit digits.now }
    requires few { length digits.now ≤ 40 }
    requires holds { Holds row.old from (40 - length digits.now) }
    requires from_bound { from ≤ 9 }
    ensures { Filled digits.now from row.old row.new }
{
    let mut rest = digits;
    while !rest.is_empty() {
        let (some, others) = rest.split_at(rest.len().min(TENS_MOST as usize));
        let power = crate::powers::ten(some.len() as u32);
        crate::row::scale(row, from, power, number_of(some));
        rest = others;
    }
}

// The number of all a numeral's digits, in a row, from the word `from` on.
pub fn number(d: &Digits, from: usize) -> Words
    requires { from ≤ 9 }
    ensures { NumberRow (number_of d.now.whole.now d.now.fraction.now) from result }
{
    // Stays: fixed memory and no heap: all 18 words count, and those that are not used are 0.
    let mut row = [0u16; WORDS];
    fill(&mut row, from, d.whole);
    fill(&mut row, from, d.fraction);
    row
}
