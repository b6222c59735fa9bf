// From a numeral's digits and exponent to the nearest pattern with no sign: the short way where both are small, the
// middle way where the digits are few, else by a row.
// An exponent comes cut off at 2^56: so far out the size alone decides.
ghost use Rattle.std.specs.Prelude.{◌≡◌, ◌*◌, ◌^◌, ◌<◌, ◌≤◌, length};
ghost use Rattle.rules.specs.Numerals.{nearest};
ghost use Rattle.boost.specs.Decimal.{number, Up, Down};

use crate::digits::{Digits, SHORT_MOST};
use crate::quick::QUICK_MOST;
use crate::row::WORDS;
use crate::top::WORD_BITS;
use names::INFINITY;

// A unit is 2^-149: so many binary places have half of one.
const HALF_UNIT_PLACES: u32 = 150;

// 10^39 times the least number is past all floats, and 40 digits over 10^86 are below half of a unit.
const ABOVE_ALL: u64 = 39;

const BELOW_MOST: u64 = 85;

// The pattern nearest to the digits' number over 10^n, by a row. Ten is twice five: over 10^n and in half units is times 2^(150 - n), over 5^n.
fn below_by_row(d: &Digits, n: u32) -> u32
    requires { n < 86 }
    ensures { result ≡ nearest (number d.now) (10 ^ n) }
{
    let places = HALF_UNIT_PLACES - n;
    let from = (places / WORD_BITS) as usize;
    let mut row = crate::digits::number(d, from);
    crate::row::scale(&mut row, from, 1u64 << (places % WORD_BITS), 0);
    let q = crate::row::fives(&mut row, n);
    crate::top::pattern(&row, q.len, q.left, 0)
}

// The pattern nearest to the digits' number times 10^n, by a row.
fn above_by_row(d: &Digits, n: u32) -> u32
    requires n_bound { n < 39 }
    requires enough_places { 2 ^ 24 ≤ number d.now * 10 ^ n }
    ensures { result ≡ nearest (number d.now * 10 ^ n) 1 }
{
    let mut row = crate::digits::number(d, 0);
    crate::row::tens(&mut row, n);
    let len = crate::row::used(&row, WORDS);
    crate::top::pattern(&row, len, false, HALF_UNIT_PLACES)
}

// The same, by one division where the digits and the power are small.
fn below(d: &Digits, n: u32) -> u32
    requires { n < 86 }
    ensures { result ≡ nearest (number d.now) (10 ^ n) }
{
    if d.value < QUICK_MOST && n < crate::quick::POWERS {
        return crate::quick::quotient(d.value as u32, n);
    }
    if d.value < SHORT_MOST && n < crate::wide::POWERS {
        return crate::wide::quotient(d.value, n);
    }
    below_by_row(d, n)
}

// The pattern nearest to the digits' number times 10^n, by one product where both are small.
fn above(d: &Digits, n: u32) -> u32
    requires n_bound { n < 39 }
    requires value_nonzero { 0 < d.now.value }
    ensures { result ≡ nearest (number d.now * 10 ^ n) 1 }
{
    if d.value < QUICK_MOST && n < crate::quick::POWERS {
        return crate::quick::multiple(d.value as u32, n);
    }
    above_by_row(d, n)
}

// The pattern nearest to the digits' number times 10^x, the point counted.
pub fn scaled_up(d: &Digits, x: u64) -> u32
    ensures { Up (number d.now) x (length d.now.fraction.now) result }
{
    let places = d.fraction.len() as u64;
    if x <= places {
        return below(d, (places - x) as u32);
    }
    if d.value == 0 {
        return 0;
    }
    if x - places < ABOVE_ALL {
        return above(d, (x - places) as u32);
    }
    INFINITY
}

// The pattern nearest to the digits' number over 10^x, the point counted.
// Stays: no twin of `scaled_up`, which has two ends, a point that moves and a number that grows; here it only shrinks.
pub fn scaled_down(d: &Digits, x: u64) -> u32
    ensures { Down (number d.now) x (length d.now.fraction.now) result }
{
    let n = x.saturating_add(d.fraction.len() as u64);
    if n > BELOW_MOST {
        return 0;
    }
    below(d, n as u32)
}
