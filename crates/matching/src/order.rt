// The two orders of ranges, over 64 bits each: whole numbers are signed, and floats go by IEEE, so that a NaN is in no order and both zeros
// are equal. `float` says which.
ghost use Rattle.std.specs.Prelude.{◌≡◌};
ghost use Rattle.std.specs.Float.{binary64};
ghost use Rattle.std.specs.Float.Ieee.{of_bits, is_nan};
ghost use Rattle.rules.specs.Query.{whole, float};
ghost use Rattle.rules.specs.Matching.{is_number};
ghost use Rattle.entries.specs.Entry.{numbers};
ghost use Rattle.matching.specs.Order.{Turned, ordered};

use names::{WIDE_INFINITY, WIDE_SIGN};

// With its top bit turned: the signed order of x is the unsigned order of the answer.
fn turned(x: u64) -> u64
    ensures { Turned x result }
{
    if x < WIDE_SIGN {
        x + WIDE_SIGN
    } else {
        x - WIDE_SIGN
    }
}

// Stays: one over PartialOrd would want a law that joins its < with `ordered`, for a line.
// Stays: `strict` and `float` are what a bound says of itself; a closure for the comparison would be made at each of the two calls by the same tests.
fn whole_ordered(strict: bool, a: u64, b: u64) -> bool
    ensures { result ≡ ordered strict whole a b }
{
    let x = turned(a);
    let y = turned(b);
    if strict { x < y } else { x <= y }
}

// A NaN has all bits of the exponent and some bit of the significand, whatever its sign.
fn is_nan(x: u64) -> bool
    ensures { result ≡ is_nan (of_bits binary64 x) }
{
    WIDE_INFINITY < x % WIDE_SIGN
}

fn float_ordered(strict: bool, a: u64, b: u64) -> bool
    ensures { result ≡ ordered strict float a b }
{
    if is_nan(a) {
        return false;
    }
    if is_nan(b) {
        return false;
    }
    let low = f64::from_bits(a);
    let high = f64::from_bits(b);
    if strict { low < high } else { low <= high }
}

// Whether a is below b, or at most b where `strict` is false.
pub fn ordered(float: bool, strict: bool, a: u64, b: u64) -> bool
    ensures { result ≡ ordered strict (numbers float) a b }
{
    if float {
        float_ordered(strict, a, b)
    } else {
        whole_ordered(strict, a, b)
    }
}

// Whether it can lie in a range at all.
pub fn is_number(float: bool, x: u64) -> bool
    ensures { result ≡ is_number (numbers float) x }
{
    !(float && is_nan(x))
}
