// A nested boost is one 32-bit product. A sum of boosts runs in 64 bits, in clause order, and is rounded once to 32.
// A boost comes as its pattern, and each function tests for a NaN before it makes a float of it or a pattern of a float, where a NaN has no one value.
ghost use Rattle.std.specs.Prelude.{◌≡◌, ◌<◌};
ghost use Rattle.rules.specs.Floats.{widened, narrowed, plus, times, is_one};

use names::{INFINITY, SIGN, THE_NAN, WIDE_INFINITY, WIDE_SIGN};

// One 32-bit product, by the patterns. A NaN gives the one NaN.
pub fn product(a: u32, b: u32) -> u32
    ensures { result ≡ times a b }
{
    if INFINITY < a % SIGN {
        return THE_NAN;
    }
    if INFINITY < b % SIGN {
        return THE_NAN;
    }
    let p = f32::from_bits(a) * f32::from_bits(b);
    if p != p {
        return THE_NAN;
    }
    f32::to_bits(p)
}

// The boost b as the first of a sum.
pub fn as_sum(b: u32) -> f64
    ensures { result ≡ widened b }
{
    let w = crate::bits::widen(b);
    if WIDE_INFINITY < w % WIDE_SIGN {
        return 0.0 / 0.0;
    }
    f64::from_bits(w)
}

// The boost b is added to a sum.
pub fn add(sum: f64, b: u32) -> f64
    ensures { result ≡ plus sum (widened b) }
{
    sum + as_sum(b)
}

// The boost nearest to a sum.
pub fn rounded_bits(sum: f64) -> u32
    ensures { result ≡ narrowed sum }
{
    if sum != sum {
        return THE_NAN;
    }
    crate::bits::narrow(f64::to_bits(sum))
}

// Is the sum 1?
pub fn is_one(sum: f64) -> bool
    ensures { result ≡ is_one sum }
{
    sum == 1.0
}

// Is the boost b 1?
pub fn is_one_bits(b: u32) -> bool
    ensures { result ≡ is_one (widened b) }
{
    if INFINITY < b % SIGN {
        return false;
    }
    f32::from_bits(b) == 1.0
}
