// The short way, for a number below 2^24 and a power of ten below 10^8: both are exact 32-bit floats, so that one division or one product, rounded
// once, is the nearest pattern.
ghost use Rattle.std.specs.Prelude.{◌≡◌, ◌*◌, ◌^◌, ◌<◌, pos};
ghost use Rattle.std.specs.Float.{binary32};
ghost use Rattle.std.specs.Float.Ieee.{of_int};
ghost use Rattle.rules.specs.Numerals.{nearest};
ghost use Rattle.boost.specs.Digits.{quick_most};

pub const POWERS: u32 = 8;

pub const QUICK_MOST: u64 = 0x100_0000;

// 10^n, which is a float exactly.
fn ten(n: u32) -> f32
    requires { n < 8 }
    ensures { result ≡ of_int binary32 (pos (10 ^ n)) }
{
    let t = crate::powers::ten(n) as u32;
    t as f32
}

// The pattern nearest to d / 10^n.
// Stays: `quotient` and `multiple` differ in their operator and in what it rounds; one function over a closure would be longer than the two lines. `n < 8` is a bound of one number, for which a type would want a constructor with its proof at each call.
pub fn quotient(d: u32, n: u32) -> u32
    requires d_lt_quick_most { d < quick_most }
    requires n_bound { n < 8 }
    ensures { result ≡ nearest d (10 ^ n) }
{
    let q = (d as f32) / ten(n);
    f32::to_bits(q)
}

// The pattern nearest to d * 10^n.
pub fn multiple(d: u32, n: u32) -> u32
    requires d_lt_quick_most { d < quick_most }
    requires n_bound { n < 8 }
    ensures { result ≡ nearest (d * 10 ^ n) 1 }
{
    let p = (d as f32) * ten(n);
    f32::to_bits(p)
}
