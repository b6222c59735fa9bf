// The middle way, for a number below 2^56 over a power of ten below 10^17: one division of 64-bit whole numbers, rounded once. leading_zeros brings the
// number to 63 places, so that the quotient has more than the 24 places of a significand. Ten is twice five: the twos only move the point.
ghost use Rattle.std.specs.Prelude.{◌≡◌, ◌^◌, ◌<◌};
ghost use Rattle.rules.specs.Numerals.{nearest};

pub const POWERS: u32 = 17;

// The half units in 1 are 2^150, and one place of 64 stays free.
const FREE_PLACES: u32 = 151;

// The pattern nearest to d / 10^n.
pub fn quotient(d: u64, n: u32) -> u32
    requires d_bound { d < 2 ^ 60 }
    requires n_bound { n < 17 }
    ensures { result ≡ nearest d (10 ^ n) }
{
    if d == 0 {
        return 0;
    }
    let t = crate::powers::five(n);
    let z = u64::leading_zeros(d);
    let m = d << (z - 1);
    let below = crate::top::with_rest(false, m % t);
    crate::top::rounded(m / t, below, FREE_PLACES - z - n)
}
