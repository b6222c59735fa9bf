// The conversions between 32-bit and 64-bit float patterns, found from the bits.
// A pattern is split into its sign and a size, which is a significand times a power of two; leading_zeros brings the significand of a subnormal
// number to full length, so that the two kinds of numbers go one way: when widening the 32-bit ones, when rounding the 64-bit ones. A pattern
// is put together by adding the exponent's field and the significand: a carry out of the significand then makes the next exponent, and overflow
// makes the infinity.
ghost use Rattle.std.specs.Prelude.{◌≡◌, ◌+◌, ◌*◌, ◌^◌, ◌<◌, ◌≤◌};
ghost use Rattle.std.specs.Float.{binary64};
ghost use Rattle.std.specs.Float.Ieee.{of_bits, to_bits};
ghost use Rattle.std.specs.Float.Ieee.Nearest.{closest};
ghost use Rattle.rules.specs.Floats.{widened, narrowed};
ghost use Rattle.floats.specs.Bits.{Widened, WidenedBits, Narrowed, NarrowedBits};

use names::{
    EXPONENT_STEP, INFINITY, SIGN, THE_NAN, WIDE_EXPONENT_STEP, WIDE_INFINITY, WIDE_NAN, WIDE_SIGN,
};

// From the one format's exponent to the other's, for a significand whose 32 bits have no leading zero.
const EXPONENTS_APART: u32 = 904;

// The f64 pattern of q * 2^(k - 149). The leading zeros of the significand normalise it.
fn widen_finite(q: u32, k: u32) -> u64
    requires q_bound { q < 2 ^ 24 }
    requires k_bound { k < 254 }
    ensures { Widened q k result }
{
    if q == 0 {
        return 0;
    }
    let z = u32::leading_zeros(q);
    ((k + EXPONENTS_APART - z) as u64) * WIDE_EXPONENT_STEP + ((q as u64) << (z + 21))
}

// The f64 pattern, without the sign, of the f32 pattern m, which has none.
fn widen_magnitude(m: u32) -> u64
    requires { m ≤ 0x7f80_0000 }
    ensures { WidenedBits m result }
{
    if m == INFINITY {
        return WIDE_INFINITY;
    }
    if m < EXPONENT_STEP {
        return widen_finite(m, 0);
    }
    widen_finite(m % EXPONENT_STEP + EXPONENT_STEP, m / EXPONENT_STEP - 1)
}

// The f64 pattern of the f32 pattern b, which loses nothing. A NaN gives the one NaN.
pub fn widen(b: u32) -> u64
    ensures { result ≡ to_bits binary64 (widened b) }
{
    let m = b % SIGN;
    if INFINITY < m {
        return WIDE_NAN;
    }
    let r = widen_magnitude(m);
    if b >= SIGN {
        return r + WIDE_SIGN;
    }
    r
}

// n / 2^d to the nearest whole number, a tie to the even one.
fn nearest_shift(n: u64, d: u64) -> u64
    requires le_d { 1 ≤ d }
    requires d_bound { d < 64 }
    ensures { result ≡ closest n (2 ^ d) }
{
    let q = n >> d;
    let r = n - (q << d);
    let h = 1u64 << (d - 1);
    if r < h {
        return q;
    }
    if h < r {
        return q + 1;
    }
    q + q % 2
}

// e is where the number ends, counted up from 2^-1074. From HALF_LEAST on it is at least half of the least 32-bit number; up to NORMAL its
// result is subnormal and keeps a digit for each step; from NORMAL on it keeps 24 of the 63 digits that the leading zeros bring it to.
const HALF_LEAST: u64 = 925;

const NORMAL: u64 = 949;

const DROPPED: u64 = 39;

const DROPPED_BELOW: u64 = NORMAL + DROPPED;

// The exponent's step and the infinity's pattern, in the width of the sum that may pass it.
const STEP: u64 = EXPONENT_STEP as u64;

const OVERFLOW: u64 = INFINITY as u64;

// The f32 pattern nearest to q * 2^(k - 1074), at most the infinity's.
fn narrow_finite(q: u64, k: u64) -> u32
    requires q_bound { q < 2 ^ 53 }
    requires k_bound { k < 2046 }
    ensures { Narrowed q k result }
{
    if q == 0 {
        return 0;
    }
    let z = u64::leading_zeros(q) as u64;
    let e = k + 64 - z;
    if e < HALF_LEAST {
        return 0;
    }
    let n = q << (z - 1);
    if e < NORMAL {
        return nearest_shift(n, DROPPED_BELOW - e) as u32;
    }
    let p = (e - NORMAL) * STEP + nearest_shift(n, DROPPED);
    if p < OVERFLOW {
        return p as u32;
    }
    INFINITY
}

// The f32 pattern nearest to the f64 pattern m, which has no sign.
fn narrow_magnitude(m: u64) -> u32
    requires { m ≤ 0x7ff0_0000_0000_0000 }
    ensures { NarrowedBits m result }
{
    if m == WIDE_INFINITY {
        return INFINITY;
    }
    if m < WIDE_EXPONENT_STEP {
        return narrow_finite(m, 0);
    }
    narrow_finite(
        m % WIDE_EXPONENT_STEP + WIDE_EXPONENT_STEP,
        m / WIDE_EXPONENT_STEP - 1,
    )
}

// The f32 pattern nearest to the f64 pattern b, a tie to the even one. A NaN gives the one NaN.
pub fn narrow(b: u64) -> u32
    ensures { result ≡ narrowed (of_bits binary64 b) }
{
    let m = b % WIDE_SIGN;
    if WIDE_INFINITY < m {
        return THE_NAN;
    }
    let r = narrow_magnitude(m);
    if b >= WIDE_SIGN {
        return r + SIGN;
    }
    r
}
