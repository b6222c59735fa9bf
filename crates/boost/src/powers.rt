// Powers of five and of ten.
ghost use Rattle.std.specs.Prelude.{◌≡◌, ◌^◌, ◌≤◌};

// The largest powers that a row is multiplied and divided by at once.
pub const TENS_MOST: u32 = 14;

pub const FIVES_MOST: u32 = 20;

// 5^20.
pub const ALL_FIVES: u64 = 95367431640625;

// 5^n.
// Stays: each is one call of the library; one over the base would ask callers for base ^ n < 2 ^ 64 in place of a plain bound.
pub fn five(n: u32) -> u64
    requires { n ≤ 20 }
    ensures { result ≡ 5 ^ n }
{
    5u64.pow(n)
}

// 10^n.
pub fn ten(n: u32) -> u64
    requires { n ≤ 14 }
    ensures { result ≡ 10 ^ n }
{
    10u64.pow(n)
}
