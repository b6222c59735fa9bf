// The conversions between 32-bit and 64-bit floats, and the sum and product of boosts.
#![tactic(auto)]

pub mod bits;
pub mod sums;
