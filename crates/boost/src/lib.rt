// Boost numerals: from a text to the bits of the nearest 32-bit float.
#![tactic(auto)]

mod decimal;
mod digits;
pub mod numeral;
mod powers;
mod quick;
mod row;
mod top;
mod wide;
