// Matching: whether a stored query is true of a record of a catalogue list, proved equal to the definition of `rules`.
// It asks for checked bytes and tests nothing again.
#![tactic(auto)]

pub mod level;
mod order;
mod phrase;
mod range;
mod record;
mod term;
pub mod truth;
