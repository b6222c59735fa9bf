// Selection: which records of a catalogue list a stored query is true of, proved equal to the definitions of `rules`.
// Bytes are checked once, by the crates `stored` and `lists`; `matching` then answers for each record that has something which `wanted` says
// the query looks for.
#![tactic(auto)]

mod ask;
pub mod select;
