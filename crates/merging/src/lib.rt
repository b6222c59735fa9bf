// The merging of the clauses of a Boolean, in their place.
#![tactic(auto)]

pub mod merge;
mod signatures;
