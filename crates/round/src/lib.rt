// One round of the rewriter: a stored query is rewritten once, children first, in place.
#![tactic(auto)]

mod clauses;
pub mod once;
mod over;
