// The rewriter: rounds over a stored query, all in one lent room. One round is the crate `round`.
#![tactic(auto)]

pub mod rounds;
