// All selectors of a site in one call, proved equal to the definitions of `rules`. The list is checked once and so is each query. Every record is then
// asked of all queries at once: a mask for each hash says which of them can want an entry, and the others are answered with no look at the record. The
// answers for the first records stand in the lent room, a bit for each query, until the queries have their turns.
#![tactic(auto)]

pub mod all;
mod ask;
mod bits;
mod cut;
mod plan;
mod turn;
