// The clauses of a query, in two passes over the tokens: one measures them or refuses, one writes their stored form.
// Both are proved equal to the definition of `rules`.
#![tactic(auto)]

mod kinds;
mod leaf;
pub mod measure;
pub mod scope;
mod start;
pub mod write;
