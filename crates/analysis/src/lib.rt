// Text analysis: the tokens of a text under an analyzer.
#![tactic(auto)]

mod stops;
pub mod tokens;
mod words;
