// The parser: a text under a setup becomes the stored form of its query, proved equal to the definition of `rules`.
#![tactic(auto)]

pub mod parse;
mod setup;
