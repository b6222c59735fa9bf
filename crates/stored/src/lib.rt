// The reader of stored queries, proved equal to the definitions of `rules`.
#![tactic(auto)]

pub mod read;
