// The show program's work: an input of two lines becomes the text of its query as written and as rewritten, or of its refusal.
#![tactic(auto)]

mod answer;
pub mod call;
mod lines;
mod node;
mod put;
mod query;
mod text;
