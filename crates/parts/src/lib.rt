// Parts of the stored form, shared by all that reads or writes it: a part's header, body and rest, and the writers. Proved once over the
// tag.
#![tactic(auto)]

pub mod part;
pub mod write;
