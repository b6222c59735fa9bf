// Entries of a record: what an entry has, whether one has a field and a text, and where they stand by a hash of both. It asks for checked bytes
// and tests nothing again.
#![tactic(auto)]

pub mod entry;
pub mod here;
pub mod slots;
