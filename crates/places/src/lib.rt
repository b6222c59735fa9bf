// Places in one room: where a part that stands there ends, bytes moved from one place to another, and what stands where afterwards.
#![tactic(auto)]

pub mod ends;
pub mod place;
