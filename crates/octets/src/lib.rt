// Bytes: numbers, flags, events, the length before a record, and the trail's versions. Every public function is total: past
// the end of a slice it reads 0 and writes nothing.
#![tactic(auto)]

pub mod limits;
pub mod page;
pub mod read;
mod write;
