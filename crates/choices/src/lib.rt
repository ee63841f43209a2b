// The decisions that the rows of document 01's event table make, on codes. Each is total and promises the definition of its
// name in rules/specs. `_` takes the other codes of the list and every byte outside it.
#![tactic(auto)]

pub mod acquire;
pub mod grant;
pub mod messages;
pub mod name;
pub mod probe;
pub mod release;
pub mod settle;
