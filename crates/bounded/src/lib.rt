//! Items in memory of a fixed size, with their number beside them.
#![tactic(auto)]

mod bounded;

pub use bounded::Bounded;
