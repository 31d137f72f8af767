//! The Data Encryption Algorithm, three times over one block.
#![tactic(auto)]

mod bits;
mod block;
mod boxes;
mod schedule;
mod tables;
pub mod triple;
