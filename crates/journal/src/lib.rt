//! The journal: a write is laid into a buffer and marked there before it goes home, so that it is done whole or not at all.
#![tactic(auto)]

mod burn;
mod entry;
mod marks;
mod recovery;
mod steps;

pub use burn::{Burn, Phase};
pub use entry::{BUFFER_CELL, Entry, MARK_CELL};
pub use marks::home_of;
pub use recovery::recovered;
pub use steps::burns_left;
