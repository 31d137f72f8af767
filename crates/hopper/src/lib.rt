//! One hopper without its keys: what follows from its cells, what its blocks read as, what a write stores.
#![tactic(auto)]

mod read;
mod store;
mod window;

pub use blocks::CELLS;
pub use read::read_block;
pub use store::{BlockWrite, accepted_flags, stored};
pub use window::{held, is_sound, stage_in, view};
