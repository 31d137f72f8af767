//! What a hopper decides on a read or a write, from its public state alone: no key is known here, nor the data of a write.
#![tactic(auto)]

mod numbers;
mod read;
mod service;
mod view;
mod write;

pub use view::View;
pub use write::WritePlan;
