//! One hopper's card: a command that names it is decided and then carried out.
#![tactic(auto)]

mod card;
mod order;
mod outcome;
mod reaction;
mod read;
mod show;
mod signature;
mod write;

pub use outcome::Outcome;
pub use reaction::{poll, react};
