//! What a hopper keeps while it has power, and forgets without.
#![tactic(auto)]

mod radio;
mod record;
mod state;

pub use radio::Radio;
pub use record::{Session, Volatile};
