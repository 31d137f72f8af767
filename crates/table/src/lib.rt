//! What an indicator keeps besides its memory: four volatile records, the mode, and the reply that it owes.
#![tactic(auto)]

mod mode;
mod record;
mod records;
mod report;
mod sending;
mod slip;

pub use mode::{Cause, Mode, Work};
pub use record::Table;
pub use records::blank;
pub use report::Report;
pub use sending::Sending;
pub use slip::Slip;
