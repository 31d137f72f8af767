//! Bytes as capital hexadecimal digits, as the lines of our programs have them: read, and shown.
#![tactic(auto)]

mod reading;
mod shown;

pub use reading::{Bytes, bytes_of};
pub use shown::Hex;
