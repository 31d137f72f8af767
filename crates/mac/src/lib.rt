//! The card's tags and session keys, over any block cipher.
#![tactic(auto)]

pub mod chain;
pub mod reversal;
pub mod session;
