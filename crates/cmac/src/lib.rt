//! CMAC over any block cipher, and the diversified keys made with it.
#![tactic(auto)]

pub mod diversified;
pub mod message;
