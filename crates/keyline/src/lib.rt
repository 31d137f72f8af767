//! One line of the office's key list in, one line out: a master key and an ID give the ID and its diversified key.
#![tactic(auto)]

mod derive;
pub mod example;
mod form;
mod hex;
pub mod line;
