//! Triple DES under the cipher interface, with two keys and with three.
#![tactic(auto)]

mod keys;
pub mod three_key;
pub mod two_key;
