//! Bytes in arrays and blocks: what the ciphers and what stands on them share.
#![tactic(auto)]

mod arrays;
mod blocks;
mod parts;
mod words;

pub use arrays::copied;
pub use blocks::{halves, join, same8, xor8};
pub use parts::tail;
pub use words::joined;
