//! What a block cipher on eight bytes is to everything above it.
#![tactic(auto)]

mod block_cipher;
mod key_bytes;
mod key_error;
mod sheet;

pub use block_cipher::Cipher;
pub use key_bytes::key_bytes_of;
pub use key_error::KeyError;
pub use sheet::Sheet;
