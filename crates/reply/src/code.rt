//! The codes that replies begin with.
// Bytes of the wire: an enum would only be turned back into them, and `Packet::status`, which is public, takes any byte.

/// The code of replies to polling.
pub(crate) const POLLING_REPLY: u8 = 0x01;

/// The code of replies to reads.
pub const READ_REPLY: u8 = 0x07;

/// The code of replies to writes.
pub const WRITE_REPLY: u8 = 0x09;
