//! What a read and a write carry.

/// The parts of a read or a write.
#[derive(Clone, Copy)]
pub struct Request<'a> {
    pub identity: [u8; 8],
    pub services: u8,
    pub service: u16,
    pub blocks: u8,
    /// The block list, and in a write the data after it.
    pub rest: &'a [u8],
}
