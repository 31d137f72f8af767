//! A planned write.

/// What a write comes down to: the reply's identity, the block and its data.
#[derive(Clone, Copy)]
pub(crate) struct Order {
    pub identity: [u8; 8],
    pub block: u16,
    pub sent: [u8; 16],
}
