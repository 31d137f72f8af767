//! The burns of a write.
use crate::entry::Entry;

/// The five burns in their order.
// The phase lies as data in a value that is copied and needs no heap from one call to the next, so it is no closure.
#[derive(Clone, Copy)]
pub enum Phase {
    /// the new bytes into the buffer
    Buffer,
    /// the mark beside them: from here on the write is done, if need be by recovery
    Mark,
    /// the new bytes home
    Home,
    /// the new counter home
    Count,
    /// the mark cleared
    Clear,
}

/// A burn that is owed: the next one of a write.
#[derive(Clone, Copy)]
pub struct Burn {
    pub phase: Phase,
    pub entry: Entry,
}
