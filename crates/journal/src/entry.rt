//! What the journal notes.
use blocks::CELLS;
use hopper::BlockWrite;

/// The cell for the new bytes of a block, behind those of the four hoppers.
pub const BUFFER_CELL: usize = 4 * CELLS;

/// The cell for the mark, behind it.
pub const MARK_CELL: usize = BUFFER_CELL + 1;

/// A write of one hopper.
#[derive(Clone, Copy)]
pub struct Entry {
    pub hopper: u8,
    pub write: BlockWrite,
}
