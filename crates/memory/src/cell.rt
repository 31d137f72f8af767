//! What a block memory is made of, what failing power does to it, and why it turns a call down.

/// A cell as it is read: good, with its sixteen bytes, or torn.
// Not an Option, though it has that shape: the project's rules name both, and a torn cell is not a missing one.
#[derive(Clone, Copy, PartialEq, Eq, Debug)]
pub enum Cell {
    Good([u8; 16]),
    Torn,
}

/// What failing power leaves of the cell that is being written: as before, as written, or torn.
#[derive(Clone, Copy, PartialEq, Eq, Debug)]
pub enum Outcome {
    Old,
    New,
    Torn,
}

/// Why a memory turns a call down: it has no cell of that number.
#[derive(Clone, Copy, PartialEq, Eq, Debug)]
pub enum MemoryError {
    NoSuchCell,
}
