//! Block memories: a fixed number of cells, each good with sixteen bytes, or torn.
#![tactic(auto)]

ghost use Rattle.std.specs.Prelude.{◌≡◌, List, length};
ghost use Rattle.std.specs.List.{AllByRecursion, slice_get};
ghost use Rattle.memory.specs.declared.cell.Cell.{Cell};
ghost use Rattle.memory.specs.Answers.{answered, number_of, number_at};
ghost use Rattle.memory.specs.Cells.{cells_written, cells_cut, SixteenBytes};

pub mod byte_memory;
pub mod cell;
pub mod checked;
pub mod kinds;
pub mod layout;
mod parts;
pub mod plain;

use cell::{Cell, MemoryError, Outcome};

/// A memory of a fixed number of cells. What its calls do is said of the list of its cells alone, so that whoever
/// uses a memory need not know how it keeps them.
pub trait BlockMemory {
    /// The cells, in order.
    ghost cells: { Self → List Cell };

    /// How many cells there are.
    fn count(&self) -> usize
        ensures { result ≡ length (cells self.now) };

    /// The cell n; turned down at or above the count.
    fn read(&self, n: usize) -> Result<Cell, MemoryError>
        ensures value { answered result ≡ slice_get (cells self.now) n }
        ensures number { number_of result ≡ number_at (length (cells self.now)) n };

    /// Makes the cell n good with these bytes, and changes no other; turned down without change at or above the count.
    fn write(&mut self, n: usize, block: &[u8; 16]) -> Result<(), MemoryError>
        ensures after { cells self.new ≡ cells_written (cells self.old) n block.now }
        ensures number { number_of result ≡ number_at (length (cells self.old)) n };

    /// A write during which power fails: the cell n is left old, new or torn, as the outcome says, and the others as
    /// before; turned down without change at or above the count.
    fn cut_write(&mut self, n: usize, block: &[u8; 16], outcome: Outcome) -> Result<(), MemoryError>
        ensures after { cells self.new ≡ cells_cut (cells self.old) n block.now outcome }
        ensures number { number_of result ≡ number_at (length (cells self.old)) n };

    /// Every good cell has sixteen bytes, in each state of the memory, also one that no call of this trait made.
    ghost sixteen: { (memory : Self) → AllByRecursion SixteenBytes (cells memory) };
}
