//! A block memory that keeps its cells in bytes, by the layout of its kind.
ghost use Rattle.std.specs.Prelude.{◌≡◌, length};
ghost use Rattle.memory.specs.Answers.{number_of, number_at};
ghost use Rattle.memory.specs.Cells.{cells_written, cells_cut};
ghost use Rattle.memory.specs.Kinds.{held_bytes, held_cells};
ghost use Rattle.memory.specs.Layouts.{bytes_written, BytesCut};
ghost use Rattle.memory.specs.CellLaws.{all_sixteen};

use crate::BlockMemory;
use crate::cell::{Cell, MemoryError, Outcome};
use crate::layout::CellLayout;
use crate::parts::put_part;

/// What failing power leaves in each byte of a torn cell. Any bytes that hold a torn cell would do.
const TORN: u8 = 0xFF;

/// A memory of cells of SIZE bytes each, which owns its bytes. Bytes past the last whole cell belong to none.
// The size names the layout: a type for it would have to stand in a second field, and callers build a memory from its one.
#[derive(Drop)]
pub struct ByteMemory<const SIZE: usize> {
    pub bytes: Vec<u8>,
}

impl<const SIZE: usize> BlockMemory for ByteMemory<SIZE>
where
    ByteMemory<SIZE>: CellLayout<SIZE>,
{
    ghost cells = { held_cells ⟦<Self as CellLayout<SIZE>>⟧.layout };

    ghost sixteen = { λ memory. all_sixteen _ ⟦<Self as CellLayout<SIZE>>⟧.lawful (held_bytes memory) };

    fn count(&self) -> usize {
        self.bytes.len() / SIZE
    }

    fn read(&self, n: usize) -> Result<Cell, MemoryError> {
        let (parts, _) = self.bytes.as_chunks::<SIZE>();
        let part = parts.get(n).ok_or(MemoryError::NoSuchCell)?;
        Ok(Self::cell_in(part))
    }

    fn write(&mut self, n: usize, block: &[u8; 16]) -> Result<(), MemoryError>
        ensures after { let layout = ⟦<Self as CellLayout<SIZE>>⟧.layout in held_cells layout self.new ≡ cells_written (held_cells layout self.old) n block.now }
        ensures number { number_of result ≡ number_at (length (held_cells ⟦<Self as CellLayout<SIZE>>⟧.layout self.old)) n }
        ensures raw { held_bytes self.new ≡ bytes_written ⟦<Self as CellLayout<SIZE>>⟧.layout (held_bytes self.old) n block.now }
    {
        put_part(self.bytes.as_mut_slice(), n, &Self::good_cell(block))
    }

    fn cut_write(&mut self, n: usize, block: &[u8; 16], outcome: Outcome) -> Result<(), MemoryError>
        ensures after { let layout = ⟦<Self as CellLayout<SIZE>>⟧.layout in held_cells layout self.new ≡ cells_cut (held_cells layout self.old) n block.now outcome }
        ensures number { number_of result ≡ number_at (length (held_cells ⟦<Self as CellLayout<SIZE>>⟧.layout self.old)) n }
        ensures raw { BytesCut ⟦<Self as CellLayout<SIZE>>⟧.layout (held_bytes self.old) (held_bytes self.new) n block.now outcome }
    {
        match outcome {
            Outcome::Old => self.read(n).map(|_| ()),
            Outcome::New => self.write(n, block),
            Outcome::Torn => put_part(self.bytes.as_mut_slice(), n, &[TORN; SIZE]),
        }
    }
}
