//! How a kind of memory lays a cell out in bytes.
ghost use Rattle.std.specs.Prelude.{◌≡◌, ◌^◌, ◌<◌, replicate};
ghost use Rattle.memory.specs.declared.cell.Cell.TheVariants.{Torn};
ghost use Rattle.memory.specs.Layouts.{Layout};
ghost use Rattle.memory.specs.CellLaws.{Lawful};

use crate::cell::Cell;

/// A layout of cells in SIZE bytes each.
pub trait CellLayout<const SIZE: usize> {
    /// The layout, as the definitions know it.
    ghost layout: { Layout };

    /// A good cell reads as what was written, and has sixteen bytes.
    ghost lawful: { Lawful layout };

    /// Bytes of FFh hold a torn cell.
    ghost torn: { layout.cell_in (replicate layout.size 255) ≡ Torn };

    /// What the bytes of a cell hold.
    fn cell_in(part: &[u8; SIZE]) -> Cell
        ensures { result ≡ layout.cell_in part.now };

    /// The bytes of a good cell.
    fn good_cell(block: &[u8; 16]) -> [u8; SIZE]
        ensures { result ≡ layout.good_cell block.now };

    /// A cell takes as many bytes as the layout says,
    ghost sized: { layout.size ≡ SIZE };

    /// at least one,
    ghost positive: { 0 < SIZE };

    /// and no more than memory has.
    ghost in_memory: { SIZE < 2 ^ 63 };
}
