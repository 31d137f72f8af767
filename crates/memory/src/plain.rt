//! The plain kind: seventeen bytes a cell, sixteen and a state byte, 00h for good, anything else for torn.
ghost use Rattle.std.specs.Prelude.{refl};
ghost use Rattle.std.proofs.Common.{rules};
ghost use Rattle.memory.specs.Layouts.{plain};
ghost use Rattle.memory.specs.CellLaws.{plain_lawful, plain_torn};

use crate::byte_memory::ByteMemory;
use crate::cell::Cell;
use crate::layout::CellLayout;

/// A plain memory.
pub type Plain = ByteMemory<17>;

/// The state byte of a good cell.
const GOOD: u8 = 0;

impl CellLayout<17> for Plain {
    ghost layout = { plain };

    ghost lawful = { plain_lawful };

    ghost torn = { plain_torn };

    fn cell_in(part: &[u8; 17]) -> Cell {
        match part.split_first_chunk::<16>() {
            Some((block, [state])) if *state == GOOD => Cell::Good(*block),
            _ => Cell::Torn,
        }
    }

    fn good_cell(block: &[u8; 16]) -> [u8; 17] {
        let mut cell = [GOOD; 17];
        cell[..16].copy_from_slice(block);
        cell
    }

    ghost sized = { refl };

    ghost positive = { Prim.search rules };

    ghost in_memory = { Prim.search rules };
}
