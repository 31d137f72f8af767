//! The checked kind: eighteen bytes a cell, sixteen and their CRC, high byte first; torn exactly if the CRC differs.
ghost use Rattle.std.specs.Prelude.{refl};
ghost use Rattle.std.proofs.Common.{rules};
ghost use Rattle.memory.specs.Layouts.{checked};
ghost use Rattle.memory.specs.CellLaws.{checked_lawful, checked_torn};

use crate::byte_memory::ByteMemory;
use crate::cell::Cell;
use crate::layout::CellLayout;
use crc::crc_of;

/// A checked memory.
pub type Checked = ByteMemory<18>;

impl CellLayout<18> for Checked {
    ghost layout = { checked };

    ghost lawful = { checked_lawful };

    ghost torn = { checked_torn };

    fn cell_in(part: &[u8; 18]) -> Cell {
        match part.split_first_chunk::<16>() {
            Some((block, [high, low])) if u16::from_be_bytes([*high, *low]) == crc_of(block) =>
                Cell::Good(*block),
            _ => Cell::Torn,
        }
    }

    fn good_cell(block: &[u8; 16]) -> [u8; 18] {
        let mut cell = [0; 18];
        cell[16..].copy_from_slice(&crc_of(block).to_be_bytes());
        cell[..16].copy_from_slice(block);
        cell
    }

    ghost sized = { refl };

    ghost positive = { Prim.search rules };

    ghost in_memory = { Prim.search rules };
}
