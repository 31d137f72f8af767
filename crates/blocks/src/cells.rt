//! Where blocks lie.
ghost use Rattle.blocks.specs.Cells.{cell_number, cell_of, first_cell};
ghost use Rattle.std.specs.Prelude.{◌≡◌};

/// The cells of one hopper.
pub const CELLS: usize = 22;

/// The cell of the card key, CK.
pub const CARD_KEY_CELL: usize = 19;

/// The cell of the configuration, MC.
pub const CONFIG_CELL: usize = 20;

/// The cell of the write counter, WCNT.
pub const COUNTER_CELL: usize = 21;

/// The place of a block among its hopper's cells; none for a block that is not stored.
pub fn cell_of(block: u16) -> Option<usize>
    ensures { result ≡ cell_of block }
{
    match block {
        0x00..=0x0E => Some(usize::from(block)),
        0x82 => Some(15),
        0x83 => Some(16),
        0x84 => Some(17),
        0x86 => Some(18),
        0x87 => Some(CARD_KEY_CELL),
        0x88 => Some(CONFIG_CELL),
        0x90 => Some(COUNTER_CELL),
        _ => None,
    }
}

/// Where a hopper's cells begin in the memory.
pub fn first_cell(hopper: u8) -> usize
    ensures { result ≡ first_cell hopper }
{
    CELLS * usize::from(hopper)
}

/// The cell of a hopper's block in the memory.
pub fn cell_number(hopper: u8, block: u16) -> Option<usize>
    ensures { result ≡ cell_number hopper block }
{
    cell_of(block).map(|cell| first_cell(hopper) + cell)
}
