//! What blocks read as.
ghost use Rattle.hopper.specs.ReadsAs.{check_block, reads_as};
ghost use Rattle.std.specs.Prelude.{◌≡◌};

use crate::window::held;
use blocks::{CELLS, cell_of, counter_block};
use decision::View;
use memory::cell::Cell;
use volatile::Session;

/// SYS_C: the system code.
const SYSTEM: [u8; 16] = [0x88, 0xB4, 0, 0, 0, 0, 0, 0, 0, 0, 0, 0, 0, 0, 0, 0];

/// What a block reads as; a tag, which is not known here, as zeros.
#[tactic(auto, unfolding(crate::specs::ReadsAs::reads_as))]
pub fn read_block(cells: &[Cell; CELLS], view: &View, session: &Session, block: u16) -> [u8; 16]
    ensures { result ≡ reads_as cells.now view.now session.now block }
{
    match block {
        0x85 => SYSTEM,
        0x87 => [0; 16],
        0x90 => counter_block(view.counter),
        0x92 => session.state_block(),
        0xA0 => check_block(view.sound),
        // Tried with `map_or` and a closure: the proof of this arm did not close.
        _ => match cell_of(block) {
            Some(cell) => held(cells, cell),
            None => [0; 16],
        },
    }
}

/// CRC_CHECK.
fn check_block(sound: bool) -> [u8; 16]
    ensures { result ≡ check_block sound }
{
    let first = if sound { 0x00 } else { 0xFF };
    [first, 0, 0, 0, 0, 0, 0, 0, 0, 0, 0, 0, 0, 0, 0, 0]
}
