//! What the buffer still owes when power comes.
ghost use Rattle.journal.specs.Burns.{recovered};
ghost use Rattle.std.specs.Prelude.{◌≡◌};

use crate::burn::{Burn, Phase};
use crate::marks::{is_mark, noted_by};
use memory::cell::Cell;

/// The burn to go on with, if the two cells of the buffer hold a marked write.
pub fn recovered(buffer: Cell, mark: Cell) -> Option<Burn>
    ensures { result ≡ recovered buffer mark }
{
    match (buffer, mark) {
        (Cell::Good(bytes), Cell::Good(mark)) if is_mark(&mark) => Some(Burn {
            phase: Phase::Home,
            entry: noted_by(&mark, bytes),
        }),
        _ => None,
    }
}
