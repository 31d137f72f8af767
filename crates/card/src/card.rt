//! What a card works with besides its volatile record.
ghost use Rattle.std.specs.Prelude.{◌≡◌};

use blocks::CELLS;
use cipher::Cipher;
use memory::cell::Cell;

/// The cells of a hopper, and a cipher whose keys are of sixteen bytes.
// The volatile record is lent to each method beside it, so that a clause can say what becomes of it; and so is the sheet, since
// a struct that held it could not be lent for reading while it is used.
#[derive(Drop)]
pub(crate) struct Card<'a, C: Cipher> {
    pub cipher: &'a C,
    pub cells: &'a [Cell; CELLS],
    ghost sixteen: { C.KEY_LEN ≡ 16 },
}
