//! The block numbers of one list, at most four.
ghost use Rattle.std.specs.Prelude.{◌≤◌, length};

use bounded::Bounded;

/// Up to four block numbers in the order of their list.
#[derive(Clone, Copy)]
pub struct Blocks {
    pub(crate) held: Bounded<u16, 4>,
    ghost few: { length held.items ≤ 4 },
}
