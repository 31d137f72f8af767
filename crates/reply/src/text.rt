//! The text of a reply while it grows.
ghost use Rattle.std.specs.Prelude.{◌≤◌, length};

use bounded::Bounded;

/// The group of numbers, and two groups for each of four blocks.
const GROUPS: usize = 9;

/// The numbers of a read's list, and after them the blocks sent so far, in groups of eight bytes. A read has at most four
/// blocks.
#[derive(Clone, Copy)]
pub struct Text {
    pub(crate) held: Bounded<[u8; 8], GROUPS>,
    ghost few: { length held.items ≤ 9 },
}
