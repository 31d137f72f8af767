//! A packet to send.
ghost use Rattle.std.specs.Prelude.{◌≤◌, length};

use bounded::Bounded;

/// The longest reply: code, identity, flags, a number, and four blocks.
const LONGEST: usize = 76;

/// A packet of at most 76 bytes.
#[derive(Clone, Copy)]
pub struct Packet {
    pub(crate) held: Bounded<u8, LONGEST>,
    ghost few: { length held.items ≤ 76 },
}
