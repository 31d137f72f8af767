//! The time slot in which a reply to a polling command is sent.
ghost use Rattle.command.specs.Slots.{slot_of};
ghost use Rattle.std.specs.Prelude.{◌≡◌};

/// The slot for a random byte, `slots` as the polling command has it: the number of the last slot.
pub fn slot(draw: u8, slots: u8) -> u8
    ensures { result ≡ slot_of draw slots }
{
    (u16::from(draw) % (u16::from(slots) + 1)) as u8
}
