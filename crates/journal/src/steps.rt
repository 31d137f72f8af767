//! What each burn writes, and what follows it.
ghost use Rattle.journal.specs.Burns.{burns_left, content, following, target};
ghost use Rattle.std.specs.Prelude.{◌≡◌};

use crate::burn::{Burn, Phase};
use crate::entry::{BUFFER_CELL, Entry, MARK_CELL};
use crate::marks::{home_of, mark_bytes};
use blocks::{COUNTER_CELL, counter_block, first_cell};

impl Burn {
    /// The cell that the burn writes.
    pub fn target(&self) -> usize
        ensures { result ≡ target self.now.phase self.now.entry }
    {
        let first = first_cell(self.entry.hopper);
        match self.phase {
            Phase::Buffer => BUFFER_CELL,
            Phase::Mark | Phase::Clear => MARK_CELL,
            Phase::Home => first + home_of(self.entry.write.block),
            Phase::Count => first + COUNTER_CELL,
        }
    }

    /// The bytes that it writes there.
    pub fn content(&self) -> [u8; 16]
        ensures { result ≡ content self.now.phase self.now.entry }
    {
        match self.phase {
            Phase::Buffer | Phase::Home => self.entry.write.bytes,
            Phase::Mark => mark_bytes(&self.entry),
            Phase::Count => counter_block(self.entry.write.counter),
            Phase::Clear => [0; 16],
        }
    }

    /// The burn that follows.
    pub fn following(&self) -> Option<Burn>
        ensures { result ≡ following self.now.phase self.now.entry }
    {
        let phase = match self.phase {
            Phase::Buffer => Phase::Mark,
            Phase::Mark => Phase::Home,
            Phase::Home => Phase::Count,
            Phase::Count => Phase::Clear,
            Phase::Clear => return None,
        };
        Some(Burn {
            phase,
            entry: self.entry,
        })
    }
}

/// How many burns are left.
pub fn burns_left(next: &Option<Burn>) -> u8
    ensures { result ≡ burns_left next.now }
{
    match next {
        None => 0,
        Some(burn) => match burn.phase {
            Phase::Buffer => 5,
            Phase::Mark => 4,
            Phase::Home => 3,
            Phase::Count => 2,
            Phase::Clear => 1,
        },
    }
}
