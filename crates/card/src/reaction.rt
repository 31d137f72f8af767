//! What a hopper does with a command.
ghost use Rattle.card.specs.Outcomes.{done, done_by, polled, reacted, reacted_as, sent_bytes};
ghost use Rattle.card.specs.Reactions.{heard, response};
ghost use Rattle.command.specs.Commands.{asked};
ghost use Rattle.std.specs.Prelude.{◌≡◌, replicate};

use crate::card::Card;
use crate::outcome::Outcome;
use blocklist::FRAME_PLACE;
use blocks::CELLS;
use cipher::{Cipher, KeyError};
use command::Command;
use memory::cell::Cell;
use reply::Packet;
use volatile::Volatile;

/// The length of keys that a card can use.
const KEY_LENGTH: usize = 16;

impl<C: Cipher> Card<'_, C> {
    /// A command that is heard. Polling is answered by `poll`, since all hoppers hear it.
    fn perform(&self, volatile: &mut Volatile, command: Command, sheet: &mut [u64; 16]) -> Outcome
        ensures answer { done result volatile.new ≡ done_by (heard C.enciphered self.now.cells.now volatile.old (asked command.entry)) }
        ensures wiped { sheet.new ≡ replicate 16 0 }
    {
        *sheet = [0; 16];
        match command {
            Command::Read(request) => self.read(volatile, request, sheet),
            Command::Write(request) => self.write(volatile, request, sheet),
            Command::Deafen { .. } => {
                volatile.session.deafen();
                Outcome::silent(0)
            }
            Command::Polling { .. } | Command::Unknown => Outcome::silent(FRAME_PLACE),
        }
    }

    /// A command that names the hopper, whether it is heard or not.
    fn respond(&self, volatile: &mut Volatile, command: Command, sheet: &mut [u64; 16]) -> Outcome
        ensures answer { done result volatile.new ≡ done_by (response C.enciphered self.now.cells.now volatile.old (asked command.entry)) }
        ensures wiped { sheet.new ≡ replicate 16 0 }
    {
        *sheet = [0; 16];
        if !volatile.session.radio.hears(command) {
            return Outcome::silent(FRAME_PLACE);
        }
        self.perform(volatile, command, sheet)
    }
}

/// What a hopper does with a command that names it: its cells are read, its volatile record may change, and the outcome
/// says what to send and what to write. A cipher whose keys are not of 16 bytes is refused.
// It takes a cipher with keys of any length: a type that held their length would ask more of callers.
#[tactic(auto, unfolding(crate::specs::Reactions::reaction))]
pub fn react<C: Cipher>(
    cipher: &C,
    cells: &[Cell; CELLS],
    volatile: &mut Volatile,
    command: Command,
    sheet: &mut [u64; 16],
) -> Result<Outcome, KeyError>
    ensures { reacted_as result volatile.new sheet.new ≡ reacted C.KEY_LEN C.enciphered cells.now volatile.old (asked command.entry) }
{
    let answer = if C::KEY_LEN == KEY_LENGTH {
        Ok(Card { cipher, cells }.respond(volatile, command, sheet))
    } else {
        Err(KeyError::WrongLength)
    };
    *sheet = [0; 16];
    answer
}

/// The reply of a hopper to polling, of its block D_ID, if it hears it.
pub fn poll(volatile: &Volatile, d_id: &[u8; 16], command: Command) -> Option<Packet>
    ensures { sent_bytes result ≡ polled volatile.now d_id.now (asked command.entry) }
{
    match command {
        Command::Polling { request, .. } if volatile.session.radio.hears(command) => {
            Some(Packet::polled(d_id, request == 0x01))
        }
        _ => None,
    }
}
