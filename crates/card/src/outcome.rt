//! What a card gives back for a command.
ghost use Rattle.blocklist.specs.Faults.{told};
ghost use Rattle.card.specs.Outcomes.{outcome, refused_outcome, served_outcome, silent_outcome};
ghost use Rattle.reply.specs.Packets.{packet_in};
ghost use Rattle.std.specs.Prelude.{◌≡◌};

use blocklist::Refusal;
use hopper::BlockWrite;
use reply::Packet;

/// A reply or none; of a refusal its place and element, 0 if there is none; a write for the journal or none.
// Place and element are numbers, 0 for none, as the caller gets them: public fields take any byte, and an enum would take fewer.
#[derive(Clone, Copy)]
pub struct Outcome {
    pub reply: Option<Packet>,
    pub place: u8,
    pub element: u8,
    pub write: Option<BlockWrite>,
}

impl Outcome {
    /// A refusal: an error reply to a command of that reply code, or silence.
    // The code is a byte of the wire, as `Packet::status` takes it.
    pub(crate) fn refused(code: u8, identity: &[u8; 8], refusal: Refusal) -> Outcome
        ensures { outcome result ≡ refused_outcome code identity.now (told refusal) }
    {
        match refusal {
            Refusal::Silence { place } => Outcome::silent(place),
            Refusal::Error(fault) => Outcome {
                reply: Some(Packet::status(code, identity, fault.flags)),
                place: fault.place,
                element: fault.element,
                write: None,
            },
        }
    }

    /// Nothing is sent.
    pub(crate) fn silent(place: u8) -> Outcome
        ensures { outcome result ≡ silent_outcome place }
    {
        Outcome {
            reply: None,
            place,
            element: 0,
            write: None,
        }
    }

    /// A command that is carried out.
    pub(crate) fn served(reply: Packet, write: Option<BlockWrite>) -> Outcome
        ensures { outcome result ≡ served_outcome (packet_in reply) write }
    {
        Outcome {
            reply: Some(reply),
            place: 0,
            element: 0,
            write,
        }
    }
}
