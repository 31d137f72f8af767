//! The commands, each taken from a packet.
ghost use Rattle.std.specs.Prelude.{◌≡◌, ◌≤◌, length, Some, None, if◌then◌else◌, nat_le};
ghost use Rattle.std.specs.Option.{option_map};
ghost use Rattle.command.specs.Commands.{asked, asked_in, carried, carried_in, deafening, identity_in, parsed, poll_fits, slots_fit, system_fits};
ghost use Rattle.frame.specs.Frames.{unframed};

use crate::request::Request;
use byte_arrays::copied;
use frame::take_packet;

/// A command. What fits none of the others is unknown.
#[derive(Clone, Copy)]
pub enum Command<'a> {
    Polling { request: u8, slots: u8 },
    Read(Request<'a>),
    Write(Request<'a>),
    Deafen { identity: [u8; 8] },
    Unknown,
}

/// Whether a system code is the one served, FFh standing for either byte.
fn is_served(high: u8, low: u8) -> bool
    ensures { result ≡ system_fits high low }
{
    matches!(high, 0x88 | 0xFF) && matches!(low, 0xB4 | 0xFF)
}

/// Whether a number of time slots may be asked for, by the number of the last slot.
fn is_slot_count(slots: u8) -> bool
    ensures { result ≡ slots_fit slots }
{
    matches!(slots, 0x00 | 0x01 | 0x03 | 0x07 | 0x0F)
}

/// A polling command: five bytes with a system code and slots that fit.
fn polling_of(packet: &[u8]) -> Option<Command<'_>>
    ensures { option_map asked result ≡ (if poll_fits packet.now then Some (parsed packet.now) else None) }
{
    let [0x00, high, low, request, slots] = packet else {
        return None;
    };
    if !is_served(*high, *low) || !is_slot_count(*slots) {
        return None;
    }
    Some(Command::Polling {
        request: *request,
        slots: *slots,
    })
}

/// The identity after the command code, if the packet has it.
fn identity_of(packet: &[u8]) -> Option<[u8; 8]>
    ensures { result ≡ (if nat_le 9 (length packet.now) then Some (identity_in packet.now) else None) }
{
    copied(packet.get(1..9)?)
}

/// A command that deafens the card: the identity, and whatever follows it.
fn deafening_of(packet: &[u8]) -> Option<Command<'_>>
    ensures { option_map asked result ≡ (if nat_le 9 (length packet.now) then Some (deafening (identity_in packet.now)) else None) }
{
    let identity = identity_of(packet)?;
    Some(Command::Deafen { identity })
}

/// The parts of a read or a write, if the packet has at least so many bytes.
fn request_of(packet: &[u8], least: usize) -> Option<Request<'_>>
    requires { 13 ≤ least }
    ensures { option_map carried result ≡ (if nat_le least (length packet.now) then Some (carried_in packet.now) else None) }
{
    if packet.len() < least {
        return None;
    }
    let identity = identity_of(packet)?;
    let [services, low, high, blocks, rest @ ..] = packet.get(9..)? else {
        return None;
    };
    Some(Request {
        identity,
        services: *services,
        service: u16::from_le_bytes([*low, *high]),
        blocks: *blocks,
        rest,
    })
}

impl<'a> Command<'a> {
    /// The command in received bytes; what is no frame holds none.
    pub fn heard(bytes: &'a [u8]) -> Command<'a>
        ensures { asked result ≡ asked_in (unframed bytes.now) }
    {
        take_packet(bytes).map_or(Command::Unknown, Command::parse)
    }

    /// The command that a packet asks for.
    pub fn parse(packet: &'a [u8]) -> Command<'a>
        ensures { asked result ≡ parsed packet.now }
    {
        match packet {
            [0x00, ..] => polling_of(packet).unwrap_or(Command::Unknown),
            [0x06, ..] => request_of(packet, 15).map_or(Command::Unknown, Command::Read),
            [0x08, ..] => request_of(packet, 31).map_or(Command::Unknown, Command::Write),
            [0x10, ..] => deafening_of(packet).unwrap_or(Command::Unknown),
            _ => Command::Unknown,
        }
    }
}
