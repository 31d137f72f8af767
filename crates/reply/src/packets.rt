//! The packets of replies.
ghost use Rattle.std.specs.Prelude.{◌≡◌, ◌+◌, ◌≤◌, [], ◌++◌, length};
ghost use Rattle.reply.specs.Texts.{text_in};
ghost use Rattle.reply.specs.Packets.{packet_in, polled_packet, shown_packet, status_packet};

use crate::code::{POLLING_REPLY, READ_REPLY};
use crate::packet::Packet;
use crate::text::Text;
use blocklist::Flags;
use bounded::Bounded;

impl Packet {
    /// No bytes yet.
    fn empty() -> Packet
        ensures { packet_in result ≡ [] }
    {
        Packet {
            held: Bounded::new(),
        }
    }

    /// A run of bytes more.
    fn add(&mut self, run: &[u8])
        requires { length (packet_in self.old) + length run.now ≤ 76 }
        ensures { packet_in self.new ≡ packet_in self.old ++ run.now }
    {
        self.held.extend_from_slice(run);
    }

    /// Code, identity and flags.
    pub fn status(code: u8, identity: &[u8; 8], flags: Flags) -> Packet
        ensures bytes { packet_in result ≡ status_packet code identity.now flags }
        ensures size { length (packet_in result) ≡ 11 }
    {
        let mut packet = Packet::empty();
        packet.add(&[code]);
        packet.add(identity);
        packet.add(&[flags.sf1, flags.sf2]);
        packet
    }

    /// The reply to polling, of the block D_ID.
    pub fn polled(d_id: &[u8; 16], with_system: bool) -> Packet
        ensures { packet_in result ≡ polled_packet d_id.now with_system }
    {
        let mut packet = Packet::empty();
        packet.add(&[POLLING_REPLY]);
        packet.add(d_id);
        if with_system {
            packet.add(&[0x88, 0xB4]);
        }
        packet
    }

    /// The reply to a good read: the blocks of a text.
    pub fn shown(identity: &[u8; 8], text: &Text) -> Packet
        ensures { packet_in result ≡ shown_packet identity.now (text_in text.now) }
    {
        let mut packet = Packet::status(READ_REPLY, identity, Flags { sf1: 0, sf2: 0 });
        let sent = text.sent();
        packet.add(&[(sent.len() / 2) as u8]);
        packet.add(sent.as_flattened());
        packet
    }

    /// The bytes.
    pub fn as_slice(&self) -> &[u8]
        ensures bytes { result.now ≡ packet_in self.now }
        ensures few { length result.now ≤ 76 }
    {
        self.held.as_slice()
    }
}
