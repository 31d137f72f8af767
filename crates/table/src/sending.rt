//! Replies on their way into reply memory.
ghost use Rattle.reply.specs.Packets.{packet_in};
ghost use Rattle.table.specs.Sendings.{fits, nothing_in, report_of, sent_in, sent_on};
ghost use Rattle.std.specs.Prelude.{◌≡◌, ℕ, List, if◌then◌else◌};

use crate::report::Report;
use frame::put_frame;
use reply::Packet;

/// How many frames lie at the start of reply memory, how many bytes they take, and the slot of each.
// The slots are an array with 0 after the last, as they are reported; a bounded buffer would have to be filled up for that.
#[derive(Clone, Copy)]
pub struct Sending {
    pub frames: usize,
    pub bytes: usize,
    pub slots: [u8; 4],
}

impl Sending {
    /// No frame yet.
    pub fn nothing() -> Sending
        ensures { (λ memory. sent_in memory result) ≡ nothing_in }
    {
        Sending {
            frames: 0,
            bytes: 0,
            slots: [0; 4],
        }
    }

    /// The frame of a packet behind the others; nothing where it does not fit.
    pub fn send(&mut self, memory: &mut [u8], packet: &Packet, slot: u8)
        ensures { sent_in memory.new self.new ≡ (if fits (sent_in memory.old self.old) (packet_in packet.now) then sent_on (sent_in memory.old self.old) (packet_in packet.now) slot else sent_in memory.old self.old) }
    {
        if self.frames >= 4 {
            return;
        }
        if let Ok(end) = put_frame(memory, self.bytes, packet.as_slice()) {
            self.slots[self.frames] = slot;
            self.frames += 1;
            self.bytes = end;
        }
    }

    /// What is reported of it, with the place and the element of a refusal.
    // The fields stand in the report too: in both they are public.
    pub fn report(&self, place: u8, element: u8) -> Report
        ensures { (memory : List ℕ) → result ≡ report_of (sent_in memory self.now) place element }
    {
        Report {
            frames: self.frames,
            bytes: self.bytes,
            slots: self.slots,
            place,
            element,
        }
    }
}
