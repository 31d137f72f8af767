//! What an accepted write stores.
ghost use Rattle.hopper.specs.Stores.{accepted_flags, stored};
ghost use Rattle.std.specs.Prelude.{◌≡◌};

use blocklist::Flags;
use blocks::counter_block;
use decision::View;

/// A write for the journal: the block, its new bytes, and the counter that goes with them.
#[derive(Clone, Copy)]
pub struct BlockWrite {
    pub block: u16,
    pub bytes: [u8; 16],
    pub counter: u32,
}

/// What an accepted write of a block stores, if anything.
pub fn stored(view: &View, block: u16, sent: &[u8; 16]) -> Option<BlockWrite>
    ensures { result ≡ stored view.now block sent.now }
{
    let counter = view.config.counter_after(block, view.stage, view.counter);
    let (block, bytes) = match block {
        0x88 => (block, view.config.merged(view.stage, sent)),
        0x00..=0x0E | 0x82 | 0x84 | 0x86..=0x87 => (block, *sent),
        0x92 if view.config.signs_state() => (0x90, counter_block(counter)),
        _ => return None,
    };
    Some(BlockWrite {
        block,
        bytes,
        counter,
    })
}

/// The flags of the reply to an accepted write.
pub fn accepted_flags(view: &View, block: u16) -> Flags
    ensures { result ≡ accepted_flags view.now block }
{
    if view.config.warns(block, view.stage, view.counter) {
        Flags {
            sf1: 0xFF,
            sf2: 0x71,
        }
    } else {
        Flags { sf1: 0, sf2: 0 }
    }
}
