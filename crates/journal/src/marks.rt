//! Marks.
ghost use Rattle.journal.specs.Marks.{ends_clear, home_of, is_mark, mark_bytes, may_mark, noted_by};
ghost use Rattle.std.specs.Prelude.{◌≡◌, ◌<◌};

use crate::entry::Entry;
use blocks::{COUNTER_CELL, cell_of, three_byte_number};
use hopper::BlockWrite;

/// The first byte of a mark.
const MARK: u8 = 0xA5;

/// Whether a mark may name a block.
fn may_mark(block: u8) -> bool
    ensures { result ≡ may_mark block }
{
    matches!(block, 0x00..=0x0E | 0x82 | 0x84 | 0x86..=0x88 | 0x90)
}

/// Whether the bytes after the counter are all zero.
fn ends_clear(mark: &[u8; 16]) -> bool
    ensures { result ≡ ends_clear mark.now }
{
    matches!(mark, [_, _, _, _, _, _, 0, 0, 0, 0, 0, 0, 0, 0, 0, 0])
}

/// Whether sixteen bytes are a mark.
pub(crate) fn is_mark(mark: &[u8; 16]) -> bool
    ensures { result ≡ is_mark mark.now }
{
    mark[0] == MARK && mark[1] < 4 && may_mark(mark[2]) && ends_clear(mark)
}

/// The mark of a write.
pub(crate) fn mark_bytes(entry: &Entry) -> [u8; 16]
    ensures { result ≡ mark_bytes entry.now }
{
    let [block, _] = entry.write.block.to_le_bytes();
    let [low, middle, high, _] = entry.write.counter.to_le_bytes();
    let mut mark = [0; 16];
    mark[0..6].copy_from_slice(&[MARK, entry.hopper, block, low, middle, high]);
    mark
}

/// The write that a mark notes.
#[tactic(auto, using(std::proofs::lemmas::List::places), unfolding(blocks::specs::Counters::three_byte_number))]
pub(crate) fn noted_by(mark: &[u8; 16], bytes: [u8; 16]) -> Entry
    ensures { result ≡ noted_by mark.now bytes }
{
    let [_, hopper, block, low, middle, high, ..] = *mark;
    Entry {
        hopper,
        write: BlockWrite {
            block: u16::from(block),
            bytes,
            counter: three_byte_number([low, middle, high]),
        },
    }
}

/// The home of a block among its hopper's cells; the counter's for a block that has none.
pub fn home_of(block: u16) -> usize
    ensures value { result ≡ home_of block }
    ensures small { result < 22 }
{
    cell_of(block).unwrap_or(COUNTER_CELL)
}
