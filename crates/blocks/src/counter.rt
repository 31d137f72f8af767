//! The write counter.
ghost use Rattle.blocks.specs.Counters.{ceiling, counter_after, counter_block, counter_now, raising, three_byte_number, warned};
ghost use Rattle.std.specs.Prelude.{◌≡◌};

use crate::config::Config;
use crate::stage::Stage;

/// Above this an issued hopper reads its counter as 0; issued, it stops here.
const ISSUED_CEILING: u32 = 0xFF_FE00;

/// The largest number of three bytes.
const LARGEST: u32 = 0xFF_FFFF;

/// Issued, writes that raise a counter above this are answered with a warning.
const WARNING: u32 = 0x2710;

/// The number of three bytes, the low byte first.
#[tactic(auto, unfolding(crate::specs::Counters::three_byte_number))]
pub fn three_byte_number(bytes: [u8; 3]) -> u32
    ensures { result ≡ three_byte_number bytes }
{
    let [low, middle, high] = bytes;
    u32::from_le_bytes([low, middle, high, 0])
}

/// The value stored in the block WCNT.
#[tactic(auto, unfolding(crate::specs::Counters::three_byte_number))]
pub fn counter_stored(block: &[u8; 16]) -> u32
    ensures { result ≡ three_byte_number block.now }
{
    three_byte_number([block[0], block[1], block[2]])
}

/// The block WCNT of a counter; of a larger number the three low bytes count.
#[tactic(auto, unfolding(crate::specs::Counters::counter_block))]
pub fn counter_block(counter: u32) -> [u8; 16]
    ensures { result ≡ counter_block counter }
{
    let [low, middle, high, _] = counter.to_le_bytes();
    [low, middle, high, 0, 0, 0, 0, 0, 0, 0, 0, 0, 0, 0, 0, 0]
}

/// The counter, by the value stored.
pub fn counter_now(stage: Stage, stored: u32) -> u32
    ensures { result ≡ counter_now stage stored }
{
    match stage {
        Stage::Issued if stored > ISSUED_CEILING => 0,
        _ => stored,
    }
}

/// Where the counter stops.
pub fn ceiling(stage: Stage) -> u32
    ensures { result ≡ ceiling stage }
{
    match stage {
        Stage::Issuing => LARGEST,
        Stage::Issued => ISSUED_CEILING,
    }
}

// Stage and configuration are two parameters: the stage last fixed need not be the one that the configuration sets, so public
// functions take any of the one with any of the other, and a struct of both would be no plainer.
impl Config {
    /// Whether an accepted write to a block raises the counter.
    pub fn counts(&self, block: u16) -> bool
        ensures { result ≡ raising block self.now.bytes }
    {
        match block {
            0x00..=0x0E | 0x86..=0x88 => true,
            0x92 => self.signs_state(),
            _ => false,
        }
    }

    /// The counter after an accepted write to a block.
    pub fn counter_after(&self, block: u16, stage: Stage, counter: u32) -> u32
        ensures { result ≡ counter_after block stage self.now.bytes counter }
    {
        if self.counts(block) && counter < ceiling(stage) {
            counter + 1
        } else {
            counter
        }
    }

    /// Whether an accepted write to a block is answered with the warning.
    pub fn warns(&self, block: u16, stage: Stage, counter: u32) -> bool
        ensures { result ≡ warned block stage self.now.bytes counter }
    {
        stage.is_issued() && self.counts(block) && counter > WARNING
    }
}
