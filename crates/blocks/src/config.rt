//! The configuration block MC: which blocks may be read and written, and how.
ghost use Rattle.std.specs.Prelude.{◌≡◌, ◌<◌};
ghost use Rattle.blocks.specs.Configs.{config_bit, config_open, keys_open, merged, read_restricted, scratch_open, scratch_signed, state_signed, write_restricted};
ghost use Rattle.blocks.specs.Stages.{stage_set};

use crate::stage::Stage;

/// The sixteen bytes of MC.
#[derive(Clone, Copy)]
pub struct Config {
    pub bytes: [u8; 16],
}

impl Config {
    /// Bit k of the two bytes from a place on, the low byte first.
    // The questions that are asked of it below keep a name each, since a place alone does not say what its bits mean.
    fn bit(&self, at: usize, k: u16) -> bool
        requires { (at < 15) × (k < 16) }
        ensures { result ≡ config_bit self.now.bytes at k }
    {
        (self.bytes[at + usize::from(k / 8)] >> (k % 8)) % 2 == 1
    }

    /// The stage that this configuration sets.
    pub fn stage(&self) -> Stage
        ensures { result ≡ stage_set self.now.bytes }
    {
        if self.bytes[2] == 0 {
            Stage::Issued
        } else {
            Stage::Issuing
        }
    }

    /// Whether a scratch block may be written.
    pub(crate) fn opens_scratch(&self, block: u16) -> bool
        requires { block < 15 }
        ensures { result ≡ scratch_open self.now.bytes block }
    {
        self.bit(0, block)
    }

    /// Whether MC may be written when issued.
    pub(crate) fn opens_config(&self) -> bool
        ensures { result ≡ config_open self.now.bytes }
    {
        self.bit(0, 15)
    }

    /// Whether CKV and CK may be written when issued.
    pub(crate) fn opens_keys(&self) -> bool
        ensures { result ≡ keys_open self.now.bytes }
    {
        self.bytes[5] == 0x01
    }

    /// Whether reading a block is restricted to an authenticated hopper.
    pub fn restricts_reading(&self, block: u16) -> bool
        ensures { result ≡ read_restricted self.now.bytes block }
    {
        block < 0x0F && self.bit(6, block)
    }

    /// Whether writing a block is restricted to an authenticated hopper.
    pub fn restricts_writing(&self, block: u16) -> bool
        ensures { result ≡ write_restricted self.now.bytes block }
    {
        block < 0x0F && self.bit(8, block)
    }

    /// Whether a write to a scratch block needs a MAC.
    pub(crate) fn signs_scratch(&self, block: u16) -> bool
        requires { block < 15 }
        ensures { result ≡ scratch_signed self.now.bytes block }
    {
        self.bit(10, block)
    }

    /// Whether a write to STATE needs a MAC, and raises the counter.
    pub fn signs_state(&self) -> bool
        ensures { result ≡ state_signed self.now.bytes }
    {
        self.bytes[12] == 0x01
    }

    /// What a write of `sent` to MC stores.
    pub fn merged(&self, stage: Stage, sent: &[u8; 16]) -> [u8; 16]
        ensures { result ≡ merged stage self.now.bytes sent.now }
    {
        match stage {
            Stage::Issuing => *sent,
            Stage::Issued => self.narrowed(sent),
        }
    }

    /// What a write to MC stores when issued.
    fn narrowed(&self, sent: &[u8; 16]) -> [u8; 16]
        ensures { result ≡ merged Stage.Issued self.now.bytes sent.now }
    {
        let old = self.bytes;
        let state = if self.signs_state() { 0x01 } else { sent[12] };
        // Tried as changes of a copy, byte by byte: the proof did not close.
        [
            old[0] & sent[0],
            old[1] & sent[1],
            old[2],
            old[3],
            old[4],
            old[5],
            old[6] | sent[6],
            old[7] | sent[7],
            old[8] | sent[8],
            old[9] | sent[9],
            old[10] | sent[10],
            old[11] | sent[11],
            state,
            old[13],
            old[14],
            old[15],
        ]
    }
}
