//! Tags under the keys of a session.
ghost use Rattle.card.specs.Reactions.{verdict};
ghost use Rattle.card.specs.Signatures.{chain_start, read_key, signed_text, write_key};
ghost use Rattle.mac.specs.Chain.{tagged};
ghost use Rattle.std.specs.Prelude.{◌≡◌, replicate};

use crate::card::Card;
use crate::order::Order;
use byte_arrays::{halves, join, same8};
use cipher::Cipher;
use hopper::view;
use mac::chain::tag;
use mac::reversal::turn_round;
use mac::session::SessionKeys;
use volatile::Volatile;

/// Where the chains of a session start: the first half of RC, turned round.
fn chain_start(volatile: &Volatile) -> [u8; 8]
    ensures { result ≡ chain_start volatile.now }
{
    let (front, _) = halves(&volatile.session.rc.unwrap_or([0; 16]));
    turn_round(front)
}

/// The key of tags that are sent.
pub(crate) fn read_key(keys: &SessionKeys) -> [u8; 16]
    ensures { result ≡ read_key keys.now }
{
    join(&keys.first, &keys.second)
}

/// The key of tags that a write carries.
fn write_key(keys: &SessionKeys) -> [u8; 16]
    ensures { result ≡ write_key keys.now }
{
    join(&keys.second, &keys.first)
}

/// The text of the tag that a write carries.
fn signed_text(counter: u32, block: u16, sent: &[u8; 16]) -> [[u8; 8]; 3]
    ensures { result ≡ signed_text counter block sent.now }
{
    let [low, middle, high, _] = counter.to_le_bytes();
    let [number, _] = block.to_le_bytes();
    let (front, back) = halves(sent);
    [[low, middle, high, 0, number, 0, 0x91, 0], front, back]
}

/// What gives the tags of a session: a cipher under one of its keys, and where every chain starts.
#[derive(Drop)]
pub(crate) struct Tagging<'a, C: Cipher> {
    pub cipher: &'a C,
    pub key: C::Key,
    pub start: [u8; 8],
}

impl<C: Cipher> Tagging<'_, C> {
    /// The tag of a text.
    pub(crate) fn tag(&self, text: &[[u8; 8]], sheet: &mut [u64; 16]) -> [u8; 8]
        ensures value { result ≡ tagged (C.enciphered (C.key_bytes self.now.key)) self.now.start text.now }
        ensures wiped { sheet.new ≡ replicate 16 0 }
    {
        tag(self.cipher, &self.key, self.start, text, sheet)
    }
}

impl<'a, C: Cipher> Card<'a, C> {
    /// The tags of a session under a key: a cipher whose keys are of sixteen bytes never refuses it.
    pub(crate) fn tagging(
        &self,
        volatile: &Volatile,
        key: &[u8; 16],
        sheet: &mut [u64; 16],
    ) -> Tagging<'a, C>
        ensures key { C.key_bytes result.key ≡ key.now }
        ensures start { result.start ≡ chain_start volatile.now }
        ensures wiped { sheet.new ≡ replicate 16 0 }
    {
        Tagging {
            cipher: self.cipher,
            key: self.cipher.key(key, sheet).unwrap(),
            start: chain_start(volatile),
        }
    }

    /// The verdict on the write of a block: its tag, the first half of the block MAC_A that it carries, is right.
    #[tactic(auto, unfolding(crate::specs::Signatures::is_right))]
    pub(crate) fn verdict(
        &self,
        volatile: &Volatile,
        order: &Order,
        mac: &[u8; 16],
        sheet: &mut [u64; 16],
    ) -> bool
        ensures value { result ≡ verdict C.enciphered self.now.cells.now volatile.now order.now.block order.now.sent mac.now }
        ensures wiped { sheet.new ≡ replicate 16 0 }
    {
        let counter = view(self.cells, volatile).counter;
        let (tag, _) = halves(mac);
        let tagging = self.tagging(volatile, &write_key(&volatile.keys), sheet);
        let right = tagging.tag(&signed_text(counter, order.block, &order.sent), sheet);
        // `==` under the name that the definition of the verdict has: callers need not open it, which keeps their proofs short.
        same8(&tag, &right)
    }
}
