//! The session keys that a card and its reader make of the card key and a random challenge.
ghost use Rattle.std.specs.Prelude.{◌≡◌, replicate};
ghost use Rattle.cipher.specs.Keys.{answered_as, under_key};
ghost use Rattle.mac.specs.Session.{turned_halves, both_keys, session_keys};

use crate::reversal::turn_round;
use byte_arrays::{halves, join, xor8};
use cipher::{Cipher, KeyError};

/// SK1 and SK2.
#[derive(Clone, Copy)]
pub struct SessionKeys {
    pub first: [u8; 8],
    pub second: [u8; 8],
}

/// The key under which session keys are made: both halves of the card key, each turned round.
fn turn_halves(card_key: &[u8; 16]) -> [u8; 16]
    ensures { result ≡ turned_halves card_key.now }
{
    let (front, back) = halves(card_key);
    join(&turn_round(front), &turn_round(back))
}

/// The session keys of a card key and a challenge, refused where the cipher's keys are not of 16 bytes.
pub fn session_keys<C: Cipher>(
    cipher: &C,
    card_key: &[u8; 16],
    challenge: &[u8; 16],
    sheet: &mut [u64; 16],
) -> Result<SessionKeys, KeyError>
    ensures answer { answered_as both_keys result ≡ under_key C.KEY_LEN card_key.now (session_keys C.enciphered card_key.now challenge.now) }
    ensures wiped { sheet.new ≡ replicate 16 0 }
{
    let key = cipher.key(&turn_halves(card_key), sheet)?;
    let (front, back) = halves(challenge);
    let first = cipher.encrypt(&key, turn_round(front), sheet);
    let second = cipher.encrypt(&key, xor8(turn_round(back), &first), sheet);
    Ok(SessionKeys { first, second })
}
