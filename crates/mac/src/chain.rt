//! The chained tag of a text, for every cipher.
ghost use Rattle.std.specs.Prelude.{◌≡◌, replicate};
ghost use Rattle.cipher.specs.Keys.{answered, under_key};
ghost use Rattle.mac.specs.Chain.{tagged};

use crate::reversal::turn_round;
use byte_arrays::xor8;
use cipher::{Cipher, KeyError};

/// The tag of a text of groups of eight bytes, from a start.
// Cipher and key are two parameters, as callers have them: a struct of both would be made for the call only.
pub fn tag<C: Cipher>(
    cipher: &C,
    key: &C::Key,
    start: [u8; 8],
    text: &[[u8; 8]],
    sheet: &mut [u64; 16],
) -> [u8; 8]
    ensures value { result ≡ tagged (C.enciphered (C.key_bytes key.now)) start text.now }
    ensures wiped { sheet.new ≡ replicate 16 0 }
{
    // a text of no groups meets no cipher that would clear the sheet
    *sheet = [0; 16];
    let mut v = start;
    for t in text {
        v = cipher.encrypt(key, xor8(v, &turn_round(*t)), sheet);
    }
    turn_round(v)
}

/// The same under the bytes of a key, refused where the cipher's keys have another length.
pub fn tag_under<C: Cipher>(
    cipher: &C,
    key: &[u8],
    start: [u8; 8],
    text: &[[u8; 8]],
    sheet: &mut [u64; 16],
) -> Result<[u8; 8], KeyError>
    ensures answer { answered result ≡ under_key C.KEY_LEN key.now (tagged (C.enciphered key.now) start text.now) }
    ensures wiped { sheet.new ≡ replicate 16 0 }
{
    let key = cipher.key(key, sheet)?;
    Ok(tag(cipher, &key, start, text, sheet))
}
