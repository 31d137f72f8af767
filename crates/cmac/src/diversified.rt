//! Diversified keys: from one master key, a card key of its own for each ID.
ghost use Rattle.std.specs.Prelude.{◌≡◌, replicate};
ghost use Rattle.cipher.specs.Keys.{answered, under_key};
ghost use Rattle.cmac.specs.Cmac.{first_bit_flipped, diversified as diversified_of};

use crate::message::cmac;
use byte_arrays::join;
use cipher::{Cipher, KeyError};

fn flip_first_bit(id: &[u8; 16]) -> [u8; 16]
    ensures { result ≡ first_bit_flipped id.now }
{
    let mut other = *id;
    other[0] ^= 0x80;
    other
}

/// The diversified key of an ID under a master key, refused where the cipher's keys have another length.
pub fn diversified_key<C: Cipher>(
    cipher: &C,
    master: &[u8],
    id: &[u8; 16],
    sheet: &mut [u64; 16],
) -> Result<[u8; 16], KeyError>
    ensures answer { answered result ≡ under_key C.KEY_LEN master.now (diversified_of (C.enciphered master.now) id.now) }
    ensures wiped { sheet.new ≡ replicate 16 0 }
{
    let key = cipher.key(master, sheet)?;
    let front = cmac(cipher, &key, id, sheet);
    let back = cmac(cipher, &key, &flip_first_bit(id), sheet);
    Ok(join(&front, &back))
}
