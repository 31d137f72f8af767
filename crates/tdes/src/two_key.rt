//! Triple DES with two keys: the first is used again for the third pass.
ghost use Rattle.tdes.specs.Triples.{two_key};
ghost use Rattle.std.proofs.Common.{rules};

use crate::keys::Keys;
use cipher::{Cipher, KeyError, key_bytes_of};
use des::triple::triple_des;

// Tried as one generic type with that of three keys: these names would be aliases, and an alias is no value.
// The key bytes, their making and the passes are shared.
#[derive(Drop)]
pub struct TwoKeyDes;

pub type TwoKeys = Keys<KEY_BYTES>;

const KEY_BYTES: usize = 16;

impl Cipher for TwoKeyDes {
    type Key = TwoKeys;

    const KEY_LEN: usize = KEY_BYTES;

    ghost KEY_LEN = { 16 };

    ghost key_bytes = { λ k. k.0 };

    ghost enciphered = { two_key };

    ghost eight = { Prim.search rules };

    ghost octets = { Prim.search rules };

    fn key(&self, bytes: &[u8], sheet: &mut [u64; 16]) -> Result<TwoKeys, KeyError> {
        let own = key_bytes_of::<KEY_BYTES>(bytes, sheet)?;
        Ok(Keys(own))
    }

    fn encrypt(&self, key: &TwoKeys, block: [u8; 8], sheet: &mut [u64; 16]) -> [u8; 8] {
        let k1 = key.des_key(0);
        let k2 = key.des_key(8);
        triple_des(k1, k2, k1, u64::from_be_bytes(block), sheet).to_be_bytes()
    }
}
