//! Triple DES with three keys.
ghost use Rattle.tdes.specs.Triples.{three_key};
ghost use Rattle.std.proofs.Common.{rules};

use crate::keys::Keys;
use cipher::{Cipher, KeyError, key_bytes_of};
use des::triple::triple_des;

#[derive(Drop)]
pub struct ThreeKeyDes;

pub type ThreeKeys = Keys<KEY_BYTES>;

const KEY_BYTES: usize = 24;

impl Cipher for ThreeKeyDes {
    type Key = ThreeKeys;

    const KEY_LEN: usize = KEY_BYTES;

    ghost KEY_LEN = { 24 };

    ghost key_bytes = { λ k. k.0 };

    ghost enciphered = { three_key };

    ghost eight = { Prim.search rules };

    ghost octets = { Prim.search rules };

    fn key(&self, bytes: &[u8], sheet: &mut [u64; 16]) -> Result<ThreeKeys, KeyError> {
        let own = key_bytes_of::<KEY_BYTES>(bytes, sheet)?;
        Ok(Keys(own))
    }

    fn encrypt(&self, key: &ThreeKeys, block: [u8; 8], sheet: &mut [u64; 16]) -> [u8; 8] {
        let k1 = key.des_key(0);
        let k2 = key.des_key(8);
        let k3 = key.des_key(16);
        triple_des(k1, k2, k3, u64::from_be_bytes(block), sheet).to_be_bytes()
    }
}
