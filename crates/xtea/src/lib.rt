//! XTEA with 32 cycles, over 32-bit words with the high byte first.
#![tactic(auto)]

ghost use Rattle.std.specs.Prelude.{◌≡◌, ◌+◌, ◌*◌, ◌^◌, ◌≤◌, length};
ghost use Rattle.byte_arrays.specs.Words.{word32};
ghost use Rattle.xtea.specs.Xtea.{half_cycle, cycles, xtea as xtea_of};
ghost use Rattle.std.proofs.Common.{rules};

use byte_arrays::joined;
use cipher::{Cipher, KeyError, Sheet, key_bytes_of};

#[derive(Drop)]
pub struct Xtea;

#[derive(Drop)]
pub struct XteaKey([u8; KEY_BYTES]);

const KEY_BYTES: usize = 16;

const CYCLES: u32 = 32;

const DELTA: u32 = 0x9e37_79b9;

/// The number that the four bytes from `at` on write.
// Triple DES has its like at eight bytes: `from_be_bytes` belongs to each type of number and to no trait, so they are two.
fn word32_at(bytes: &[u8], at: usize) -> u32
    requires { at + 4 ≤ length bytes.now }
    ensures { result ≡ word32 bytes.now at }
{
    u32::from_be_bytes(bytes[at..at + 4].try_into().unwrap())
}

/// What half a cycle makes of the word `v`, where `w` is the other word.
fn half(v: u32, w: u32, key: u32, sum: u32) -> u32
    ensures { result ≡ half_cycle v w key sum }
{
    v.wrapping_add(((w << 4) ^ (w >> 5)).wrapping_add(w) ^ sum.wrapping_add(key))
}

/// Both words after all cycles, as one number.
#[tactic(auto, using(crate::proofs::Cycles::cycles_more, crate::proofs::Cycles::cycles_none))]
fn run(keys: &[u32; 4], mut a: u32, mut b: u32) -> u64
    ensures { result ≡ cycles keys.now 32 0 a b }
{
    let mut sum: u32 = 0;
    for _ in 0..CYCLES {
        // casts to an index: the library has no `From` for them
        a = half(a, b, keys[sum as usize % 4], sum);
        sum = sum.wrapping_add(DELTA);
        b = half(b, a, keys[(sum >> 11) as usize % 4], sum);
    }
    joined(a, b)
}

impl Cipher for Xtea {
    type Key = XteaKey;

    const KEY_LEN: usize = KEY_BYTES;

    ghost KEY_LEN = { 16 };

    ghost key_bytes = { λ k. k.0 };

    ghost enciphered = { xtea_of };

    ghost eight = { Prim.search rules };

    ghost octets = { Prim.search rules };

    fn key(&self, bytes: &[u8], sheet: &mut [u64; 16]) -> Result<XteaKey, KeyError> {
        let own = key_bytes_of::<KEY_BYTES>(bytes, sheet)?;
        Ok(XteaKey(own))
    }

    fn encrypt(&self, key: &XteaKey, block: [u8; 8], sheet: &mut [u64; 16]) -> [u8; 8] {
        let k = &key.0;
        // Tried as `[0, 4, 8, 12].map(..)`: the proof did not close.
        let keys = [
            word32_at(k, 0),
            word32_at(k, 4),
            word32_at(k, 8),
            word32_at(k, 12),
        ];
        let (a, b) = (word32_at(&block, 0), word32_at(&block, 4));
        // Taken when the words are read: that goes through `TryFrom`, and no trait is called inside the guard's life.
        let _guard = Sheet(sheet);
        run(&keys, a, b).to_be_bytes()
    }
}
