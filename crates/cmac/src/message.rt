//! CMAC by NIST SP 800-38B, for every cipher on blocks of eight bytes.
ghost use Rattle.std.specs.Prelude.{◌≡◌, ◌<◌, ◌≤◌, length, replicate};
ghost use Rattle.cmac.specs.Cmac.{chained, doubled, padded, masked, cmac as cmac_of};

use byte_arrays::{copied, xor8};
use cipher::Cipher;

/// Eight bytes shifted left by one bit, with the constant where the first bit was 1.
fn double(bytes: [u8; 8]) -> [u8; 8]
    ensures { result ≡ doubled bytes }
{
    let x = u64::from_be_bytes(bytes);
    let y = if x < 0x8000_0000_0000_0000 {
        x * 2
    } else {
        (x << 1) ^ 0x1b
    };
    y.to_be_bytes()
}

/// A part block filled up by one bit 1 and then bits 0.
fn pad(part: &[u8]) -> [u8; 8]
    requires { length part.now < 8 }
    ensures { result ≡ padded part.now }
{
    let mut block = [0; 8];
    block[..part.len()].copy_from_slice(part);
    block[part.len()] = 0x80;
    block
}

/// The last block of a message, masked by the first subkey if whole and by the second if filled up.
fn mask(k1: &[u8; 8], k2: &[u8; 8], part: &[u8]) -> [u8; 8]
    requires { length part.now ≤ 8 }
    ensures { result ≡ masked k1.now k2.now part.now }
{
    match copied::<8>(part) {
        Some(whole) => xor8(whole, k1),
        None => xor8(pad(part), k2),
    }
}

/// Cipher block chaining over blocks, from a block of zeros.
// Cipher and key are two parameters here too: a struct of both would be made for the call only.
fn cbc<C: Cipher>(cipher: &C, key: &C::Key, blocks: &[[u8; 8]], sheet: &mut [u64; 16]) -> [u8; 8]
    ensures value { result ≡ chained (C.enciphered (C.key_bytes key.now)) (replicate 8 0) blocks.now }
    ensures wiped { sheet.new ≡ replicate 16 0 }
{
    // a message of one block meets no cipher here that would clear the sheet
    *sheet = [0; 16];
    let mut c = [0; 8];
    for block in blocks {
        c = cipher.encrypt(key, xor8(c, block), sheet);
    }
    c
}

/// The tag of a message of any length.
pub fn cmac<C: Cipher>(cipher: &C, key: &C::Key, message: &[u8], sheet: &mut [u64; 16]) -> [u8; 8]
    ensures value { result ≡ cmac_of (C.enciphered (C.key_bytes key.now)) message.now }
    ensures wiped { sheet.new ≡ replicate 16 0 }
{
    let k1 = double(cipher.encrypt(key, [0; 8], sheet));
    let k2 = double(k1);
    let before = message.len().saturating_sub(1) / 8;
    let (blocks, _) = message.as_chunks::<8>();
    let c = cbc(cipher, key, &blocks[..before], sheet);
    let last = mask(&k1, &k2, &message[8 * before..]);
    cipher.encrypt(key, xor8(c, &last), sheet)
}
