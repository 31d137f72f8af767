//! One block through DES, forward and inverse.
ghost use Rattle.std.specs.Prelude.{◌≡◌, ◌+◌, ◌*◌, ◌^◌, bit_xor};
ghost use Rattle.des.specs.Tables.{initial_permutation, final_permutation, bit_selection, permutation_p};
ghost use Rattle.des.specs.Des.{picked, cipher_function, rounds as rounds_of, under_keys, des_forward, des_inverse};

use crate::boxes::substitute;
use crate::schedule::schedule_keys;
use crate::tables::{EXPANSION, FINAL, INITIAL, PERMUTATION};
use byte_arrays::joined;

/// The cipher function f.
fn mix(r: u32, key: u64) -> u32
    ensures { result ≡ cipher_function r key }
{
    // Casts, and no trait's conversions, inside the guard's life. The last is proved to lose nothing: the table picks 32 bits.
    PERMUTATION.pick(substitute(EXPANSION.pick(r as u64) ^ key) as u64) as u32
}

/// The halves after one round.
fn round(l: u32, r: u32, key: u64) -> (u32, u32)
    ensures { result ≡ (r, bit_xor l (cipher_function r key)) }
{
    (r, l ^ mix(r, key))
}

/// The halves' rounds, one for each key; after the last the halves change places.
#[tactic(auto, using(crate::proofs::Schedules::rounding))]
fn run_rounds(mut l: u32, mut r: u32, keys: &[u64; 16]) -> u64
    ensures { result ≡ rounds_of l r keys.now }
{
    for key in keys {
        (l, r) = round(l, r, *key);
    }
    joined(r, l)
}

/// A block under sixteen round keys.
fn run_keys(keys: &[u64; 16], x: u64) -> u64
    ensures { result ≡ under_keys keys.now x }
{
    let y = INITIAL.pick(x);
    // Shift and remainder, as the definition has them: `y as u32` alone would lose bits, which the check refuses.
    FINAL.pick(run_rounds((y >> 32) as u32, (y % 0x1_0000_0000) as u32, keys))
}

// Encryption and decryption are two functions: one would take a flag for the direction, and its contract would have two cases.

/// Encryption of a block. The round keys stay in the sheet: its guard wipes them.
pub fn run_forward(key: u64, x: u64, sheet: &mut [u64; 16]) -> u64
    ensures { result ≡ des_forward key x }
{
    schedule_keys(key, sheet);
    run_keys(sheet, x)
}

/// Decryption of a block. The round keys stay in the sheet: its guard wipes them.
pub fn run_inverse(key: u64, x: u64, sheet: &mut [u64; 16]) -> u64
    ensures { result ≡ des_inverse key x }
{
    schedule_keys(key, sheet);
    sheet.reverse();
    run_keys(sheet, x)
}
