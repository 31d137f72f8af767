//! The key schedule: sixteen round keys of 48 bits, laid out in the work sheet.
ghost use Rattle.std.specs.Prelude.{◌≡◌, ◌^◌, ◌<◌};
ghost use Rattle.des.specs.Tables.{permuted_choice_1, permuted_choice_2, left_shifts};
ghost use Rattle.des.specs.Des.{picked, shifted_half, shifted_once, shifted, scheduled, round_keys};

use crate::tables::{CHOICE_ONE, CHOICE_TWO, SHIFTS};

/// The 56 bits of a key that are used, in two halves of 28.
#[derive(Clone, Copy)]
struct KeyBits {
    bits: u64,
    ghost below: { bits < 2 ^ 56 },
}

impl KeyBits {
    /// The bits that are used of a key.
    fn chosen(key: u64) -> KeyBits
        ensures { result.bits ≡ picked 64 key permuted_choice_1 }
    {
        KeyBits {
            bits: CHOICE_ONE.pick(key),
        }
    }

    /// Both halves shifted left by one place.
    fn shifted_once(self) -> KeyBits
        ensures { result.bits ≡ shifted_once self.bits }
    {
        KeyBits {
            bits: shift_half(self.bits / 0x1000_0000) * 0x1000_0000
                + shift_half(self.bits % 0x1000_0000),
        }
    }

    /// By one place or by two.
    fn shifted(self, n: u8) -> KeyBits
        ensures { result.bits ≡ shifted n self.bits }
    {
        if n == 1 {
            self.shifted_once()
        } else {
            self.shifted_once().shifted_once()
        }
    }

    /// The bits that make a round key.
    fn round_key(self) -> u64
        ensures { result ≡ picked 56 self.bits permuted_choice_2 }
    {
        CHOICE_TWO.pick(self.bits)
    }
}

/// 28 bits shifted left by one place, the first bit coming last.
fn shift_half(x: u64) -> u64
    requires { x < 2 ^ 28 }
    ensures value { result ≡ shifted_half x }
    ensures below { result < 2 ^ 28 }
{
    x * 2 % 0x1000_0000 + x / 0x800_0000
}

/// The round keys that key bits give.
// By the index: this runs inside the guard's life, where no trait is called, and `enumerate` is a trait's. (After a loop over
// `sheet.iter_mut().zip(..)` nothing is proved of the sheet.)
#[tactic(auto, using(crate::proofs::Schedules::scheduling))]
fn fill(mut x: KeyBits, sheet: &mut [u64; 16])
    ensures { sheet.new ≡ scheduled x.bits left_shifts }
{
    for i in 0..16_usize {
        x = x.shifted(SHIFTS[i]);
        sheet[i] = x.round_key();
    }
}

/// The sixteen round keys of a key.
pub fn schedule_keys(key: u64, sheet: &mut [u64; 16])
    ensures { sheet.new ≡ round_keys key }
{
    fill(KeyBits::chosen(key), sheet);
}
