//! The substitution boxes.
ghost use Rattle.std.specs.Prelude.{◌≡◌, ◌<◌, T, length};
ghost use Rattle.des.specs.Des.{boxed, substituted};
ghost use Rattle.des.specs.Rows.{hold_boxes};

use crate::tables::BOXES;

/// The eight boxes, four rows each: a row's sixteen numbers are the digits of one number.
// Laid flat, as the test over all entries reads them; arrays in arrays would need that test to be written anew, not less of it.
pub struct Boxes {
    pub rows: &'static [u64; 32],
    ghost full: { length rows.now ≡ 32 },
    ghost hold: { T (hold_boxes rows.now) },
}

impl Boxes {
    /// What box `n` makes of six bits: the outer two name the row, the inner four the column.
    #[tactic(auto, using(crate::proofs::Tests::box_digit))]
    fn at(&self, n: usize, six: u64) -> u32
        requires boxes { n < 8 }
        requires bits { six < 64 }
        ensures value { result ≡ boxed n six }
        ensures below { result < 16 }
    {
        // The casts are proved to lose nothing: a row's number is below 32, and a digit below 16.
        let row = self.rows[n * 4 + (six / 32 * 2 + six % 2) as usize];
        ((row >> (60 - six / 2 % 16 * 4)) % 16) as u32
    }
}

/// 48 bits through the eight boxes.
// Spelled out as the definition is; a loop would compute each place and weight from an index.
pub fn substitute(x: u64) -> u32
    ensures { result ≡ substituted x }
{
    BOXES.at(0, (x >> 42) % 64) * 0x1000_0000
        + BOXES.at(1, (x >> 36) % 64) * 0x100_0000
        + BOXES.at(2, (x >> 30) % 64) * 0x10_0000
        + BOXES.at(3, (x >> 24) % 64) * 0x1_0000
        + BOXES.at(4, (x >> 18) % 64) * 0x1000
        + BOXES.at(5, (x >> 12) % 64) * 0x100
        + BOXES.at(6, (x >> 6) % 64) * 0x10
        + BOXES.at(7, x % 64)
}
