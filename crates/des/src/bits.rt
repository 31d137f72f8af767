//! A table of places, applied to a string of bits.
ghost use Rattle.std.specs.Prelude.{◌≡◌, ◌^◌, ◌<◌, ◌≤◌, T, length};
ghost use Rattle.des.specs.Des.{picked};
ghost use Rattle.des.specs.Rows.{within};

/// The places of `N` bits in a string of `width` bits, counted from 1 at the high end.
// The places are borrowed: a constant that held them itself would be laid out anew wherever it is used.
#[derive(Clone, Copy)]
pub struct Table<const N: usize> {
    pub width: u32,
    pub places: &'static [u32; N],
    ghost full: { length places.now ≡ N },
    ghost wide: { width ≤ 64 },
    ghost short: { N ≤ 64 },
    ghost places_within: { T (within width places.now) },
}

impl<const N: usize> Table<N> {
    /// The bits of a string that the table names, in its order.
    #[tactic(auto, using(crate::proofs::Picks::picking))]
    pub fn pick(self, x: u64) -> u64
        ensures value { result ≡ picked self.entry.width x self.entry.places.now }
        ensures below { result < 2 ^ N }
    {
        let mut out: u64 = 0;
        for p in self.places {
            out = out * 2 + (x >> (self.width - *p)) % 2;
        }
        out
    }
}
