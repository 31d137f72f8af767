//! The bytes of a key of triple DES.
ghost use Rattle.std.specs.Prelude.{◌≡◌, ◌+◌, ◌≤◌};
ghost use Rattle.byte_arrays.specs.Words.{word64};

/// The bytes of two or three DES keys, one after the other.
#[derive(Drop)]
pub struct Keys<const N: usize>(pub(crate) [u8; N]);

impl<const N: usize> Keys<N> {
    /// The DES key of the eight bytes from `at` on, as a number with the high byte first.
    // XTEA has its like at four bytes: `from_be_bytes` belongs to each type of number and to no trait, so they are two.
    pub(crate) fn des_key(&self, at: usize) -> u64
        requires { at + 8 ≤ N }
        ensures { result ≡ word64 self.now.0 at }
    {
        let bytes = &self.0[..];
        u64::from_be_bytes(bytes[at..at + 8].try_into().unwrap())
    }
}
