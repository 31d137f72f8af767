//! What a block cipher is to everything above it.
ghost use Rattle.std.specs.Prelude.{◌≡◌, ℕ, ◌<◌, List, length, replicate, slice_index};
ghost use Rattle.cipher.specs.Keys.{answered_as, key_made};

use crate::key_error::KeyError;

/// A block cipher on eight bytes, with a kind of key of its own. Code above it is written and proved
/// once, against the meaning that the ghost members give.
// The sheet is a parameter with a clause of its own, here and above: a type whose invariant says that it is zero would ask
// callers for a zero sheet, and they may lend any sixteen numbers.
pub trait Cipher {
    type Key: Drop;

    /// The length of a key in bytes.
    const KEY_LEN: usize;

    /// the same number, for clauses
    ghost KEY_LEN: { ℕ };

    /// the bytes that a key was made from
    ghost key_bytes: { Self.Key → List ℕ };

    /// what key bytes make of a block: a function of the two alone
    ghost enciphered: { List ℕ → List ℕ → List ℕ };

    /// A key from its bytes, or a refusal where there are too few or too many.
    fn key(&self, bytes: &[u8], sheet: &mut [u64; 16]) -> Result<Self::Key, KeyError>
        ensures answer { answered_as key_bytes result ≡ key_made KEY_LEN bytes.now }
        ensures wiped { sheet.new ≡ replicate 16 0 };

    /// The block under the key.
    fn encrypt(&self, key: &Self::Key, block: [u8; 8], sheet: &mut [u64; 16]) -> [u8; 8]
        ensures value { result ≡ enciphered (key_bytes key.now) block }
        ensures wiped { sheet.new ≡ replicate 16 0 };

    /// whatever it is given, the result is eight numbers
    ghost eight: { (k b : List ℕ) → length (enciphered k b) ≡ 8 };

    /// and each of them is a byte
    ghost octets: { (k b : List ℕ) (i : ℕ) → slice_index (enciphered k b) i < 256 };
}
