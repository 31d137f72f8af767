//! The bytes of a key.
ghost use Rattle.std.specs.Prelude.{◌≡◌, replicate};
ghost use Rattle.cipher.specs.Keys.{answered, key_made};

use crate::key_error::KeyError;
use crate::sheet::Sheet;

/// The bytes of a key of `N`, or a refusal where there are too few or too many. No round key is made yet,
/// and the lent sheet is wiped all the same.
pub fn key_bytes_of<const N: usize>(
    bytes: &[u8],
    sheet: &mut [u64; 16],
) -> Result<[u8; N], KeyError>
    ensures answer { answered result ≡ key_made N bytes.now }
    ensures wiped { sheet.new ≡ replicate 16 0 }
{
    let key = bytes.try_into().map_err(|_| KeyError::WrongLength);
    let _guard = Sheet(sheet);
    key
}
