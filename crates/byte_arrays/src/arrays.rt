//! Slices as arrays.
ghost use Rattle.std.specs.Prelude.{◌≡◌, length, if◌then◌else◌, Some, None, nat_eq};

/// The bytes as an array, if there are just so many.
pub fn copied<const N: usize>(bytes: &[u8]) -> Option<[u8; N]>
    ensures { result ≡ (if nat_eq (length bytes.now) N then Some bytes.now else None) }
{
    <[u8; N]>::try_from(bytes).ok()
}
