//! Parts of byte strings.
ghost use Rattle.std.specs.Prelude.{◌≡◌, drop};

/// The bytes from an offset on; none where it lies past the end.
pub fn tail(bytes: &[u8], from: usize) -> &[u8]
    ensures { result.now ≡ drop from bytes.now }
{
    bytes.get(from..).unwrap_or(&[])
}
