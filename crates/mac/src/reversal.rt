//! R: the card's order of bytes is the cipher's reversed.
ghost use Rattle.std.specs.Prelude.{◌≡◌, reverse};

/// Eight bytes, the last one first.
pub fn turn_round(mut bytes: [u8; 8]) -> [u8; 8]
    ensures { result ≡ reverse bytes }
{
    bytes.reverse();
    bytes
}
