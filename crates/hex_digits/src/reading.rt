//! Bytes from capital hexadecimal digits.
ghost use Rattle.std.specs.Prelude.{◌≡◌, ◌<◌};
ghost use Rattle.std.specs.Iterator.{YieldsFirst, item_count};
ghost use Rattle.hex_digits.specs.Digits.{bytes_left, bytes_written, value_of};

/// The number that a capital digit stands for, and 0 for what is none.
fn value(digit: u8) -> u8
    ensures value { result ≡ value_of digit }
    ensures below { result < 16 }
{
    match digit {
        b'0'..=b'9' => digit - b'0',
        b'A'..=b'F' => digit - b'A' + 10,
        _ => 0,
    }
}

/// The bytes that digits write, two digits each. A last digit without a second is left out.
#[derive(Drop)]
pub struct Bytes<'a> {
    digits: &'a [u8],
}

/// The bytes that capital digits write. The library's decoder takes small letters too, and turns a text with any other
/// character down.
pub fn bytes_of(digits: &[u8]) -> Bytes<'_>
    ensures { bytes_left result ≡ bytes_written digits.now }
{
    Bytes { digits }
}

impl<'a> Iterator for Bytes<'a> {
    type Item = u8;

    ghost next_gives = { YieldsFirst bytes_left };

    ghost remaining = { item_count bytes_left };

    fn next(&mut self) -> Option<u8> {
        let [high, low, rest @ ..] = self.digits else {
            return None;
        };
        self.digits = rest;
        Some(value(*high) * 16 + value(*low))
    }
}
