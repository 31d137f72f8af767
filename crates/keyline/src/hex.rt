//! Bytes as hexadecimal digits: read in either case, written in capitals.
// The kit's crate for hexadecimal text answers a wrong digit with an error and writes capitals onto the heap; the digits of the
// programs (`hex_digits`) are capitals only. Here a line is tested first, and read in either case into arrays.
ghost use Rattle.std.specs.Prelude.{◌≡◌, ◌+◌, ◌*◌, ◌<◌, ◌≤◌, length};
ghost use Rattle.keyline.specs.Hex.{value_of, byte_at as byte_at_of, bytes_at as bytes_at_of, capital, capitals, hex_of};

use std::array;

/// The number that a digit stands for, and 0 for what is no digit.
fn value(c: u8) -> u8
    ensures value { result ≡ value_of c }
    ensures below { result < 16 }
{
    char::from(c).to_digit(16).unwrap_or(0) as u8
}

/// The byte that the two digits from `at` on write.
fn byte_at(text: &[u8], at: usize) -> u8
    requires { at + 2 ≤ length text.now }
    ensures { result ≡ byte_at_of text.now at }
{
    value(text[at]) * 16 + value(text[at + 1])
}

/// The N bytes that the digits from `at` on write.
pub fn bytes_at<const N: usize>(text: &[u8], at: usize) -> [u8; N]
    requires { at + 2 * N ≤ length text.now }
    ensures { result ≡ bytes_at_of N text.now at }
{
    array::from_fn(|i| byte_at(text, at + 2 * i))
}

/// The capital digit of a number below sixteen.
fn digit(n: u8) -> u8
    requires { n < 16 }
    ensures { result ≡ capital n }
{
    b"0123456789ABCDEF"[usize::from(n)]
}

/// The two capital digits of a byte.
fn digits(byte: u8) -> [u8; 2]
    ensures { result ≡ capitals byte }
{
    [digit(byte / 16), digit(byte % 16)]
}

/// Sixteen bytes as 32 digits.
pub fn hex16(bytes: &[u8; 16]) -> [u8; 32]
    ensures { result ≡ hex_of bytes.now }
{
    let mut text = [0; 32];
    text.copy_from_slice(bytes.map(digits).as_flattened());
    text
}
