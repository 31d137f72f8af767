//! The CRC on examples.
use crc::{crc_after, crc_of};

/// The check value that catalogues of CRCs give for this one.
#[test]
fn nine_digits(rt: HostRuntime) {
    assert_eq!(rt; crc_of(b"123456789"), 0x31C3);
}

/// Carried on from the CRC of the first digits.
#[test]
fn in_two_parts(rt: HostRuntime) {
    assert_eq!(rt; crc_after(crc_of(b"1234"), b"56789"), 0x31C3);
}

/// No bytes leave the start; leading zeros leave it too, and one bit gives the generator.
#[test]
fn small_ones(rt: HostRuntime) {
    assert_eq!(rt; crc_of(b""), 0);
    assert_eq!(rt; crc_of(&[0, 0, 1]), 0x1021);
}
