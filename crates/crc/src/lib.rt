//! The frame CRC: sixteen bits, generator 1021h, start 0000h, highest bit first, no final xor.
#![tactic(auto)]

ghost use Rattle.std.specs.Prelude.{◌≡◌};
ghost use Rattle.crc.specs.Crc.{crc_bit, crc_byte, crc_after, crc_of};
ghost use Rattle.crc.specs.Laws.{CrcJoins, CrcFits};

const GENERATOR: u16 = 0x1021;

/// One step of the polynomial division: the register moves up by one bit, and a one that leaves it at the top
/// takes the generator off the rest.
fn crc_bit(register: u16) -> u16
    ensures { result ≡ crc_bit register }
{
    if register < 0x8000 {
        register << 1
    } else {
        (register << 1) ^ GENERATOR
    }
}

/// The register after one byte more: the byte is xored into the high byte, and eight steps follow.
fn crc_byte(register: u16, byte: u8) -> u16
    ensures { result ≡ crc_byte register byte }
{
    let mut divided = register ^ (u16::from(byte) << 8);
    // Eight repetitions, which read no index: a fold over the range would be no plainer.
    for _bit in 0..8u8 {
        divided = crc_bit(divided);
    }
    divided
}

/// The CRC of bytes that follow others whose CRC is `start`.
pub fn crc_after(start: u16, bytes: &[u8]) -> u16
    ensures { result ≡ crc_after start bytes.now }
{
    bytes
        .iter()
        .fold(start, |register, byte| crc_byte(register, *byte))
}

/// The CRC of bytes.
pub fn crc_of(bytes: &[u8]) -> u16
    ensures { result ≡ crc_of bytes.now }
{
    crc_after(0, bytes)
}

/// The laws that users of the CRC lean on: a CRC can be carried on over bytes that do not lie together, and it
/// fits two bytes.
pub fn crc_laws()
    ensures joins { CrcJoins }
    ensures fits { CrcFits }
{}
