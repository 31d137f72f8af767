//! Frames: a packet with the preamble, the length before it and the CRC after it.
ghost use Rattle.std.specs.Prelude.{◌≡◌, ◌+◌, ◌≤◌, length, drop, Some, None, if◌then◌else◌};
ghost use Rattle.crc.specs.Crc.{crc_of};
ghost use Rattle.std.specs.Option.{option_map};
ghost use Rattle.frame.specs.Frames.{answered, covered, frame_of, frame_put, opens_frame, unframed};
ghost use Rattle.frame.specs.FrameLaws.{FramesAreTakenOut, OnlyFramesAreTakenOut};
ghost use Rattle.frame.specs.Memory.{written};

use crate::reply_memory::put;

/// Why no frame is written.
#[derive(Clone, Copy)]
pub enum FrameError {
    PacketTooLong,
    NoRoom,
}

/// The CRC of a frame's length byte and packet.
fn frame_crc(size: u8, packet: &[u8]) -> u16
    requires { size ≡ length packet.now + 1 }
    ensures { result ≡ crc_of (covered packet.now) }
{
    crc::crc_after(crc::crc_of(&[size]), packet)
}

/// The bytes after those that a frame begins with, or nothing where others come first.
fn after_opening(bytes: &[u8]) -> Option<&[u8]>
    ensures { option_map (λ x. x.now) result ≡ (if opens_frame bytes.now then Some (drop 8 bytes.now) else None) }
{
    bytes.strip_prefix(&[0, 0, 0, 0, 0, 0, 0xB2, 0x4D])
}

/// The packet in a frame, or nothing where the bytes are no frame.
pub fn take_packet(bytes: &[u8]) -> Option<&[u8]>
    ensures { option_map (λ x. x.now) result ≡ unframed bytes.now }
{
    let [size, packet @ .., high, low] = after_opening(bytes)? else {
        return None;
    };
    if usize::from(*size) != packet.len() + 1 {
        return None;
    }
    if frame_crc(*size, packet).to_be_bytes() != [*high, *low] {
        return None;
    }
    Some(packet)
}

/// Writes the frame of a packet where there is room for it.
fn write_frame(memory: &mut [u8], at: usize, packet: &[u8])
    requires { (length packet.now ≤ 254) × (at + length packet.now + 11 ≤ length memory.old) }
    ensures { memory.new ≡ written memory.old at (frame_of packet.now) }
{
    let size = (packet.len() + 1) as u8;
    let crc = frame_crc(size, packet);
    put(memory, at, &[0, 0, 0, 0, 0, 0, 0xB2, 0x4D, size]);
    put(memory, at + 9, packet);
    put(memory, at + 9 + packet.len(), &crc.to_be_bytes());
}

/// Writes the frame of a packet at an offset of lent memory, and answers the offset after it. Nothing is written
/// where the packet has more than 254 bytes, or the memory ends before the frame does.
pub fn put_frame(memory: &mut [u8], at: usize, packet: &[u8]) -> Result<usize, FrameError>
    ensures { (memory.new, answered result) ≡ frame_put memory.old at packet.now }
{
    if packet.len() > 254 {
        return Err(FrameError::PacketTooLong);
    }
    let size = packet.len() + 11;
    if memory.len().saturating_sub(at) < size {
        return Err(FrameError::NoRoom);
    }
    write_frame(memory, at, packet);
    Ok(at + size)
}

/// What is written as a frame is taken out again, and nothing but frames is taken out.
pub fn frames_round_trip()
    ensures back { FramesAreTakenOut }
    ensures only { OnlyFramesAreTakenOut }
{}
