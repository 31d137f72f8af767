//! Frames, commands and lists on examples. The CRCs were computed by another program.
use blocklist::blocks_of;
use command::Command;
use frame::{put_frame, take_packet};
use std::test::Fail;

/// A polling command for any system, with one time slot.
const POLL: &[u8; 16] = b"\x00\x00\x00\x00\x00\x00\xB2\x4D\x06\x00\xFF\xFF\x01\x00\x3A\x10";

/// A read of block 05h and, by a three-byte element, of block 91h.
const READ: &[u8; 18] = b"\x06ABCDEFGH\x01\x0B\x00\x02\x80\x05\x00\x91\x00";

#[test]
fn a_poll_is_heard(rt: HostRuntime) {
    assert!(rt;
        matches!(
            Command::heard(POLL),
            Command::Polling {
                request: 1,
                slots: 0
            }
        )
    );
}

#[test]
fn a_damaged_frame_is_not_heard(rt: HostRuntime) {
    let mut damaged = *POLL;
    damaged[15] = 0x11;
    assert!(rt; matches!(Command::heard(&damaged), Command::Unknown));
}

#[test]
fn a_frame_is_written_and_taken_out(rt: HostRuntime) {
    let mut memory = [0x55; 20];
    let packet = [0x00, 0xFF, 0xFF, 0x01, 0x00];
    assert!(rt; matches!(put_frame(&mut memory, 2, &packet), Ok(18)));
    assert!(rt; memory[1] == 0x55 && memory[17] == 0x10 && memory[18] == 0x55);
    assert!(rt;
        matches!(
            take_packet(&memory[2..18]),
            Some([0x00, 0xFF, 0xFF, 0x01, 0x00])
        )
    );
}

#[test]
fn a_read_names_its_blocks(rt: HostRuntime) -> Result<(), Fail> {
    let Command::Read(request) = Command::parse(READ) else {
        return Err(Fail::new("no read"));
    };
    let Ok(list) = request.read_header() else {
        return Err(Fail::new("its header is refused"));
    };
    let Ok(blocks) = blocks_of(list) else {
        return Err(Fail::new("an element is refused"));
    };
    assert!(rt; matches!(blocks.as_slice(), [0x05, 0x91]));
    Ok(())
}
