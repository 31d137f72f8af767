//! Answers questions about frames, one a line of standard input: a word, a space, and bytes in capital hexadecimal (a hyphen
//! for none). `crc` asks for their CRC; `made` for the frame of a packet (00h and the frame, or 01h if the packet is too long);
//! `slot` for the slot of a random byte and the number of the last slot; `hear` for what the bytes ask. Each answer is a line
//! of capital hexadecimal. The files stdin and stdout beside this folder were written by the second program; the gate
//! compares.
#![tactic(auto)]

mod heard;

use crate::heard::heard;
use command::slot;
use crc::crc_of;
use frame::put_frame;
use hex_digits::{Hex, bytes_of};
use std::alloc::{AllocError, Global};
use std::io;
use std::io::{BufRead, BufReader};

/// The frame of a packet, after 00h; or 01h alone.
fn frame_made(heap: Global, packet: &[u8]) -> Result<Vec<u8>, AllocError> {
    let mut memory = [0; 265];
    let Ok(end) = put_frame(&mut memory, 0, packet) else {
        return [1].to_vec(heap);
    };
    let mut answer = vec![in heap; 0]?;
    answer.extend_from_slice(&memory[..end])?;
    Ok(answer)
}

/// The slot for a random byte and the number of the last slot.
fn slot_of(bytes: &[u8]) -> Option<u8> {
    match bytes {
        [draw, slots] => Some(slot(*draw, *slots)),
        _ => None,
    }
}

/// The bytes that the digits after a word write.
fn read(heap: Global, digits: &[u8]) -> Result<Vec<u8>, AllocError> {
    bytes_of(digits).collect(heap)
}

/// The answer to a line; none to a line of another form. Bytes that ask for no slot get FFh.
fn answer(heap: Global, line: &[u8]) -> Result<Vec<u8>, AllocError> {
    match line {
        [b'c', b'r', b'c', b' ', digits @ ..] => crc_of(&read(heap, digits)?)
            .to_be_bytes()
            .to_vec(heap),
        [b'm', b'a', b'd', b'e', b' ', digits @ ..] => frame_made(heap, &read(heap, digits)?),
        [b's', b'l', b'o', b't', b' ', digits @ ..] => {
            let slot = slot_of(&read(heap, digits)?);
            [slot.unwrap_or(0xff)].to_vec(heap)
        }
        [b'h', b'e', b'a', b'r', b' ', digits @ ..] => heard(heap, &read(heap, digits)?),
        _ => Ok(Vec::new(heap)),
    }
}

fn main(rt: HostRuntime) -> io::Result<()> {
    let heap = rt.alloc();
    for line in BufReader::new(heap, rt.stdin())?.split(heap, b'\n') {
        println!(rt; "{}", Hex(&answer(heap, &line?)?))?;
    }
    Ok(())
}
