//! Answers questions about one hopper's card, one a line of standard input in capital hexadecimal: a setting byte (bit 0: XTEA,
//! else two-key triple DES; bit 1: issued; 2: sound; 3: RC is written; 4: authenticated; 5: poll-shut; 6: deaf), MC (16 bytes),
//! the stored counter (3), CK (16), RC (16), a fill byte for the other cells, and a packet. Each answer is a line: place,
//! element, the reply's length and bytes, the setting afterwards, RC and the session keys if RC is written, and 00h, or 01h and
//! the write for the journal (block, bytes, counter). The files stdin and stdout beside this folder were written by the second
//! program; the gate compares.
#![tactic(auto)]

mod answer;
mod question;

use crate::answer::answer;
use hex_digits::{Hex, bytes_of};
use std::io;
use std::io::{BufRead, BufReader};

fn main(rt: HostRuntime) -> io::Result<()> {
    let heap = rt.alloc();
    for line in BufReader::new(heap, rt.stdin())?.split(heap, b'\n') {
        let question: Vec<u8> = bytes_of(&line?).collect(heap)?;
        println!(rt; "{}", Hex(&answer(heap, &question)?))?;
    }
    Ok(())
}
