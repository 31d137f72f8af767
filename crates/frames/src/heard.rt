//! What received bytes ask, as bytes of an answer. The first is 00h for no frame, 01h for polling (request code and slots
//! follow), 02h for a read, 03h for a write, 04h for code 10h (the identity follows), 05h for any other packet. A read or a write
//! goes on with its identity, services, service code (low byte first) and block count, and then with its outcome: 00h, the number of
//! blocks, each number (low byte first) and the data; 01h, place, element and both flags of an error; or 02h and the place
//! of a silence.
use blocklist::{Fault, Refusal, blocks_of};
use command::{Command, Request};
use frame::take_packet;
use std::alloc::{AllocError, Global};

/// An answer as it grows.
type Answer = Vec<u8>;

fn add_fault(answer: &mut Answer, fault: Fault) -> Result<(), AllocError> {
    let Fault {
        place,
        element,
        flags,
    } = fault;
    answer.extend_from_slice(&[1, place, element, flags.sf1, flags.sf2])?;
    Ok(())
}

fn add_refusal(answer: &mut Answer, refusal: Refusal) -> Result<(), AllocError> {
    match refusal {
        Refusal::Silence { place } => {
            answer.extend_from_slice(&[2, place])?;
            Ok(())
        }
        Refusal::Error(fault) => add_fault(answer, fault),
    }
}

/// The blocks that a list names, and the data for them.
fn add_blocks(answer: &mut Answer, list: &[u8], payload: &[u8]) -> Result<(), AllocError> {
    match blocks_of(list) {
        Ok(blocks) => {
            let numbers = blocks.as_slice();
            answer.extend_from_slice(&[0, numbers.len() as u8])?;
            for number in numbers {
                answer.extend_from_slice(&number.to_le_bytes())?;
            }
            answer.extend_from_slice(payload)?;
            Ok(())
        }
        Err(fault) => add_fault(answer, fault),
    }
}

/// The head of a read or a write.
fn add_request(answer: &mut Answer, request: &Request) -> Result<(), AllocError> {
    answer.extend_from_slice(&request.identity)?;
    answer.push(request.services)?;
    answer.extend_from_slice(&request.service.to_le_bytes())?;
    answer.push(request.blocks)?;
    Ok(())
}

fn add_read(answer: &mut Answer, request: Request) -> Result<(), AllocError> {
    answer.push(2)?;
    add_request(answer, &request)?;
    match request.read_header() {
        Ok(list) => add_blocks(answer, list, &[]),
        Err(refusal) => add_refusal(answer, refusal),
    }
}

fn add_write(answer: &mut Answer, request: Request) -> Result<(), AllocError> {
    answer.push(3)?;
    add_request(answer, &request)?;
    match request.write_header() {
        Ok(body) => add_blocks(answer, body.list, body.payload),
        Err(refusal) => add_refusal(answer, refusal),
    }
}

pub fn heard(heap: Global, bytes: &[u8]) -> Result<Answer, AllocError> {
    let mut answer = Vec::new(heap);
    if take_packet(bytes).is_none() {
        answer.push(0)?;
        return Ok(answer);
    }
    // The packet is taken out once more: `heard` is the call that the questions are about.
    match Command::heard(bytes) {
        Command::Polling { request, slots } => answer.extend_from_slice(&[1, request, slots])?,
        Command::Read(request) => add_read(&mut answer, request)?,
        Command::Write(request) => add_write(&mut answer, request)?,
        Command::Deafen { identity } => {
            answer.push(4)?;
            answer.extend_from_slice(&identity)?;
        }
        Command::Unknown => answer.push(5)?,
    }
    Ok(answer)
}
