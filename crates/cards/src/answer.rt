//! The answer to a question.
use crate::question::{Algorithm, Question, question_of};
use blocks::Stage;
use card::{Outcome, poll, react};
use cipher::Cipher;
use command::Command;
use hopper::held;
use mac::session::{SessionKeys, session_keys};
use reply::Packet;
use std::alloc::{AllocError, Global};
use tdes::two_key::TwoKeyDes;
use volatile::{Radio, Volatile};
use xtea::Xtea;

/// An answer as it grows.
type Answer = Vec<u8>;

fn add_reply(answer: &mut Answer, reply: Option<Packet>) -> Result<(), AllocError> {
    match reply {
        Some(packet) => {
            let bytes = packet.as_slice();
            answer.push(bytes.len() as u8)?;
            answer.extend_from_slice(bytes)?;
        }
        None => answer.push(0)?,
    }
    Ok(())
}

fn weight(bit: bool, weight: u8) -> u8 {
    if bit { weight } else { 0 }
}

/// The setting byte of a state.
fn setting_of(algorithm: Algorithm, volatile: &Volatile) -> u8 {
    let cipher = match algorithm {
        Algorithm::TwoKeyDes => 0,
        Algorithm::Xtea => 1,
    };
    let issued = match volatile.stage {
        Stage::Issuing => 0,
        Stage::Issued => 2,
    };
    let deaf = match volatile.session.radio {
        Radio::Deaf { .. } => 64,
        Radio::Open | Radio::PollShut => 0,
    };
    cipher
        | issued
        | weight(volatile.sound, 4)
        | weight(volatile.session.is_seeded(), 8)
        | weight(volatile.session.authenticated, 16)
        | weight(volatile.session.radio.is_poll_shut(), 32)
        | deaf
}

fn add_session(answer: &mut Answer, rc: [u8; 16], keys: SessionKeys) -> Result<(), AllocError> {
    answer.extend_from_slice(&rc)?;
    answer.extend_from_slice(&keys.first)?;
    answer.extend_from_slice(&keys.second)?;
    Ok(())
}

fn add_state(answer: &mut Answer, question: &Question) -> Result<(), AllocError> {
    let volatile = &question.volatile;
    answer.push(setting_of(question.algorithm, volatile))?;
    match volatile.session.rc {
        Some(rc) => add_session(answer, rc, volatile.keys),
        None => Ok(()),
    }
}

/// The outcome, with the state that the question is left in.
fn add_outcome(
    answer: &mut Answer,
    outcome: Outcome,
    question: &Question,
) -> Result<(), AllocError> {
    answer.extend_from_slice(&[outcome.place, outcome.element])?;
    add_reply(answer, outcome.reply)?;
    add_state(answer, question)?;
    match outcome.write {
        Some(write) => {
            let [block, _] = write.block.to_le_bytes();
            let [low, middle, high, _] = write.counter.to_le_bytes();
            answer.extend_from_slice(&[1, block])?;
            answer.extend_from_slice(&write.bytes)?;
            answer.extend_from_slice(&[low, middle, high])?;
        }
        None => answer.push(0)?,
    }
    Ok(())
}

/// The session keys where RC is written.
fn seed<C: Cipher>(cipher: &C, question: &mut Question, sheet: &mut [u64; 16]) {
    if let Some(rc) = question.volatile.session.rc {
        if let Ok(keys) = session_keys(cipher, &question.card_key, &rc, sheet) {
            question.volatile.keys = keys;
        }
    }
}

/// What the card does with the packet: polling is answered by `poll`, anything else by `react`.
fn outcome_of<C: Cipher>(
    cipher: &C,
    question: &mut Question,
    sheet: &mut [u64; 16],
) -> Option<Outcome> {
    let command = Command::parse(question.packet);
    if let Some(reply) = poll(&question.volatile, &held(&question.cells, 16), command) {
        return Some(Outcome {
            reply: Some(reply),
            place: 0,
            element: 0,
            write: None,
        });
    }
    react(
        cipher,
        &question.cells,
        &mut question.volatile,
        command,
        sheet,
    )
    .ok()
}

fn answer_with<C: Cipher>(
    heap: Global,
    cipher: &C,
    question: &mut Question,
) -> Result<Answer, AllocError> {
    let mut sheet = [0; 16];
    let mut answer = Vec::new(heap);
    seed(cipher, question, &mut sheet);
    if let Some(outcome) = outcome_of(cipher, question, &mut sheet) {
        add_outcome(&mut answer, outcome, question)?;
    }
    Ok(answer)
}

/// The answer to a question; nothing to a line that is none.
pub fn answer(heap: Global, bytes: &[u8]) -> Result<Answer, AllocError> {
    let Some(mut question) = question_of(bytes) else {
        return Ok(Vec::new(heap));
    };
    match question.algorithm {
        Algorithm::TwoKeyDes => answer_with(heap, &TwoKeyDes, &mut question),
        Algorithm::Xtea => answer_with(heap, &Xtea, &mut question),
    }
}
