//! The state of a hopper and the packet that a question is about.
use blocks::{CARD_KEY_CELL, CELLS, CONFIG_CELL, COUNTER_CELL, Stage};
use byte_arrays::tail;
use mac::session::SessionKeys;
use memory::cell::Cell;
use std::array;
use volatile::{Radio, Session, Volatile};

/// Where the fill byte of a question lies, the last before its packet.
const FILL: usize = 52;

/// The cipher of the card's keys.
#[derive(Clone, Copy)]
pub enum Algorithm {
    TwoKeyDes,
    Xtea,
}

#[derive(Drop)]
pub struct Question<'a> {
    pub algorithm: Algorithm,
    pub cells: [Cell; CELLS],
    /// all but the session keys
    pub volatile: Volatile,
    pub card_key: [u8; 16],
    pub packet: &'a [u8],
}

/// Whether a bit of the setting is 1.
fn is_set(setting: u8, weight: u8) -> bool {
    setting & weight != 0
}

/// The sixteen bytes from a place on; zeros where there are fewer.
fn block_at(bytes: &[u8], at: usize) -> [u8; 16] {
    let mut block = [0; 16];
    for (to, from) in block.iter_mut().zip(tail(bytes, at)) {
        *to = *from;
    }
    block
}

/// A cell that the question does not give: a run of bytes from the fill byte on.
fn filled(fill: u8, cell: u8) -> Cell {
    let start = fill.wrapping_add(cell.wrapping_mul(16));
    Cell::Good(array::from_fn(|i| start.wrapping_add(i as u8)))
}

fn cells_of(bytes: &[u8], fill: u8) -> [Cell; CELLS] {
    let mut cells: [Cell; CELLS] = array::from_fn(|i| filled(fill, i as u8));
    let [low, middle, high, ..] = block_at(bytes, 17);
    cells[CARD_KEY_CELL] = Cell::Good(block_at(bytes, 20));
    cells[CONFIG_CELL] = Cell::Good(block_at(bytes, 1));
    cells[COUNTER_CELL] = Cell::Good([low, middle, high, 0, 0, 0, 0, 0, 0, 0, 0, 0, 0, 0, 0, 0]);
    cells
}

fn radio_of(setting: u8) -> Radio {
    let poll_shut = is_set(setting, 32);
    if is_set(setting, 64) {
        Radio::Deaf { poll_shut }
    } else if poll_shut {
        Radio::PollShut
    } else {
        Radio::Open
    }
}

fn volatile_of(setting: u8, rc: [u8; 16]) -> Volatile {
    Volatile {
        stage: if is_set(setting, 2) {
            Stage::Issued
        } else {
            Stage::Issuing
        },
        sound: is_set(setting, 4),
        session: Session {
            rc: is_set(setting, 8).then_some(rc),
            authenticated: is_set(setting, 16),
            radio: radio_of(setting),
        },
        keys: SessionKeys {
            first: [0; 8],
            second: [0; 8],
        },
    }
}

/// The question in a line's bytes, if there are enough.
pub fn question_of(bytes: &[u8]) -> Option<Question<'_>> {
    let [setting, ..] = bytes else {
        return None;
    };
    let [fill, packet @ ..] = tail(bytes, FILL) else {
        return None;
    };
    Some(Question {
        algorithm: if is_set(*setting, 1) {
            Algorithm::Xtea
        } else {
            Algorithm::TwoKeyDes
        },
        cells: cells_of(bytes, *fill),
        volatile: volatile_of(*setting, block_at(bytes, 36)),
        card_key: block_at(bytes, 20),
        packet,
    })
}
