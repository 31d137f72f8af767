//! A line of the key list, answered.
ghost use Rattle.std.specs.Prelude.{◌≡◌, length};
ghost use Rattle.keyline.specs.Lines.{answered, text_of, derived_text, derived_line};

use crate::derive::derive;
use crate::form::first_misfit;
use crate::hex::{bytes_at, hex16};
use std::fmt;

/// Why a line has no answer.
#[derive(Clone, Copy)]
pub enum LineFault {
    /// it has so many characters, where 81 are wanted: number 1
    Length(usize),
    /// the character at this column, counted from 1, may not stand there: number 2
    Character(usize),
}

impl fmt::Display for LineFault {
    fn fmt<W: fmt::Write>(&self, f: &mut fmt::Formatter<W>) -> fmt::Result {
        match *self {
            LineFault::Length(n) => write!(
                f,
                "it has {n} characters, not 81: 48 hexadecimal digits, one space, 32 hexadecimal digits"
            ),
            LineFault::Character(49) => write!(f, "character 49 is not a space"),
            LineFault::Character(column) => write!(
                f,
                "character {column} is not a hexadecimal digit"
            ),
        }
    }
}

/// The ID in capitals, a space, and the key in capitals. (The back part is copied first: the prover then knows both.)
fn join_fields(id: &[u8; 32], key: &[u8; 32]) -> [u8; 65]
    ensures { result ≡ text_of id.now key.now }
{
    let mut text = [b' '; 65];
    text[33..].copy_from_slice(key);
    text[..32].copy_from_slice(id);
    text
}

/// The ID and its diversified key, from a line of the right form.
fn derived_fields(line: &[u8]) -> [u8; 65]
    requires { length line.now ≡ 81 }
    ensures { result ≡ derived_text line.now }
{
    let master = bytes_at::<24>(line, 0);
    let id = bytes_at::<16>(line, 49);
    join_fields(&hex16(&id), &hex16(&derive(&master, &id)))
}

/// The answer to a line of a master key and an ID: the ID and its diversified key.
pub fn derived_line(line: &[u8]) -> Result<[u8; 65], LineFault>
    ensures { answered result ≡ derived_line line.now }
{
    if line.len() != 81 {
        return Err(LineFault::Length(line.len()));
    }
    match first_misfit(line) {
        Some(place) => Err(LineFault::Character(place + 1)),
        None => Ok(derived_fields(line)),
    }
}
