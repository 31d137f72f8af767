//! A case: the byte strings of which something is made; and its line.
use crate::text::Field;
use std::io;

/// The inputs; only a tag has a second one beside the key.
#[derive(Clone, Copy)]
pub struct Case<'a> {
    pub key: &'a [u8],
    pub first: &'a [u8],
    pub second: Option<&'a [u8]>,
}

/// What was made of a case. An input of a length that the library does not take is a mistake in this program, and ends it.
pub fn made_of<R: Drop>(made: Option<R>) -> io::Result<R> {
    made.ok_or(io::Error::from(io::ErrorKind::InvalidInput))
}

/// The case's line, after its name.
pub fn print_case(rt: &HostRuntime, case: Case, made: &[u8]) -> io::Result<()> {
    print!(rt; " {} {}", Field(case.key), Field(case.first))?;
    if let Some(second) = case.second {
        print!(rt; " {}", Field(second))?;
    }
    println!(rt; " {}", Field(made))
}
