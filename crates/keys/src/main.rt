//! Derives the card keys of hoppers. Standard input has a line for each: a master key (48 hexadecimal digits), one
//! space, an ID (32 digits). For each line the ID and its diversified key are printed; a line of another form is
//! reported on standard error by its number, and the next one follows.
#![tactic(auto)]

use keyline::example::EXAMPLE;
use keyline::line::derived_line;
use std::io;
use std::io::{BufRead, BufReader, Write};

/// Answers one line; whether it was of the right form.
fn answer(rt: &HostRuntime, number: usize, line: &[u8]) -> io::Result<bool> {
    match derived_line(line) {
        Ok(text) => {
            let mut out = rt.stdout();
            out.write_all(&text)?;
            out.write_all(b"\n")?;
            Ok(true)
        }
        Err(fault) => {
            eprintln!(rt; "line {number}: {fault}")?;
            Ok(false)
        }
    }
}

/// Shows what the program does, on a list of its own.
fn show_example(rt: &HostRuntime) -> io::Result<()> {
    println!(rt; "Standard input is empty: an example of four hoppers under one master key.")?;
    for (i, line) in EXAMPLE.iter().enumerate() {
        answer(rt, i + 1, *line)?;
    }
    Ok(())
}

fn main(rt: HostRuntime) -> io::Result<()> {
    // Counted beside the loop, since the number of lines is needed after it.
    let mut number: usize = 0;
    let mut refused: usize = 0;
    for line in BufReader::new(rt.alloc(), rt.stdin())?.split(rt.alloc(), b'\n') {
        number = number.saturating_add(1);
        if !answer(&rt, number, &line?)? {
            refused = refused.saturating_add(1);
        }
    }
    if number == 0 {
        show_example(&rt)?;
    }
    if refused > 0 {
        eprintln!(rt; "{refused} of {number} lines were refused")?;
        return Err(io::Error::from(io::ErrorKind::InvalidData));
    }
    Ok(())
}
