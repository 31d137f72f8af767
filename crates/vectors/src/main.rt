//! Prints test vectors of the ciphers, tags and keys: published cases, and cases drawn from a fixed start. The file stdout
//! beside this folder was written by the second program; the gate compares the two.
#![tactic(auto)]

mod cases;
mod drawn;
mod published;
mod random;
mod results;
mod text;

use std::io;

fn main(rt: HostRuntime) -> io::Result<()> {
    published::print(&rt)?;
    drawn::print(&rt)
}
