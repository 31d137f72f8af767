//! Tests of frames, block lists, commands and block memories on small examples.
#![tactic(auto)]

#[cfg(test)]
mod crcs;
#[cfg(test)]
mod frames;
#[cfg(test)]
mod memories;
