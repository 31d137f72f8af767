//! Tests of the ciphers, tags and keys on small examples; long lists of vectors are the program `vectors`'.
#![tactic(auto)]

#[cfg(test)]
mod lines;
#[cfg(test)]
mod refusals;
#[cfg(test)]
mod tags;
