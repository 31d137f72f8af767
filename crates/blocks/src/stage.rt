//! The two stages of a hopper's life.

/// A hopper is issuing until its owner has set it up, and issued from then on.
#[derive(Clone, Copy, PartialEq, Eq)]
pub enum Stage {
    Issuing,
    Issued,
}
