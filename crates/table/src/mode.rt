//! The modes of an indicator.
use crate::report::Report;
use journal::Burn;

/// Why an indicator is working.
// Not an Option, though it has that shape: nothing is missing when power came up.
#[derive(Clone, Copy)]
pub enum Cause {
    /// power came up
    Up,
    /// a frame was heard: a reply is owed
    Hear(Report),
}

/// What an indicator is working on, and the next burn that is left, if any.
#[derive(Clone, Copy)]
pub struct Work {
    pub cause: Cause,
    pub left: Option<Burn>,
}

#[derive(Clone, Copy)]
pub enum Mode {
    Off,
    Listening,
    Working(Work),
}
