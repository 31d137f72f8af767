//! The table of an indicator.
use crate::mode::Mode;
use volatile::Volatile;

/// The volatile records of the four hoppers, and the mode.
#[derive(Clone, Copy)]
pub struct Table {
    pub records: [Volatile; 4],
    pub mode: Mode,
}
