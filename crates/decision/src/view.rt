//! The public state of a hopper.
use blocks::{Config, Stage};

/// What the decisions of a hopper rest on. Neither its card key nor its session keys are here, nor the bytes of RC.
#[derive(Clone, Copy)]
pub struct View {
    pub stage: Stage,
    pub sound: bool,
    /// RC is written
    pub seeded: bool,
    pub authenticated: bool,
    pub config: Config,
    pub counter: u32,
}
