//! The volatile record of a hopper.
use crate::radio::Radio;
use blocks::Stage;
use mac::session::SessionKeys;

/// What is public of a session: RC if it is written, and what STATE and the radio stand at.
#[derive(Clone, Copy)]
pub struct Session {
    pub rc: Option<[u8; 16]>,
    pub authenticated: bool,
    pub radio: Radio,
}

/// All that a hopper keeps outside its cells. The stage and the soundness are those last fixed.
#[derive(Clone, Copy)]
pub struct Volatile {
    pub stage: Stage,
    pub sound: bool,
    pub session: Session,
    pub keys: SessionKeys,
}
