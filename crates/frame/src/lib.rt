//! Frames: a packet taken out of received bytes, and one written into lent memory.
#![tactic(auto)]

mod frame;
mod reply_memory;

pub use frame::{FrameError, frames_round_trip, put_frame, take_packet};
