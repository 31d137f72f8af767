//! Replies: the text that their tags are taken over, and their packets.
#![tactic(auto)]

mod code;
mod growing;
mod lead;
mod packet;
mod packets;
mod text;

pub use code::{READ_REPLY, WRITE_REPLY};
pub use packet::Packet;
pub use text::Text;
