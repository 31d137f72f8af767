//! Block lists: how many elements, how many bytes, which blocks; and the refusals of a command.
#![tactic(auto)]

mod block_list;
mod block_numbers;
mod blocks;
mod element;
mod elements;
mod fault;
mod places;

pub use block_list::{lists_are_exact, read_is_exact, read_list, write_is_exact};
pub use block_numbers::blocks_of;
pub use blocks::Blocks;
pub use fault::{Fault, Flags, Refusal};
pub use places::{
    BLOCK_PLACE, ELEMENT_PLACE, FRAME_PLACE, HEADER_PLACE, MEMORY_PLACE, SERVICE_PLACE,
};
