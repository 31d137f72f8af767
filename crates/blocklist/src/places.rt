//! The groups of tests that refuse a command, called places, by their numbers.
// Numbers and no enum: a place goes up to the caller as it is, and public functions take any byte for it.

/// The group of tests of the frame.
pub const FRAME_PLACE: u8 = 1;

/// The group of tests of a command's header.
pub const HEADER_PLACE: u8 = 2;

/// The group of tests of the elements of a block list.
pub const ELEMENT_PLACE: u8 = 3;

/// The group of tests of the service code.
pub const SERVICE_PLACE: u8 = 4;

/// The test that the hopper's memory is sound.
pub const MEMORY_PLACE: u8 = 5;

/// The group of tests of the blocks.
pub const BLOCK_PLACE: u8 = 6;
