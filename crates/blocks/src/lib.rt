//! A hopper's blocks: the cells they lie in, the configuration, permission, and the write counter.
#![tactic(auto)]

mod cells;
mod config;
mod counter;
mod permission;
mod stage;

pub use cells::{
    CARD_KEY_CELL, CELLS, CONFIG_CELL, COUNTER_CELL, cell_number, cell_of, first_cell,
};
pub use config::Config;
pub use counter::{ceiling, counter_block, counter_now, counter_stored, three_byte_number};
pub use permission::Permission;
pub use stage::Stage;
