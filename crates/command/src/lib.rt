//! Commands: what a frame asks, the tests of a request's header, and the time slot of a reply.
#![tactic(auto)]

mod bench;
mod command;
mod header;
mod request;
mod time_slot;

pub use bench::worked_cases;
pub use command::Command;
pub use header::WriteBody;
pub use request::Request;
pub use time_slot::slot;
