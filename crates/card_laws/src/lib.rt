//! The worked cases of one hopper's card, as one theorem. (The laws that whole lives rest on stand beside it as text,
//! in files that end in .txt: they are stated, not proved, and no check reads them.)
#![tactic(auto)]

mod bench;

pub use bench::worked_cases;
