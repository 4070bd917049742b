// A case and a proposal, written into a buffer.
#![tactic(auto)]

mod write;
mod written;

pub use write::{write_case, write_proposal};
