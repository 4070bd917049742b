// Cases and proposals as bytes.
#![tactic(auto)]

mod case;
mod exact;
mod proposal;
mod questions;
mod reader;
mod table;

pub use case::{load, read_case};
pub use exact::{case_layout, proposal_layout, questions_in_order};
pub use proposal::{Counts, Proposal, Section, keep, read_proposal};
pub use reader::CaseReader;
