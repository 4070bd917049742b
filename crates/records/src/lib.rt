// Header words and records of a fixed size, read from bytes.
#![tactic(auto)]

mod header;
mod kind;
mod record;

pub use header::{CaseHeader, ProposalHeader, case_header, proposal_header};
pub use kind::Kind;
pub use record::{BidDirection, Record, record_at};
