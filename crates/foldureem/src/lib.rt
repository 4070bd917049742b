// The verifier as a call over lent buffers, for programs in C and what calls C.
#![tactic(auto)]

mod boundary;
mod failure;
mod judging;
mod many;
mod told;

pub use boundary::{foldureem_count, foldureem_verify};
pub use failure::Failure;
pub use judging::{nets_only, verdict, verdict_on};
pub use many::count;
pub use told::FoldureemVerdict;
