// The cycle: it loads a case, takes a proposal whose selection nothing beats, and closes to release the listing.
#![tactic(auto)]

mod calls;
mod changing;
mod closed;
mod cycle;
mod holdings;
mod out;
mod reserve;
mod standing;

pub use calls::{Answer, Call, Item};
pub use cycle::{Closed, Cycle, Open, Shut};
