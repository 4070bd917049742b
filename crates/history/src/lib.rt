// Calls on a cycle, one after the other, and what holds after each of them.
#![tactic(auto)]

mod proposal;
mod replay;

pub use proposal::{one_proposal, submit_asks_in_order};
pub use replay::{Replay, replay_calls};
