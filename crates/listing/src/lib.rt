// The listing of what stands: its text and its totals.
#![tactic(auto)]

mod example;
mod sums;
mod tally;
mod text;
mod total;

pub use example::example_listing;
pub use tally::totals;
pub use text::{ROOM, Text};
pub use total::Totals;
