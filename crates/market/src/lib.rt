// The words of the trade: areas, borders, bids, the book of a case, the amounts of a selection, and why a call is refused.
#![tactic(auto)]

mod book;
mod changes;
mod lookup;
mod question;
mod refusal;
mod settled;
mod trade;

pub use book::{AREAS, Amounts, BIDS, BORDERS, Book};
pub use changes::{is_demand_in_range, is_limit_in_range};
pub use question::{ask, first_no};
pub use refusal::Refusal;
pub use settled::Settled;
pub use trade::{Bid, Border, Direction, UnknownDirection};
