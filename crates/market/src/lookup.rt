// What the book of a case has at a place.
ghost use Rattle.std.specs.Prelude.{◌≡◌};
ghost use Rattle.market.specs.Cases.{demand_at, border_at, bid_at};
ghost use Rattle.market.specs.Held.{held};

use crate::book::Book;
use crate::trade::{Bid, Border};

impl Book {
    // The demand of an area; 0 past the last.
    pub fn demand(&self, area: usize) -> i32
        ensures { result ≡ demand_at (held self.now) area }
    {
        self.demands.get(area).copied().unwrap_or_default()
    }

    // A border; one of zeros past the last.
    pub fn border(&self, border: usize) -> Border
        ensures { result ≡ border_at (held self.now) border }
    {
        self.borders.get(border).copied().unwrap_or_default()
    }

    // A bid; one of zeros past the last.
    pub fn bid(&self, bid: usize) -> Bid
        ensures { result ≡ bid_at (held self.now) bid }
    {
        self.bids.get(bid).copied().unwrap_or_default()
    }
}
