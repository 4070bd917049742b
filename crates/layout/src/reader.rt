// A case in its bytes.
ghost use Rattle.std.specs.Prelude.{◌≡◌, length, slice_index_or};
ghost use Rattle.market.specs.Cases.{areas, demand_at, border_at, bid_at};
ghost use Rattle.layout.specs.CaseReaders.{case_read, directions_read, no_direction};

use market::{Bid, Border, Direction};
use records::{BidDirection, Record, record_at};

// A case, read straight from its bytes: the parts of its areas, its borders and its bids.
#[derive(Clone, Copy)]
pub struct CaseReader<'a> {
    pub(super) demands: &'a [u8],
    pub(super) borders: &'a [u8],
    pub(super) bids: &'a [u8],
}

impl<'a> CaseReader<'a> {
    // How many areas there are.
    pub fn areas(&self) -> usize
        ensures { result ≡ areas (case_read self.now) }
    {
        self.demands.len() / i32::SIZE
    }

    // The demand of an area; 0 past the last.
    pub fn demand(&self, area: usize) -> i32
        ensures { result ≡ demand_at (case_read self.now) area }
    {
        record_at::<i32>(self.demands, area).unwrap_or_default()
    }

    // How many borders there are.
    pub fn borders(&self) -> usize
        ensures { result ≡ length (case_read self.now).borders }
    {
        self.borders.len() / Border::SIZE
    }

    // A border; one of zeros past the last.
    pub fn border(&self, border: usize) -> Border
        ensures { result ≡ border_at (case_read self.now) border }
    {
        record_at::<Border>(self.borders, border).unwrap_or_default()
    }

    // How many bids there are.
    pub fn bids(&self) -> usize
        ensures { result ≡ length (case_read self.now).bids }
    {
        self.bids.len() / Bid::SIZE
    }

    // A bid; one of zeros past the last.
    pub fn bid(&self, bid: usize) -> Bid
        ensures { result ≡ bid_at (case_read self.now) bid }
    {
        record_at::<Bid>(self.bids, bid).unwrap_or_default()
    }

    // The direction that a bid's bytes give, or the number there that no direction has; up past the last.
    pub(super) fn direction(&self, bid: usize) -> BidDirection
        ensures { result ≡ slice_index_or (directions_read self.now) bid no_direction }
    {
        record_at::<BidDirection>(self.bids, bid).unwrap_or(Ok(Direction::Up))
    }
}
