// Changes of the book of a case: each asks its questions first, and a refusal changes nothing.
ghost use Rattle.std.specs.Prelude.{◌≡◌, ◌&&◌, length, is_some, is_ok, if◌then◌else◌, nat_le};
ghost use Rattle.market.specs.Cases.{demand_in_range};
ghost use Rattle.market.specs.Changes.{revise_answer, revised, limit_answer, limited, withdraw_answer, withdrawn};
ghost use Rattle.market.specs.Held.{held};

use crate::book::Book;
use crate::refusal::Refusal;
use crate::trade::{Bid, Border};

// The parameters are those of the calls of a cycle, as callers have them. An element is found by `get`, and set by its index when every
// question has been asked: with a `get_mut` in hand the book's fact is owed before that, and its proof did not close.
impl Book {
    // Sets an area's demand.
    pub fn revise(&mut self, area: usize, demand: i32) -> Result<(), Refusal>
        ensures answer { result ≡ revise_answer (held self.old) area demand }
        ensures after { held self.new ≡ (if is_ok result then revised (held self.old) area demand else held self.old) }
    {
        let Some(_) = self.demands.get(area) else {
            return Err(Refusal::Unknown(area));
        };
        if !is_demand_in_range(demand) {
            return Err(Refusal::Demand(area));
        }
        self.demands[area] = demand;
        Ok(())
    }

    // Sets a border's two limits.
    pub fn limit(&mut self, border: usize, forward: u32, backward: u32) -> Result<(), Refusal>
        ensures answer { result ≡ limit_answer (held self.old) border forward backward }
        ensures after { held self.new ≡ (if is_ok result then limited (held self.old) border forward backward else held self.old) }
    {
        let Some(old) = self.borders.get(border).copied() else {
            return Err(Refusal::Unknown(border));
        };
        if !is_limit_in_range(forward, backward) {
            return Err(Refusal::Limits(border));
        }
        self.borders[border] = Border {
            forward,
            backward,
            ..old
        };
        Ok(())
    }

    // Makes a bid's volume 0.
    pub fn withdraw(&mut self, bid: usize) -> Result<(), Refusal>
        ensures answer { result ≡ withdraw_answer (held self.old) bid }
        ensures after { held self.new ≡ (if is_ok result then withdrawn (held self.old) bid else held self.old) }
    {
        let Some(old) = self.bids.get(bid).copied() else {
            return Err(Refusal::Unknown(bid));
        };
        self.bids[bid] = Bid { volume: 0, ..old };
        Ok(())
    }
}

// From -20,000,000 to 20,000,000 kW.
pub fn is_demand_in_range(demand: i32) -> bool
    ensures { result ≡ demand_in_range demand }
{
    (-20_000_000..=20_000_000).contains(&demand)
}

// At most 20,000,000 kW each way.
pub fn is_limit_in_range(forward: u32, backward: u32) -> bool
    ensures { result ≡ (nat_le forward 20000000 && nat_le backward 20000000) }
{
    forward <= 20_000_000 && backward <= 20_000_000
}
