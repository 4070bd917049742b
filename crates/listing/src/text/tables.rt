// The tables of a listing: a line for each area, border and bid.
ghost use Rattle.std.specs.Prelude.{◌*◌, length};
ghost use Rattle.market.specs.Cases.{areas};
ghost use Rattle.listing.specs.Growth.{HasRoom, Wrote, area_room, flow_room, bid_room};
ghost use Rattle.listing.specs.Lines.{area_line, flow_line, bid_line, lines};
ghost use Rattle.listing.specs.View.{case_in, selection_in};

use crate::sums::activated_in;
use crate::text::Text;
use market::Settled;

impl Text {
    // The areas.
    pub(super) fn push_areas(&mut self, standing: &Settled)
        requires { HasRoom (area_room * 48) self.old }
        ensures { Wrote (area_room * 48) self.old self.new
            (lines (area_line (case_in standing.now) (selection_in standing.now)) 0 (areas (case_in standing.now))) }
    {
        let bids = standing.book.bids.as_slice();
        let amounts = standing.amounts.activated.as_slice();
        let demands = standing.book.demands.iter();
        let satisfied = standing.amounts.satisfied.iter();
        for (area, (demand, satisfied)) in demands.zip(satisfied).enumerate() {
            self.push_area(area, *demand, *satisfied, activated_in(bids, amounts, area));
        }
    }

    // The flows.
    pub(super) fn push_flows(&mut self, standing: &Settled)
        requires { HasRoom (flow_room * 128) self.old }
        ensures { Wrote (flow_room * 128) self.old self.new
            (lines (flow_line (selection_in standing.now)) 0 (length (case_in standing.now).borders)) }
    {
        for (border, flow) in standing.amounts.flows.iter().enumerate() {
            self.push_flow(border, *flow);
        }
    }

    // The activated amounts.
    pub(super) fn push_bids(&mut self, standing: &Settled)
        requires { HasRoom (bid_room * 1024) self.old }
        ensures { Wrote (bid_room * 1024) self.old self.new
            (lines (bid_line (selection_in standing.now)) 0 (length (case_in standing.now).bids)) }
    {
        for (bid, amount) in standing.amounts.activated.iter().enumerate() {
            self.push_bid(bid, *amount);
        }
    }
}
