// The lines of a listing, each written behind a text in memory that is reserved.
ghost use Rattle.std.specs.Prelude.{[], ◌∷◌, pos, ◌-ℤ◌, codes, decimal};
ghost use Rattle.std.specs.Fmt.{signed_decimal};
ghost use Rattle.listing.specs.Growth.{HasRoom, Wrote, heading_room, area_room, flow_room, bid_room, total_room};
ghost use Rattle.listing.specs.Lines.{spaced, heading};

use crate::sums::Activated;
use crate::text::Text;
use crate::total::Totals;

// Each line asks for the room that it may take, and uses it up: no invariant of a text can say that.
impl Text {
    // The heading.
    pub(super) fn push_heading(&mut self)
        requires { HasRoom heading_room self.old }
        ensures { Wrote heading_room self.old self.new heading }
    {
        self.push_word(b"area demand satisfied unsatisfied up down export\n");
    }

    // An area: demand minus satisfied is unsatisfied, and up minus down minus satisfied is exported.
    pub(super) fn push_area(
        &mut self,
        area: usize,
        demand: i32,
        satisfied: i32,
        activated: Activated,
    )
        requires { HasRoom area_room self.old }
        ensures { Wrote area_room self.old self.new
            (spaced (decimal area ∷ (signed_decimal demand ∷ (signed_decimal satisfied ∷ (signed_decimal (demand -ℤ satisfied)
            ∷ (decimal activated.up ∷ (decimal activated.down ∷ (signed_decimal ((pos activated.up -ℤ pos activated.down) -ℤ satisfied) ∷ [])))))))) }
    {
        let Activated { up, down } = activated;
        self.push_number(area, b' ');
        self.push_number(demand, b' ');
        self.push_number(satisfied, b' ');
        self.push_number(i64::from(demand) - i64::from(satisfied), b' ');
        self.push_number(up, b' ');
        self.push_number(down, b' ');
        // No cast loses bits: both sums are small, by the type.
        self.push_number(up as i64 - down as i64 - i64::from(satisfied), b'\n');
    }

    // A flow.
    pub(super) fn push_flow(&mut self, border: usize, flow: i32)
        requires { HasRoom flow_room self.old }
        ensures { Wrote flow_room self.old self.new (spaced (codes "flow" ∷ (decimal border ∷ (signed_decimal flow ∷ [])))) }
    {
        self.push_word(b"flow ");
        self.push_number(border, b' ');
        self.push_number(flow, b'\n');
    }

    // An activated amount.
    pub(super) fn push_bid(&mut self, bid: usize, amount: u32)
        requires { HasRoom bid_room self.old }
        ensures { Wrote bid_room self.old self.new (spaced (codes "bid" ∷ (decimal bid ∷ (decimal amount ∷ [])))) }
    {
        self.push_word(b"bid ");
        self.push_number(bid, b' ');
        self.push_number(amount, b'\n');
    }

    // The totals.
    pub(super) fn push_total(&mut self, totals: Totals)
        requires { HasRoom total_room self.old }
        ensures { Wrote total_room self.old self.new
            (spaced (codes "total" ∷ (decimal totals.satisfied ∷ (decimal totals.activated ∷ (signed_decimal totals.netted ∷ (signed_decimal totals.cost ∷ [])))))) }
    {
        self.push_word(b"total ");
        self.push_number(totals.satisfied, b' ');
        self.push_number(totals.activated, b' ');
        self.push_number(totals.netted, b' ');
        self.push_number(totals.cost, b'\n');
    }
}
