// The questions on prices: is each in range, and does it fit the demands, borders and bids?
ghost use Rattle.std.specs.Prelude.{◌≡◌, length, is_some};
ghost use Rattle.std.specs.Option.{option_map};
ghost use Rattle.market.specs.Cases.{areas, demand_at, border_at, bid_at};
ghost use Rattle.market.specs.First.{ask as asked};
ghost use Rattle.market.specs.declared.refusal.Refusal.TheVariants.{Price, DemandFit, BorderFit, BidFit};
ghost use Rattle.fitting.specs.Judged.{satisfied_at, flow_at, activated_at, demand_priced, border_priced, bid_priced};
ghost use Rattle.fitting.specs.Candidates.{case, selection, price};

use crate::candidate::Candidate;
use market::{Refusal, ask};
use prices::{is_bid_fitting, is_border_fitting, is_demand_fitting};
use scale::Scale;

impl Candidate<'_, '_, '_> {
    // The price of an area, where it is in range.
    fn price<S: Scale>(self, area: usize) -> Option<S::Price>
        ensures { option_map S.Scale.worth result ≡ price S.Scale.meaning self.entry area }
    {
        S::read_price(self.proposal.price(area))
    }

    // Is each area's price in range?
    pub fn ask_range<S: Scale>(self) -> Result<(), Refusal>
        ensures { result ≡ asked (λ a. is_some (price S.Scale.meaning self.entry a)) (areas (case self.entry)) Price }
    {
        ask(
            self.book.demands.len(),
            |area| self.price::<S>(area).is_some(),
            Refusal::Price,
        )
    }

    // Does an area's demand fit? A price out of range fits nothing.
    fn does_demand_fit<S: Scale>(self, area: usize) -> bool
        ensures { result ≡ demand_priced S.Scale.meaning (demand_at (case self.entry) area) (satisfied_at (selection self.entry) area) (price S.Scale.meaning self.entry area) }
    {
        self.price::<S>(area).is_some_and(|price| {
            is_demand_fitting::<S>(self.book.demand(area), self.proposal.satisfied(area), price)
        })
    }

    // Does a border fit?
    fn does_border_fit<S: Scale>(self, place: usize) -> bool
        ensures { result ≡ border_priced S.Scale.meaning (border_at (case self.entry) place) (flow_at (selection self.entry) place) (price S.Scale.meaning self.entry (border_at (case self.entry) place).from) (price S.Scale.meaning self.entry (border_at (case self.entry) place).to) }
    {
        let border = self.book.border(place);
        let from = self.price::<S>(usize::from(border.from));
        let to = self.price::<S>(usize::from(border.to));
        from.zip(to).is_some_and(|(from, to)| {
            is_border_fitting::<S>(border, self.proposal.flow(place), from, to)
        })
    }

    // Does a bid fit?
    fn does_bid_fit<S: Scale>(self, place: usize) -> bool
        ensures { result ≡ bid_priced S.Scale.meaning (bid_at (case self.entry) place) (activated_at (selection self.entry) place) (price S.Scale.meaning self.entry (bid_at (case self.entry) place).area) }
    {
        let bid = self.book.bid(place);
        self.price::<S>(usize::from(bid.area)).is_some_and(|price| is_bid_fitting::<S>(
            bid,
            self.proposal.activated(place),
            price,
        ))
    }

    // Do all demands fit?
    pub fn ask_demands<S: Scale>(self) -> Result<(), Refusal>
        ensures { result ≡ asked (λ a. demand_priced S.Scale.meaning (demand_at (case self.entry) a) (satisfied_at (selection self.entry) a) (price S.Scale.meaning self.entry a)) (areas (case self.entry)) DemandFit }
    {
        ask(
            self.book.demands.len(),
            |area| self.does_demand_fit::<S>(area),
            Refusal::DemandFit,
        )
    }

    // Do all borders fit?
    pub fn ask_borders<S: Scale>(self) -> Result<(), Refusal>
        ensures { result ≡ asked (λ k. border_priced S.Scale.meaning (border_at (case self.entry) k) (flow_at (selection self.entry) k) (price S.Scale.meaning self.entry (border_at (case self.entry) k).from) (price S.Scale.meaning self.entry (border_at (case self.entry) k).to)) (length (case self.entry).borders) BorderFit }
    {
        ask(
            self.book.borders.len(),
            |border| self.does_border_fit::<S>(border),
            Refusal::BorderFit,
        )
    }

    // Do all bids fit?
    pub fn ask_bids<S: Scale>(self) -> Result<(), Refusal>
        ensures { result ≡ asked (λ k. bid_priced S.Scale.meaning (bid_at (case self.entry) k) (activated_at (selection self.entry) k) (price S.Scale.meaning self.entry (bid_at (case self.entry) k).area)) (length (case self.entry).bids) BidFit }
    {
        ask(
            self.book.bids.len(),
            |bid| self.does_bid_fit::<S>(bid),
            Refusal::BidFit,
        )
    }
}
