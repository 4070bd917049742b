// The questions on a selection: are its amounts allowed, and does every area balance?
ghost use Rattle.std.specs.Prelude.{◌≡◌, length, pos, slice_index_or};
ghost use Rattle.market.specs.Cases.{areas, demand_at, border_at, bid_at};
ghost use Rattle.market.specs.Selections.{satisfied_allowed, flow_allowed, activated_allowed};
ghost use Rattle.market.specs.First.{ask as asked};
ghost use Rattle.market.specs.declared.refusal.Refusal.TheVariants.{Satisfied, Flow, Activated, Balance};
ghost use Rattle.fitting.specs.Judged.{satisfied_at, flow_at, activated_at, balances};
ghost use Rattle.fitting.specs.Candidates.{case, selection};

use crate::amounts::{is_activated_allowed, is_balanced, is_flow_allowed, is_satisfied_allowed};
use crate::candidate::Candidate;
use market::{Refusal, ask};

impl Candidate<'_, '_, '_> {
    // Is each area's satisfied amount allowed?
    pub fn ask_satisfied(self) -> Result<(), Refusal>
        ensures { result ≡ asked (λ a. satisfied_allowed (demand_at (case self.entry) a) (satisfied_at (selection self.entry) a)) (areas (case self.entry)) Satisfied }
    {
        ask(
            self.book.demands.len(),
            |area| is_satisfied_allowed(self.book.demand(area), self.proposal.satisfied(area)),
            Refusal::Satisfied,
        )
    }

    // Is each border's flow allowed?
    pub fn ask_flows(self) -> Result<(), Refusal>
        ensures { result ≡ asked (λ k. flow_allowed (border_at (case self.entry) k) (flow_at (selection self.entry) k)) (length (case self.entry).borders) Flow }
    {
        ask(
            self.book.borders.len(),
            |border| is_flow_allowed(self.book.border(border), self.proposal.flow(border)),
            Refusal::Flow,
        )
    }

    // Is each bid's activated amount allowed?
    pub fn ask_activated(self) -> Result<(), Refusal>
        ensures { result ≡ asked (λ k. activated_allowed (bid_at (case self.entry) k) (activated_at (selection self.entry) k)) (length (case self.entry).bids) Activated }
    {
        ask(
            self.book.bids.len(),
            |bid| is_activated_allowed(self.book.bid(bid), self.proposal.activated(bid)),
            Refusal::Activated,
        )
    }

    // Does each area balance, by the sums of what enters it?
    pub fn ask_balance(self) -> Result<(), Refusal>
        ensures { result ≡ asked (balances (case self.entry) (selection self.entry)) (areas (case self.entry)) Balance }
    {
        let sums = self.balance_sheet();
        ask(
            self.book.demands.len(),
            |area| is_balanced(sum_of(&sums, area), self.proposal.satisfied(area)),
            Refusal::Balance,
        )
    }
}

// The sum of an area; 0 past the last.
fn sum_of(sums: &[i64], area: usize) -> i64
    ensures { result ≡ slice_index_or sums.now area (pos 0) }
{
    sums.get(area).copied().unwrap_or(0)
}
