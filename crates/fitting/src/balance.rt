// What enters each area, by one pass over the bids and one over the borders.
ghost use Rattle.std.specs.Prelude.{◌≡◌, ℕ, ◌*◌, ◌<◌, ◌≤◌, pos, ◌+ℤ◌, neg_ℤ, ◌≤ℤ◌, FitsSigned, slice_index_or, slice_set};
ghost use Rattle.std.specs.Int.{w64};
ghost use Rattle.market.specs.Selections.{injected, activated_in, flows_into, net};
ghost use Rattle.fitting.specs.Candidates.{case, selection};

use crate::candidate::Candidate;
use market::{AREAS, Direction};

// The sums stand in an array, since nothing is allocated once a cycle is made.
impl Candidate<'_, '_, '_> {
    // Up minus down plus flows in minus flows out of each area; 0 past the last.
    pub fn balance_sheet(self) -> [i64; AREAS]
        ensures { (a : ℕ) → a < 48 → slice_index_or result a (pos 0) ≡ net (case self.entry) (selection self.entry) a }
    {
        self.add_flows(self.activations())
    }

    // Up minus down in each area. An amount is below 2^32 and there are at most 1,024, so no sum passes 2^42.
    fn activations(self) -> [i64; AREAS]
        ensures sums { (a : ℕ) → a < 48 → slice_index_or result a (pos 0) ≡ activated_in a (case self.entry).bids (selection self.entry).activated }
        ensures small { (a : ℕ) → a < 48 → (neg_ℤ (pos 4398046511104) ≤ℤ slice_index_or result a (pos 0)) × (slice_index_or result a (pos 0) ≤ℤ pos 4398046511104) }
    {
        let mut sums = [0; AREAS];
        // Here and below amounts are read from the proposal's bytes by place: there is no list to walk beside the book's.
        for (place, bid) in self.book.bids.iter().enumerate() {
            add(
                &mut sums,
                usize::from(bid.area),
                injection(bid.direction, self.proposal.activated(place)),
            );
        }
        sums
    }

    // The same with the flows, each of which leaves one area and enters another.
    fn add_flows(self, activations: [i64; AREAS]) -> [i64; AREAS]
        requires { (a : ℕ) → a < 48 → (neg_ℤ (pos 4398046511104) ≤ℤ slice_index_or activations a (pos 0)) × (slice_index_or activations a (pos 0) ≤ℤ pos 4398046511104) }
        ensures { (a : ℕ) → a < 48 → slice_index_or result a (pos 0) ≡ slice_index_or activations a (pos 0) +ℤ flows_into a (case self.entry).borders (selection self.entry).flows }
    {
        let mut sums = activations;
        for (place, border) in self.book.borders.iter().enumerate() {
            let flow = i64::from(self.proposal.flow(place));
            add(&mut sums, usize::from(border.from), -flow);
            add(&mut sums, usize::from(border.to), flow);
        }
        sums
    }
}

// What an activated amount adds to its area: an up bid's amount, or minus a down bid's.
fn injection(direction: Direction, activated: u32) -> i64
    ensures { result ≡ injected direction activated }
{
    match direction {
        Direction::Up => i64::from(activated),
        Direction::Down => -i64::from(activated),
    }
}

// Adds to the sum of one area.
fn add(sums: &mut [i64; AREAS], area: usize, amount: i64)
    requires known { area < 48 }
    requires fits { FitsSigned w64 (slice_index_or sums.old area (pos 0) +ℤ amount) }
    ensures { sums.new ≡ slice_set sums.old area (slice_index_or sums.old area (pos 0) +ℤ amount) }
{
    sums[area] += amount;
}
