// The totals of what stands.
ghost use Rattle.std.specs.Prelude.{◌≡◌, pos, ◌+ℤ◌, ◌-ℤ◌};
ghost use Rattle.listing.specs.Figures.{satisfied_sum, activated_sum, netted as half, cost as paid};
ghost use Rattle.listing.specs.View.{case_in, selection_in};

use crate::sums::{cost_of, sum_of_amounts, sum_of_sizes};
use crate::total::Totals;
use market::Settled;

// The totals: satisfied and activated are added over the whole case, netted is half of the one minus the other.
pub fn totals(standing: &Settled) -> Totals
    ensures satisfied { result.satisfied ≡ satisfied_sum (selection_in standing.now) }
    ensures activated { result.activated ≡ activated_sum (selection_in standing.now) }
    ensures netted { result.netted ≡ half (selection_in standing.now) }
    ensures whole { result.netted +ℤ result.netted ≡ pos result.satisfied -ℤ pos result.activated }
    ensures cost { result.cost ≡ paid (case_in standing.now) (selection_in standing.now) }
{
    let satisfied = sum_of_sizes(standing.amounts.satisfied.as_slice());
    let activated = sum_of_amounts(standing.amounts.activated.as_slice());
    Totals {
        satisfied,
        activated,
        // No cast loses bits: both sums are far below 2 ^ 63.
        netted: (satisfied as i64 - activated as i64) / 2,
        cost: cost_of(
            standing.book.bids.as_slice(),
            standing.amounts.activated.as_slice(),
        ),
    }
}
