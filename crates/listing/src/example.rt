// A worked listing.
ghost use Rattle.std.specs.Prelude.{◌≡◌};
ghost use Rattle.market.specs.Cases.{Valid};
ghost use Rattle.market.specs.Selections.{WithinLimits};
ghost use Rattle.listing.specs.Example.{example_case, example_selection};
ghost use Rattle.listing.specs.Lines.{listing};

// The listing of a case with two areas, a border and two bids, all of whose demand is satisfied.
pub fn example_listing() -> &'static [u8]
    ensures stands { Valid example_case × WithinLimits example_case example_selection }
    ensures text { result.now ≡ listing example_case example_selection }
{
    b"area demand satisfied unsatisfied up down export\n\
      0 80 80 0 30 0 -50\n\
      1 -120 -120 0 0 70 50\n\
      flow 0 -50\n\
      bid 0 30\n\
      bid 1 70\n\
      total 200 100 50 -260000\n"
}
