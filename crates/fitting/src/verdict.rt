// The fitting test, one text for every scale.
ghost use Rattle.std.specs.Prelude.{◌≡◌, Ok};
ghost use Rattle.market.specs.Held.{held};
ghost use Rattle.layout.specs.Sections.{selection_held};
ghost use Rattle.market.specs.Totals.{Unbeaten};
ghost use Rattle.fitting.specs.Judged.{judged, prices_judged, OneForEach};
ghost use Rattle.fitting.specs.Priced.{price_held};
ghost use Rattle.fitting.specs.Candidates.{case, selection, price};

use crate::candidate::Candidate;
use layout::Proposal;
use market::{Book, Refusal};
use scale::Scale;

// The first question on amounts, balances and prices that gets a no, or a yes. With a yes, nothing beats the selection.
pub fn judge<S: Scale>(book: &Book, proposal: &Proposal) -> Result<(), Refusal>
    ensures answer { result ≡ judged S.Scale.meaning (held book.now) (selection_held proposal.now) (price_held S.Scale.meaning proposal.now) }
    ensures unbeaten { result ≡ Ok tt → OneForEach (held book.now) (selection_held proposal.now) → Unbeaten S.Scale.meaning (held book.now) (selection_held proposal.now) }
{
    Candidate { book, proposal }.ask_all::<S>()
}

impl Candidate<'_, '_, '_> {
    // The questions in their order.
    fn ask_all<S: Scale>(self) -> Result<(), Refusal>
        ensures { result ≡ judged S.Scale.meaning (case self.entry) (selection self.entry) (price S.Scale.meaning self.entry) }
    {
        self.ask_satisfied()?;
        self.ask_flows()?;
        self.ask_activated()?;
        self.ask_balance()?;
        self.ask_prices::<S>()
    }

    // The questions on prices in their order.
    fn ask_prices<S: Scale>(self) -> Result<(), Refusal>
        ensures { result ≡ prices_judged S.Scale.meaning (case self.entry) (selection self.entry) (price S.Scale.meaning self.entry) }
    {
        self.ask_range::<S>()?;
        self.ask_demands::<S>()?;
        self.ask_borders::<S>()?;
        self.ask_bids::<S>()
    }
}
