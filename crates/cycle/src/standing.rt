// Reading what stands: an amount, or the totals.
ghost use Rattle.std.specs.Prelude.{◌≡◌, true, IfSome, if◌then◌else◌, Some, None};
ghost use Rattle.std.specs.Option.{option_map};
ghost use Rattle.market.specs.Held.{held};
ghost use Rattle.listing.specs.View.{case_in, selection_in};
ghost use Rattle.cycle.specs.Sent.{read_answer, known, amount_of};
ghost use Rattle.cycle.specs.View.{state_of};
ghost use Rattle.cycle.specs.Totals.{standing_totals};

use crate::calls::Item;
use crate::holdings::Holdings;
use listing::{Totals, totals};
use market::{Book, Refusal, Settled};

impl Holdings {
    // What stands, lent for reading; none where nothing stands.
    pub fn standing(&self) -> Option<Settled<'_, '_>>
        ensures selection { option_map selection_in result ≡ (state_of self.now).standing }
        ensures case { IfSome result (λ s. case_in s ≡ (state_of self.now).case) }
    {
        // No `then`: its closure does not know that something stands.
        if self.stands {
            Some(Settled {
                book: &self.book,
                amounts: &self.amounts,
            })
        } else {
            None
        }
    }

    // The standing amount of an area, border or bid of the cycle.
    pub fn read(&self, item: Item) -> Result<i64, Refusal>
        ensures { result ≡ read_answer (state_of self.now).case (state_of self.now).standing item }
    {
        let Some(item) = look_up(&self.book, item) else {
            return Err(Refusal::Unknown(item.number()));
        };
        let standing = self.standing().ok_or(Refusal::NothingStands)?;
        Ok(amount(&standing, item))
    }

    // The totals of what stands; none where nothing stands.
    pub fn totals(&self) -> Option<Totals>
        ensures { result ≡ standing_totals (state_of self.now) }
    {
        self.standing().map(|standing| totals(&standing))
    }
}

// The area, border or bid, where the case has it. By the book's lengths: where nothing stands, the amounts are not those of this case.
fn look_up(book: &Book, item: Item) -> Option<Item>
    ensures { result ≡ (if known (held book.now) item then Some item else None) }
{
    let known = match item {
        Item::Area(area) => area < book.demands.len(),
        Item::Border(border) => border < book.borders.len(),
        Item::Bid(bid) => bid < book.bids.len(),
    };
    known.then_some(item)
}

// The amount of an area, border or bid of the case, which the selection that stands has: so by its place, and not by `get`.
fn amount(standing: &Settled, item: Item) -> i64
    requires { known (case_in standing.now) item ≡ true }
    ensures { result ≡ amount_of (selection_in standing.now) item }
{
    match item {
        Item::Area(area) => i64::from(standing.amounts.satisfied.as_slice()[area]),
        Item::Border(border) => i64::from(standing.amounts.flows.as_slice()[border]),
        Item::Bid(bid) => i64::from(standing.amounts.activated.as_slice()[bid]),
    }
}
