// A book with amounts that are within its limits.
ghost use Rattle.market.specs.Held.{held, selected};
ghost use Rattle.market.specs.Selections.{WithinLimits};

use crate::book::{Amounts, Book};

// What stands, lent for reading: the amounts are within the limits of the book.
#[derive(Clone, Copy)]
pub struct Settled<'b, 'a> {
    pub book: &'b Book,
    pub amounts: &'a Amounts,
    ghost within: { ∥ WithinLimits (held book.now) (selected amounts.now) ∥₁ },
}
