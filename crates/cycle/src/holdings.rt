// What a cycle holds, in memory that is reserved when it is made.
ghost use Rattle.std.specs.Prelude.{◌≡◌, true};
ghost use Rattle.market.specs.Held.{held, selected};
ghost use Rattle.market.specs.Selections.{WithinLimits};

use market::{Amounts, Book};

// The case, and the amounts that stand where `stands`. What stands is within the limits in force.
#[derive(Drop)]
pub struct Holdings {
    pub book: Book,
    pub amounts: Amounts,
    // a flag beside the amounts, since their room stays reserved where none stand
    pub stands: bool,
    ghost within: { (stands ≡ true → ∥ WithinLimits (held book) (selected amounts) ∥₁) },
}
