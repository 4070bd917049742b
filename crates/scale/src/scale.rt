// What a scale of cost is. `meaning` says which cost it is; each method answers what the meaning says, and only reading a price can refuse.
ghost use Rattle.std.specs.Prelude.{◌≡◌};
ghost use Rattle.std.specs.Option.{option_map};
ghost use Rattle.scale.specs.Meaning.{Meaning, Laws, order};
ghost use Rattle.scale.specs.Levels.{read_bytes};

use std::cmp::Ordering;

pub trait Scale {
    // A price in range, a unit cost, and a figure: what can be compared.
    type Price: Copy;

    type Unit: Copy;

    type Figure: Copy;

    // The cost itself, and the values that prices, unit costs and figures stand for.
    ghost meaning: { Meaning };

    ghost worth: { Self.Price → meaning.Value };

    ghost cost: { Self.Unit → meaning.Value };

    ghost weighs: { Self.Figure → meaning.Value };

    // How many 64-bit signed numbers write a price.
    fn levels() -> usize
        ensures { result ≡ meaning.levels };

    // Whether a case may have bids.
    fn bids_take_part() -> bool
        ensures { result ≡ meaning.bids };

    // The unit cost of a satisfied kilowatt.
    fn satisfied() -> Self::Unit
        ensures { cost result ≡ meaning.satisfied };

    // The unit cost of an activated kilowatt of an up bid.
    fn up(price: i32) -> Self::Unit
        ensures { cost result ≡ meaning.up price };

    // The unit cost of an activated kilowatt of a down bid.
    fn down(price: i32) -> Self::Unit
        ensures { cost result ≡ meaning.down price };

    // The price that the bytes write: eight for each level, in range.
    fn read_price(bytes: &[u8]) -> Option<Self::Price>
        ensures { option_map worth result ≡ read_bytes meaning bytes.now };

    // The figures: zero, a price, a unit cost, and the sum of one of each, exact.
    fn zero() -> Self::Figure
        ensures { weighs result ≡ meaning.zero };

    fn of_price(price: Self::Price) -> Self::Figure
        ensures { weighs result ≡ worth price };

    fn of_unit(unit: Self::Unit) -> Self::Figure
        ensures { weighs result ≡ cost unit };

    fn sum(unit: Self::Unit, price: Self::Price) -> Self::Figure
        ensures { weighs result ≡ meaning.plus (cost unit) (worth price) };

    // How the first figure stands to the second.
    fn compare(first: Self::Figure, second: Self::Figure) -> Ordering
        ensures { result ≡ order meaning (weighs first) (weighs second) };

    ghost lawful: { Laws meaning };
}
