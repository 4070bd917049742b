// An example of a scale of one's own: money in mills, tenths of a cent. docs/SCALES.md goes through it.
#![tactic(auto)]

ghost use Rattle.scale_example.specs.Mills.{mills_most, mills};
ghost use Rattle.scale_example.specs.Bounds.{mills_bounded};

use scale::OneLevel;

// A kilowatt of an up bid costs ten times its price, one of a down bid the opposite, satisfaction nothing.
// Prices lie from -799,992,000 to 799,992,000, and bids take part.
pub enum Mills {}

impl OneLevel for Mills {
    const MOST: u32 = 799_992_000;

    const BIDS: bool = true;

    const SATISFIED: i64 = 0;

    ghost MOST = { mills_most };

    ghost BIDS = { mills.bids };

    ghost SATISFIED = { mills.satisfied };

    ghost up_bid = { mills.up };

    ghost down_bid = { mills.down };

    ghost bounded = { mills_bounded };

    fn up_bid(price: i32) -> i64 {
        10 * i64::from(price)
    }

    fn down_bid(price: i32) -> i64 {
        -10 * i64::from(price)
    }
}

#[cfg(test)]
mod tests;
