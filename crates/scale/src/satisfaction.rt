// Satisfaction: one level on the whole numbers.
ghost use Rattle.scale.specs.Single.{satisfaction_most, satisfaction};
ghost use Rattle.scale.specs.Bounds.{satisfaction_bounded};

use super::one_level::OneLevel;

// A satisfied kilowatt costs -1, a bid nothing. Prices lie from -8 to 8, and bids take no part.
pub enum Satisfaction {}

impl OneLevel for Satisfaction {
    const MOST: u32 = 8;

    const BIDS: bool = false;

    const SATISFIED: i64 = -1;

    ghost MOST = { satisfaction_most };

    ghost BIDS = { satisfaction.bids };

    ghost SATISFIED = { satisfaction.satisfied };

    ghost up_bid = { satisfaction.up };

    ghost down_bid = { satisfaction.down };

    ghost bounded = { satisfaction_bounded };

    fn up_bid(_price: i32) -> i64 {
        0
    }

    fn down_bid(_price: i32) -> i64 {
        0
    }
}
