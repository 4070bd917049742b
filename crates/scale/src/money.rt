// Money: one level on the whole numbers, in cents per MWh.
ghost use Rattle.scale.specs.Single.{money_most, money};
ghost use Rattle.scale.specs.Bounds.{money_bounded};

use super::one_level::OneLevel;

// A kilowatt of an up bid costs its price, one of a down bid the opposite, satisfaction nothing.
// Prices lie from -79,999,200 to 79,999,200, and bids take part.
pub enum Money {}

impl OneLevel for Money {
    const MOST: u32 = 79_999_200;

    const BIDS: bool = true;

    const SATISFIED: i64 = 0;

    ghost MOST = { money_most };

    ghost BIDS = { money.bids };

    ghost SATISFIED = { money.satisfied };

    ghost up_bid = { money.up };

    ghost down_bid = { money.down };

    ghost bounded = { money_bounded };

    fn up_bid(price: i32) -> i64 {
        i64::from(price)
    }

    fn down_bid(price: i32) -> i64 {
        -i64::from(price)
    }
}
