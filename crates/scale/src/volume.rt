// Volume: one level on the whole numbers.
ghost use Rattle.scale.specs.Single.{volume_most, volume};
ghost use Rattle.scale.specs.Bounds.{volume_bounded};

use super::one_level::OneLevel;

// An activated kilowatt costs 1, satisfaction nothing. Prices lie from -8 to 8, and bids take part.
pub enum Volume {}

impl OneLevel for Volume {
    const MOST: u32 = 8;

    const BIDS: bool = true;

    const SATISFIED: i64 = 0;

    ghost MOST = { volume_most };

    ghost BIDS = { volume.bids };

    ghost SATISFIED = { volume.satisfied };

    ghost up_bid = { volume.up };

    ghost down_bid = { volume.down };

    ghost bounded = { volume_bounded };

    fn up_bid(_price: i32) -> i64 {
        1
    }

    fn down_bid(_price: i32) -> i64 {
        1
    }
}
