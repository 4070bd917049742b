// Each fitting rule on both sides of its limits, on every level of the activation scale.
use crate::rules::{is_bid_fitting, is_border_fitting, is_demand_fitting};
use market::{Bid, Border, Direction};
use scale::{Activation, Scale};
use std::test::Fail;

// The levels of a price, and the price that they write.
type Levels = (i64, i64, i64);

type Price = (i64, (i64, i64));

// The price with the given levels, each moved by so much.
fn price((a, b, c): Levels, (x, y, z): Levels) -> Result<Price, Fail> {
    let levels = [a.wrapping_add(x), b.wrapping_add(y), c.wrapping_add(z)];
    // No `ok_or`, which wants an error that can be dropped.
    match Activation::read_price(levels.map(i64::to_le_bytes).as_flattened()) {
        Some(price) => Ok(price),
        None => Err(Fail::new("the price is out of range")),
    }
}

fn opposite((x, y, z): Levels) -> Levels {
    (x.wrapping_neg(), y.wrapping_neg(), z.wrapping_neg())
}

// Whether a demand fits at nothing, at half and at all of it.
fn demand_fits(demand: i32, price: Price) -> (bool, bool, bool) {
    (
        is_demand_fitting::<Activation>(demand, 0, price),
        is_demand_fitting::<Activation>(demand, demand / 2, price),
        is_demand_fitting::<Activation>(demand, demand, price),
    )
}

// The same of a bid of 10 kW at 5 cents.
fn bid_fits(direction: Direction, price: Price) -> (bool, bool, bool) {
    let bid = Bid {
        area: 0,
        direction,
        volume: 10,
        price: 5,
    };
    (
        is_bid_fitting::<Activation>(bid, 0, price),
        is_bid_fitting::<Activation>(bid, 5, price),
        is_bid_fitting::<Activation>(bid, 10, price),
    )
}

// The same of a border with limits -20 and 10.
fn border_fits(from: Price, to: Price) -> (bool, bool, bool) {
    let border = Border {
        from: 0,
        to: 1,
        forward: 10,
        backward: 20,
    };
    (
        is_border_fitting::<Activation>(border, -20, from, to),
        is_border_fitting::<Activation>(border, -10, from, to),
        is_border_fitting::<Activation>(border, 10, from, to),
    )
}

// How far the left side of a rule lies from its right side, and whether the amount then fits at its lower limit, between
// its limits and at its upper limit. The first level that is not 0 decides.
const SIDES: [(Levels, (bool, bool, bool)); 7] = [
    ((-1, 1, 1), (false, false, true)),
    ((0, -1, 1), (false, false, true)),
    ((0, 0, -1), (false, false, true)),
    ((0, 0, 0), (true, true, true)),
    ((0, 0, 1), (true, false, false)),
    ((0, 1, -1), (true, false, false)),
    ((1, -1, -1), (true, false, false)),
];

#[test]
fn both_sides_of_every_rule(rt: HostRuntime) -> Result<(), Fail> {
    for (by, fits) in SIDES {
        // t + p against 0, where t is (-1, 0, 0)
        assert_eq!(rt; demand_fits(10, price((1, 0, 0), by)?), fits);
        // t against p
        assert_eq!(rt; demand_fits(-10, price((-1, 0, 0), opposite(by))?), fits);
        // the price of the from area against that of the to area
        assert_eq!(rt; border_fits(price((2, -3, 40), by)?, (2, (-3, 40))), fits);
        // u against p, where u is (0, 1, 5)
        assert_eq!(rt;
            bid_fits(Direction::Up, price((0, 1, 5), opposite(by))?),
            fits
        );
        // u + p against 0, where u is (0, 1, -5)
        assert_eq!(rt; bid_fits(Direction::Down, price((0, -1, 5), by)?), fits);
    }
    Ok(())
}

// Where the limits are equal, every price fits.
#[test]
fn equal_limits_require_nothing(rt: HostRuntime) -> Result<(), Fail> {
    let border = Border {
        from: 0,
        to: 1,
        forward: 0,
        backward: 0,
    };
    for (by, _) in SIDES {
        let price = price((0, 0, 0), by)?;
        assert!(rt; is_demand_fitting::<Activation>(0, 0, price));
        assert!(rt; is_border_fitting::<Activation>(border, 0, price, (0, (0, 0))));
        for direction in [Direction::Up, Direction::Down] {
            let bid = Bid {
                area: 0,
                direction,
                volume: 0,
                price: 0,
            };
            assert!(rt; is_bid_fitting::<Activation>(bid, 0, price));
        }
    }
    Ok(())
}
