// Whether prices fit an amount: what it requires below its upper limit, and what above its lower limit.
ghost use Rattle.std.specs.Prelude.{◌≡◌, pos, neg_ℤ, int_lt};
ghost use Rattle.market.specs.Prices.{demand_fits, border_fits, bid_fits};
ghost use Rattle.prices.specs.Limits.{settles};

use market::{Bid, Border, Direction};
use scale::Scale;
use std::cmp::Ordering;

// Below the upper limit the left side is at least the right one; above the lower limit it is at most that.
pub fn settled(below: bool, above: bool, order: Ordering) -> bool
    ensures { result ≡ settles below above order }
{
    match order {
        Ordering::Less => !below,
        Ordering::Equal => true,
        Ordering::Greater => !above,
    }
}

// Here and below an item and its amount are two parameters: the case has the one, and the selection the other.
// Positive demand: t + p against 0. Negative demand, by size: t against p. Demand 0 requires nothing.
pub fn is_demand_fitting<S: Scale>(demand: i32, satisfied: i32, price: S::Price) -> bool
    ensures { result ≡ demand_fits S.Scale.meaning demand satisfied (S.Scale.worth price) }
{
    if demand > 0 {
        let order = S::compare(S::sum(S::satisfied(), price), S::zero());
        settled(satisfied < demand, satisfied > 0, order)
    } else if demand < 0 {
        let order = S::compare(S::of_unit(S::satisfied()), S::of_price(price));
        settled(demand < satisfied, satisfied < 0, order)
    } else {
        true
    }
}

// The price of the from area against that of the to area.
pub fn is_border_fitting<S: Scale>(border: Border, flow: i32, from: S::Price, to: S::Price) -> bool
    ensures { result ≡ border_fits S.Scale.meaning border flow (S.Scale.worth from) (S.Scale.worth to) }
{
    let order = S::compare(S::of_price(from), S::of_price(to));
    settled(
        is_below_forward(border, flow),
        is_above_backward(border, flow),
        order,
    )
}

// Whether more could flow.
fn is_below_forward(border: Border, flow: i32) -> bool
    ensures { result ≡ int_lt flow (pos border.forward) }
{
    i64::from(flow) < i64::from(border.forward)
}

// Whether less could flow.
fn is_above_backward(border: Border, flow: i32) -> bool
    ensures { result ≡ int_lt (neg_ℤ (pos border.backward)) flow }
{
    -i64::from(border.backward) < i64::from(flow)
}

// Up bid: u against p. Down bid: u + p against 0.
pub fn is_bid_fitting<S: Scale>(bid: Bid, activated: u32, price: S::Price) -> bool
    ensures { result ≡ bid_fits S.Scale.meaning bid activated (S.Scale.worth price) }
{
    let order = match bid.direction {
        Direction::Up => S::compare(S::of_unit(S::up(bid.price)), S::of_price(price)),
        Direction::Down => S::compare(S::sum(S::down(bid.price), price), S::zero()),
    };
    settled(activated < bid.volume, activated > 0, order)
}
