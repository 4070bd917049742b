// Sums over what stands.
ghost use Rattle.std.specs.Prelude.{◌≡◌, ◌*◌, ◌^◌, ◌≤◌, T, length, pos, neg_ℤ, ◌≤ℤ◌, sum, sum_by, unsigned_abs};
ghost use Rattle.market.specs.Cases.{bid_in_range};
ghost use Rattle.listing.specs.Figures.{if_up, if_down, sum_in, payment as paid, payments};
ghost use Rattle.listing.specs.Payable.{Payable};

use market::{Bid, Direction};

// What is activated in an area, in each direction.
#[derive(Clone, Copy)]
pub struct Activated {
    pub up: u64,
    pub down: u64,
    ghost small: { (up ≤ 1024 * 2 ^ 32) × (down ≤ 1024 * 2 ^ 32) },
}

// What is activated in an area.
pub fn activated_in(bids: &[Bid], amounts: &[u32], area: usize) -> Activated
    requires { length bids.now ≤ 1024 }
    ensures up { result.up ≡ sum_in if_up area bids.now amounts.now }
    ensures down { result.down ≡ sum_in if_down area bids.now amounts.now }
{
    let mut up = 0;
    let mut down = 0;
    // Two sums in one pass, so no chain.
    for (bid, amount) in bids.iter().zip(amounts) {
        if usize::from(bid.area) == area {
            match bid.direction {
                Direction::Up => up += u64::from(*amount),
                Direction::Down => down += u64::from(*amount),
            }
        }
    }
    Activated { up, down }
}

// The sum of the sizes of satisfied amounts.
pub fn sum_of_sizes(satisfied: &[i32]) -> u64
    requires { length satisfied.now ≤ 48 }
    ensures value { result ≡ sum_by unsigned_abs satisfied.now }
    ensures small { result ≤ 48 * 2 ^ 32 }
{
    satisfied
        .iter()
        .map(|amount| u64::from(amount.unsigned_abs()))
        .sum()
}

// The sum of activated amounts.
pub fn sum_of_amounts(amounts: &[u32]) -> u64
    requires { length amounts.now ≤ 1024 }
    ensures value { result ≡ sum amounts.now }
    ensures small { result ≤ 1024 * 2 ^ 32 }
{
    amounts.iter().map(|amount| u64::from(*amount)).sum()
}

// A bid and its amount are two parameters: the case has the one, and the selection the other.
// What an amount of a bid is paid: an up bid is paid its price, a down bid pays it.
fn payment(bid: Bid, amount: u32) -> i64
    requires price { T (bid_in_range bid) }
    requires volume { amount ≤ 9999000 }
    ensures value { result ≡ paid bid.direction bid.price amount }
    ensures least { neg_ℤ (pos 99989000100000) ≤ℤ result }
    ensures most { result ≤ℤ pos 99989000100000 }
{
    let price = i64::from(bid.price) * i64::from(amount);
    match bid.direction {
        Direction::Up => price,
        Direction::Down => -price,
    }
}

// The cost of activated amounts.
pub fn cost_of(bids: &[Bid], amounts: &[u32]) -> i64
    requires { Payable bids.now amounts.now }
    ensures { result ≡ payments bids.now amounts.now }
{
    let mut cost = 0;
    // No chain: the library's `sum` of signed numbers has no bound to add by.
    for (bid, amount) in bids.iter().zip(amounts) {
        cost += payment(*bid, *amount);
    }
    cost
}
