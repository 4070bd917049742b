// A scale of one level on the whole numbers. Whatever implements `OneLevel` is one: the trait has what differs from one to the next.
ghost use Rattle.std.specs.Prelude.{◌≡◌, ℕ, ℤ, Bool};
ghost use Rattle.scale.specs.Single.{single};
ghost use Rattle.scale.specs.Singles.{Bounded, single_laws};

use super::level::{compare_numbers, read_level};
use super::scale::Scale;
use std::cmp::Ordering;

pub trait OneLevel {
    // The price of an area lies from -MOST to MOST.
    const MOST: u32;

    // Whether a case may have bids.
    const BIDS: bool;

    // The unit cost of a satisfied kilowatt.
    const SATISFIED: i64;

    ghost MOST: { ℕ };

    ghost BIDS: { Bool };

    ghost SATISFIED: { ℤ };

    ghost up_bid: { ℤ → ℤ };

    ghost down_bid: { ℤ → ℤ };

    // The unit cost of an activated kilowatt of an up bid.
    fn up_bid(price: i32) -> i64
        ensures { result ≡ up_bid price };

    // The unit cost of an activated kilowatt of a down bid.
    fn down_bid(price: i32) -> i64
        ensures { result ≡ down_bid price };

    // No unit cost is larger than a quarter of the range, and the range fits a level.
    ghost bounded: { Bounded MOST SATISFIED up_bid down_bid };
}

impl<S: OneLevel> Scale for S {
    type Price = i64;

    type Unit = i64;

    type Figure = i128;

    ghost meaning = { single S.SATISFIED S.up_bid S.down_bid S.MOST S.BIDS };

    ghost worth = { λ v. v };

    ghost cost = { λ v. v };

    ghost weighs = { λ v. v };

    ghost lawful = { single_laws S.SATISFIED S.up_bid S.down_bid S.MOST S.BIDS S.bounded };

    fn levels() -> usize {
        1
    }

    fn bids_take_part() -> bool {
        S::BIDS
    }

    fn satisfied() -> i64 {
        S::SATISFIED
    }

    fn up(price: i32) -> i64 {
        S::up_bid(price)
    }

    fn down(price: i32) -> i64 {
        S::down_bid(price)
    }

    fn read_price(bytes: &[u8]) -> Option<i64> {
        read_level(bytes, S::MOST)
    }

    fn zero() -> i128 {
        0
    }

    fn of_price(price: i64) -> i128 {
        i128::from(price)
    }

    fn of_unit(unit: i64) -> i128 {
        i128::from(unit)
    }

    fn sum(unit: i64, price: i64) -> i128 {
        i128::from(unit) + i128::from(price)
    }

    fn compare(first: i128, second: i128) -> Ordering {
        compare_numbers(first, second)
    }
}
