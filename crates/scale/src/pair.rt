// The pair of two scales: part by part. The first part decides the order, and the second where the firsts are equal.
ghost use Rattle.scale.specs.Pair.{pair};
ghost use Rattle.scale.specs.Pairs.{pair_laws};

use super::scale::Scale;
use std::cmp::Ordering;
use std::marker::PhantomData;

pub struct Pair<A, B>(PhantomData<A>, PhantomData<B>);

impl<A: Scale, B: Scale> Scale for Pair<A, B> {
    type Price = (A::Price, B::Price);

    type Unit = (A::Unit, B::Unit);

    type Figure = (A::Figure, B::Figure);

    ghost meaning = { pair A.Scale.meaning B.Scale.meaning };

    ghost worth = { λ p. (A.Scale.worth p.0, B.Scale.worth p.1) };

    ghost cost = { λ u. (A.Scale.cost u.0, B.Scale.cost u.1) };

    ghost weighs = { λ f. (A.Scale.weighs f.0, B.Scale.weighs f.1) };

    ghost lawful = { pair_laws A.Scale.meaning B.Scale.meaning A.Scale.lawful B.Scale.lawful };

    // A scale has at most 16 levels: past that a pair says 17, and reads no price.
    fn levels() -> usize {
        (A::levels() + B::levels()).min(17)
    }

    fn bids_take_part() -> bool {
        A::bids_take_part() | B::bids_take_part()
    }

    fn satisfied() -> Self::Unit {
        (A::satisfied(), B::satisfied())
    }

    fn up(price: i32) -> Self::Unit {
        (A::up(price), B::up(price))
    }

    fn down(price: i32) -> Self::Unit {
        (A::down(price), B::down(price))
    }

    fn read_price(bytes: &[u8]) -> Option<Self::Price> {
        let first = A::levels();
        if first + B::levels() > 16 {
            return None;
        }
        let (front, back) = bytes.split_at_checked(8 * first)?;
        A::read_price(front).zip(B::read_price(back))
    }

    fn zero() -> Self::Figure {
        (A::zero(), B::zero())
    }

    fn of_price(price: Self::Price) -> Self::Figure {
        (A::of_price(price.0), B::of_price(price.1))
    }

    fn of_unit(unit: Self::Unit) -> Self::Figure {
        (A::of_unit(unit.0), B::of_unit(unit.1))
    }

    fn sum(unit: Self::Unit, price: Self::Price) -> Self::Figure {
        (A::sum(unit.0, price.0), B::sum(unit.1, price.1))
    }

    fn compare(first: Self::Figure, second: Self::Figure) -> Ordering {
        A::compare(first.0, second.0).then(B::compare(first.1, second.1))
    }
}
