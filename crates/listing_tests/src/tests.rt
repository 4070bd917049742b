// The worked case, in memory: its text and its totals.
ghost use Rattle.std.specs.Prelude.{◌≡◌, IfOk};
ghost use Rattle.market.specs.Held.{held, selected};
ghost use Rattle.listing.specs.Example.{example_case, example_selection};

use listing::{Text, Totals, example_listing, totals};
use market::{Amounts, Bid, Book, Border, Direction, Settled};
use std::alloc::{AllocError, Global};
use std::process::Abort;
use std::test::Fail;

const BORDER: Border = Border {
    from: 0,
    to: 1,
    forward: 50,
    backward: 50,
};

const UP: Bid = Bid {
    area: 0,
    direction: Direction::Up,
    volume: 100,
    price: 3_000,
};

const DOWN: Bid = Bid {
    area: 1,
    direction: Direction::Down,
    volume: 150,
    price: 5_000,
};

const TOTALS: Totals = Totals {
    satisfied: 200,
    activated: 100,
    netted: 50,
    cost: -260_000,
};

fn example_book(heap: Global) -> Result<Book, AllocError>
    ensures { IfOk result (λ b. held b ≡ example_case) }
{
    let mut demands = Vec::with_capacity(heap, 48)?;
    let mut borders = Vec::with_capacity(heap, 128)?;
    let mut bids = Vec::with_capacity(heap, 1024)?;
    demands.extend_from_slice(&[80, -120])?;
    borders.extend_from_slice(&[BORDER])?;
    bids.extend_from_slice(&[UP, DOWN])?;
    Ok(Book {
        demands,
        borders,
        bids,
    })
}

fn example_amounts(heap: Global) -> Result<Amounts, AllocError>
    ensures { IfOk result (λ a. selected a ≡ example_selection) }
{
    let mut amounts = Amounts::reserve(heap)?;
    amounts.satisfied.extend_from_slice(&[80, -120])?;
    amounts.flows.extend_from_slice(&[-50])?;
    amounts.activated.extend_from_slice(&[30, 70])?;
    Ok(amounts)
}

#[test]
fn renders_the_example(rt: HostRuntime) -> Result<(), Fail> {
    let book = example_book(rt.alloc())?;
    let amounts = example_amounts(rt.alloc())?;
    let mut text = Text::reserve(rt.alloc())?;
    let listing = example_listing();
    let standing = Settled {
        book: &book,
        amounts: &amounts,
    };
    text.render(&standing);
    assert!(rt; text.as_slice() == listing);
    assert_eq!(rt; totals(&standing), TOTALS);
    Ok(())
}
