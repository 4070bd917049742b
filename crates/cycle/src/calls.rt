// Calls as values, so that a list of them can be replayed, and what they answer.
ghost use Rattle.std.specs.Prelude.{◌≡◌};
ghost use Rattle.cycle.specs.Sent.{number_of};

use market::Refusal;

// An area, a border or a bid, by its number.
#[derive(Clone, Copy, PartialEq, Eq, Debug)]
pub enum Item {
    Area(usize),
    Border(usize),
    Bid(usize),
}

// One call of an open cycle.
#[derive(Clone, Copy)]
pub enum Call<'a> {
    // the bytes of a case
    Load(&'a [u8]),
    // an area, and its demand from now on
    Revise(usize, i32),
    // a border, and its forward and backward limit from now on
    Limit(usize, u32, u32),
    // a bid
    Withdraw(usize),
    // the bytes of a proposal
    Submit(&'a [u8]),
    // what is asked about
    Read(Item),
}

// What a call answers: the amount of a taken read, none for any other taken call, or the refusal.
pub type Answer = Result<Option<i64>, Refusal>;

impl Item {
    // The number that the caller gave.
    pub fn number(self) -> usize
        ensures { result ≡ number_of self }
    {
        match self {
            Item::Area(number) | Item::Border(number) | Item::Bid(number) => number,
        }
    }
}
