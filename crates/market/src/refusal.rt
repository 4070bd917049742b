// Why a call is refused: one case for each question, in the order in which the questions are asked.
ghost use Rattle.std.specs.Prelude.{◌≡◌, Some};
ghost use Rattle.market.specs.Refusals.{number, layer, place, displayed};

use std::error::Error;
use std::fmt;

#[derive(Clone, Copy, PartialEq, Eq, Debug)]
pub enum Refusal {
    // 1: the buffer does not hold the whole header; it has this many bytes
    Header(usize),
    // 2: the kind is not that of a case, or of a proposal
    Kind,
    // 3: the count in this header word is not allowed
    Count(usize),
    // 4: the offset in this header word is wrong, or the end, which counts as the word after the last
    Offset(usize),
    // 5: this area's demand is out of range
    Demand(usize),
    // 6: this border's ends are not two different areas of the case
    Ends(usize),
    // 7: a limit of this border is out of range
    Limits(usize),
    // 8: this bid's area or direction is not known
    Origin(usize),
    // 9: this bid's volume or price is out of range
    Offer(usize),
    // 10: this area's satisfied amount is not allowed
    Satisfied(usize),
    // 11: this border's flow is not allowed
    Flow(usize),
    // 12: this bid's activated amount is not allowed
    Activated(usize),
    // 13: this area does not balance
    Balance(usize),
    // 14: this area's price is out of range
    Price(usize),
    // 15: this area's demand does not fit the prices
    DemandFit(usize),
    // 16: this border does not fit the prices
    BorderFit(usize),
    // 17: this bid does not fit the prices
    BidFit(usize),
    // 18: no area, border or bid of the cycle has this number
    Unknown(usize),
    // 19: no selection stands
    NothingStands,
    // 20: the output buffer is too short; this many bytes are needed
    Room(usize),
}

impl Refusal {
    // The number of the question that got a no. Here and below a number is no enum: it is printed, and told to C.
    pub fn number(self) -> u8
        ensures { result ≡ number self }
    {
        match self {
            Refusal::Header(_) => 1,
            Refusal::Kind => 2,
            Refusal::Count(_) => 3,
            Refusal::Offset(_) => 4,
            Refusal::Demand(_) => 5,
            Refusal::Ends(_) => 6,
            Refusal::Limits(_) => 7,
            Refusal::Origin(_) => 8,
            Refusal::Offer(_) => 9,
            Refusal::Satisfied(_) => 10,
            Refusal::Flow(_) => 11,
            Refusal::Activated(_) => 12,
            Refusal::Balance(_) => 13,
            Refusal::Price(_) => 14,
            Refusal::DemandFit(_) => 15,
            Refusal::BorderFit(_) => 16,
            Refusal::BidFit(_) => 17,
            Refusal::Unknown(_) => 18,
            Refusal::NothingStands => 19,
            Refusal::Room(_) => 20,
        }
    }

    // 1 bytes, 2 case, 3 selection, 4 prices, 5 call.
    pub fn layer(self) -> u8
        ensures { result ≡ layer self }
    {
        match self.number() {
            1..=4 => 1,
            5..=9 => 2,
            10..=13 => 3,
            14..=17 => 4,
            _ => 5,
        }
    }

    // Where: a length, a header word, an area, a border, a bid, the number given, or the bytes needed; else 0.
    pub fn place(self) -> usize
        ensures { result ≡ place self }
    {
        match self {
            Refusal::Kind | Refusal::NothingStands => 0,
            Refusal::Header(at)
            | Refusal::Count(at)
            | Refusal::Offset(at)
            | Refusal::Demand(at)
            | Refusal::Ends(at)
            | Refusal::Limits(at)
            | Refusal::Origin(at)
            | Refusal::Offer(at)
            | Refusal::Satisfied(at)
            | Refusal::Flow(at)
            | Refusal::Activated(at)
            | Refusal::Balance(at)
            | Refusal::Price(at)
            | Refusal::DemandFit(at)
            | Refusal::BorderFit(at)
            | Refusal::BidFit(at)
            | Refusal::Unknown(at)
            | Refusal::Room(at) => at,
        }
    }
}

impl fmt::Display for Refusal {
    ghost output = { λ refusal. Some (displayed refusal) };

    fn fmt<W: fmt::Write>(&self, f: &mut fmt::Formatter<W>) -> fmt::Result {
        let (number, layer, place) = (self.number(), self.layer(), self.place());
        write!(f, "{number} {layer} {place}")
    }
}

impl Error for Refusal {}
