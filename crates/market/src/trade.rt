// What a case is made of. Areas, borders and bids are numbered from 0 by their place.
ghost use Rattle.std.specs.Prelude.{◌≡◌};
ghost use Rattle.market.specs.Directions.{direction_number, direction_numbered};

// Which way a bid's activation moves its area's balance.
#[derive(Clone, Copy, PartialEq, Eq, Debug, Default)]
pub enum Direction {
    #[default]
    Up,
    Down,
}

// A number that no direction has.
#[derive(Clone, Copy, PartialEq, Eq, Debug)]
pub struct UnknownDirection(pub u16);

impl TryFrom<u16> for Direction {
    type Error = UnknownDirection;

    ghost try_from_gives = { λ number direction. direction ≡ direction_numbered number };

    fn try_from(number: u16) -> Result<Direction, UnknownDirection> {
        match number {
            0 => Ok(Direction::Up),
            1 => Ok(Direction::Down),
            _ => Err(UnknownDirection(number)),
        }
    }
}

impl From<Direction> for u16 {
    ghost from_gives = { λ direction number. number ≡ direction_number direction };

    fn from(direction: Direction) -> u16 {
        match direction {
            Direction::Up => 0,
            Direction::Down => 1,
        }
    }
}

// A border between two areas. A flow is positive from `from` to `to`; the limits are whole kilowatts.
#[derive(Clone, Copy, PartialEq, Eq, Debug, Default)]
pub struct Border {
    pub from: u16,
    pub to: u16,
    pub forward: u32,
    pub backward: u32,
}

// A balancing bid: its volume in whole kilowatts, its price in whole cents per MWh.
#[derive(Clone, Copy, PartialEq, Eq, Debug, Default)]
pub struct Bid {
    pub area: u16,
    pub direction: Direction,
    pub volume: u32,
    pub price: i32,
}
