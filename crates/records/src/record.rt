// Records of a fixed size, one after the other.
ghost use Rattle.std.specs.Prelude.{◌≡◌, ℕ, ◌+◌, ◌<◌, List, length, take, drop, MatchOption};
ghost use Rattle.scale.specs.Levels.{little_endian};
ghost use Rattle.records.specs.Records.{border_of, bid_of, raw_direction};
ghost use Rattle.records.specs.Bytes.{signed_word, record_at};
ghost use Rattle.std.proofs.Common.{lit<};

use market::{Bid, Border, Direction, UnknownDirection};

pub trait Record: Sized {
    // how many bytes write one, and which one they write
    ghost SIZE: { ℕ };

    ghost reads: { List ℕ → Self };

    const SIZE: usize;

    // The record that the bytes begin with, and the bytes behind it.
    fn first(bytes: &[u8]) -> Option<(Self, &[u8])>
        ensures { MatchOption result (length bytes.now < SIZE) (λ p. (p.0 ≡ reads (take SIZE bytes.now)) × (p.1.now ≡ drop SIZE bytes.now) × (length p.1.now + SIZE ≡ length bytes.now)) };

    ghost positive: { 0 < SIZE };
}

// The record at a place, where the bytes hold it whole.
pub fn record_at<R: Record>(bytes: &[u8], place: usize) -> Option<R>
    ensures { result ≡ record_at R.Record.reads R.Record.SIZE bytes.now place }
{
    // Asked of the number of records: `get` would be no plainer, since a place may be any number and wants `checked_mul` first; and it is slower.
    if place >= bytes.len() / R::SIZE {
        return None;
    }
    let (record, _) = R::first(&bytes[R::SIZE * place..])?;
    Some(record)
}

// The numbers stay three impls: std has no trait that reads any of them from its bytes.
impl Record for u16 {
    ghost SIZE = { 2 };

    ghost reads = { little_endian };

    ghost positive = { lit< tt };

    const SIZE: usize = 2;

    fn first(bytes: &[u8]) -> Option<(u16, &[u8])> {
        let (number, rest) = bytes.split_first_chunk()?;
        Some((u16::from_le_bytes(*number), rest))
    }
}

impl Record for u32 {
    ghost SIZE = { 4 };

    ghost reads = { little_endian };

    ghost positive = { lit< tt };

    const SIZE: usize = 4;

    fn first(bytes: &[u8]) -> Option<(u32, &[u8])> {
        // By a slice pattern, a form that docs/DECISIONS.md names: each header word is four named bytes and the rest.
        let [a, b, c, d, rest @ ..] = bytes else {
            return None;
        };
        Some((u32::from_le_bytes([*a, *b, *c, *d]), rest))
    }
}

impl Record for i32 {
    ghost SIZE = { 4 };

    ghost reads = { signed_word };

    ghost positive = { lit< tt };

    const SIZE: usize = 4;

    fn first(bytes: &[u8]) -> Option<(i32, &[u8])> {
        let (number, rest) = bytes.split_first_chunk()?;
        Some((i32::from_le_bytes(*number), rest))
    }
}

// A border: from and to, forward and backward limit. Its bytes are split off whole: with one look at their length for all its fields it is read faster.
impl Record for Border {
    ghost SIZE = { 12 };

    ghost reads = { border_of };

    ghost positive = { lit< tt };

    const SIZE: usize = 12;

    fn first(bytes: &[u8]) -> Option<(Border, &[u8])> {
        let (border, behind) = bytes.split_first_chunk::<12>()?;
        let (from, rest) = u16::first(border)?;
        let (to, rest) = u16::first(rest)?;
        let (forward, rest) = u32::first(rest)?;
        let (backward, _) = u32::first(rest)?;
        Some((
            Border {
                from,
                to,
                forward,
                backward,
            },
            behind,
        ))
    }
}

// A bid: area and direction, volume, price, from bytes that are split off whole, as a border's. A number that no direction has is read as down.
impl Record for Bid {
    ghost SIZE = { 12 };

    ghost reads = { bid_of };

    ghost positive = { lit< tt };

    const SIZE: usize = 12;

    fn first(bytes: &[u8]) -> Option<(Bid, &[u8])> {
        let (bid, behind) = bytes.split_first_chunk::<12>()?;
        let (area, rest) = u16::first(bid)?;
        let (direction, rest) = u16::first(rest)?;
        let (volume, rest) = u32::first(rest)?;
        let (price, _) = i32::first(rest)?;
        Some((
            Bid {
                area,
                direction: Direction::try_from(direction).unwrap_or(Direction::Down),
                volume,
                price,
            },
            behind,
        ))
    }
}

// The direction that a bid's bytes give, or the number there that no direction has.
pub type BidDirection = Result<Direction, UnknownDirection>;

impl Record for BidDirection {
    ghost SIZE = { 12 };

    ghost reads = { raw_direction };

    ghost positive = { lit< tt };

    const SIZE: usize = 12;

    fn first(bytes: &[u8]) -> Option<(BidDirection, &[u8])> {
        let (bid, behind) = bytes.split_first_chunk::<12>()?;
        let (_, rest) = u16::first(bid)?;
        let (number, _) = u16::first(rest)?;
        Some((Direction::try_from(number), behind))
    }
}
