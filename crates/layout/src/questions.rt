// The questions on the bytes of a case, in the order in which they are asked.
ghost use Rattle.std.specs.Prelude.{◌≡◌, ◌&&◌, length};
ghost use Rattle.market.specs.declared.refusal.Refusal.TheVariants.{Count, Offset, Demand, Ends, Limits, Origin, Offer};
ghost use Rattle.market.specs.Cases.{areas, demand_at, border_at, bid_at, demand_in_range, ends_known, limits_in_range, bid_known, bid_in_range};
ghost use Rattle.market.specs.First.{ask as asked};
ghost use Rattle.layout.specs.CaseBytes.{count_allowed, offset_right};
ghost use Rattle.layout.specs.CaseReaders.{case_read, direction_fine};

use super::reader::CaseReader;
use market::{AREAS, BIDS, BORDERS, Refusal, ask, is_demand_in_range, is_limit_in_range};
use records::CaseHeader;

// Is each count within its bound, with no bids where they take no part? Whether they do is the scale's to say, and no part of the bytes.
pub fn ask_counts(header: CaseHeader, bids: bool) -> Result<(), Refusal>
    ensures { result ≡ asked (count_allowed bids header) 7 Count }
{
    ask(
        7,
        // Here and below each word has a test of its own, so a match says which; and `usize` has no `From<u32>`, but nothing is cut off.
        |word| match word {
            1 => header.areas as usize <= AREAS,
            3 => header.borders as usize <= BORDERS,
            5 => header.bids as usize <= BIDS && (bids || header.bids == 0),
            _ => true,
        },
        Refusal::Count,
    )
}

// Does each table begin where the one before it ends, and do the bytes end with the last?
pub fn ask_offsets(header: CaseHeader, length: usize) -> Result<(), Refusal>
    ensures { result ≡ asked (offset_right header length) 8 Offset }
{
    ask(
        8,
        |word| match word {
            2 => header.areas_at == 28,
            4 => header.borders_at as usize == header.borders_start(),
            6 => header.bids_at as usize == header.bids_start(),
            7 => length == header.end(),
            _ => true,
        },
        Refusal::Offset,
    )
}

// Is each area's demand in range?
pub fn ask_demands(case: CaseReader) -> Result<(), Refusal>
    ensures { result ≡ asked (λ k. demand_in_range (demand_at (case_read case.entry) k)) (areas (case_read case.entry)) Demand }
{
    ask(
        case.areas(),
        |area| is_demand_in_range(case.demand(area)),
        Refusal::Demand,
    )
}

// Are each border's ends two different areas of the case?
pub fn ask_ends(case: CaseReader) -> Result<(), Refusal>
    ensures { result ≡ asked (λ k. ends_known (areas (case_read case.entry)) (border_at (case_read case.entry) k)) (length (case_read case.entry).borders) Ends }
{
    let areas = case.areas();
    ask(
        case.borders(),
        |place| {
            let border = case.border(place);
            usize::from(border.from) < areas
                && usize::from(border.to) < areas
                && border.from != border.to
        },
        Refusal::Ends,
    )
}

// Are each border's limits in range?
pub fn ask_limits(case: CaseReader) -> Result<(), Refusal>
    ensures { result ≡ asked (λ k. limits_in_range (border_at (case_read case.entry) k)) (length (case_read case.entry).borders) Limits }
{
    ask(
        case.borders(),
        |place| {
            let border = case.border(place);
            is_limit_in_range(border.forward, border.backward)
        },
        Refusal::Limits,
    )
}

// Is each bid's area one of the case, and its direction up or down?
pub fn ask_origins(case: CaseReader) -> Result<(), Refusal>
    ensures { result ≡ asked (λ k. bid_known (areas (case_read case.entry)) (bid_at (case_read case.entry) k) && direction_fine case.entry k) (length (case_read case.entry).bids) Origin }
{
    ask(
        case.bids(),
        |place| {
            usize::from(case.bid(place).area) < case.areas() && case.direction(place).is_ok()
        },
        Refusal::Origin,
    )
}

// Are each bid's volume and price in range?
pub fn ask_offers(case: CaseReader) -> Result<(), Refusal>
    ensures { result ≡ asked (λ k. bid_in_range (bid_at (case_read case.entry) k)) (length (case_read case.entry).bids) Offer }
{
    ask(
        case.bids(),
        |place| {
            let bid = case.bid(place);
            bid.volume <= 9_999_000 && (-9_999_900..=9_999_900).contains(&bid.price)
        },
        Refusal::Offer,
    )
}
