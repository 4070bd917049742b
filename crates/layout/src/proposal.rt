// The bytes of a proposal.
ghost use Rattle.std.specs.Prelude.{◌≡◌, ◌+◌, ◌*◌, ◌/◌, ◌^◌, ◌<◌, ◌≤◌, length, pos, IfOk, if◌then◌else◌, slice_index, slice_index_or};
ghost use Rattle.market.specs.declared.refusal.Refusal.TheVariants.{Count, Offset};
ghost use Rattle.market.specs.First.{ask as asked};
ghost use Rattle.layout.specs.ProposalBytes.{proposal_end, proposal_answer, count_right, section_right, starts, signed_amounts, unsigned_amounts, price_part};
ghost use Rattle.layout.specs.Sections.{section_bytes, satisfied_bytes, flows_bytes, activated_bytes, prices_bytes, levels_of, selection_held, Holds, InPlace, forget, few, amounts_held};

use super::table::fill;
use market::{AREAS, Amounts, BIDS, BORDERS, Refusal, ask};
use records::{Kind, ProposalHeader, Record, proposal_header, record_at};

// How many areas, borders and bids a case has.
#[derive(Clone, Copy, PartialEq, Eq, Debug)]
pub struct Counts {
    pub areas: usize,
    pub borders: usize,
    pub bids: usize,
}

// A section of a proposal: its part of the bytes, borrowed. An enum, so that no section is taken for another.
#[derive(Clone, Copy)]
pub enum Section<'a> {
    Satisfied(&'a [u8]),
    Flows(&'a [u8]),
    Activated(&'a [u8]),
    Prices(&'a [u8]),
}

// A proposal, read straight from its bytes.
#[derive(Clone, Copy)]
pub struct Proposal<'a> {
    satisfied: Section<'a>,
    flows: Section<'a>,
    activated: Section<'a>,
    prices: Section<'a>,
    levels: usize,
}

// Where the sections begin behind the first, and where the last ends.
#[derive(Clone, Copy)]
struct Starts {
    flows: usize,
    activated: usize,
    prices: usize,
    end: usize,
}

// Is each count that of the case, and are the levels those of the scale?
fn ask_counts(counts: Counts, levels: usize, header: ProposalHeader) -> Result<(), Refusal>
    ensures { result ≡ asked (count_right counts levels header) 9 Count }
{
    ask(
        9,
        // Here and below each word has a test of its own, so a match says which. `usize` has no `From<u32>`, and nothing is cut off.
        |word| match word {
            1 => header.areas as usize == counts.areas,
            3 => header.borders as usize == counts.borders,
            5 => header.bids as usize == counts.bids,
            7 => levels <= 16 && header.levels as usize == levels,
            _ => true,
        },
        Refusal::Count,
    )
}

// Does each section begin where the one before it ends, and do the bytes end with the last?
fn ask_sections(starts: Starts, header: ProposalHeader, length: usize) -> Result<(), Refusal>
    ensures { result ≡ asked (section_right starts header length) 10 Offset }
{
    ask(
        10,
        |word| match word {
            2 => header.satisfied == 36,
            4 => header.flows as usize == starts.flows,
            6 => header.activated as usize == starts.activated,
            8 => header.prices as usize == starts.prices,
            9 => length == starts.end,
            _ => true,
        },
        Refusal::Offset,
    )
}

// Where the sections of a proposal with these counts and levels stand.
fn section_starts(counts: Counts, levels: usize) -> Starts
    requires { (counts.areas < 2 ^ 32) × (counts.borders < 2 ^ 32) × (counts.bids < 2 ^ 32) × (levels ≤ 16) }
    ensures { result ≡ starts counts levels }
{
    let flows = 36 + 4 * counts.areas;
    let activated = flows + 4 * counts.borders;
    let prices = activated + 4 * counts.bids;
    Starts {
        flows,
        activated,
        prices,
        end: prices + 8 * levels * counts.areas,
    }
}

// Are these the bytes of a proposal with these counts and levels?
fn check_proposal(bytes: &[u8], counts: Counts, levels: usize) -> Result<(), Refusal>
    ensures { result ≡ proposal_answer counts levels bytes.now }
{
    let Some(header) = proposal_header(bytes) else {
        return Err(Refusal::Header(bytes.len()));
    };
    if header.kind != u32::from(Kind::Proposal) {
        return Err(Refusal::Kind);
    }
    ask_counts(counts, levels, header)?;
    ask_sections(section_starts(counts, levels), header, bytes.len())
}

// The proposal in the bytes, for a case with these counts and a scale with these levels, which come from two places and meet only here; or the first question that gets a no.
pub fn read_proposal<'a>(
    bytes: &'a [u8],
    counts: Counts,
    levels: usize,
) -> Result<Proposal<'a>, Refusal>
    ensures answer { forget result ≡ proposal_answer counts levels bytes.now }
    ensures parts { IfOk result (Holds counts levels bytes.now) }
    ensures places { IfOk result InPlace }
{
    check_proposal(bytes, counts, levels)?;
    let (_, rest) = bytes.split_at(36);
    let (satisfied, rest) = rest.split_at(4 * counts.areas);
    let (flows, rest) = rest.split_at(4 * counts.borders);
    let (activated, prices) = rest.split_at(4 * counts.bids);
    Ok(Proposal {
        satisfied: Section::Satisfied(satisfied),
        flows: Section::Flows(flows),
        activated: Section::Activated(activated),
        prices: Section::Prices(prices),
        levels,
    })
}

impl<'a> Section<'a> {
    // The bytes of the section.
    pub fn bytes(self) -> &'a [u8]
        ensures { result.now ≡ section_bytes self.entry }
    {
        match self {
            Section::Satisfied(bytes)
            | Section::Flows(bytes)
            | Section::Activated(bytes)
            | Section::Prices(bytes) => bytes,
        }
    }
}

impl<'a> Proposal<'a> {
    // The satisfied amount of an area; 0 past the last.
    pub fn satisfied(&self, area: usize) -> i32
        ensures { result ≡ slice_index_or (signed_amounts (satisfied_bytes self.now)) area (pos 0) }
    {
        record_at::<i32>(self.satisfied.bytes(), area).unwrap_or_default()
    }

    // The flow of a border; 0 past the last.
    pub fn flow(&self, border: usize) -> i32
        ensures { result ≡ slice_index_or (signed_amounts (flows_bytes self.now)) border (pos 0) }
    {
        record_at::<i32>(self.flows.bytes(), border).unwrap_or_default()
    }

    // The activated amount of a bid; 0 past the last.
    pub fn activated(&self, bid: usize) -> u32
        ensures { result ≡ slice_index (unsigned_amounts (activated_bytes self.now)) bid }
    {
        record_at::<u32>(self.activated.bytes(), bid).unwrap_or_default()
    }

    // The bytes of the price of an area: eight for each level; none past the last.
    pub fn price(&self, area: usize) -> &'a [u8]
        ensures { result.now ≡ price_part (levels_of self.now) (prices_bytes self.now) area }
    {
        let prices = self.prices.bytes();
        // By start and end, since a width may be 0, which `chunks` refuses, and past the last area the part is empty.
        let width = self.levels.saturating_mul(8);
        let start = width.saturating_mul(area).min(prices.len());
        let end = start + width.min(prices.len() - start);
        &prices[start..end]
    }
}

// Makes the amounts those of the proposal and answers true, where it has no more than a case can have; else changes nothing and answers false.
// A flag and no error: a proposal for a case that a book holds never has more.
pub fn keep(amounts: &mut Amounts, proposal: &Proposal) -> bool
    ensures answer { result ≡ few proposal.now }
    ensures after { amounts_held amounts.new ≡ (if result then selection_held proposal.now else amounts_held amounts.old) }
{
    let satisfied = proposal.satisfied.bytes();
    let flows = proposal.flows.bytes();
    let activated = proposal.activated.bytes();
    if satisfied.len() / i32::SIZE > AREAS
        || flows.len() / i32::SIZE > BORDERS
        || activated.len() / u32::SIZE > BIDS
    {
        return false;
    }
    fill(&mut amounts.satisfied, satisfied);
    fill(&mut amounts.flows, flows);
    fill(&mut amounts.activated, activated);
    true
}
