// Header words: four bytes each, the lowest first.
ghost use Rattle.std.specs.Prelude.{◌≡◌, ◌+◌, ◌*◌};
ghost use Rattle.records.specs.Headers.{borders_start, bids_start, end_by, case_header_in, proposal_header_in};

use super::record::Record;

// The words of a case's header, in their order.
#[derive(Clone, Copy)]
pub struct CaseHeader {
    pub kind: u32,
    pub areas: u32,
    pub areas_at: u32,
    pub borders: u32,
    pub borders_at: u32,
    pub bids: u32,
    pub bids_at: u32,
}

// The words of a proposal's header, in their order. Two structs and two readers, since the words differ in what they are.
#[derive(Clone, Copy)]
pub struct ProposalHeader {
    pub kind: u32,
    pub areas: u32,
    pub satisfied: u32,
    pub borders: u32,
    pub flows: u32,
    pub bids: u32,
    pub activated: u32,
    pub levels: u32,
    pub prices: u32,
}

// Where the tables of a case begin and end, by its header. `usize` has no `From<u32>`, and nothing is cut off.
impl CaseHeader {
    pub fn borders_start(self) -> usize
        ensures { result ≡ borders_start self }
    {
        28 + 4 * self.areas as usize
    }

    pub fn bids_start(self) -> usize
        ensures { result ≡ bids_start self }
    {
        self.borders_start() + 12 * self.borders as usize
    }

    pub fn end(self) -> usize
        ensures { result ≡ end_by self }
    {
        self.bids_start() + 12 * self.bids as usize
    }
}

// The seven words of a case's header, where the bytes hold them all.
pub fn case_header(bytes: &[u8]) -> Option<CaseHeader>
    ensures { result ≡ case_header_in bytes.now }
{
    let (kind, rest) = u32::first(bytes)?;
    let (areas, rest) = u32::first(rest)?;
    let (areas_at, rest) = u32::first(rest)?;
    let (borders, rest) = u32::first(rest)?;
    let (borders_at, rest) = u32::first(rest)?;
    let (bids, rest) = u32::first(rest)?;
    let (bids_at, _) = u32::first(rest)?;
    Some(CaseHeader {
        kind,
        areas,
        areas_at,
        borders,
        borders_at,
        bids,
        bids_at,
    })
}

// The nine words of a proposal's header, where the bytes hold them all.
pub fn proposal_header(bytes: &[u8]) -> Option<ProposalHeader>
    ensures { result ≡ proposal_header_in bytes.now }
{
    let (kind, rest) = u32::first(bytes)?;
    let (areas, rest) = u32::first(rest)?;
    let (satisfied, rest) = u32::first(rest)?;
    let (borders, rest) = u32::first(rest)?;
    let (flows, rest) = u32::first(rest)?;
    let (bids, rest) = u32::first(rest)?;
    let (activated, rest) = u32::first(rest)?;
    let (levels, rest) = u32::first(rest)?;
    let (prices, _) = u32::first(rest)?;
    Some(ProposalHeader {
        kind,
        areas,
        satisfied,
        borders,
        flows,
        bids,
        activated,
        levels,
        prices,
    })
}
