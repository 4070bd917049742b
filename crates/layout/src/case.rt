// Reading a case.
ghost use Rattle.std.specs.Prelude.{◌≡◌, ◌≤◌, length, is_ok, IfOk, if◌then◌else◌};
ghost use Rattle.records.specs.Headers.{case_header_of};
ghost use Rattle.records.specs.Headers.{end_by};
ghost use Rattle.layout.specs.CaseBytes.{bytes_answer, records_answer, case_answer, case_in, written};
ghost use Rattle.layout.specs.CaseReaders.{case_read, direction_fine, case_held, Parts};
ghost use Rattle.layout.specs.Sections.{forget};

use super::questions::{
    ask_counts, ask_demands, ask_ends, ask_limits, ask_offers, ask_offsets, ask_origins,
};
use super::reader::CaseReader;
use super::table::fill;
use market::{Book, Refusal};
use records::{CaseHeader, Kind, case_header};

// The header of a case, or the first question on it that gets a no.
fn check_header(bytes: &[u8], bids: bool) -> Result<CaseHeader, Refusal>
    ensures answer { forget result ≡ bytes_answer bids bytes.now }
    ensures header { IfOk result (λ h. h ≡ case_header_of bytes.now) }
{
    let Some(header) = case_header(bytes) else {
        return Err(Refusal::Header(bytes.len()));
    };
    if header.kind != u32::from(Kind::Case) {
        return Err(Refusal::Kind);
    }
    ask_counts(header, bids)?;
    ask_offsets(header, bytes.len())?;
    Ok(header)
}

// The tables of a case.
fn tables<'a>(bytes: &'a [u8], header: CaseHeader) -> CaseReader<'a>
    requires { length bytes.now ≡ end_by header }
    ensures { Parts header bytes.now result }
{
    let (_, rest) = bytes.split_at(28);
    // `usize` has no `From<u32>`, and nothing is cut off.
    let (demands, rest) = rest.split_at(4 * header.areas as usize);
    let (borders, bids) = rest.split_at(12 * header.borders as usize);
    CaseReader {
        demands,
        borders,
        bids,
    }
}

// Does every record keep its range?
fn check_records(case: CaseReader) -> Result<(), Refusal>
    ensures { result ≡ records_answer (case_read case.entry) (direction_fine case.entry) }
{
    ask_demands(case)?;
    ask_ends(case)?;
    ask_limits(case)?;
    ask_origins(case)?;
    ask_offers(case)
}

// Here and elsewhere the caller lends the bytes, and the scale says whether there may be bids: two parameters from two places.
// The case in the bytes, or the first question that gets a no. The bytes are exactly those that write the case.
pub fn read_case<'a>(bytes: &'a [u8], bids: bool) -> Result<CaseReader<'a>, Refusal>
    ensures answer { forget result ≡ case_answer bids bytes.now }
    ensures holds { IfOk result (λ c. case_read c ≡ case_in bytes.now) }
    ensures exact { IfOk result (λ c. written (case_read c) ≡ bytes.now) }
{
    let header = check_header(bytes, bids)?;
    let case = tables(bytes, header);
    check_records(case)?;
    Ok(case)
}

// Makes the book's case the one in the bytes; where a question gets a no, the book stays as it is.
pub fn load(book: &mut Book, bytes: &[u8], bids: bool) -> Result<(), Refusal>
    ensures answer { result ≡ case_answer bids bytes.now }
    ensures after { case_held book.new ≡ (if is_ok result then case_in bytes.now else case_held book.old) }
{
    let case = read_case(bytes, bids)?;
    fill(&mut book.demands, case.demands);
    fill(&mut book.borders, case.borders);
    fill(&mut book.bids, case.bids);
    Ok(())
}
