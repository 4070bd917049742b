// Writing a case, and a proposal.
ghost use Rattle.std.specs.Prelude.{◌≡◌, ◌^◌, ◌<◌, length, nat_le, SomeIff};
ghost use Rattle.market.specs.declared.refusal.Refusal.TheVariants.{Room};
ghost use Rattle.market.specs.First.{ask_one};
ghost use Rattle.layout.specs.CaseReaders.{case_held};
ghost use Rattle.layout.specs.Sections.{amounts_held};
ghost use Rattle.layout.specs.Writing.{case_write_answer, case_write_after, proposal_size, proposal_write_answer, proposal_write_after};

use super::written::{Written, put_table};
use market::{Amounts, Bid, Book, Border, Refusal};
use records::Kind;

// Does the buffer hold so many bytes?
fn check_room(size: usize, out: &[u8]) -> Result<(), Refusal>
    ensures { result ≡ ask_one (nat_le size (length out.now)) (Room size) }
{
    if size > out.len() {
        return Err(Refusal::Room(size));
    }
    Ok(())
}

// Writes the book's case at the start of the buffer, and answers how many bytes that took; the bytes behind keep their values. Where they do not fit, nothing is written.
pub fn write_case(book: &Book, out: &mut [u8]) -> Result<usize, Refusal>
    ensures answer { result ≡ case_write_answer (case_held book.now) out.old }
    ensures after { out.new ≡ case_write_after (case_held book.now) out.old }
{
    let demands = book.demands.as_slice();
    let borders = book.borders.as_slice();
    let bids = book.bids.as_slice();
    let borders_at = 28 + i32::SIZE * demands.len();
    let bids_at = borders_at + Border::SIZE * borders.len();
    let size = bids_at + Bid::SIZE * bids.len();
    check_room(size, out)?;
    // Here and below header words are written from a `usize`, to which no `From` leads from u32; nothing is cut off.
    put_table(
        &[
            u32::from(Kind::Case) as usize,
            demands.len(),
            28,
            borders.len(),
            borders_at,
            bids.len(),
            bids_at,
        ],
        out,
    );
    put_table(demands, &mut out[28..]);
    put_table(borders, &mut out[borders_at..]);
    put_table(bids, &mut out[bids_at..]);
    Ok(size)
}

// Where tables begin follows here from the lists, as in reading it follows from a header's words.
// How many bytes a proposal takes, where that is a number of the machine.
fn proposal_size(amounts: &Amounts, prices: &[i64]) -> Option<usize>
    ensures { SomeIff result (proposal_size (amounts_held amounts.now) prices.now < 2 ^ 64) (proposal_size (amounts_held amounts.now) prices.now) }
{
    // No `From` leads from `usize` to `u128`, and nothing is cut off.
    let amounts = amounts.satisfied.len() as u128
        + amounts.flows.len() as u128
        + amounts.activated.len() as u128;
    usize::try_from(36 + 4 * amounts + 8 * prices.len() as u128).ok()
}

// The levels of all prices in one list, and how many a price has, as a solver has them.
// Writes a proposal of the amounts and of the prices' levels, one area's after the other's, at the start of the buffer, and answers how many bytes that took;
// the bytes behind keep their values. Where they do not fit, nothing is written.
pub fn write_proposal(
    amounts: &Amounts,
    prices: &[i64],
    levels: usize,
    out: &mut [u8],
) -> Result<usize, Refusal>
    ensures answer { result ≡ proposal_write_answer (amounts_held amounts.now) prices.now out.old }
    ensures after { out.new ≡ proposal_write_after levels (amounts_held amounts.now) prices.now out.old }
{
    let size = proposal_size(amounts, prices).ok_or(Refusal::Room(usize::MAX))?;
    check_room(size, out)?;
    let satisfied = amounts.satisfied.as_slice();
    let flows = amounts.flows.as_slice();
    let activated = amounts.activated.as_slice();
    let flows_at = 36 + i32::SIZE * satisfied.len();
    let activated_at = flows_at + i32::SIZE * flows.len();
    let prices_at = activated_at + u32::SIZE * activated.len();
    put_table(
        &[
            u32::from(Kind::Proposal) as usize,
            satisfied.len(),
            36,
            flows.len(),
            flows_at,
            activated.len(),
            activated_at,
            levels,
            prices_at,
        ],
        out,
    );
    put_table(satisfied, &mut out[36..]);
    put_table(flows, &mut out[flows_at..]);
    put_table(activated, &mut out[activated_at..]);
    put_table(prices, &mut out[prices_at..]);
    Ok(size)
}
