// The layout on bytes: a case and a proposal, whole, cut, and changed at one place, with what reading them answers.
// The file `stdout` has what the rules say of each: number, layer and place of the first question that gets a no, or zeros.
#![tactic(auto)]

use layout::{Counts, keep, load, read_proposal};
use market::{Amounts, Book, Refusal};
use std::alloc::{AllocError, Global};
use std::{fmt, io};
use writing::{write_case, write_proposal};

// Two areas with demands 80 and -120, a border from 0 to 1 with limits 50 and 50, an up bid (100 at 3,000) and a down bid (150 at 5,000).
static CASE: [u8; 72] = [
    1, 0, 0, 0, 2, 0, 0, 0, 28, 0, 0, 0, 1, 0, 0, 0, 36, 0, 0, 0, 2, 0, 0, 0, 48, 0, 0, 0, 80, 0,
    0, 0, 136, 255, 255, 255, 0, 0, 1, 0, 50, 0, 0, 0, 50, 0, 0, 0, 0, 0, 0, 0, 100, 0, 0, 0, 184,
    11, 0, 0, 1, 0, 1, 0, 150, 0, 0, 0, 136, 19, 0, 0,
];

// All satisfied, flow -50, amounts 30 and 70, prices (0, 1, 3000) and (0, -1, 5000).
static PROPOSAL: [u8; 104] = [
    2, 0, 0, 0, 2, 0, 0, 0, 36, 0, 0, 0, 1, 0, 0, 0, 44, 0, 0, 0, 2, 0, 0, 0, 48, 0, 0, 0, 3, 0, 0,
    0, 56, 0, 0, 0, 80, 0, 0, 0, 136, 255, 255, 255, 206, 255, 255, 255, 30, 0, 0, 0, 70, 0, 0, 0,
    0, 0, 0, 0, 0, 0, 0, 0, 1, 0, 0, 0, 0, 0, 0, 0, 184, 11, 0, 0, 0, 0, 0, 0, 0, 0, 0, 0, 0, 0, 0,
    0, 255, 255, 255, 255, 255, 255, 255, 255, 136, 19, 0, 0, 0, 0, 0, 0,
];

// A place and the word that is put there.
static CASE_CHANGES: [(usize, u32); 48] = [
    (0, 2),
    (0, 0),
    (4, 3),
    (8, 29),
    (12, 2),
    (16, 37),
    (20, 3),
    (24, 49),
    (4, 48),
    (4, 49),
    (12, 128),
    (12, 129),
    (20, 1024),
    (20, 1025),
    (28, 20000000),
    (28, 20000001),
    (28, 4274967296),
    (28, 4274967295),
    (32, 20000000),
    (32, 20000001),
    (32, 4274967296),
    (32, 4274967295),
    (36, 1),
    (36, 65538),
    (36, 131072),
    (36, 0),
    (36, 65537),
    (40, 0),
    (40, 20000000),
    (40, 20000001),
    (44, 20000000),
    (44, 20000001),
    (44, 4294967295),
    (48, 1),
    (48, 2),
    (48, 65536),
    (48, 131072),
    (60, 65538),
    (60, 131073),
    (52, 0),
    (52, 9999000),
    (52, 9999001),
    (64, 9999001),
    (56, 9999900),
    (56, 9999901),
    (56, 4284967396),
    (56, 4284967395),
    (68, 9999901),
];

static PROPOSAL_CHANGES: [(usize, u32); 17] = [
    (0, 1),
    (0, 3),
    (4, 3),
    (4, 1),
    (8, 37),
    (12, 2),
    (12, 0),
    (16, 45),
    (20, 3),
    (20, 1),
    (24, 49),
    (28, 4),
    (28, 2),
    (32, 57),
    (36, 4294967295),
    (44, 0),
    (48, 4294967295),
];

const COUNTS: Counts = Counts {
    areas: 2,
    borders: 1,
    bids: 2,
};

// One border more than the proposal has flows.
const OTHER_COUNTS: Counts = Counts {
    areas: 2,
    borders: 2,
    bids: 2,
};

// By place: the rows of a table name it, and a part of the bytes would be no plainer.
fn change(bytes: &mut [u8], at: usize, value: u32) {
    if let Some(word) = bytes
        .get_mut(at..)
        .and_then(|rest| rest.first_chunk_mut::<4>())
    {
        *word = value.to_le_bytes();
    }
}

fn change_all(bytes: &mut [u8], changes: &[(usize, u32)]) {
    for (at, value) in changes {
        change(bytes, *at, *value);
    }
}

// What reading or writing answers: the refusal, or three zeros where there is none.
#[derive(Clone, Copy)]
struct Said(Option<Refusal>);

impl fmt::Display for Said {
    fn fmt<W: fmt::Write>(&self, f: &mut fmt::Formatter<W>) -> fmt::Result {
        match self.0 {
            Some(refusal) => write!(f, "{refusal}"),
            None => write!(f, "0 0 0"),
        }
    }
}

fn said_of_case(book: &mut Book, bytes: &[u8], bids: bool) -> Said {
    Said(load(book, bytes, bids).err())
}

fn said_of_proposal(bytes: &[u8], counts: Counts, levels: usize) -> Said {
    Said(read_proposal(bytes, counts, levels).err())
}

// How many bytes were written, are they the same, and is what lies behind them left as it was?
fn told_written(
    rt: &HostRuntime,
    what: &str,
    size: usize,
    same: bool,
    left: bool,
) -> io::Result<()> {
    println!(rt; "{what} {size} {same} {left}")
}

fn changed_cases(rt: &HostRuntime, book: &mut Book) -> io::Result<()> {
    for (at, value) in &CASE_CHANGES {
        let mut bytes = CASE;
        change(&mut bytes, *at, *value);
        let said = said_of_case(book, &bytes, true);
        println!(rt; "case {at} {value} {said}")?;
    }
    Ok(())
}

fn cut_cases(rt: &HostRuntime, book: &mut Book) -> io::Result<()> {
    for length in 0..CASE.len() {
        let said = said_of_case(book, &CASE[..length], true);
        println!(rt; "cut case {length} {said}")?;
    }
    Ok(())
}

// Bytes with one more behind them.
fn prolonged(heap: Global, bytes: &[u8]) -> Result<Vec<u8>, AllocError> {
    let mut longer = bytes.to_vec(heap)?;
    longer.push(0)?;
    Ok(longer)
}

fn whole_cases(rt: &HostRuntime, book: &mut Book) -> io::Result<()> {
    println!(rt; "whole case {}", said_of_case(book, &CASE, true))?;
    let longer = prolonged(rt.alloc(), &CASE)?;
    println!(rt;
        "longer case {}",
        said_of_case(book, longer.as_slice(), true)
    )
}

// 48 areas, 128 borders from 0 to 1 and 1,024 bids of area 0.
fn full_case() -> [u8; 14044] {
    let mut full = [0; 14044];
    change_all(
        &mut full,
        &[
            (0, 1),
            (4, 48),
            (8, 28),
            (12, 128),
            (16, 220),
            (20, 1024),
            (24, 1756),
        ],
    );
    for border in full[220..1756].chunks_exact_mut(12) {
        change(border, 0, 65536);
    }
    full
}

fn other_cases(rt: &HostRuntime, book: &mut Book) -> io::Result<()> {
    println!(rt; "no bids {}", said_of_case(book, &CASE, false))?;
    let mut empty = [0; 28];
    change_all(&mut empty, &[(0, 1), (8, 28), (16, 28), (24, 28)]);
    println!(rt; "empty case {}", said_of_case(book, &empty, false))?;
    println!(rt; "full case {}", said_of_case(book, &full_case(), true))?;
    let mut several = CASE;
    change_all(&mut several, &[(32, 20000001), (36, 0), (52, 9999001)]);
    println!(rt; "several faults {}", said_of_case(book, &several, true))
}

fn changed_proposals(rt: &HostRuntime) -> io::Result<()> {
    for (at, value) in &PROPOSAL_CHANGES {
        let mut bytes = PROPOSAL;
        change(&mut bytes, *at, *value);
        let said = said_of_proposal(&bytes, COUNTS, 3);
        println!(rt; "proposal {at} {value} {said}")?;
    }
    Ok(())
}

fn cut_proposals(rt: &HostRuntime) -> io::Result<()> {
    for length in 0..PROPOSAL.len() {
        let said = said_of_proposal(&PROPOSAL[..length], COUNTS, 3);
        println!(rt; "cut proposal {length} {said}")?;
    }
    Ok(())
}

fn whole_proposals(rt: &HostRuntime) -> io::Result<()> {
    println!(rt; "whole proposal {}", said_of_proposal(&PROPOSAL, COUNTS, 3))?;
    let longer = prolonged(rt.alloc(), &PROPOSAL)?;
    println!(rt;
        "longer proposal {}",
        said_of_proposal(longer.as_slice(), COUNTS, 3)
    )
}

fn other_proposals(rt: &HostRuntime) -> io::Result<()> {
    println!(rt; "one level {}", said_of_proposal(&PROPOSAL, COUNTS, 1))?;
    let mut levels = PROPOSAL;
    change(&mut levels, 28, 17);
    println!(rt;
        "seventeen levels {}",
        said_of_proposal(&levels, COUNTS, 17)
    )?;
    println!(rt;
        "other counts {}",
        said_of_proposal(&PROPOSAL, OTHER_COUNTS, 3)
    )
}

fn amounts_read(rt: &HostRuntime) -> io::Result<()> {
    let Ok(proposal) = read_proposal(&PROPOSAL, COUNTS, 3) else {
        return println!(rt; "no proposal");
    };
    println!(rt;
        "satisfied {} {} {}",
        proposal.satisfied(0),
        proposal.satisfied(1),
        proposal.satisfied(2)
    )?;
    println!(rt; "flow {} {}", proposal.flow(0), proposal.flow(1))?;
    println!(rt;
        "activated {} {} {}",
        proposal.activated(0),
        proposal.activated(1),
        proposal.activated(2)
    )?;
    println!(rt;
        "prices {} {} {}",
        proposal.price(0).len(),
        proposal.price(1).len(),
        proposal.price(2).len()
    )
}

fn case_loaded(rt: &HostRuntime, book: &mut Book) -> io::Result<()> {
    let _ = load(book, &CASE, true);
    if let [first, second] = book.demands.as_slice() {
        println!(rt; "loaded {first} {second}")?;
    }
    Ok(())
}

fn case_written(rt: &HostRuntime, book: &Book) -> io::Result<()> {
    let mut out = [255; 74];
    let size = write_case(book, &mut out).unwrap_or(0);
    let (written, behind) = out.split_at(CASE.len());
    told_written(
        rt,
        "written",
        size,
        written == CASE.as_slice(),
        behind == [255, 255].as_slice(),
    )?;
    println!(rt; "room {}", Said(write_case(book, &mut out[0..71]).err()))
}

fn proposal_kept(rt: &HostRuntime, amounts: &mut Amounts) -> io::Result<()> {
    match read_proposal(&PROPOSAL, COUNTS, 3) {
        Ok(proposal) => println!(rt; "kept {}", keep(amounts, &proposal)),
        Err(_) => println!(rt; "no proposal"),
    }
}

fn proposal_written(rt: &HostRuntime, amounts: &Amounts) -> io::Result<()> {
    let prices = [0, 1, 3000, 0, -1, 5000];
    let mut out = [255; 106];
    let size = write_proposal(amounts, &prices, 3, &mut out).unwrap_or(0);
    let (written, behind) = out.split_at(PROPOSAL.len());
    told_written(
        rt,
        "proposed",
        size,
        written == PROPOSAL.as_slice(),
        behind == [255, 255].as_slice(),
    )?;
    println!(rt;
        "room {}",
        Said(write_proposal(amounts, &prices, 3, &mut out[0..103]).err())
    )
}

fn cases(rt: &HostRuntime, book: &mut Book) -> io::Result<()> {
    changed_cases(rt, book)?;
    cut_cases(rt, book)?;
    whole_cases(rt, book)?;
    other_cases(rt, book)
}

fn proposals(rt: &HostRuntime) -> io::Result<()> {
    changed_proposals(rt)?;
    cut_proposals(rt)?;
    whole_proposals(rt)?;
    other_proposals(rt)?;
    amounts_read(rt)
}

// All in turn, with one book and one table of amounts.
fn main(rt: HostRuntime) -> io::Result<()> {
    let mut book = Book::reserve(rt.alloc())?;
    let mut amounts = Amounts::reserve(rt.alloc())?;
    cases(&rt, &mut book)?;
    proposals(&rt)?;
    case_loaded(&rt, &mut book)?;
    case_written(&rt, &book)?;
    proposal_kept(&rt, &mut amounts)?;
    proposal_written(&rt, &amounts)
}
