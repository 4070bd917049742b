// figures: tries worked figures through the library, and writes what was tried and what was answered.
// The file `stdout` has what the rules say of each: taken, with the totals where a proposal stands, or number, layer and place.
#![tactic(auto)]

use cycle::{Answer, Call, Cycle, Item};
use listing::Totals;
use market::Refusal;
use scale::{Activation, Netting, Pair, Scale};
use std::alloc::{AllocError, Global};
use std::io;

// A row on the two areas: amounts, and the money in the price of area 1.
struct Amounts {
    what: &'static str,
    satisfied: i32,
    flow: i32,
    up: i32,
    down: i32,
    money: i32,
}

// A row on the one area: the price there.
struct Price {
    what: &'static str,
    satisfaction: i32,
    volume: i32,
    money: i32,
}

// A row on the demand of area 0.
struct Demand {
    what: &'static str,
    demand: i32,
}

// A row on calls where the proposal stands.
struct Step {
    what: &'static str,
    call: Call<'static>,
}

// Two areas with demands 80 and -120, a border from 0 to 1 with limits 50 and 50, an up bid (100 at 3,000) and a down bid (150 at 5,000).
static CASE: [i32; 18] = [
    1, 2, 28, 1, 36, 2, 48, 80, -120, 65536, 50, 50, 0, 100, 3000, 65537, 150, 5000,
];

// All satisfied, flow -50, amounts 30 and 70, prices (0, 1, 3000) and (0, -1, 5000).
static PROPOSAL: [i32; 26] = [
    2, 2, 36, 1, 44, 2, 48, 3, 56, 80, -120, -50, 30, 70, 0, 0, 1, 0, 3000, 0, 0, 0, -1, -1, 5000,
    0,
];

// One area with demand 10, and nothing satisfied there at price (0, 0, 0).
static ONE_AREA: [i32; 8] = [1, 1, 28, 0, 32, 0, 32, 10];

static NOTHING: [i32; 16] = [2, 1, 36, 0, 40, 0, 40, 3, 40, 0, 0, 0, 0, 0, 0, 0];

// The two areas and their border without bids: satisfied 50 and -50, flow -50, prices 1 and -1.
static NO_BIDS: [i32; 12] = [1, 2, 28, 1, 36, 0, 48, 80, -120, 65536, 50, 50];

static NETTED: [i32; 16] = [2, 2, 36, 1, 44, 0, 48, 1, 48, 50, -50, -50, 1, 0, -1, -1];

// No areas, borders or bids.
static EMPTY: [i32; 7] = [1, 0, 28, 0, 28, 0, 28];

// The rows of the table of worked cases.
static AMOUNTS: [Amounts; 6] = [
    Amounts {
        what: "two areas",
        satisfied: 80,
        flow: -50,
        up: 30,
        down: 70,
        money: 5000,
    },
    Amounts {
        what: "4,999 in the second price",
        satisfied: 80,
        flow: -50,
        up: 30,
        down: 70,
        money: 4999,
    },
    Amounts {
        what: "flow 0, amounts 80 and 120",
        satisfied: 80,
        flow: 0,
        up: 80,
        down: 120,
        money: 5000,
    },
    Amounts {
        what: "flow -51",
        satisfied: 80,
        flow: -51,
        up: 30,
        down: 70,
        money: 5000,
    },
    Amounts {
        what: "amount 31 of bid 0",
        satisfied: 80,
        flow: -50,
        up: 31,
        down: 70,
        money: 5000,
    },
    Amounts {
        what: "satisfied 81 in area 0",
        satisfied: 81,
        flow: -50,
        up: 30,
        down: 70,
        money: 5000,
    },
];

static PRICES: [Price; 3] = [
    Price {
        what: "one area, price (1, 0, 0)",
        satisfaction: 1,
        volume: 0,
        money: 0,
    },
    Price {
        what: "one area, price (0, 8, 79999200)",
        satisfaction: 0,
        volume: 8,
        money: 79999200,
    },
    Price {
        what: "one area, price (9, 0, 0)",
        satisfaction: 9,
        volume: 0,
        money: 0,
    },
];

// The greatest demands, and one more.
static DEMANDS: [Demand; 4] = [
    Demand {
        what: "demand 20,000,000",
        demand: 20000000,
    },
    Demand {
        what: "demand 20,000,001",
        demand: 20000001,
    },
    Demand {
        what: "demand -20,000,000",
        demand: -20000000,
    },
    Demand {
        what: "demand -20,000,001",
        demand: -20000001,
    },
];

// A change takes away what stands; a refusal leaves it.
static REVISING: [Step; 3] = [
    Step {
        what: "read area 1",
        call: Call::Read(Item::Area(1)),
    },
    Step {
        what: "revise area 1 to the same demand",
        call: Call::Revise(1, -120),
    },
    Step {
        what: "read area 1 after that",
        call: Call::Read(Item::Area(1)),
    },
];

static LIMITING: [Step; 3] = [
    Step {
        what: "read border 0",
        call: Call::Read(Item::Border(0)),
    },
    Step {
        what: "limits 51 and 51",
        call: Call::Limit(0, 51, 51),
    },
    Step {
        what: "read border 0 after that",
        call: Call::Read(Item::Border(0)),
    },
];

static WITHDRAWING: [Step; 4] = [
    Step {
        what: "withdraw bid 2 of two",
        call: Call::Withdraw(2),
    },
    Step {
        what: "read bid 1 after that",
        call: Call::Read(Item::Bid(1)),
    },
    Step {
        what: "withdraw bid 1",
        call: Call::Withdraw(1),
    },
    Step {
        what: "read bid 0 after that",
        call: Call::Read(Item::Bid(0)),
    },
];

// Words as the bytes of a file.
fn bytes_of(heap: Global, words: &[i32]) -> Result<Vec<u8>, AllocError> {
    let mut bytes = Vec::with_capacity(heap, 4 * words.len())?;
    for word in words.iter() {
        bytes.extend_from_slice(&word.to_le_bytes())?;
    }
    Ok(bytes)
}

fn answered(rt: &HostRuntime, what: &str, answer: Answer) -> io::Result<()> {
    match answer {
        Ok(None) => println!(rt; "{what}: taken"),
        Ok(Some(amount)) => println!(rt; "{what}: {amount}"),
        Err(refusal) => println!(rt; "{what}: refused {refusal}"),
    }
}

fn measured(rt: &HostRuntime, what: &str, answer: Result<usize, Refusal>) -> io::Result<()> {
    match answer {
        Ok(length) => println!(rt; "{what}: {length} bytes"),
        Err(refusal) => println!(rt; "{what}: refused {refusal}"),
    }
}

fn standing(rt: &HostRuntime, what: &str, totals: Option<Totals>) -> io::Result<()> {
    match totals {
        Some(totals) => println!(rt;
            "{what}: taken {} {} {} {}",
            totals.satisfied, totals.activated, totals.netted, totals.cost
        ),
        None => println!(rt; "{what}: nothing stands"),
    }
}

// Loads and submits, whatever the cycle held before.
fn judge<S: Scale>(cycle: &mut Cycle<S>, case: &[u8], proposal: &[u8]) -> Result<(), Refusal> {
    cycle.load(case)?;
    cycle.submit(proposal)
}

// Judges on a fresh cycle, and writes the answer.
fn propose<S: Scale>(
    rt: &HostRuntime,
    what: &str,
    case: &[i32],
    proposal: &[i32],
) -> io::Result<()> {
    let case = bytes_of(rt.alloc(), case)?;
    let proposal = bytes_of(rt.alloc(), proposal)?;
    let mut cycle = Cycle::<S>::new(rt.alloc())?;
    match judge(&mut cycle, case.as_slice(), proposal.as_slice()) {
        Ok(()) => standing(rt, what, cycle.totals()),
        Err(refusal) => println!(rt; "{what}: refused {refusal}"),
    }
}

// The proposal with other amounts, and other money in the price of area 1.
fn two_areas(rt: &HostRuntime, row: &Amounts) -> io::Result<()> {
    let mut proposal = PROPOSAL;
    proposal[9] = row.satisfied;
    proposal[11] = row.flow;
    proposal[12] = row.up;
    proposal[13] = row.down;
    proposal[24] = row.money;
    propose::<Activation>(rt, row.what, &CASE, &proposal)
}

fn one_area(rt: &HostRuntime, row: &Price) -> io::Result<()> {
    let mut proposal = NOTHING;
    proposal[10] = row.satisfaction;
    proposal[12] = row.volume;
    proposal[14] = row.money;
    propose::<Activation>(rt, row.what, &ONE_AREA, &proposal)
}

fn table(rt: &HostRuntime) -> io::Result<()> {
    for row in &AMOUNTS {
        two_areas(rt, row)?;
    }
    for row in &PRICES {
        one_area(rt, row)?;
    }
    propose::<Netting>(rt, "netting without bids", &NO_BIDS, &NETTED)
}

fn load_demand<S: Scale>(rt: &HostRuntime, cycle: &mut Cycle<S>, row: &Demand) -> io::Result<()> {
    let mut case = CASE;
    case[7] = row.demand;
    let case = bytes_of(rt.alloc(), &case)?;
    answered(rt, row.what, cycle.make(Call::Load(case.as_slice())))
}

fn demands<S: Scale>(rt: &HostRuntime, cycle: &mut Cycle<S>) -> io::Result<()> {
    for row in &DEMANDS {
        load_demand(rt, cycle, row)?;
    }
    Ok(())
}

fn empty<S: Scale>(rt: &HostRuntime, cycle: &mut Cycle<S>) -> io::Result<()> {
    let mut empty = bytes_of(rt.alloc(), &EMPTY)?;
    let whole = cycle.make(Call::Load(empty.as_slice()));
    answered(rt, "empty case of 28 bytes", whole)?;
    let _ = empty.pop();
    let cut = cycle.make(Call::Load(empty.as_slice()));
    answered(rt, "27 bytes", cut)
}

// The case loaded, and the proposal submitted.
fn submit<S: Scale>(heap: Global, cycle: &mut Cycle<S>) -> Result<(), AllocError> {
    let case = bytes_of(heap, &CASE)?;
    let proposal = bytes_of(heap, &PROPOSAL)?;
    let _ = judge(cycle, case.as_slice(), proposal.as_slice());
    Ok(())
}

// Calls in turn, from where the proposal stands.
fn steps<S: Scale>(rt: &HostRuntime, cycle: &mut Cycle<S>, steps: &[Step]) -> io::Result<()> {
    submit(rt.alloc(), cycle)?;
    for step in steps {
        answered(rt, step.what, cycle.make(step.call))?;
    }
    Ok(())
}

fn writing<S: Scale>(rt: &HostRuntime, cycle: &mut Cycle<S>) -> io::Result<()> {
    submit(rt.alloc(), cycle)?;
    let mut out = [0; 72];
    measured(rt, "write the case into 72 bytes", cycle.write(&mut out))?;
    let case = bytes_of(rt.alloc(), &CASE)?;
    println!(rt; "the same bytes: {}", case.as_slice() == out.as_slice())?;
    let mut short = [0; 71];
    measured(rt, "write the case into 71 bytes", cycle.write(&mut short))
}

// All on one cycle: every part starts by loading a case.
fn calls<S: Scale>(rt: &HostRuntime) -> io::Result<()> {
    let mut cycle = Cycle::<S>::new(rt.alloc())?;
    demands(rt, &mut cycle)?;
    empty(rt, &mut cycle)?;
    steps(rt, &mut cycle, &REVISING)?;
    steps(rt, &mut cycle, &LIMITING)?;
    steps(rt, &mut cycle, &WITHDRAWING)?;
    writing(rt, &mut cycle)
}

fn releasing<S: Scale>(rt: &HostRuntime) -> io::Result<()> {
    let mut cycle = Cycle::<S>::new(rt.alloc())?;
    submit(rt.alloc(), &mut cycle)?;
    let mut closed = cycle.close();
    let mut short = [0; 143];
    measured(rt, "release into 143 bytes", closed.release(&mut short))?;
    let mut enough = [0; 144];
    measured(rt, "release into 144 bytes", closed.release(&mut enough))
}

fn nothing_to_release<S: Scale>(rt: &HostRuntime) -> io::Result<()> {
    let mut closed = Cycle::<S>::new(rt.alloc())?.close();
    let mut out = [0; 144];
    measured(
        rt,
        "release with nothing standing",
        closed.release(&mut out),
    )
}

// The calls of a cycle, and its release.
fn cycles<S: Scale>(rt: &HostRuntime) -> io::Result<()> {
    calls::<S>(rt)?;
    releasing::<S>(rt)?;
    nothing_to_release::<S>(rt)
}

// The proposal, with so many levels in word 7.
fn levels<S: Scale>(rt: &HostRuntime, levels: i32) -> io::Result<()> {
    let mut proposal = PROPOSAL;
    proposal[7] = levels;
    let what = format!(in rt.alloc(); "too large a pair, {levels} in word 7")?;
    propose::<S>(rt, what.as_str(), &CASE, &proposal)
}

// A pair of a scale with itself has twice its levels: here 24, where a scale may have 16.
type Twice<S> = Pair<S, S>;

type TooLarge = Twice<Twice<Twice<Activation>>>;

fn too_large(rt: &HostRuntime) -> io::Result<()> {
    for count in [3, 16, 17] {
        levels::<TooLarge>(rt, count)?;
    }
    Ok(())
}

fn main(rt: HostRuntime) -> io::Result<()> {
    table(&rt)?;
    cycles::<Activation>(&rt)?;
    too_large(&rt)
}
