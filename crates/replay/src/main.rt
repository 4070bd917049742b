// replay: reads a list of calls, makes them on a fresh cycle, and writes what each of them answers.
#![tactic(auto)]

ghost use Rattle.std.specs.Prelude.{◌≡◌};
ghost use Rattle.cycle.specs.Sent.{sent};
ghost use Rattle.replay.specs.Plans.{intended};

use anyhow::{Context, anyhow, ensure};
use cycle::{Call, Item};
use program::{Program, Told, report};
use scale::{Activation, Netting, Scale};
use std::alloc::{AllocError, Global};
use std::fs;
use std::process::ExitCode;
use std::str::FromStr;

const PROGRAM: Program = Program {
    name: "replay",
    help: "usage: replay [CALLS]

Reads the file `calls` in this folder, or the file named, makes the calls in it
on a fresh cycle, one after the other, and writes one answer to a line: `taken`,
`amount N` or `refused NUMBER LAYER PLACE`. One call stands on each line:

  load FILE                       withdraw BID
  submit FILE                     read area AREA
  revise AREA DEMAND              read border BORDER
  limit BORDER FORWARD BACKWARD   read bid BID

Blank lines, and lines that begin with #, are passed over. Before the first
call, `scale netting` or `scale activation` may stand; without it, the scale is
that of activation.

The status is 0 when every call was made, whatever was refused. Trouble (a line
or a file that can't be read, no memory, wrong arguments): a message on standard
error, nothing on standard output, and status 1.

  --help     writes this text
  --version  writes the version",
    version: "replay 0.1.0",
};

const NO_CALL: &str = "this is no call; see --help";

// The scales that a list can name.
#[derive(Clone, Copy)]
enum Named {
    Activation,
    Netting,
}

// A call that has its bytes with it, where `cycle::Call` lends them: one type for both would make every call generic in how it holds its bytes.
#[derive(Drop)]
enum Planned {
    Load(Vec<u8>),
    Submit(Vec<u8>),
    Revise(usize, i32),
    Limit(usize, u32, u32),
    Withdraw(usize),
    Read(Item),
}

// What a line says.
#[derive(Drop)]
enum Line {
    Scale(Named),
    Call(Planned),
}

// All that a replay needs. Where no line names a scale, it is that of activation.
#[derive(Drop)]
struct Plan {
    scale: Option<Named>,
    calls: Vec<Planned>,
}

fn main(rt: HostRuntime) -> ExitCode {
    match run(&rt) {
        Ok(()) => ExitCode::SUCCESS,
        Err(Told) => ExitCode::FAILURE,
    }
}

// Does what the words ask for: one path, one flag, or nothing.
fn run(rt: &HostRuntime) -> Result<(), Told> {
    let Some(words) = PROGRAM.words(rt)? else {
        return Ok(());
    };
    match words.as_slice() {
        [] => replay(rt, "calls"),
        [path] if !path.is_empty() => replay(rt, path.as_str()),
        _ => Err(PROGRAM.tell(rt, "one file is wanted, or none; see --help")),
    }
}

// Reads the list and all files that it names, makes the calls, and writes the answers.
fn replay(rt: &HostRuntime, path: &str) -> Result<(), Told> {
    let text = fs::read_to_string(rt, path).map_err(|trouble| PROGRAM.tell(
        rt,
        format_args!("{path}: {trouble}"),
    ))?;
    let plan = plan_of(rt, path, text.as_str())?;
    let answers = answers(rt.alloc(), &plan).map_err(|trouble| PROGRAM.tell(rt, trouble))?;
    report(rt, release(rt, answers.as_str()))
}

fn release(rt: &HostRuntime, answers: &str) -> anyhow::Result<()> {
    print!(rt; "{answers}")?;
    Ok(())
}

// The calls of a list, with the files that they name; where a line can't be read, a message that names it.
fn plan_of(rt: &HostRuntime, path: &str, text: &str) -> Result<Plan, Told> {
    let mut plan = Plan {
        scale: None,
        calls: Vec::new(rt.alloc()),
    };
    for (number, line) in (1u64..).zip(text.lines()) {
        plan.take(rt, line).map_err(|trouble| {
            PROGRAM.tell(rt, format_args!("{path}, line {number}: {line}: {trouble}"))
        })?;
    }
    Ok(plan)
}

impl Plan {
    // Adds what a line says. A blank line or a remark is passed over before its words are gathered, which takes memory.
    fn take(&mut self, rt: &HostRuntime, line: &str) -> anyhow::Result<()> {
        let said = line.trim_start();
        if said.is_empty() || said.starts_with('#') {
            return Ok(());
        }
        match understood(rt, said)? {
            Line::Scale(scale) => {
                ensure!(
                    self.scale.is_none() && self.calls.is_empty(),
                    "the scale stands before the first call"
                );
                self.scale = Some(scale);
            }
            Line::Call(call) => self.calls.push(call)?,
        }
        Ok(())
    }
}

// What a line says.
fn understood(rt: &HostRuntime, line: &str) -> anyhow::Result<Line> {
    let words: Vec<&str> = line.split_whitespace().take(5).collect(rt.alloc())?;
    let call = match words.as_slice() {
        ["scale", "activation"] => return Ok(Line::Scale(Named::Activation)),
        ["scale", "netting"] => return Ok(Line::Scale(Named::Netting)),
        ["load", file] => Planned::Load(fs::read(rt, *file)?),
        ["submit", file] => Planned::Submit(fs::read(rt, *file)?),
        ["revise", area, demand] => Planned::Revise(number(area)?, number(demand)?),
        ["limit", border, forward, backward] => {
            Planned::Limit(number(border)?, number(forward)?, number(backward)?)
        }
        ["withdraw", bid] => Planned::Withdraw(number(bid)?),
        ["read", "area", area] => Planned::Read(Item::Area(number(area)?)),
        ["read", "border", border] => Planned::Read(Item::Border(number(border)?)),
        ["read", "bid", bid] => Planned::Read(Item::Bid(number(bid)?)),
        _ => return Err(anyhow!("{NO_CALL}")),
    };
    Ok(Line::Call(call))
}

fn number<N: FromStr>(word: &str) -> anyhow::Result<N>
where
    N::Err: Drop,
{
    word.parse::<N>().ok().context(NO_CALL)
}

// The answers to a plan's calls, as text.
fn answers(heap: Global, plan: &Plan) -> Result<String, AllocError> {
    let calls: Vec<Call> = plan.calls.iter().map(Call::from).collect(heap)?;
    match plan.scale.unwrap_or(Named::Activation) {
        Named::Activation => answers_on::<Activation>(heap, calls.as_slice()),
        Named::Netting => answers_on::<Netting>(heap, calls.as_slice()),
    }
}

// The same call, with its bytes lent.
impl<'a> From<&'a Planned> for Call<'a> {
    ghost from_gives = { λ planned call. sent call ≡ intended planned.now };

    fn from(planned: &'a Planned) -> Self {
        match planned {
            Planned::Load(bytes) => Call::Load(bytes.as_slice()),
            Planned::Submit(bytes) => Call::Submit(bytes.as_slice()),
            Planned::Revise(area, demand) => Call::Revise(*area, *demand),
            Planned::Limit(border, forward, backward) => Call::Limit(*border, *forward, *backward),
            Planned::Withdraw(bid) => Call::Withdraw(*bid),
            Planned::Read(item) => Call::Read(*item),
        }
    }
}

// Makes the calls, and says what each answers, one to a line.
fn answers_on<S: Scale>(heap: Global, calls: &[Call]) -> Result<String, AllocError> {
    let replay = history::replay_calls::<S>(heap, calls)?;
    let mut text = String::new(heap);
    for answer in &replay.answers {
        match answer {
            Ok(None) => writeln!(text, "taken")?,
            Ok(Some(amount)) => writeln!(text, "amount {amount}")?,
            Err(refusal) => writeln!(text, "refused {refusal}")?,
        }
    }
    Ok(text)
}
