// verify: reads a case and a proposal, judges the proposal, and writes the listing of what then stands, or why it is refused.
#![tactic(auto)]

use foldureem::{Failure, verdict};
use listing::ROOM;
use program::{Program, Told, report};
use std::alloc::{AllocError, Global};
use std::fs;
use std::io::Write;
use std::process::ExitCode;

const PROGRAM: Program = Program {
    name: "verify",
    help: "usage: verify [CASE PROPOSAL]

Reads the files `case` and `proposal` in this folder, or the two files named,
and takes the proposal only if its prices show that nothing beats its selection.

Taken:   writes the listing and ends with status 0.
Refused: writes `refused NUMBER LAYER PLACE` and ends with status 1.
Trouble (a file that can't be read, no memory, wrong arguments): a message on
standard error, nothing on standard output, and status 1.

  --help     writes this text
  --version  writes the version",
    version: "verify 0.1.0",
};

fn main(rt: HostRuntime) -> ExitCode {
    run(&rt).unwrap_or(ExitCode::FAILURE)
}

// Does what the words ask for: two paths, one flag, or nothing.
fn run(rt: &HostRuntime) -> Result<ExitCode, Told> {
    let Some(words) = PROGRAM.words(rt)? else {
        return Ok(ExitCode::SUCCESS);
    };
    match words.as_slice() {
        [] => verify(rt, "case", "proposal"),
        [case, proposal] if !case.is_empty() && !proposal.is_empty() => {
            verify(rt, case.as_str(), proposal.as_str())
        }
        _ => Err(PROGRAM.tell(rt, "two files are wanted, or none; see --help")),
    }
}

// Reads both files, and writes the verdict. A refusal is no trouble, but its status is that of a failure.
fn verify(rt: &HostRuntime, case: &str, proposal: &str) -> Result<ExitCode, Told> {
    let case = read(rt, case)?;
    let proposal = read(rt, proposal)?;
    let mut listing = report(rt, room(rt.alloc()))?;
    match verdict(
        rt.alloc(),
        case.as_slice(),
        proposal.as_slice(),
        listing.as_mut_slice(),
    ) {
        Ok(length) => {
            listing.truncate(length);
            report(rt, release(rt, listing.as_slice()))?;
            Ok(ExitCode::SUCCESS)
        }
        Err(Failure::Refused(refusal)) => {
            report(rt, println!(rt; "refused {refusal}"))?;
            Ok(ExitCode::FAILURE)
        }
        // Told in the words of the language's own error.
        Err(Failure::OutOfMemory) => report(rt, Err(AllocError)),
    }
}

// Room for any listing. It is lent, since the same call serves C.
fn room(heap: Global) -> Result<Vec<u8>, AllocError> {
    vec![in heap; 0u8; ROOM]
}

// A whole file; where it can't be read, a message that names it.
fn read(rt: &HostRuntime, path: &str) -> Result<Vec<u8>, Told> {
    fs::read(rt, path).map_err(|trouble| PROGRAM.tell(rt, format_args!("{path}: {trouble}")))
}

// Bytes, where `replay` prints text: what is told of a pipe that breaks differs.
fn release(rt: &HostRuntime, listing: &[u8]) -> anyhow::Result<()> {
    rt.stdout().write_all(listing)?;
    Ok(())
}
