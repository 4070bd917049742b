// The two functions that C calls, each over the one of `foldureem` with the same clauses: a crate is either a library, as `verify` needs one, or a static library. Nothing checks a C declaration against them: foldureem.h is written by hand.
#![tactic(auto)]

ghost use Rattle.std.specs.Prelude.{◌≡◌};
ghost use Rattle.foldureem.specs.Verdicts.{scale_for, NothingBeats};
ghost use Rattle.foldureem.specs.Told.{Answered, Tallied};

use foldureem::FoldureemVerdict;
use std::alloc::Global;

// Judges the proposal on the scale that it is for, and puts the listing into `out` where it is taken.
#[unsafe(no_mangle)]
pub extern "C" fn foldureem_verify(
    heap: Global,
    case: &[u8],
    proposal: &[u8],
    out: &mut [u8],
    verdict: &mut FoldureemVerdict,
)
    ensures answered { Answered case.now proposal.now out.old verdict.new out.new }
    ensures unbeaten { verdict.new.number ≡ 0 → NothingBeats (scale_for proposal.now) case.now proposal.now }
{
    foldureem::foldureem_verify(heap, case, proposal, out, verdict)
}

// How many of many pairs of a case and a proposal are taken, on cycles that are made once; the largest number where there was no memory.
#[unsafe(no_mangle)]
pub extern "C" fn foldureem_count(heap: Global, files: &[u8], ends: &[usize]) -> usize
    ensures tallied { Tallied files.now ends.now result }
{
    foldureem::foldureem_count(heap, files, ends)
}
