// What the two functions that C calls do; the crate `foldureem_c` exports them.
ghost use Rattle.std.specs.Prelude.{◌≡◌};
ghost use Rattle.foldureem.specs.Verdicts.{scale_for, NothingBeats};
ghost use Rattle.foldureem.specs.Told.{told_if, Answered, Tallied};

use crate::failure::Failure;
use crate::judging::verdict as judged;
use crate::many::count;
use crate::told::FoldureemVerdict;
use std::alloc::Global;

// C has no enum with a value in it, so an answer is told by numbers. No `From` leads from `usize` to `u64`, and nothing is cut off.
impl From<Result<usize, Failure>> for FoldureemVerdict {
    ghost from_gives = { λ answer verdict. verdict ≡ told_if answer };

    fn from(answer: Result<usize, Failure>) -> Self {
        match answer {
            Ok(length) => FoldureemVerdict {
                number: 0,
                layer: 0,
                place: 0,
                length: length as u64,
            },
            Err(Failure::Refused(refusal)) => FoldureemVerdict {
                number: u32::from(refusal.number()),
                layer: u32::from(refusal.layer()),
                place: refusal.place() as u64,
                length: 0,
            },
            Err(Failure::OutOfMemory) => FoldureemVerdict {
                number: u32::MAX,
                layer: 0,
                place: 0,
                length: 0,
            },
        }
    }
}

// Judges the proposal on the scale that it is for, and puts the listing into `out` where it is taken.
pub fn foldureem_verify(
    heap: Global,
    case: &[u8],
    proposal: &[u8],
    out: &mut [u8],
    verdict: &mut FoldureemVerdict,
)
    ensures answered { Answered case.now proposal.now out.old verdict.new out.new }
    ensures unbeaten { verdict.new.number ≡ 0 → NothingBeats (scale_for proposal.now) case.now proposal.now }
{
    *verdict = judged(heap, case, proposal, out).into();
}

// How many of many pairs of a case and a proposal are taken, on cycles that are made once; the largest number where there was no memory, since C has no `Result`.
// C lends all files in one buffer, and where each ends in another.
pub fn foldureem_count(heap: Global, files: &[u8], ends: &[usize]) -> usize
    ensures tallied { Tallied files.now ends.now result }
{
    count(heap, files, ends).unwrap_or(usize::MAX)
}
