// What the verifier says of a case and a proposal, and the listing in a buffer that the caller lends.
ghost use Rattle.std.specs.Prelude.{◌≡◌, OnOk};
ghost use Rattle.layout.specs.CaseBytes.{case_in};
ghost use Rattle.cycle.specs.Calls.{submitted};
ghost use Rattle.cycle.specs.View.{view};
ghost use Rattle.foldureem.specs.Verdicts.{nets, scale_for, judged_answer, answer_for, buffer_after, IfMade, if_made, NothingBeats};

use crate::failure::Failure;
use cycle::Cycle;
use market::Refusal;
use scale::{Activation, Netting, Scale};
use std::alloc::Global;

// Loads the case and submits the proposal, whatever the cycle held before.
pub fn judge_on<S: Scale>(cycle: &mut Cycle<S>, case: &[u8], proposal: &[u8]) -> Result<(), Refusal>
    ensures answer { result ≡ judged_answer S.Scale.meaning case.now proposal.now }
    ensures stands { OnOk result (view cycle.new ≡ submitted (case_in case.now) proposal.now) }
{
    cycle.load(case)?;
    cycle.submit(proposal)
}

// Makes a cycle of the scale, judges, closes and releases into the buffer; says how many bytes the listing has.
// The case and the proposal are no struct, here and below: C and the programs lend each on its own.
pub fn verdict_on<S: Scale>(
    heap: Global,
    case: &[u8],
    proposal: &[u8],
    out: &mut [u8],
) -> Result<usize, Failure>
    ensures answer { IfMade result (λ v. v ≡ answer_for S.Scale.meaning case.now proposal.now out.old) }
    ensures out { out.new ≡ if_made result (buffer_after S.Scale.meaning case.now proposal.now out.old) out.old }
    ensures unbeaten { OnOk result (NothingBeats S.Scale.meaning case.now proposal.now) }
{
    let mut cycle = Cycle::<S>::new(heap)?;
    judge_on(&mut cycle, case, proposal)?;
    Ok(cycle.close().release(out)?)
}

// Does the proposal ask for the netting scale?
pub fn nets_only(proposal: &[u8]) -> bool
    ensures { result ≡ nets proposal.now }
{
    matches!(proposal.get(28..32), Some([1, 0, 0, 0]))
}

// The verdict on the scale that the proposal is for.
pub fn verdict(heap: Global, case: &[u8], proposal: &[u8], out: &mut [u8]) -> Result<usize, Failure>
    ensures answer { IfMade result (λ v. v ≡ answer_for (scale_for proposal.now) case.now proposal.now out.old) }
    ensures out { out.new ≡ if_made result (buffer_after (scale_for proposal.now) case.now proposal.now out.old) out.old }
    ensures unbeaten { OnOk result (NothingBeats (scale_for proposal.now) case.now proposal.now) }
{
    if nets_only(proposal) {
        verdict_on::<Netting>(heap, case, proposal, out)
    } else {
        verdict_on::<Activation>(heap, case, proposal, out)
    }
}
