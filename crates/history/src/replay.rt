// Replaying a list of calls on a fresh cycle.
ghost use Rattle.std.specs.Prelude.{◌≡◌, ◌≤◌, [], length, IfOk};
ghost use Rattle.history.specs.Histories.{Kept};
ghost use Rattle.history.specs.Replayed.{history_of, state_after};
ghost use Rattle.cycle.specs.View.{view};

use cycle::{Answer, Call, Cycle};
use scale::Scale;
use std::alloc::{AllocError, Global};

// The cycle after a replay, and the answer to each call in turn.
#[derive(Drop)]
pub struct Replay<S> {
    pub cycle: Cycle<S>,
    pub answers: Vec<Answer>,
}

// Makes the calls on a fresh cycle, one after the other; or no memory for the cycle and the answers.
pub fn replay_calls<S: Scale>(heap: Global, calls: &[Call]) -> Result<Replay<S>, AllocError>
    ensures one_for_each { IfOk result (λ x. length x.answers.items ≡ length calls.now) }
    ensures state { IfOk result (λ x. view x.cycle ≡ state_after (history_of [] calls.now x.answers.items)) }
    ensures kept { IfOk result (λ x. Kept S.Scale.meaning (history_of [] calls.now x.answers.items)) }
{
    let mut cycle = Cycle::<S>::new(heap)?;
    let mut answers = Vec::with_capacity(heap, calls.len())?;
    // A loop: `collect` says nothing of the cycle that its chain has changed.
    for call in calls {
        answers.push_reserved(cycle.make(*call));
    }
    Ok(Replay { cycle, answers })
}
