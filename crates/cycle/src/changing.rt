// What changes in a cycle: its case, and what stands.
ghost use Rattle.std.specs.Prelude.{◌≡◌, Some, Err};
ghost use Rattle.std.specs.Fn.{FnOnceReturnsAtMut};
ghost use Rattle.market.specs.Held.{held};
ghost use Rattle.market.specs.Selections.{WithinLimits};
ghost use Rattle.layout.specs.Sections.{selection_held};
ghost use Rattle.cycle.specs.Calls.{after, changed};
ghost use Rattle.cycle.specs.View.{state_of};

use crate::holdings::Holdings;
use layout::Proposal;
use market::{Book, Refusal};
use std::mem;

impl Holdings {
    // Changes the book: a taken change ends what stood, and a refused one leaves the case and what stood.
    pub(crate) fn change<F: FnOnce(&mut Book) -> Result<(), Refusal>>(
        &mut self,
        change: F,
    ) -> Result<(), Refusal>
        requires callable { F.IsAlwaysCallable change }
        requires refused { (before : _) (refusal : _) (later : _) → F.post change before (Err refusal) later → held later.now ≡ held before.now }
        ensures answer { FnOnceReturnsAtMut F.FnOnce change self.old.book result self.new.book }
        ensures after { state_of self.new ≡ after result (state_of self.old) (changed (held self.new.book)) }
    {
        // Nothing stands while the book changes, so what stands is within the limits at every moment.
        let stood = mem::replace(&mut self.stands, false);
        if let Err(refusal) = change(&mut self.book) {
            self.stands = stood;
            return Err(refusal);
        }
        Ok(())
    }

    // From now on the selection of the proposal stands.
    #[tactic(auto, using(crate::proofs::Submitted::few_within))]
    pub(crate) fn stand(&mut self, proposal: &Proposal)
        requires { ∥ WithinLimits (held self.old.book) (selection_held proposal.now) ∥₁ }
        ensures { state_of self.new ≡ record { case = held self.old.book; standing = Some (selection_held proposal.now) } }
    {
        layout::keep(&mut self.amounts, proposal);
        self.stands = true;
    }
}
