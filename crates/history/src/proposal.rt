// What a proposal is and how it is asked about, as theorems. The functions compute nothing.
ghost use Rattle.history.specs.Proposals.{OneProposal};
ghost use Rattle.history.specs.Questions.{SubmitInOrder};

use scale::Scale;

// A selection within the limits and prices in range make exactly one proposal.
pub fn one_proposal<S: Scale>()
    ensures { OneProposal S.Scale.meaning }
{}

// A submit is taken exactly if all its questions pass, and a refusal names the first that fails, at its first place.
#[tactic(auto, using(crate::proofs::Questions::submit_in_order))]
pub fn submit_asks_in_order<S: Scale>()
    ensures { SubmitInOrder S.Scale.meaning }
{}
