// What the layout promises, as theorems.
ghost use Rattle.layout.specs.Exact.{CaseLayout, ProposalLayout};
ghost use Rattle.layout.specs.InOrder.{QuestionsInOrder};

// The bytes that are taken as a case are those that write a valid case, one for one.
pub fn case_layout()
    ensures { CaseLayout }
{}

// The bytes that are taken as a proposal are those that write a selection and its prices, one for one.
pub fn proposal_layout()
    ensures { ProposalLayout }
{}

// A yes says that every question passes, and a no names the first that fails, at its first place.
pub fn questions_in_order()
    ensures { QuestionsInOrder }
{}
