// Worked cases: what the rules answer to proposals that can be checked by hand.
#![tactic(auto)]

ghost use Rattle.worked.specs.Cases.{WorkedCases};

// Computes nothing: its contract is the table.
pub fn worked_cases()
    ensures every_row { WorkedCases }
{}
