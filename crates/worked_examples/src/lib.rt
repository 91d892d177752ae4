// The worked examples of the rules, proved of the definitions (rules 18).
#![tactic(auto)]

ghost use Rattle.worked_examples.specs.CaseTable.{WorkedCases};

/// Every case of the table holds: its steps write exactly its lines and leave exactly its records.
pub fn worked_cases()
    ensures { WorkedCases }
{}
