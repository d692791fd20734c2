// The worked cases of document 01. The function here runs nothing; what it ensures is the claim.
#![tactic(auto)]

ghost use Rattle.worked.specs.Worked.{WorkedRows};

// Claim: every row of the list of worked cases holds of the definitions that the contracts cite, and there are eleven.
pub fn worked_rows()
    ensures { WorkedRows }
{}
