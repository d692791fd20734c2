// Conventions of documents 01 and 02 that no law fixes. The function here runs nothing; what it ensures is the claim.
#![tactic(auto)]

ghost use Rattle.conventions.specs.Conventions.{Conventions};

// Claim: every row of the list of conventions holds of the definitions that the contracts cite.
pub fn convention_rows()
    ensures { Conventions }
{}
