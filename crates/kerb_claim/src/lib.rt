// The claims about the kerb report. The functions here run nothing; what they ensure is the claims.
#![tactic(auto)]

ghost use Rattle.kerb_claim.specs.FirstTouch.{FirstTouch};
ghost use Rattle.kerb_claim.specs.Worked.{WorkedReports};

// Claim: the report names the first made step call, and its lowest point, whose move has a point in common with a segment of the kerb; or none has, and the calls end at the last station or at the refusal that it names;
// or it is refused as each such call is, or by the kerb's own runs. There are such calls for any record and any path.
pub fn first_touch()
    ensures { FirstTouch }
{}

// Claim: reports of each kind, and the order of their refusals.
pub fn worked_reports()
    ensures { WorkedReports }
{}
