// The claims about whole walks. The functions here run nothing; what they ensure is the claim.
#![tactic(auto)]

ghost use Rattle.claim.specs.DemandThree.{DemandThree};
ghost use Rattle.claim.specs.LaidPasses.{LaidPasses};
ghost use Rattle.claim.specs.NeverWritten.{NeverWritten};
ghost use Rattle.claim.specs.PremisesMet.{PremisesMet};
ghost use Rattle.claim.specs.StationHistory.{StationHistory};
ghost use Rattle.claim.specs.WholeRun.{WholeRun};
ghost use Rattle.claim.specs.WidestHistory.{WidestHistory};

// Claim: over any list of step calls after an accepted placement the answers and the record are the drawn rig's, lengths never drift, and every drawn unit stays near the rigid one.
pub fn demand_three()
    ensures { DemandThree }
{}

// Claim: after an accepted placement and any calls, refused ones of any kind among them, each station has a bit for just the points that crossed it in a made step, and the least and greatest of the reaches that entered.
pub fn station_history()
    ensures { StationHistory }
{}

// Claim: after an accepted placement and any calls, `widest` answers the station that the whole rig has crossed with the greatest right less left, the lowest number among equals, told from the drawn rig's moves;
// 24 exactly where there is none, and nothing else; a finished run tells the same of its own walk.
pub fn widest_history()
    ensures { WidestHistory }
{}

// Claim: a whole job is laying, placing and step calls until one is refused: the seven runs, the answer, the steps counted and the step named.
pub fn whole_run()
    ensures { WholeRun }
{}

// Claim: no step call touches the bits of a mark above those of the rig's points, which placement and a run clear; laying, placing, stepping and a run write no entry past the stations asked for, and every run keeps its length.
pub fn never_written()
    ensures { NeverWritten }
{}

// Claim: 26 never answers on what was laid: its stations pass the test that answers it, and no placement or step over them is refused by that number.
pub fn laid_passes()
    ensures { LaidPasses }
{}

// Claim: what the claims over calls ask can be met: every entry answers whatever it is handed, any list of step calls can follow any record, the calls of a run that is not refused are there, and some have made steps and refused ones.
pub fn premises_met()
    ensures { PremisesMet }
{}
