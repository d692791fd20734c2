// The claim about unused entries. The function here runs nothing; what it ensures is the claim.
#![tactic(auto)]

ghost use Rattle.unused.specs.Unused.{Unused};

// Claim: jobs that agree on everything but unused units, unused elements and a short job's bodies have the same faults, bytes, stations, placements, steps, widest places, runs and listed settings.
pub fn unused_entries()
    ensures { Unused }
{}
