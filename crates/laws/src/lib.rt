// What holds of every run of the unit, proved of its definitions.

#![tactic(auto)]

ghost use Rattle.entry.specs.Layout.{DistinctFrames, Layout, Lawful};
ghost use Rattle.entry.specs.NS32382.{ns32382};
ghost use Rattle.laws.specs.RunLaws.{RunLaws};

// It is there for its contract: the laws of runs, for every lawful layout that tells frames apart, and so for the
// NS32382.
pub fn run_laws_stand()
    ensures every { (l : Layout) → Lawful l → DistinctFrames l → RunLaws l }
    ensures ours { RunLaws ns32382 }
{}
