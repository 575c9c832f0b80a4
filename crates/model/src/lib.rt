// The unit, defined: the types that code and theory share, with what each call does. The definitions are in specs/, read
// next to docs/unit.md; no call is carried out here.

#![tactic(auto)]

ghost use Rattle.model.specs.Examples.{WorkedRun, WriteRun};

pub mod call;
pub mod refusal;
pub mod registers;
pub mod translation;

// Two runs worked out by the definitions: one with whether its kept translation is current after each of two further
// writes, and one that writes through what is kept. It is there for its contract.
pub fn worked_runs_stand()
    ensures reading { WorkedRun }
    ensures writing { WriteRun }
{}
