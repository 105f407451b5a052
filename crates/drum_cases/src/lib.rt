// The drum task's worked cases, as one statement about the definitions.
#![tactic(auto)]

ghost use Rattle.drum_cases.specs.Drum.{DrumTask};

// Its conflict edges, rows and columns, and what judge answers to its certificate and to six others.
pub fn judged_as_stated() -> bool
    ensures { DrumTask }
{
    true
}
