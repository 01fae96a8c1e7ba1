// Worked recordings, as one theorem over the definitions.
#![tactic(auto)]

ghost use Rattle.worked.specs.Table.{Worked};

// Each recording of the table comes out as it says.
pub fn worked_recordings()
    ensures { Worked }
{}
