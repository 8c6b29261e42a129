// Worked examples of the definitions, as one table that the checker computes.
#![tactic(auto)]

ghost use Rattle.specimens.specs.Table.{SpecimensHold};

/// The definitions give what every specimen of the table says.
pub fn specimens_hold()
    ensures { SpecimensHold }
{}
