//! What holds of the arcs that lines refute.

ghost use Rattle.lemma_proof.specs.Lines.{NoneMeetsRefuted, StayRefuted};

/// Laws over the definitions. No feasible schedule meets arcs that are refuted. Arcs that lines refute stay so beside
/// more arcs, and beside other lemmas that have those which the lines use, and say the delays.
pub fn refuted_law()
    ensures unmet { NoneMeetsRefuted }
    ensures stay { StayRefuted }
{}
