//! An arc of a lemma, and its reverse.

ghost use Rattle.std.specs.Prelude.{◌≡◌, ◌↔◌, IsTrue};
ghost use Rattle.network.specs.Problem.{IsWithin};
ghost use Rattle.lemma_proof.specs.Reasons.{JoinsActivities, reverse_of};
ghost use Rattle.lemma_proof.specs.declared.weights.TheConstants.{MAX_ARC_WEIGHT};

use network::{Lag, Project};

/// Whether both ends of an arc are activities.
pub fn joins_activities(project: &Project, arc: Lag) -> bool
    ensures { IsTrue result ↔ JoinsActivities project.now arc }
{
    let count = project.activity_count();
    arc.from < count && arc.to < count
}

/// The arc that is met where this one isn't.
pub fn reverse_of(arc: Lag) -> Lag
    requires { IsWithin MAX_ARC_WEIGHT arc.weight }
    ensures { result ≡ reverse_of arc }
{
    Lag {
        from: arc.to,
        to: arc.from,
        weight: 1 - arc.weight,
    }
}
