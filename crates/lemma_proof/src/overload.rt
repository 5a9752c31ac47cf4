//! When the arcs of a block have an overload.

ghost use Rattle.std.specs.Prelude.{◌≡◌, ◌↔◌, List, ◌∷◌, [], length, IsTrue};
ghost use Rattle.network.specs.declared.parts.Lag.{Lag};
ghost use Rattle.network.specs.Problem.{activity_count, NameActivities};
ghost use Rattle.lemma_proof.specs.Reasons.{EndsAfterStart, TellsWhether};
ghost use Rattle.lemma_proof.specs.Lines.{IsArc, IsOverload, IsWindow};

use crate::line::WindowOverload;
use crate::{LemmaSlots, MAX_ARC_WEIGHT, Weights, is_clique, is_load, is_tour, joins_activities};
use network::{Lag, MAX_START, Pair, Project};

/// Whether both ends of a window are times.
fn is_window(from: i64, to: i64) -> bool
    ensures { IsTrue result ↔ IsWindow from to }
{
    -MAX_START <= from && from <= MAX_START && -MAX_START <= to && to <= MAX_START
}

/// Whether an arc is one between activities, with a weight within the limits.
pub(crate) fn is_arc(project: &Project, arc: Lag) -> bool
    ensures { IsTrue result ↔ IsArc project.now arc }
{
    -MAX_ARC_WEIGHT <= arc.weight && arc.weight <= MAX_ARC_WEIGHT && joins_activities(project, arc)
}

/// Whether the second of a pair can't come first.
pub(crate) fn is_late(project: &Project, weights: &Weights, pair: Pair) -> bool
    requires size { length weights.now.rows ≡ activity_count project.now }
    requires pair { NameActivities project.now (pair ∷ []) }
    ensures { TellsWhether (activity_count project.now) weights.now result
        (λ arcs. EndsAfterStart project.now arcs pair.after pair.before) }
{
    weights.implies(Lag {
        from: pair.before,
        to: pair.after,
        weight: 1 - project.duration(pair.after),
    })
}

/// Whether the arcs have the overload.
pub(crate) fn is_overload(
    project: &Project,
    weights: &Weights,
    lemmas: &LemmaSlots,
    over: &WindowOverload,
) -> bool
    requires { length weights.now.rows ≡ activity_count project.now }
    ensures { TellsWhether (activity_count project.now) weights.now result
        (λ arcs. IsOverload project.now lemmas.now arcs over.now) }
{
    match over {
        WindowOverload::Load { resource, from, to } => {
            is_window(*from, *to) && is_load(project, weights, *resource, *from, *to)
        }
        WindowOverload::Clique { from, to, members } => {
            is_window(*from, *to) && is_clique(project, weights, *from, *to, members.as_slice())
        }
        WindowOverload::Tour {
            from,
            to,
            intervals,
        } => {
            let intervals = intervals.as_slice();
            is_window(*from, *to) && is_tour(project, weights, lemmas, *from, *to, intervals)
        }
    }
}
