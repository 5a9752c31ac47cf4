//! The rivals of each activity.

ghost use Rattle.std.specs.Prelude.{◌↔◌, IsTrue, [], ◌∷◌, ◌<◌, IfOk};
ghost use Rattle.network.specs.Problem.{NameActivities, activity_count};
ghost use Rattle.forbidden_sets.specs.Incompatible.{AreIncompatible, ExceedSome, AllIncompatible, pairs_before, AreAllRivals, AreRowsOf};

use network::{Pair, Project};
use std::alloc::{AllocError, Global};

/// Whether both together ask for more of some resource than there is.
fn exceed_some(project: &Project, pair: Pair) -> bool
    requires { NameActivities project.now (pair ∷ []) }
    ensures { IsTrue result ↔ ExceedSome project.now pair }
{
    for resource in 0..project.resource_count() {
        let joint = project.demand(resource, pair.before) + project.demand(resource, pair.after);
        if joint > project.capacity(resource) {
            return true;
        }
    }
    false
}

/// Whether the two are different activities that can't run at the same time. Both take time, and together they need
/// more of some resource than there is.
pub fn are_incompatible(project: &Project, pair: Pair) -> bool
    ensures { IsTrue result ↔ AreIncompatible project.now pair }
{
    let count = project.activity_count();
    if pair.before >= count || pair.after >= count {
        return false;
    }
    if pair.before == pair.after {
        return false;
    }
    let first = project.duration(pair.before);
    let second = project.duration(pair.after);
    if first <= 0 {
        return false;
    }
    if second <= 0 {
        return false;
    }
    exceed_some(project, pair)
}

/// An activity, and the others that can't run at the same time as it, by rising numbers.
#[derive(Drop, Debug)]
pub struct Incompatible {
    pub activity: usize,
    pub others: Vec<usize>,
}

/// The activities that can't run at the same time as this one.
fn incompatible_with(
    alloc: Global,
    project: &Project,
    activity: usize,
) -> Result<Vec<usize>, AllocError>
    requires { activity < activity_count project.now }
    ensures rivals { IfOk result (λ others. AllIncompatible project.now (pairs_before activity others.items)) }
    ensures whole { IfOk result (λ others. AreAllRivals project.now activity others.items) }
{
    let mut others = Vec::new(alloc);
    for other in 0..project.activity_count() {
        let pair = Pair {
            before: activity,
            after: other,
        };
        if are_incompatible(project, pair) {
            others.push(other)?;
        }
    }
    Ok(others)
}

/// The activities that can't run at the same time as some other, by rising numbers.
pub fn incompatible_activities(
    alloc: Global,
    project: &Project,
) -> Result<Vec<Incompatible>, AllocError>
    ensures { IfOk result (λ rows. AreRowsOf project.now rows.items) }
{
    let mut rows = Vec::new(alloc);
    for activity in 0..project.activity_count() {
        let others = incompatible_with(alloc, project, activity)?;
        if !others.is_empty() {
            rows.push(Incompatible { activity, others })?;
        }
    }
    Ok(rows)
}
