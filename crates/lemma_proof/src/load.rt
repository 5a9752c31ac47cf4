//! When the reason `load` ends a block.

ghost use Rattle.std.specs.Prelude.{◌≡◌, ◌↔◌, ◌<◌, ◌≤◌, ◌*◌, List, length, IsTrue};
ghost use Rattle.network.specs.declared.parts.Lag.{Lag};
ghost use Rattle.network.specs.Problem.{IsTime, activities, activity_count, demand, resource_count};
ghost use Rattle.lemma_proof.specs.Reasons.{IsLoad, part_of, load_of, TellsWhether};

use crate::weights::Weights;
use network::Project;

/// How long an activity runs in the window at least, in periods.
fn part(project: &Project, weights: &Weights, from: i64, to: i64, activity: usize) -> u64
    requires size { length weights.now.rows ≡ activity_count project.now }
    requires activity { activity < activity_count project.now }
    requires from_time { IsTime from }
    requires to_time { IsTime to }
    ensures value { result ≡ part_of project.now weights.now.rows from to activity }
    ensures small { result ≤ 1_000_000 }
{
    let duration = project.duration(activity);
    let head = weights.get(0, activity);
    let back = weights.get(activity, 0);
    let (Some(head), Some(back)) = (head, back) else {
        return 0;
    };
    let early = duration.min(to - from).min(head + duration - from);
    early.min(to + back).max(0).unsigned_abs()
}

/// What an activity asks of a resource in the window at least.
fn amount(
    project: &Project,
    weights: &Weights,
    resource: usize,
    from: i64,
    to: i64,
    activity: usize,
) -> u64
    requires size { length weights.now.rows ≡ activity_count project.now }
    requires resource { resource < resource_count project.now }
    requires activity { activity < activity_count project.now }
    requires from_time { IsTime from }
    requires to_time { IsTime to }
    ensures value { result ≡ part_of project.now weights.now.rows from to activity * demand project.now resource activity }
    ensures small { result ≤ 1_000_000_000_000 }
{
    let demand = project.demand(resource, activity);
    if demand == 0 {
        return 0;
    }
    part(project, weights, from, to, activity) * demand
}

/// What all activities ask of a resource in the window at least.
fn load(project: &Project, weights: &Weights, resource: usize, from: i64, to: i64) -> u64
    requires size { length weights.now.rows ≡ activity_count project.now }
    requires resource { resource < resource_count project.now }
    requires from_time { IsTime from }
    requires to_time { IsTime to }
    ensures { result ≡ load_of project.now weights.now.rows resource from to (activities project.now) }
{
    let mut total = 0;
    for activity in 0..project.activity_count() {
        total += amount(project, weights, resource, from, to, activity);
    }
    total
}

/// Whether what must run in the window asks for more of the resource than there is in it.
pub fn is_load(project: &Project, weights: &Weights, resource: usize, from: i64, to: i64) -> bool
    requires size { length weights.now.rows ≡ activity_count project.now }
    requires from_time { IsTime from }
    requires to_time { IsTime to }
    ensures { TellsWhether (activity_count project.now) weights.now result
        (λ arcs. IsLoad project.now arcs resource from to) }
{
    if resource >= project.resource_count() {
        return false;
    }
    if from >= to {
        return false;
    }
    let units = (to - from).unsigned_abs();
    units * project.capacity(resource) < load(project, weights, resource, from, to)
}
