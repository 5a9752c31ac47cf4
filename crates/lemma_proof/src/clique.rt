//! When the reason `clique` ends a block.

ghost use Rattle.std.specs.Prelude.{◌≡◌, ◌↔◌, ◌<◌, List, length, unsigned_abs, IsTrue};
ghost use Rattle.std.specs.List.{All, AllPairs, sum_by};
ghost use Rattle.network.specs.declared.parts.Lag.{Lag};
ghost use Rattle.network.specs.Problem.{IsTime, activity_count, duration};
ghost use Rattle.schedule_check.specs.Members.{AreMembers};
ghost use Rattle.lemma_proof.specs.Reasons.{RunsWithin, StartsAfterEnd, RunApart, IsClique, TellsWhether};

use crate::weights::Weights;
use forbidden_sets::are_incompatible;
use network::{Lag, Pair, Project};
use schedule_check::are_members;

/// Whether the second activity starts once the first has ended.
fn starts_after_end(project: &Project, weights: &Weights, first: usize, second: usize) -> bool
    requires size { length weights.now.rows ≡ activity_count project.now }
    requires first { first < activity_count project.now }
    requires second { second < activity_count project.now }
    ensures { TellsWhether (activity_count project.now) weights.now result
        (λ arcs. StartsAfterEnd project.now arcs first second) }
{
    weights.implies(Lag {
        from: first,
        to: second,
        weight: project.duration(first),
    })
}

/// Whether two activities don't run at the same time.
fn run_apart(project: &Project, weights: &Weights, one: usize, other: usize) -> bool
    requires size { length weights.now.rows ≡ activity_count project.now }
    requires one { one < activity_count project.now }
    requires other { other < activity_count project.now }
    ensures { TellsWhether (activity_count project.now) weights.now result
        (λ arcs. RunApart project.now arcs one other) }
{
    let pair = Pair {
        before: one,
        after: other,
    };
    if are_incompatible(project, pair) {
        return true;
    }
    if starts_after_end(project, weights, one, other) {
        return true;
    }
    starts_after_end(project, weights, other, one)
}

/// Whether none of these activities runs at the same time as this one.
fn all_run_apart(project: &Project, weights: &Weights, others: &[usize], activity: usize) -> bool
    requires size { length weights.now.rows ≡ activity_count project.now }
    requires others { All (λ i. i < activity_count project.now) others.now }
    requires activity { activity < activity_count project.now }
    ensures { TellsWhether (activity_count project.now) weights.now result
        (λ arcs. All (λ i. RunApart project.now arcs i activity) others.now) }
{
    for other in others {
        if !run_apart(project, weights, *other, activity) {
            return false;
        }
    }
    true
}

/// Whether the members run one at a time.
fn run_one_at_a_time(project: &Project, weights: &Weights, members: &[usize]) -> bool
    requires size { length weights.now.rows ≡ activity_count project.now }
    requires members { AreMembers project.now members.now }
    ensures { TellsWhether (activity_count project.now) weights.now result
        (λ arcs. AllPairs (RunApart project.now arcs) members.now) }
{
    for place in 0..members.len() {
        if !all_run_apart(project, weights, &members[..place], members[place]) {
            return false;
        }
    }
    true
}

/// Whether an activity runs within the window, whenever it starts.
fn runs_within(project: &Project, weights: &Weights, from: i64, to: i64, activity: usize) -> bool
    requires size { length weights.now.rows ≡ activity_count project.now }
    requires activity { activity < activity_count project.now }
    requires time { IsTime to }
    ensures { TellsWhether (activity_count project.now) weights.now result
        (λ arcs. RunsWithin project.now arcs from to activity) }
{
    let late = Lag {
        from: 0,
        to: activity,
        weight: from,
    };
    if !weights.implies(late) {
        return false;
    }
    let early = Lag {
        from: activity,
        to: 0,
        weight: project.duration(activity) - to,
    };
    weights.implies(early)
}

/// Whether all members run within the window.
fn all_run_within(
    project: &Project,
    weights: &Weights,
    from: i64,
    to: i64,
    members: &[usize],
) -> bool
    requires size { length weights.now.rows ≡ activity_count project.now }
    requires members { AreMembers project.now members.now }
    requires time { IsTime to }
    ensures { TellsWhether (activity_count project.now) weights.now result
        (λ arcs. All (RunsWithin project.now arcs from to) members.now) }
{
    for member in members {
        if !runs_within(project, weights, from, to, *member) {
            return false;
        }
    }
    true
}

/// How long the members take together.
fn total_duration(project: &Project, members: &[usize]) -> u64
    requires { AreMembers project.now members.now }
    ensures value { result ≡ sum_by (λ i. unsigned_abs (duration project.now i)) members.now }
    ensures small { result < 2_000_000_000 }
{
    prove!(project.activity_count() >= 2);
    let mut total = 0;
    for member in members {
        total += project.duration(*member).unsigned_abs();
    }
    total
}

/// Whether the members run one at a time, all within the window, and take longer than it is.
pub fn is_clique(
    project: &Project,
    weights: &Weights,
    from: i64,
    to: i64,
    members: &[usize],
) -> bool
    requires size { length weights.now.rows ≡ activity_count project.now }
    requires from_time { IsTime from }
    requires to_time { IsTime to }
    ensures { TellsWhether (activity_count project.now) weights.now result
        (λ arcs. IsClique project.now arcs from to members.now) }
{
    if members.len() < 2 {
        return false;
    }
    if !are_members(project, members) {
        return false;
    }
    if !all_run_within(project, weights, from, to, members) {
        return false;
    }
    if !run_one_at_a_time(project, weights, members) {
        return false;
    }
    to < from + total_duration(project, members) as i64
}
