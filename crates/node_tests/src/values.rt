//! Bounds of small projects.

ghost use Rattle.std.specs.Prelude.{◌<◌, IsTrue, IfOk};
ghost use Rattle.network.specs.Problem.{resource_count, NameActivities};
ghost use Rattle.bounds.specs.Bound.{IsMatrixFor};

use crate::projects::{lag, one_machine, pair, three_on_two, two_between, with_one_resource};
use bounds::{bound, critical, energy};
use longest_path::{Matrix, PathFault, heads, longest, tails};
use network::{Pair, Project};
use std::alloc::{AllocError, Global};
use std::process::Abort;
use std::test::Fail;

/// Whether both activities of each pair are there.
fn are_named(project: &Project, pairs: &[Pair]) -> bool
    ensures { IsTrue result → NameActivities project.now pairs.now }
{
    let count = project.activity_count();
    pairs
        .iter()
        .all(|pair| pair.before < count && pair.after < count)
}

/// The matrix of a project and pairs.
fn matrix_of(alloc: Global, project: &Project, pairs: &[Pair]) -> Result<Matrix, PathFault>
    requires { NameActivities project.now pairs.now }
    ensures { IfOk result (λ matrix. IsMatrixFor project.now matrix) }
{
    prove!(project.activity_count() >= 2);
    longest(alloc, project, pairs)
}

/// The work between a and b for a resource, none where no activity lies between.
fn work_between(
    project: &Project,
    resource: usize,
    heads: &[i64],
    tails: &[i64],
    a: i64,
    b: i64,
) -> Option<u64>
    requires { resource < resource_count project.now }
{
    let mut sum = None;
    for activity in 0..project.activity_count() {
        let starts_late = heads.get(activity).is_some_and(|head| a <= *head);
        let ends_early = tails.get(activity).is_some_and(|tail| b <= *tail);
        if starts_late && ends_early {
            let duration = project.duration(activity).unsigned_abs();
            let work = duration.saturating_mul(project.demand(resource, activity));
            sum = Some(work.saturating_add(sum.unwrap_or(0)));
        }
    }
    sum
}

/// The energy value by plain loops over heads, tails and activities.
fn plain_energy(project: &Project, heads: &[i64], tails: &[i64]) -> u64 {
    let mut greatest = 0;
    for resource in 0..project.resource_count() {
        let capacity = project.capacity(resource);
        for a in heads {
            for b in tails {
                let work = work_between(project, resource, heads, tails, *a, *b);
                if let Some(work) = work
                    && capacity > 0
                {
                    let ends = a.saturating_add(*b).unsigned_abs();
                    greatest = greatest.max(ends.saturating_add(work.div_ceil(capacity)));
                }
            }
        }
    }
    greatest
}

/// The energy value of a matrix by plain loops.
fn energy_by_loops(alloc: Global, project: &Project, matrix: &Matrix) -> Result<u64, AllocError>
    requires { IsMatrixFor project.now matrix.now }
{
    let heads = heads(alloc, matrix)?;
    let tails = tails(alloc, project, matrix)?;
    Ok(plain_energy(project, &heads, &tails))
}

/// The critical weight, the energy value and the bound of a matrix. The energy value has to be that of the plain loops.
fn values_of(
    rt: &impl Abort,
    alloc: Global,
    project: &Project,
    matrix: &Matrix,
) -> Result<[i64; 3], Fail>
    requires { IsMatrixFor project.now matrix.now }
{
    let by_loops = energy_by_loops(alloc, project, matrix)?;
    let energy = energy(alloc, project, matrix)?;
    assert_eq!(rt; energy.unsigned_abs(), by_loops);
    Ok([critical(matrix), energy, bound(alloc, project, matrix)?])
}

/// The values with pairs, none where a closed walk has positive weight.
fn values(
    rt: &impl Abort,
    alloc: Global,
    project: &Project,
    pairs: &[Pair],
) -> Result<Option<[i64; 3]>, Fail> {
    assert!(rt; are_named(project, pairs));
    match matrix_of(alloc, project, pairs) {
        Ok(matrix) => Ok(Some(values_of(rt, alloc, project, &matrix)?)),
        Err(PathFault::PositiveCycle { at: _ }) => Ok(None),
        Err(PathFault::Memory) => Err(Fail::from(AllocError)),
    }
}

/// The project of a name.
fn project_of(alloc: Global, name: &str) -> Result<Project, Fail> {
    match name {
        "two between" => two_between(alloc),
        "three on two" => three_on_two(alloc),
        "no capacity" => with_one_resource(alloc, &[0, 1, 0], &[0, 0, 0], 0, &[]),
        _ => one_machine(alloc, &[]),
    }
}

/// That a project has these values with pairs.
fn assert_values(
    rt: &impl Abort,
    alloc: Global,
    project: &Project,
    pairs: &[Pair],
    wanted: [i64; 3],
) -> Result<(), Fail> {
    assert_eq!(rt; values(rt, alloc, project, pairs)?, Some(wanted));
    Ok(())
}

/// That the project of a name has these values with a pair, and with another that adds nothing.
fn assert_row(
    rt: &impl Abort,
    alloc: Global,
    name: &str,
    none: Pair,
    pair: Pair,
    wanted: [i64; 3],
) -> Result<(), Fail> {
    let project = project_of(alloc, name)?;
    if pair == none {
        assert_values(rt, alloc, &project, &[], wanted)?;
    }
    assert_values(rt, alloc, &project, &[pair], wanted)?;
    assert_values(rt, alloc, &project, &[none, pair], wanted)
}

#[test]
fn bounds_of_projects(rt: HostRuntime) -> Result<(), Fail> {
    let alloc = rt.alloc();
    // The first pair adds nothing: each activity starts with the start or later.
    let none = pair(0, 1);
    for (name, pair, wanted) in [
        ("two between", none, [12, 16, 16]),
        ("one machine", none, [4, 7, 7]),
        ("one machine", pair(1, 2), [7, 7, 7]),
        ("three on two", none, [2, 3, 3]),
        ("three on two", pair(3, 1), [4, 4, 4]),
        // Without a capacity there is no work.
        ("no capacity", none, [1, 0, 1]),
    ] {
        assert_row(&rt, alloc, name, none, pair, wanted)?;
    }
    Ok(())
}

/// A number below the count of sides that looks thrown, the same in each run.
fn roll(state: &mut u64, sides: u64) -> i64 {
    let next = state.wrapping_mul(6_364_136_223_846_793_005);
    *state = next.wrapping_add(1_442_695_040_888_963_407);
    i64::try_from(*state / 4_294_967_296 % sides.max(1)).unwrap_or(0)
}

/// A project of activities before the end, with heads and tails below the count of sides.
fn project_by_dice(
    alloc: Global,
    state: &mut u64,
    end: usize,
    capacity: i64,
    sides: u64,
) -> Result<Project, Fail> {
    let mut durations = vec![in alloc; 0]?;
    let mut demands = vec![in alloc; 0]?;
    let mut lags = Vec::new(alloc);
    let mut to_end = Vec::new(alloc);
    for activity in 1..end {
        let duration = roll(state, 8);
        durations.push(duration)?;
        demands.push(roll(state, capacity.unsigned_abs().saturating_add(1)))?;
        lags.push(lag(0, activity, roll(state, sides)))?;
        let weight = duration.saturating_add(roll(state, sides));
        to_end.push(lag(activity, end, weight))?;
    }
    lags.append(&mut to_end)?;
    durations.push(0)?;
    demands.push(0)?;
    with_one_resource(alloc, &durations, &demands, capacity, &lags)
}

/// A thousand lists of heads and of tails, few or many of which are equal.
#[test]
fn a_thousand_lists_are_as_the_plain_loops(rt: HostRuntime) -> Result<(), Fail> {
    let mut state = 7;
    for end in 1..21 {
        for capacity in 1..6 {
            for _ in 0..10 {
                let sides = 1 + roll(&mut state, 30).unsigned_abs() % 30;
                let project = project_by_dice(rt.alloc(), &mut state, end, capacity, sides)?;
                values(&rt, rt.alloc(), &project, &[])?;
            }
        }
    }
    Ok(())
}
