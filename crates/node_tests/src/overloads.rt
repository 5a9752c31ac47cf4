//! Overloads of seeded projects, against plain loops.

ghost use Rattle.std.specs.Prelude.{◌<◌};
ghost use Rattle.network.specs.Problem.{resource_count};
ghost use Rattle.profile.specs.Overloads.{IsSweepFor};

use crate::projects::{are_starts, project};
use network::Project;
use profile::{Overload, OverloadSweep};
use std::alloc::{AllocError, Global};
use std::process::Abort;
use std::test::Fail;

/// Numbers that look thrown, the same in each run.
#[derive(Drop)]
struct Dice {
    state: u64,
}

impl Dice {
    /// A number below the count of sides.
    fn roll(&mut self, sides: u32) -> i64
        requires { 0 < sides }
    {
        let next = self.state.wrapping_mul(6_364_136_223_846_793_005);
        self.state = next.wrapping_add(1_442_695_040_888_963_407);
        i64::from((self.state / 4_294_967_296 % u64::from(sides)) as u32)
    }
}

/// Six numbers of the dice, the first and the last of which are 0.
fn amounts(dice: &mut Dice, sides: u32) -> [i64; 6]
    requires { 0 < sides }
{
    let [a, b, c, d] = [
        dice.roll(sides),
        dice.roll(sides),
        dice.roll(sides),
        dice.roll(sides),
    ];
    [0, a, b, c, d, 0]
}

/// Four activities and two resources by the dice.
fn seeded_project(alloc: Global, dice: &mut Dice) -> Result<Project, Fail> {
    let durations = amounts(dice, 5);
    let [_, a, b, c, d, _] = amounts(dice, 3);
    let [_, e, f, g, h, _] = amounts(dice, 3);
    let demands: [&[i64]; 6] = [&[0, 0], &[a, e], &[b, f], &[c, g], &[d, h], &[0, 0]];
    project(alloc, &durations, &demands, &[3, 2], &[])
}

/// The activities that run at a time: those that have started and haven't ended.
fn running_at(
    alloc: Global,
    project: &Project,
    starts: &[i64],
    time: i64,
) -> Result<Vec<usize>, AllocError> {
    let mut running = Vec::new(alloc);
    for activity in 0..project.activity_count() {
        let start = starts.get(activity).copied().unwrap_or(0);
        if start <= time && time < start.saturating_add(project.duration(activity)) {
            running.push(activity)?;
        }
    }
    Ok(running)
}

/// How much of a resource the activities use together.
fn used_by(project: &Project, resource: usize, running: &[usize]) -> u64
    requires { resource < resource_count project.now }
{
    let mut used: u64 = 0;
    for activity in running {
        if *activity < project.activity_count() {
            used = used.saturating_add(project.demand(resource, *activity));
        }
    }
    used
}

/// The first resource that these activities overload at a time.
fn plain_overload(project: &Project, running: &[usize], time: i64) -> Option<Overload> {
    for resource in 0..project.resource_count() {
        let used = used_by(project, resource, running);
        if used > project.capacity(resource) {
            return Some(Overload {
                time,
                resource,
                used,
            });
        }
    }
    None
}

/// The first overload of the starts, and the activities that run then, by a sweep that may have been used
/// before.
fn next(
    rt: &impl Abort,
    sweep: &mut OverloadSweep,
    project: &Project,
    starts: &[i64],
) -> Option<Overload>
    requires { IsSweepFor project.now sweep.old }
    ensures { IsSweepFor project.now sweep.new }
{
    assert!(rt; are_starts(project, starts));
    sweep.first(project, starts)
}

/// That the sweep finds the first overload of all units of time up to 20.
fn assert_first(
    rt: &impl Abort,
    alloc: Global,
    sweep: &mut OverloadSweep,
    project: &Project,
    starts: &[i64],
) -> Result<(), Fail>
    requires { IsSweepFor project.now sweep.old }
    ensures { IsSweepFor project.now sweep.new }
{
    let found = next(rt, sweep, project, starts);
    for time in 0..20 {
        let running = running_at(alloc, project, starts, time)?;
        if let Some(overload) = plain_overload(project, &running, time) {
            assert_eq!(rt; found, Some(overload));
            assert_eq!(rt; sweep.running(), running.as_slice());
            return Ok(());
        }
    }
    assert!(rt; found.is_none());
    Ok(())
}

/// The same for two lists of starts by the dice, by one sweep.
fn assert_two(
    rt: &impl Abort,
    alloc: Global,
    dice: &mut Dice,
    sweep: &mut OverloadSweep,
    project: &Project,
) -> Result<(), Fail>
    requires { IsSweepFor project.now sweep.old }
{
    let starts = amounts(dice, 12);
    assert_first(rt, alloc, sweep, project, &starts)?;
    let starts = amounts(dice, 12);
    assert_first(rt, alloc, sweep, project, &starts)
}

/// The same for a project of the dice.
fn assert_by_dice(rt: &impl Abort, alloc: Global, dice: &mut Dice) -> Result<(), Fail> {
    let project = seeded_project(alloc, dice)?;
    let mut sweep = OverloadSweep::new(alloc, &project)?;
    assert_two(rt, alloc, dice, &mut sweep, &project)
}

#[test]
fn a_thousand_projects_are_as_the_plain_loops(rt: HostRuntime) -> Result<(), Fail> {
    let mut dice = Dice { state: 7 };
    for _ in 0..1_000 {
        assert_by_dice(&rt, rt.alloc(), &mut dice)?;
    }
    Ok(())
}
