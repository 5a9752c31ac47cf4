//! The overloads of a schedule, and the buffers in which they are found.

ghost use Rattle.std.specs.Prelude.{◌≡◌, ◌↔◌, [], IfOk, IfSome, IfNone};
ghost use Rattle.network.specs.Problem.{AreStarts};
ghost use Rattle.network.specs.Schedule.{running, IsWithinCapacities};
ghost use Rattle.profile.specs.Overloads.{IsFirstOverload, TellsUse, start_times, all_overloads, IsSweepFor};

use crate::counting::Count;
use crate::overload::Overload;
use crate::sweep::{all_along, first_along, prepare};
use crate::times::start_times;
use crate::usage::list_running;
use network::Project;
use std::alloc::{AllocError, Global};
use std::marker::Model;

/// The workspace of a search for overloads, made once and used for one list of starts after another. It keeps two
/// orders of the activities, by start and by end, from one list to the next. If few activities have moved, the orders
/// are soon right again.
#[derive(Drop, Debug)]
pub struct OverloadSweep {
    started: Count,
    ended: Count,
    running: Vec<usize>,
}

impl Model for OverloadSweep {
    ghost use Rattle.std.specs.Prelude.{length, vec_capacity};
    ghost use Rattle.profile.specs.Overloads.{SweepOf, HasRoom};

    ghost Value = { SweepOf };

    ghost view = { λ s. record {
      activities = length s.started.times.items;
      resources = length s.started.totals.items;
      running = s.running.items;
    } };

    ghost invariant = { λ s. HasRoom s.started s.ended (vec_capacity s.running) };
}

impl OverloadSweep {
    /// A workspace for a project, with all the memory that it will need.
    pub fn new(alloc: Global, project: &Project) -> Result<OverloadSweep, AllocError>
        ensures { IfOk result (IsSweepFor project.now) }
    {
        Ok(OverloadSweep {
            started: Count::new(alloc, project)?,
            ended: Count::new(alloc, project)?,
            running: Vec::with_capacity(alloc, project.activity_count())?,
        })
    }

    /// The first overload of a list of starts, if there is one: at the least unit of time with an overload, of the
    /// least such resource. [`OverloadSweep::running`] then lends the activities that run at that time.
    ///
    /// A sweep over the starts and ends in their order of time, up to the overload, without memory. With n activities
    /// and K resources it takes of the order of `n K` steps, and the steps that repair both orders.
    pub fn first(&mut self, project: &Project, starts: &[i64]) -> Option<Overload>
        requires sweep { IsSweepFor project.now self.old }
        requires starts { AreStarts project.now starts.now }
        ensures sweep { IsSweepFor project.now self.new }
        ensures none { IfNone result (IsWithinCapacities project.now starts.now) }
        ensures first { IfSome result (λ overload. IsFirstOverload project.now starts.now overload.time overload.resource) }
        ensures used { IfSome result (TellsUse project.now starts.now) }
        ensures running { IfSome result (λ overload. self.new.running ≡ running project.now starts.now overload.time) }
    {
        prepare(project, starts, &mut self.started, &mut self.ended);
        let found = first_along(project, &mut self.started, &mut self.ended);
        if let Some(overload) = found {
            list_running(project, starts, overload.time, &mut self.running);
        }
        found
    }

    /// The activities that run at the overload that was found last, rising.
    pub fn running(&self) -> &[usize]
        ensures { result.now ≡ self.now.running }
    {
        self.running.as_slice()
    }

    /// The overloads at all start times, which are these.
    pub(crate) fn all(
        &mut self,
        alloc: Global,
        project: &Project,
        starts: &[i64],
        times: &[i64],
    ) -> Result<Vec<Overload>, AllocError>
        requires sweep { IsSweepFor project.now self.old }
        requires starts { AreStarts project.now starts.now }
        requires times { times.now ≡ start_times starts.now }
        ensures sweep { IsSweepFor project.now self.new }
        ensures overloads { IfOk result (λ v. v.items ≡ all_overloads project.now starts.now) }
    {
        prepare(project, starts, &mut self.started, &mut self.ended);
        all_along(alloc, project, times, &mut self.started, &mut self.ended)
    }
}

/// The first overload of a list of starts, if there is one, and all activities that run then, rising: the overload at
/// the least unit of time with one, of the least such resource.
///
/// It calls [`OverloadSweep::first`] once in a workspace of its own, and sorts the orders by insertion. With n
/// activities and K resources it takes at most of the order of `n n + n K` steps.
pub fn first_overload(
    alloc: Global,
    project: &Project,
    starts: &[i64],
) -> Result<Option<(Overload, Vec<usize>)>, AllocError>
    requires starts { AreStarts project.now starts.now }
    ensures none { IfOk result (λ found. IfNone found (IsWithinCapacities project.now starts.now)) }
    ensures first { IfOk result (λ found.
        IfSome found (λ f. IsFirstOverload project.now starts.now f.0.time f.0.resource)) }
    ensures used { IfOk result (λ found. IfSome found (λ f. TellsUse project.now starts.now f.0)) }
    ensures running { IfOk result (λ found. IfSome found (λ f. f.1.items ≡ running project.now starts.now f.0.time)) }
{
    let mut sweep = OverloadSweep::new(alloc, project)?;
    match sweep.first(project, starts) {
        Some(overload) => {
            let running = Vec::from_slice(alloc, sweep.running())?;
            Ok(Some((overload, running)))
        }
        None => Ok(None),
    }
}

/// The overloads at all start times, by time and then by resource. The use of a resource rises only where an activity
/// starts. So there is none exactly if no unit of time has an overload.
///
/// The same sweep as [`OverloadSweep::first`]'s, up to the last start.
pub fn overloads(
    alloc: Global,
    project: &Project,
    starts: &[i64],
) -> Result<Vec<Overload>, AllocError>
    requires starts { AreStarts project.now starts.now }
    ensures overloads { IfOk result (λ v. v.items ≡ all_overloads project.now starts.now) }
    ensures none { IfOk result (λ v. (v.items ≡ []) ↔ IsWithinCapacities project.now starts.now) }
{
    let times = start_times(alloc, starts)?;
    let mut sweep = OverloadSweep::new(alloc, project)?;
    sweep.all(alloc, project, starts, &times)
}
