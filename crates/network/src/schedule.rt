//! The starts of a feasible schedule, with their project.

ghost use Rattle.std.specs.Prelude.{◌≡◌, IfOk};
ghost use Rattle.std.specs.Arc.{arc_value};

use crate::project::Project;
use std::alloc::{AllocError, Global};
use std::marker::Model;
use std::sync::Arc;

/// A feasible schedule of a project: a start for each activity, in periods.
#[derive(Drop, Debug)]
pub struct Schedule {
    project: Arc<Project>,
    starts: Vec<i64>,
}

impl Model for Schedule {
    ghost use Rattle.std.specs.Arc.{arc_value};
    ghost use Rattle.network.specs.Schedule.{ScheduleOf, IsFeasible};
    ghost use Rattle.network.specs.Problem.{AreStarts};

    ghost Value = { ScheduleOf };

    ghost view = { λ s. record { project = arc_value s.project; starts = s.starts.items } };

    ghost invariant = { λ s. IsFeasible (arc_value s.project) s.starts.items
        × AreStarts (arc_value s.project) s.starts.items };
}

impl Schedule {
    ghost use Rattle.network.specs.Schedule.{IsFeasible, makespan};
    ghost use Rattle.network.specs.Problem.{IsProject, AreStarts};

    /// The schedule of these starts.
    pub fn of(project: Arc<Project>, starts: Vec<i64>) -> Schedule
        requires feasible { IsFeasible (arc_value project) starts.items }
        requires limits { AreStarts (arc_value project) starts.items }
        ensures { result ≡ record { project = arc_value project; starts = starts.items } }
    {
        Schedule { project, starts }
    }

    /// The project that the schedule is for.
    pub fn project(&self) -> &Arc<Project>
        ensures project { arc_value result.now ≡ self.now.project }
        ensures limits { IsProject self.now.project }
    {
        prove!(self.project.activity_count() >= 2);
        &self.project
    }

    /// The start of each activity.
    pub fn starts(&self) -> &[i64]
        ensures starts { result.now ≡ self.now.starts }
        ensures feasible { IsFeasible self.now.project self.now.starts }
        ensures limits { AreStarts self.now.project self.now.starts }
    {
        self.starts.as_slice()
    }

    /// The start of the end.
    pub fn makespan(&self) -> i64
        ensures makespan { result ≡ makespan self.now.starts }
        ensures feasible { IsFeasible self.now.project self.now.starts }
        ensures limits { AreStarts self.now.project self.now.starts }
    {
        let count = self.project.activity_count();
        self.starts[count - 1]
    }

    /// An equal schedule, of the same shared project.
    pub fn try_copy(&self, alloc: Global) -> Result<Schedule, AllocError>
        ensures { IfOk result (λ schedule. schedule ≡ self.now) }
    {
        let starts = Vec::from_slice(alloc, self.starts.as_slice())?;
        let project = Arc::try_clone(&self.project)?;
        Ok(Schedule { project, starts })
    }
}
