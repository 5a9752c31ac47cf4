//! Accepts starts as a feasible schedule.

ghost use Rattle.std.specs.Prelude.{◌≡◌, IfOk, IfErr, OnOk};
ghost use Rattle.std.specs.Arc.{arc_value};
ghost use Rattle.network.specs.Problem.{AreStarts};
ghost use Rattle.network.specs.Schedule.{IsFeasible};
ghost use Rattle.schedule_check.specs.declared.acceptance.AcceptFault.TheVariants.{Memory};
ghost use Rattle.schedule_check.specs.Violations.{IsRefusal};

use crate::violation::{Violation, violations};
use network::{Project, Schedule};
use std::alloc::{AllocError, Global};
use std::sync::Arc;

/// Why starts were not accepted.
#[derive(Debug, Drop)]
pub enum AcceptFault {
    /// They are no feasible schedule: all that they violate.
    Violated(Vec<Violation>),
    /// Memory ran out.
    Memory,
}

impl From<AllocError> for AcceptFault {
    ghost from_gives = { λ _ e. e ≡ Memory };

    fn from(_e: AllocError) -> AcceptFault {
        AcceptFault::Memory
    }
}

/// The schedule of these starts, where they are a feasible one of the project, and else all that
/// they violate.
pub fn accept(
    alloc: Global,
    project: Arc<Project>,
    starts: Vec<i64>,
) -> Result<Schedule, AcceptFault>
    requires { AreStarts (arc_value project) starts.items }
    ensures schedule { IfOk result (λ schedule.
        schedule ≡ record { project = arc_value project; starts = starts.items }) }
    ensures feasible { OnOk result (IsFeasible (arc_value project) starts.items) }
    ensures fault { IfErr result (IsRefusal (arc_value project) starts.items) }
{
    let found = violations(alloc, &project, &starts)?;
    if !found.is_empty() {
        return Err(AcceptFault::Violated(found));
    }
    Ok(Schedule::of(project, starts))
}
