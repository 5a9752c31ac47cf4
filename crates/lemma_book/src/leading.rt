//! Whether a schedule is feasible and in question.

ghost use Rattle.std.specs.Prelude.{◌≡◌, ◌↔◌, IsTrue, IfOk};
ghost use Rattle.std.specs.List.{All};
ghost use Rattle.network.specs.Problem.{AreStarts, IsTime};
ghost use Rattle.network.specs.Schedule.{IsFeasible};

use network::{MAX_START, Project};
use schedule_check::violations;
use std::alloc::{AllocError, Global};

/// Whether this is a time.
fn is_time(start: i64) -> bool
    ensures { IsTrue result ↔ IsTime start }
{
    -MAX_START <= start && start <= MAX_START
}

/// Whether all of these are times.
fn are_times(starts: &[i64]) -> bool
    ensures { IsTrue result ↔ All IsTime starts.now }
{
    for start in starts {
        if !is_time(*start) {
            return false;
        }
    }
    true
}

/// Whether there is a start within the limits for each activity.
pub(crate) fn are_starts(project: &Project, starts: &[i64]) -> bool
    ensures { IsTrue result ↔ AreStarts project.now starts.now }
{
    starts.len() == project.activity_count() && are_times(starts)
}

/// Whether starts are a feasible schedule.
pub(crate) fn is_feasible(
    alloc: Global,
    project: &Project,
    starts: &[i64],
) -> Result<bool, AllocError>
    requires { AreStarts project.now starts.now }
    ensures { IfOk result (λ feasible. IsTrue feasible ↔ IsFeasible project.now starts.now) }
{
    let found = violations(alloc, project, starts)?;
    Ok(found.is_empty())
}
