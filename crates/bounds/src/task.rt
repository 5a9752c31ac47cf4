//! What activities ask of one resource.

ghost use Rattle.std.specs.Prelude.{◌≡◌, ◌<◌, IfOk};
ghost use Rattle.network.specs.Problem.{resource_count};
ghost use Rattle.bounds.specs.Energy.{tasks_of};

use network::Project;
use std::alloc::{AllocError, Global};

/// What an activity asks of one resource.
#[derive(Clone, Copy, Debug)]
pub(crate) struct Task {
    pub(crate) activity: usize,
    /// Units of the resource, each for a period: a duration times a demand.
    pub(crate) work: u64,
}

/// The tasks of a resource: one for each activity that has work for it.
pub(crate) fn tasks_of(
    alloc: Global,
    project: &Project,
    resource: usize,
) -> Result<Vec<Task>, AllocError>
    requires { resource < resource_count project.now }
    ensures { IfOk result (λ tasks. tasks.items ≡ tasks_of project.now resource) }
{
    let mut tasks = Vec::new(alloc);
    for activity in 0..project.activity_count() {
        let duration = project.duration(activity).unsigned_abs();
        let work = duration * project.demand(resource, activity);
        if work > 0 {
            tasks.push(Task { activity, work })?;
        }
    }
    Ok(tasks)
}
