//! The tasks of one resource, with the memory that their energy takes.

ghost use Rattle.std.specs.Prelude.{◌≡◌, ◌<◌, IfOk, ◌+◌, ◌≤◌, length, take};
ghost use Rattle.network.specs.Problem.{resource_count};
ghost use Rattle.bounds.specs.Energy.{tasks_of, AreTasks, AreEnds};
ghost use Rattle.std.specs.List.{All};
ghost use Rattle.std.specs.List.Sorted.{IsNonDecreasing};
ghost use Rattle.bounds.specs.Loads.{AreLoads, IsGreatestEnvelope, IsGreatestEnvelopeOf};

use crate::envelope_buffers::EnvelopeBuffers;
use crate::limits::{MAX_CAPACITY, MAX_END, MAX_ENVELOPE};
use crate::load::Load;
use crate::slots::greatest_envelope;
use crate::task::{Task, tasks_of};
use network::Project;
use std::alloc::{AllocError, Global};
use std::marker::Model;

/// The tasks of a resource, and the memory that their greatest envelope takes. Its value is the tasks.
#[derive(Drop, Debug)]
pub(crate) struct TaskBuffers {
    tasks: Vec<Task>,
    buffers: EnvelopeBuffers,
}

impl Model for TaskBuffers {
    ghost use Rattle.std.specs.Prelude.{List, length};
    ghost use Rattle.bounds.specs.declared.task.Task.{Task};

    ghost Value = { List Task };

    ghost use Rattle.bounds.specs.Loads.{AreBuffers};

    ghost view = { λ s. s.tasks.items };

    ghost invariant = { λ s. AreBuffers (length s.tasks.items) s.buffers };
}

impl TaskBuffers {
    /// Buffers for the tasks of a resource.
    pub(crate) fn new(
        alloc: Global,
        project: &Project,
        resource: usize,
    ) -> Result<TaskBuffers, AllocError>
        requires { resource < resource_count project.now }
        ensures { IfOk result (λ buffers. buffers ≡ tasks_of project.now resource) }
    {
        let tasks = tasks_of(alloc, project, resource)?;
        let buffers = EnvelopeBuffers::new(alloc, tasks.as_slice())?;
        Ok(TaskBuffers { tasks, buffers })
    }

    /// The greatest envelope of the tasks between heads and tails.
    pub(crate) fn greatest_envelope(&mut self, capacity: u64, heads: &[i64], tails: &[i64]) -> u64
        requires capacity { capacity ≤ MAX_CAPACITY }
        requires heads { AreEnds (length heads.now) heads.now }
        requires tails { AreEnds (length heads.now) tails.now }
        requires tasks { AreTasks (length heads.now) self.old }
        ensures tasks { self.new ≡ self.old }
        ensures greatest { IsGreatestEnvelopeOf capacity heads.now tails.now self.old result }
        ensures limit { result ≤ MAX_ENVELOPE }
    {
        let count = self.buffers.rank_tails(self.tasks.as_slice(), tails);
        self.buffers.list_loads(self.tasks.as_slice(), heads);
        envelope_under(
            self.buffers.loads.as_slice(),
            capacity,
            self.buffers.rising.as_slice(),
            count,
            self.buffers.line.as_mut_slice(),
            self.buffers.widths.as_mut_slice(),
        )
    }
}

/// The greatest envelope of the loads under the first `count` tails.
fn envelope_under(
    loads: &[Load],
    capacity: u64,
    rising: &[u64],
    count: usize,
    line: &mut [u64],
    widths: &mut [u64],
) -> u64
    requires count { count ≤ length rising.now }
    requires line { length line.old ≡ length rising.now + 1 }
    requires widths { length widths.old ≡ length rising.now }
    requires loads { AreLoads (take count rising.now) loads.now }
    requires capacity { capacity ≤ MAX_CAPACITY }
    requires tails { All (λ b. b ≤ MAX_END) (take count rising.now) }
    requires up { IsNonDecreasing (take count rising.now) }
    ensures greatest { IsGreatestEnvelope capacity (take count rising.now) loads.now result }
    ensures limit { result ≤ MAX_ENVELOPE }
{
    let tails = &rising[..count];
    let line = &mut line[..count + 1];
    greatest_envelope(loads, capacity, tails, line, &mut widths[..count])
}
