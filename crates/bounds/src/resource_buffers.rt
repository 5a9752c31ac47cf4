//! The energy of all resources, up to a ceiling.

ghost use Rattle.std.specs.Prelude.{IfOk, ◌≡◌, ◌<◌, ◌≤◌, length};
ghost use Rattle.bounds.specs.Bound.{IsMatrixFor, IsTrueBoundFor, IsEnergyOf};
ghost use Rattle.network.specs.Problem.{activity_count, resource_count};
ghost use Rattle.bounds.specs.Energy.{IsResourceEnergy, IsEnergyUnder, AreEnds, IsGreatestEnds, all_tasks};

use crate::limits::MAX_ENVELOPE;
use crate::task_buffers::TaskBuffers;
use longest_path::{Matrix, heads, tails};
use network::Project;
use std::alloc::{AllocError, Global};
use std::marker::Model;

/// The energy value of a matrix in periods. It takes each resource, head a and tail b, and the work of the activities
/// with at least this head and this tail. This work, spread over the capacity, has to fit between a and the
/// makespan less b.
///
/// For each resource the activities that use it fill a line of slots between their tails, by falling head. An activity
/// costs a few steps, besides the repair of their two orders.
pub fn energy(alloc: Global, project: &Project, matrix: &Matrix) -> Result<i64, AllocError>
    requires { IsMatrixFor project.now matrix.now }
    ensures value { IfOk result (λ energy. IsEnergyOf project.now matrix.now energy) }
    ensures holds { IfOk result (λ energy. IsTrueBoundFor project.now matrix.now energy) }
{
    prove!(matrix.activity_count() == project.activity_count());
    let heads = heads(alloc, matrix)?;
    let tails = tails(alloc, project, matrix)?;
    let mut buffers = ResourceBuffers::new(alloc, project)?;
    let energy = buffers.energy_under(project, &heads, &tails, u64::MAX);
    Ok(energy as i64)
}

/// The greatest sum of an activity's head and tail in periods: the greatest energy value where there
/// is no work.
fn greatest_ends(heads: &[i64], tails: &[i64]) -> u64
    requires some { 0 < length heads.now }
    requires heads { AreEnds (length heads.now) heads.now }
    requires tails { AreEnds (length heads.now) tails.now }
    ensures { IsGreatestEnds heads.now tails.now result }
{
    let mut greatest = 0;
    for i in 0..heads.len() {
        greatest = greatest.max(heads[i].unsigned_abs() + tails[i].unsigned_abs());
    }
    greatest
}

/// The buffers of all resources. Its value is the tasks of each resource.
#[derive(Drop, Debug)]
pub(crate) struct ResourceBuffers {
    buffers: Vec<TaskBuffers>,
}

impl Model for ResourceBuffers {
    ghost use Rattle.std.specs.Prelude.{List};
    ghost use Rattle.bounds.specs.declared.task.Task.{Task};

    ghost Value = { List (List Task) };

    ghost view = { λ s. s.buffers.items };
}

impl ResourceBuffers {
    /// Buffers for the tasks of each resource.
    pub(crate) fn new(alloc: Global, project: &Project) -> Result<ResourceBuffers, AllocError>
        ensures { IfOk result (λ buffers. buffers ≡ all_tasks project.now) }
    {
        let mut buffers = Vec::with_capacity(alloc, project.resource_count())?;
        for resource in 0..project.resource_count() {
            buffers.push(TaskBuffers::new(alloc, project, resource)?)?;
        }
        Ok(ResourceBuffers { buffers })
    }

    /// The greatest energy term of a resource in periods; 0 where it has no capacity.
    fn resource_energy(
        &mut self,
        project: &Project,
        resource: usize,
        heads: &[i64],
        tails: &[i64],
        ends: u64,
    ) -> u64
        requires resource { resource < resource_count project.now }
        requires heads { AreEnds (activity_count project.now) heads.now }
        requires tails { AreEnds (activity_count project.now) tails.now }
        requires ends { IsGreatestEnds heads.now tails.now ends }
        requires buffers { self.old ≡ all_tasks project.now }
        ensures buffers { self.new ≡ self.old }
        ensures value { IsResourceEnergy project.now heads.now tails.now resource result }
        ensures limit { result ≤ MAX_ENVELOPE }
    {
        let capacity = project.capacity(resource);
        if capacity == 0 {
            return 0;
        }
        let envelope = self.buffers[resource].greatest_envelope(capacity, heads, tails);
        ends.max(envelope.div_ceil(capacity))
    }

    /// The energy value of heads and tails in periods, or a lower number that is at least the ceiling. It
    /// takes no memory.
    pub(crate) fn energy_under(
        &mut self,
        project: &Project,
        heads: &[i64],
        tails: &[i64],
        ceiling: u64,
    ) -> u64
        requires heads { AreEnds (activity_count project.now) heads.now }
        requires tails { AreEnds (activity_count project.now) tails.now }
        requires buffers { self.old ≡ all_tasks project.now }
        ensures buffers { self.new ≡ self.old }
        ensures value { IsEnergyUnder project.now heads.now tails.now ceiling result }
        ensures limit { result ≤ MAX_ENVELOPE }
    {
        prove!(0 < project.activity_count());
        let ends = greatest_ends(heads, tails);
        let mut energy = 0;
        for resource in 0..project.resource_count() {
            energy = energy.max(self.resource_energy(project, resource, heads, tails, ends));
            if energy >= ceiling {
                return energy;
            }
        }
        energy
    }
}
