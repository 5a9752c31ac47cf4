//! Shrinks activities that ask for too much to a minimal forbidden set.

ghost use Rattle.std.specs.Prelude.{◌≡◌, ◌<◌, ◌≤◌, ◌+◌, ◌*◌, ℕ, pos, ◌≤ℤ◌, length, map, drop, IfOk};
ghost use Rattle.std.specs.List.{All, AllPairs, Contains};
ghost use Rattle.std.specs.List.Sorted.{IsStrictlyIncreasing, IsNonDecreasing, IsPermutation};
ghost use Rattle.network.specs.Schedule.{IsForbidden, IsMinimalForbidden};
ghost use Rattle.network.specs.Problem.{activity_count, resource_count, demand, capacity};
ghost use Rattle.forbidden_sets.specs.MinimalSet.{AreDemands, ComesBefore, total_of};
ghost use Rattle.forbidden_sets.specs.declared.shrinking.Demand.{Demand};

use crate::set::ForbiddenSet;
use network::{MAX_ACTIVITIES, MAX_AMOUNT, Project};
use smallvec::SmallVec;
use std::alloc::{AllocError, Global};

/// An activity, by its demand for the resource.
#[derive(Clone, Copy, Default, PartialEq, Eq, PartialOrd, Ord)]
struct Demand {
    demand: u64,
    activity: usize,
}

/// The loads of the activities that need any of the resource, by rising demand, ties by rising number.
fn by_demand(
    alloc: Global,
    project: &Project,
    resource: usize,
    activities: &[usize],
) -> Result<SmallVec<Demand, 16>, AllocError>
    requires resource { resource < resource_count project.now }
    requires activities { All (λ i. i < activity_count project.now) activities.now }
    ensures loads { IfOk result (λ loads. AreDemands (demand project.now resource) activities.now loads.items) }
    ensures small { IfOk result (λ loads. All (λ load. pos load.demand ≤ℤ MAX_AMOUNT) loads.items) }
    ensures order { IfOk result (λ loads. AllPairs ComesBefore loads.items) }
{
    let mut loads = SmallVec::new(alloc);
    for activity in activities {
        let demand = project.demand(resource, *activity);
        if demand > 0 {
            loads.push(Demand {
                demand,
                activity: *activity,
            })?;
        }
    }
    loads.as_mut_slice().sort_unstable();
    Ok(loads)
}

/// How much the loads need together.
fn total(loads: &[Demand]) -> u64
    requires few { length loads.now ≤ MAX_ACTIVITIES }
    requires small { All (λ load. pos load.demand ≤ℤ MAX_AMOUNT) loads.now }
    ensures { result ≡ total_of loads.now }
{
    let mut total = 0;
    for load in loads {
        total += load.demand;
    }
    total
}

/// How many of the loads, from the first on, can go together while the rest still exceeds the capacity. As the demands
/// rise, no other can be spared then.
fn spared(loads: &[Demand], capacity: u64) -> usize
    requires few { length loads.now ≤ MAX_ACTIVITIES }
    requires small { All (λ load. pos load.demand ≤ℤ MAX_AMOUNT) loads.now }
    requires order { AllPairs ComesBefore loads.now }
    requires forbidden { capacity < total_of loads.now }
    ensures inside { result ≤ length loads.now }
    ensures forbidden { capacity < total_of (drop result loads.now) }
    ensures needed { All (λ load. total_of (drop result loads.now) ≤ capacity + load.demand) (drop result loads.now) }
{
    let mut rest = total(loads);
    let mut count = 0;
    while count < loads.len() && rest - loads[count].demand > capacity {
        rest -= loads[count].demand;
        count += 1;
    }
    count
}

/// The activities of the loads, by rising number.
fn in_order(alloc: Global, loads: &[Demand]) -> Result<SmallVec<usize, 8>, AllocError>
    ensures moved { IfOk result (λ members. IsPermutation (map (λ load. load.activity) loads.now) members.items) }
    ensures rising { IfOk result (λ members. IsNonDecreasing members.items) }
{
    let mut members = SmallVec::new(alloc);
    for load in loads {
        members.push(load.activity)?;
    }
    members.as_mut_slice().sort_unstable();
    Ok(members)
}

/// What each of the members needs.
fn demands_of(
    alloc: Global,
    project: &Project,
    resource: usize,
    members: &[usize],
) -> Result<SmallVec<u64, 8>, AllocError>
    requires resource { resource < resource_count project.now }
    requires members { All (λ i. i < activity_count project.now) members.now }
    ensures { IfOk result (λ demands. demands.items ≡ map (demand project.now resource) members.now) }
{
    let mut demands = SmallVec::new(alloc);
    for member in members {
        demands.push(project.demand(resource, *member))?;
    }
    Ok(demands)
}

/// A minimal forbidden set of activities that are forbidden for a resource. It goes through them by rising demand for
/// it, ties by rising number, and drops one if the rest still exceeds the capacity. So it looks at each activity at
/// most once. If up to 16 of them need the resource and up to 8 are left, it takes no memory.
pub fn shrink_activities(
    alloc: Global,
    project: &Project,
    resource: usize,
    activities: &[usize],
) -> Result<ForbiddenSet, AllocError>
    requires resource { resource < resource_count project.now }
    requires activities { All (λ i. i < activity_count project.now) activities.now }
    requires rising { IsStrictlyIncreasing activities.now }
    requires forbidden { IsForbidden project.now resource activities.now }
    ensures resource { IfOk result (λ set. set.resource ≡ resource) }
    ensures capacity { IfOk result (λ set. set.capacity ≡ capacity project.now resource) }
    ensures demands { IfOk result (λ set. set.demands ≡ map (demand project.now resource) set.members) }
    ensures among { IfOk result (λ set. All (Contains activities.now) set.members) }
    ensures few { IfOk result (λ set. length set.members ≤ activity_count project.now) }
    ensures minimal { IfOk result (λ set. IsMinimalForbidden project.now resource set.members) }
{
    let capacity = project.capacity(resource);
    let loads = by_demand(alloc, project, resource, activities)?;
    let loads = loads.as_slice();
    let count = spared(loads, capacity);
    let members = in_order(alloc, &loads[count..])?;
    let demands = demands_of(alloc, project, resource, members.as_slice())?;
    Ok(ForbiddenSet::new(resource, capacity, members, demands))
}
