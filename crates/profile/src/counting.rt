//! What activities have asked for along an order, up to a time.

ghost use Rattle.std.specs.Prelude.{◌≡◌, replicate, ◌+◌, ◌<◌, ◌≤◌, length, IfOk, MatchOption};
ghost use Rattle.std.specs.List.{All};
ghost use Rattle.network.specs.Problem.{activity_count, resource_count, AreStarts};
ghost use Rattle.std.specs.List.Sorted.{IsPermutation};
ghost use Rattle.profile.specs.Orders.{HaveKeys, Rises};
ghost use Rattle.profile.specs.Counts.{AddsDemands, AreEnds, HasRoomFor, IsCount, IsWhole, IsNextTime, HasPassed, HasCome, IsSameOrder};

use crate::{first_order, repair};
use network::Project;
use std::alloc::{AllocError, Global};

/// The activities of a project by rising starts, or ends, and what the first of them ask for.
#[derive(Drop, Debug)]
pub(crate) struct Count {
    /// When each activity starts, or ends.
    pub(crate) times: Vec<i64>,
    /// The activities, by the times of the last sweep.
    pub(crate) order: Vec<usize>,
    /// How many activities are counted, from the first of the order on.
    pub(crate) passed: usize,
    /// Units of each resource that they ask for together.
    pub(crate) totals: Vec<u64>,
}

/// Adds the demands of an activity to the totals of all resources.
fn add_demands(project: &Project, totals: &mut [u64], activity: usize)
    requires activity { activity < activity_count project.now }
    requires columns { length totals.old ≡ resource_count project.now }
    requires small { All (λ total. total ≤ 2000000000) totals.old }
    ensures { AddsDemands project.now activity totals.old totals.new }
{
    let demands = project.demands(activity);
    for resource in 0..totals.len() {
        totals[resource] += demands[resource] as u64;
    }
}

impl Count {
    /// Room to count the activities of a project.
    pub(crate) fn new(alloc: Global, project: &Project) -> Result<Count, AllocError>
        ensures { IfOk result (HasRoomFor project.now) }
    {
        let activities = project.activity_count();
        Ok(Count {
            times: vec![in alloc; 0; activities]?,
            order: first_order(alloc, activities)?,
            passed: 0,
            totals: vec![in alloc; 0; project.resource_count()]?,
        })
    }

    /// Counts nothing, and repairs the order, since the times have changed.
    pub(crate) fn restart(&mut self)
        requires { HaveKeys self.old.times.items self.old.order.items }
        ensures kept { IsPermutation self.old.order.items self.new.order.items }
        ensures rises { Rises self.new.times.items self.new.order.items }
        ensures times { self.new.times ≡ self.old.times }
        ensures passed { self.new.passed ≡ 0 }
        ensures totals { self.new.totals.items ≡ replicate (length self.old.totals.items) 0 }
    {
        repair(self.order.as_mut_slice(), self.times.as_slice());
        self.passed = 0;
        self.totals.as_mut_slice().fill(0);
    }

    /// The time of the first activity that isn't counted.
    pub(crate) fn next_time(&self) -> Option<i64>
        requires { HaveKeys self.now.times.items self.now.order.items }
        ensures { MatchOption result (IsWhole self.now) (IsNextTime self.now) }
    {
        if self.passed >= self.order.len() {
            return None;
        }
        Some(self.times[self.order[self.passed]])
    }

    /// Counts one activity more.
    fn count_next(&mut self, project: &Project)
        requires count { IsCount project.now self.old }
        requires some { self.old.passed < length self.old.order.items }
        ensures count { IsCount project.now self.new }
        ensures next { self.new.passed ≡ self.old.passed + 1 }
        ensures same { IsSameOrder self.old self.new }
    {
        let activity = self.order.as_slice()[self.passed];
        add_demands(project, self.totals.as_mut_slice(), activity);
        self.passed += 1;
    }

    /// Counts the activities whose times are at most `time`.
    pub(crate) fn pass(&mut self, project: &Project, time: i64)
        requires count { IsCount project.now self.old }
        requires past { HasPassed self.old time }
        ensures count { IsCount project.now self.new }
        ensures come { HasCome self.new time }
        ensures forward { self.old.passed ≤ self.new.passed }
        ensures same { IsSameOrder self.old self.new }
    {
        while let Some(next) = self.next_time() {
            if next > time {
                break;
            }
            self.count_next(project);
        }
    }
}

/// Puts the ends of all activities in place of other times.
pub(crate) fn list_ends(project: &Project, starts: &[i64], ends: &mut [i64])
    requires starts { AreStarts project.now starts.now }
    requires long { length ends.old ≡ activity_count project.now }
    ensures { AreEnds project.now starts.now ends.new }
{
    let durations = project.durations();
    for i in 0..ends.len() {
        ends[i] = starts[i] + durations[i];
    }
}
