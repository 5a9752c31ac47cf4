//! When numbers are members of a set of activities, and when these ask for more of a resource than there is.

ghost use Rattle.std.specs.Prelude.{◌<◌, ◌↔◌, IsTrue};
ghost use Rattle.std.specs.List.{All};
ghost use Rattle.std.specs.List.Sorted.{IsStrictlyIncreasing};
ghost use Rattle.network.specs.Schedule.{IsForbidden};
ghost use Rattle.network.specs.Problem.{resource_count};
ghost use Rattle.schedule_check.specs.Members.{TakesTime, AreMembers};

use network::Project;

/// Whether this is an activity that takes time.
fn takes_time(project: &Project, activity: usize) -> bool
    ensures { IsTrue result ↔ TakesTime project.now activity }
{
    if activity >= project.activity_count() {
        return false;
    }
    project.duration(activity) > 0
}

/// Whether all are activities that take time.
fn all_take_time(project: &Project, members: &[usize]) -> bool
    ensures { IsTrue result ↔ All (TakesTime project.now) members.now }
{
    for member in members {
        if !takes_time(project, *member) {
            return false;
        }
    }
    true
}

/// Whether each number is below the next.
fn rises(members: &[usize]) -> bool
    ensures { IsTrue result ↔ IsStrictlyIncreasing members.now }
{
    for place in 1..members.len() {
        if members[place] <= members[place - 1] {
            return false;
        }
    }
    true
}

/// Whether these are rising activities that take time.
pub fn are_members(project: &Project, members: &[usize]) -> bool
    ensures { IsTrue result ↔ AreMembers project.now members.now }
{
    if !rises(members) {
        return false;
    }
    all_take_time(project, members)
}

/// Whether the activities ask together for more of a resource than there is.
pub fn is_forbidden(project: &Project, resource: usize, members: &[usize]) -> bool
    requires resource { resource < resource_count project.now }
    requires members { AreMembers project.now members.now }
    ensures { IsTrue result ↔ IsForbidden project.now resource members.now }
{
    let capacity = project.capacity(resource);
    let mut total = 0;
    for member in members {
        total += project.demand(resource, *member);
        if total > capacity {
            return true;
        }
    }
    false
}
