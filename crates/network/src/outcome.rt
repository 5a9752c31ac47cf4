//! How a search of a project ended.

use crate::schedule::Schedule;

/// How a search ended.
#[derive(Drop, Debug)]
pub enum Outcome {
    /// A feasible schedule, and none is shorter.
    Optimal(Schedule),
    /// The project has no feasible schedule.
    NoSchedule,
    /// A limit stopped the search. The bound, in periods, is at most every feasible makespan. With one thread it is
    /// below the makespan of the best schedule, if there is one.
    Stopped { best: Option<Schedule>, bound: i64 },
}
