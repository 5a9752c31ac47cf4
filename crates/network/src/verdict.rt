//! What is known of a project's least makespan.

/// What a search or a record proves of a project. Makespans and bounds are in periods.
#[derive(Clone, Copy, PartialEq, Eq, Debug)]
pub enum Verdict {
    /// The shortest feasible schedule takes so long.
    Optimal { makespan: i64 },
    /// No feasible schedule is shorter.
    Bound { bound: i64 },
    /// There is no feasible schedule.
    NoSchedule,
}
