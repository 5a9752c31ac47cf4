//! What a project is made of, and why parts are no project.

/// An arc: activity `to` starts at least `weight` periods after activity `from` starts. A negative
/// weight is a greatest lag from `to` to `from`.
#[derive(Clone, Copy, PartialEq, Eq, Debug)]
pub struct Lag {
    pub from: usize,
    pub to: usize,
    pub weight: i64,
}

/// The activity `before` ends before the activity `after` starts.
#[derive(Clone, Copy, PartialEq, Eq, Debug)]
pub struct Pair {
    pub before: usize,
    pub after: usize,
}

/// What a limit is on.
#[derive(Clone, Copy, PartialEq, Eq, Debug)]
pub enum Quantity {
    Activities,
    Resources,
    Lags,
    Duration,
    Demand,
    Capacity,
    Lag,
}

/// Why parts are not those of a project: the first of these, in the order in which
/// [`Project::new`](crate::Project::new) tests.
#[derive(Clone, Copy, PartialEq, Eq, Debug)]
pub enum ProjectFault {
    /// A list is too long, or a number is out of its range.
    Limit { which: Quantity },
    /// The given arc at place `row` names `id`, which is no activity.
    Activity { row: usize, id: usize },
    /// The start or the end has a duration or a demand.
    Dummy { row: usize },
    /// The lists don't fit together, or the given arcs don't come in the order of their `from`.
    Shape,
}

/// What a project is made of. Activity 0 is the start, the last one the end.
#[derive(Drop, Debug)]
pub struct Parts {
    /// How long each activity takes, in periods.
    pub durations: Vec<i64>,
    /// For each activity, how many units of each resource it uses while it runs.
    pub demands: Vec<Vec<i64>>,
    /// How many units of each resource there are.
    pub capacities: Vec<i64>,
    /// The given arcs, in the order of their `from`.
    pub lags: Vec<Lag>,
}
