//! The limits of a project, of its schedules, and of the weights of walks over its arcs.

/// How many activities there are at most, the start and the end among them.
pub const MAX_ACTIVITIES: usize = 1_002;

/// How many resources there are at most.
pub const MAX_RESOURCES: usize = 32;

/// How many arcs are given at most.
pub const MAX_LAGS: usize = 100_000;

/// The greatest duration in periods, demand and capacity.
pub const MAX_AMOUNT: i64 = 1_000_000;

/// The greatest weight of an arc in periods; the least is its negative.
pub const MAX_LAG_WEIGHT: i64 = 1_000_000;

/// The greatest start of a text, in periods; the least is its negative.
pub const MAX_START: i64 = 9_999_999_999;

/// What no greatest weight of a walk is beyond, in periods: a walk that visits no activity twice has
/// fewer arcs than there are activities.
pub const MAX_WALK_WEIGHT: i64 = 1_003_000_000;
