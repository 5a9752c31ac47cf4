//! The limits of what is added up here, within which no sum overflows.

/// The greatest head or tail, in periods: no walk weighs more.
pub(crate) const MAX_END: u64 = 1_003_000_000;

/// The greatest capacity of a resource.
pub(crate) const MAX_CAPACITY: u64 = 1_000_000;

/// The greatest work of an activity: a duration times a demand.
pub(crate) const MAX_WORK: u64 = 1_000_000_000_000;

/// No envelope is beyond this: a capacity times a head and a tail, and the work of all activities.
pub(crate) const MAX_ENVELOPE: u64 = 4_000_000_000_000_000;

/// A mark in a line of slots that no work reaches.
pub(crate) const FAR_MARK: u64 = 9_000_000_000_000_000;
