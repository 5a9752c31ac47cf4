//! What a number means in a project's text, and which values fit.

ghost use Rattle.std.specs.Prelude.{◌≡◌};
ghost use Rattle.sch_reader.specs.Layout.{fits, misfit};

use crate::fault::SchFault;
use network::{MAX_ACTIVITIES, MAX_AMOUNT, MAX_LAG_WEIGHT, MAX_RESOURCES};

/// A place of a project text: what a number there stands for.
#[derive(Clone, Copy)]
pub(crate) enum Place {
    /// How many activities there are between the start and the end.
    Activities,
    /// How many resources there are.
    Resources,
    /// How many resources of another kind there are.
    OtherResources,
    /// The activity `id`, with which this row begins.
    Id { row: usize, id: usize },
    /// How many modes an activity has, or which one a row is about.
    Mode { row: usize },
    /// How many given arcs a row has, where at most `left` may still come.
    Count { left: usize },
    /// The end of an arc, an activity up to `last`.
    Successor { row: usize, last: usize },
    /// The lag of an arc, in periods.
    Lag,
    /// A duration or a demand of the start or the end.
    Nothing { row: usize },
    /// A duration, in periods, or a demand or a capacity.
    Amount,
}

impl Place {
    /// Whether a number fits here.
    pub(crate) fn fits(self, value: i64) -> bool
        ensures { result ≡ fits self value }
    {
        let (low, high) = match self {
            Place::Activities => (0, MAX_ACTIVITIES as i64 - 2),
            Place::Resources => (0, MAX_RESOURCES as i64),
            Place::OtherResources | Place::Nothing { .. } => (0, 0),
            Place::Id { id, .. } => return usize::try_from(value).is_ok_and(|v| v == id),
            Place::Mode { .. } => (1, 1),
            Place::Count { left } => return usize::try_from(value).is_ok_and(|v| v <= left),
            Place::Successor { last, .. } => return usize::try_from(value).is_ok_and(|v| v <= last),
            Place::Lag => (-MAX_LAG_WEIGHT, MAX_LAG_WEIGHT),
            Place::Amount => (0, MAX_AMOUNT),
        };
        low <= value && value <= high
    }

    /// The fault of a number that does not fit here, where the word at this index gives it.
    pub(crate) fn misfit(self, index: usize, value: i64) -> SchFault
        ensures { result ≡ misfit self index value }
    {
        match self {
            Place::Activities
            | Place::Resources
            | Place::Count { .. }
            | Place::Lag
            | Place::Amount => SchFault::Range { index },
            Place::OtherResources => SchFault::NotRenewable,
            Place::Id { row, .. } => SchFault::RowNumber { row, found: value },
            Place::Mode { row } => SchFault::Modes { row },
            Place::Successor { row, .. } => SchFault::Activity { row, found: value },
            Place::Nothing { row } => SchFault::Dummy { row },
        }
    }
}
