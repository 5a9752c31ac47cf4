//! Why a text has no starts of a project.

ghost use Rattle.std.specs.Prelude.{◌≡◌};
ghost use Rattle.schedule_check.specs.declared.fault.StartsFault.TheVariants.{Memory};

use std::alloc::{AllocError, AllocFailed};
use thiserror::Error;

/// Why a text of starts could not be read: its length, the first fault of its lines, or the first activity without a
/// start. Lines count from 1, activities from 0.
#[derive(Clone, Copy, PartialEq, Eq, Debug, Error)]
pub enum StartsFault {
    /// This line is not an activity and a start, with spaces or tabs between them. An activity has 1 to 4 digits. A
    /// start is a minus or nothing, and 1 to 10 digits.
    #[error("line {line}: not an activity and a start")]
    Token { line: usize },
    /// No line gives this activity a start, but one each activity before it.
    #[error("activity {activity}: no start")]
    Missing { activity: usize },
    /// This line names an activity that an earlier line has named.
    #[error("line {line}: repeated")]
    Repeated { line: usize },
    /// This line names an activity that is not there.
    #[error("line {line}: no such activity")]
    Activity { line: usize },
    /// Memory ran out.
    #[error("out of memory")]
    Memory,
    /// The text has more than 16,777,216 bytes, whatever it holds.
    #[error("too long")]
    TooLong,
}

impl From<AllocError> for StartsFault {
    ghost from_gives = { λ _ e. e ≡ Memory };

    fn from(_e: AllocError) -> StartsFault {
        StartsFault::Memory
    }
}

impl<T: Drop> From<AllocFailed<T>> for StartsFault {
    ghost from_gives = { λ _ e. e ≡ Memory };

    fn from(_e: AllocFailed<T>) -> StartsFault {
        StartsFault::Memory
    }
}
