//! Why a text is no project.

ghost use Rattle.std.specs.Prelude.{◌≡◌};
ghost use Rattle.sch_reader.specs.declared.fault.SchFault.TheVariants.{Memory};

use std::alloc::{AllocError, AllocFailed};
use thiserror::Error;

/// Why a text could not be read: the first fault in the order of its words. Words and rows count from 0. A network row
/// has the number of its activity, and request rows go on from there.
#[derive(Clone, Copy, PartialEq, Eq, Debug, Error)]
pub enum SchFault {
    /// The text has more than 16,777,216 bytes, whatever it holds.
    #[error("too long")]
    TooLong,
    /// This word is no token: a minus or nothing, and then 1 to 9 digits.
    #[error("word {index}: not a number")]
    Token { index: usize },
    /// The text ends before this word.
    #[error("ends before word {index}")]
    Short { index: usize },
    /// This word comes after a whole project.
    #[error("word {index}: one too many")]
    Trailing { index: usize },
    /// The header tells of resources that are not renewable.
    #[error("resources other than renewable")]
    NotRenewable,
    /// The activity of this row has several modes, or another than mode 1.
    #[error("row {row}: more than one mode")]
    Modes { row: usize },
    /// This row begins with another number than that of its activity.
    #[error("row {row}: numbered {found}")]
    RowNumber { row: usize, found: i64 },
    /// This network row names an end that is no activity.
    #[error("row {row}: no activity {found}")]
    Activity { row: usize, found: i64 },
    /// This word's number is out of its range.
    #[error("word {index}: out of range")]
    Range { index: usize },
    /// This request row gives the start or the end a duration or a demand.
    #[error("row {row}: a dummy with duration or demand")]
    Dummy { row: usize },
    /// Memory ran out.
    #[error("out of memory")]
    Memory,
}

impl From<AllocError> for SchFault {
    ghost from_gives = { λ _ e. e ≡ Memory };

    fn from(_e: AllocError) -> SchFault {
        SchFault::Memory
    }
}

impl<T: Drop> From<AllocFailed<T>> for SchFault {
    ghost from_gives = { λ _ e. e ≡ Memory };

    fn from(_e: AllocFailed<T>) -> SchFault {
        SchFault::Memory
    }
}
