//! Why a text is no record, or a record is not right.

ghost use Rattle.std.specs.Prelude.{◌≡◌};
ghost use Rattle.record_text.specs.TextFaults.{form};
ghost use Rattle.record_text.specs.declared.fault.RecordFaultKind.TheVariants.{Memory};

use std::alloc::{AllocError, AllocFailed};
use thiserror::Error;

/// What is wrong with a record.
#[derive(Clone, Copy, PartialEq, Eq, Debug, Error)]
pub enum RecordFaultKind {
    /// The line is not of the grammar where it stands, or lacks the LF at its end.
    #[error("form")]
    Form,
    /// The text ends before this line, which must come.
    #[error("short")]
    Short,
    /// The line stands after the last that a record of its kind needs, whatever it holds.
    #[error("trailing")]
    Trailing,
    /// The starts are no feasible schedule of the project with the makespan that is claimed. This and the
    /// next three are never said of a text, but of a record and a project.
    #[error("start")]
    Start,
    /// A `force` that is not right.
    #[error("force")]
    Force,
    /// A `split` that is not right.
    #[error("set")]
    Set,
    /// A `solved`, `cut` or `dead` that is not right.
    #[error("leaf")]
    Leaf,
    /// Memory ran out.
    #[error("out of memory")]
    Memory,
    /// The text has more than 268,435,456 bytes, whatever it holds.
    #[error("too long")]
    TooLong,
}

/// Why a text is not a record: its length, or the first fault of its lines. Or why a record is not right. Lines count
/// from 1; where no line is at fault the line is 0.
#[derive(Clone, Copy, PartialEq, Eq, Debug, Error)]
#[error("line {line}: {kind}")]
pub struct RecordFault {
    pub line: usize,
    pub kind: RecordFaultKind,
}

impl RecordFault {
    /// This line is not of the grammar where it stands.
    pub fn form(line: usize) -> RecordFault
        ensures { result ≡ form line }
    {
        RecordFault {
            line,
            kind: RecordFaultKind::Form,
        }
    }
}

/// Want of memory.
const NO_MEMORY: RecordFault = RecordFault {
    line: 0,
    kind: RecordFaultKind::Memory,
};

impl From<AllocError> for RecordFault {
    ghost from_gives = { λ _ fault. fault ≡ record { line = 0; kind = Memory } };

    fn from(_e: AllocError) -> RecordFault {
        NO_MEMORY
    }
}

impl<T: Drop> From<AllocFailed<T>> for RecordFault {
    ghost from_gives = { λ _ fault. fault ≡ record { line = 0; kind = Memory } };

    fn from(_e: AllocFailed<T>) -> RecordFault {
        NO_MEMORY
    }
}
