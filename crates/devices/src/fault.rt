//! What can go wrong in a run of psmax or psprove, with its line and its exit status.

ghost use Rattle.std.specs.Prelude.{◌≡◌};
ghost use Rattle.devices.specs.Faults.{exit_of, fault_of, starts_fault_of, record_exit, record_fault_of, event_fault_of};
ghost use Rattle.devices.specs.declared.fault.Fault.TheVariants as faults;

use record_text::{EventFault, RecordFault, RecordFaultKind, Wrong};
use sch_reader::SchFault;
use schedule_check::StartsFault;
use std::alloc::{AllocError, AllocFailed};
use thiserror::Error;

/// Why a run has no answer, with the text that is printed after the program's name.
#[derive(Clone, Copy, Debug, PartialEq, Eq, Error)]
pub enum Fault {
    #[error("out of memory")]
    Memory,
    #[error("cannot read")]
    ReadFailed,
    #[error("cannot write")]
    WriteFailed,
    #[error("cannot start a thread")]
    Thread,
    #[error("another project")]
    OtherProject,
    #[error("search refused")]
    Refused,
    #[error("too long")]
    TooLong,
    /// A text is no project.
    #[error("{cause}")]
    Project { cause: SchFault },
    /// A text has no starts for a project.
    #[error("{cause}")]
    Starts { cause: StartsFault },
    /// A text is no record of a tree, or one that is wrong.
    #[error("{cause}")]
    Record { cause: RecordFault },
    /// A record of lemmas is wrong.
    #[error("{cause}")]
    Event { cause: EventFault },
}

/// The exit status where a record of a tree has a fault of this kind: 2 for its text, and else 4.
fn record_exit(kind: RecordFaultKind) -> u8
    ensures { result ≡ record_exit kind }
{
    match kind {
        RecordFaultKind::Form | RecordFaultKind::Short | RecordFaultKind::Trailing => 2,
        _ => 4,
    }
}

impl Fault {
    /// The exit status: 1 for memory, threads and devices, 2 for a text with a fault, 4 for a record that is wrong.
    pub fn exit(self) -> u8
        ensures { result ≡ exit_of self }
    {
        match self {
            Fault::Memory
            | Fault::ReadFailed
            | Fault::WriteFailed
            | Fault::Thread
            | Fault::OtherProject
            | Fault::Refused => 1,
            Fault::TooLong | Fault::Project { .. } | Fault::Starts { .. } => 2,
            Fault::Record { cause } => record_exit(cause.kind),
            Fault::Event { .. } => 4,
        }
    }
}

impl From<AllocError> for Fault {
    ghost from_gives = { λ _ fault. fault ≡ faults.Memory };

    fn from(_error: AllocError) -> Fault {
        Fault::Memory
    }
}

impl<T: Drop> From<AllocFailed<T>> for Fault {
    ghost from_gives = { λ _ fault. fault ≡ faults.Memory };

    fn from(_error: AllocFailed<T>) -> Fault {
        Fault::Memory
    }
}

impl From<SchFault> for Fault {
    ghost from_gives = { λ cause fault. fault ≡ fault_of cause };

    fn from(cause: SchFault) -> Fault {
        match cause {
            SchFault::Memory => Fault::Memory,
            _ => Fault::Project { cause },
        }
    }
}

impl From<StartsFault> for Fault {
    ghost from_gives = { λ cause fault. fault ≡ starts_fault_of cause };

    fn from(cause: StartsFault) -> Fault {
        match cause {
            StartsFault::Memory => Fault::Memory,
            _ => Fault::Starts { cause },
        }
    }
}

impl From<RecordFault> for Fault {
    ghost from_gives = { λ cause fault. fault ≡ record_fault_of cause };

    fn from(cause: RecordFault) -> Fault {
        match cause.kind {
            RecordFaultKind::Memory => Fault::Memory,
            RecordFaultKind::TooLong => Fault::TooLong,
            _ => Fault::Record { cause },
        }
    }
}

impl From<EventFault> for Fault {
    ghost from_gives = { λ cause fault. fault ≡ event_fault_of cause };

    fn from(cause: EventFault) -> Fault {
        match cause.wrong {
            Wrong::Memory => Fault::Memory,
            _ => Fault::Event { cause },
        }
    }
}
