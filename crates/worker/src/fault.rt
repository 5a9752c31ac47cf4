//! What can go wrong in a search by workers.

use book::{BookFault, CheckFault};
use shared_book::WorkFault;
use std::alloc::AllocError;

/// Why a search by workers has no outcome.
#[derive(Clone, Copy, Debug, PartialEq, Eq)]
pub enum SolveFault {
    /// There are not 1 to [`MAX_WORKERS`](book::MAX_WORKERS) workers, or not 1 to
    /// [`MAX_EXPANDED`](plain_search::MAX_EXPANDED) takes.
    Limit,
    /// Memory ran out.
    Memory,
    /// A thread could not be started, or the workers ended before the search was over.
    Thread,
    /// A start is of another project, or the book is.
    OtherProject,
    /// The book refused a report, since somebody else gave the worker's node back or checked it in.
    Refused(CheckFault),
}

impl From<AllocError> for SolveFault {
    ghost use Rattle.std.specs.Prelude.{◌≡◌};
    ghost use Rattle.worker.specs.declared.fault.SolveFault.TheVariants.{Memory};

    ghost from_gives = { λ error fault. fault ≡ Memory };

    fn from(_: AllocError) -> SolveFault {
        SolveFault::Memory
    }
}

impl From<BookFault> for SolveFault {
    ghost use Rattle.worker.specs.Solving.{IsSolveFault};

    ghost from_gives = { IsSolveFault };

    fn from(fault: BookFault) -> SolveFault {
        match fault {
            BookFault::Limit => SolveFault::Limit,
            BookFault::Memory => SolveFault::Memory,
        }
    }
}

impl From<WorkFault> for SolveFault {
    ghost use Rattle.worker.specs.Solving.{IsWorkFault};

    ghost from_gives = { IsWorkFault };

    fn from(fault: WorkFault) -> SolveFault {
        match fault {
            WorkFault::Memory => SolveFault::Memory,
            WorkFault::Refused(fault) => SolveFault::Refused(fault),
        }
    }
}
