//! What the methods of a book answer.

use branching::OpenNode;
use std::alloc::AllocError;
use std::sync::Arc;

/// The most workers that a book may have.
pub const MAX_WORKERS: usize = 64;

/// Why a book can't be opened.
#[derive(Clone, Copy, Debug, PartialEq, Eq)]
pub enum BookFault {
    /// There are not 1 to [`MAX_WORKERS`] workers, or not 1 to [`MAX_EXPANDED`](plain_search::MAX_EXPANDED) takes.
    Limit,
    /// Memory ran out.
    Memory,
}

impl From<AllocError> for BookFault {
    ghost use Rattle.std.specs.Prelude.{◌≡◌};
    ghost use Rattle.book.specs.declared.answers.BookFault.TheVariants.{Memory};

    ghost from_gives = { λ error fault. fault ≡ Memory };

    fn from(_: AllocError) -> BookFault {
        BookFault::Memory
    }
}

/// A node that a worker has taken.
#[derive(Drop, Debug)]
pub struct Ticket {
    /// The name that its report is checked in under.
    pub name: u64,
    pub node: Arc<OpenNode>,
    /// The best makespan, in periods, when it was taken.
    pub ceiling: Option<i64>,
}

/// The answer to a worker that asks for a node.
#[derive(Drop, Debug)]
pub enum Take {
    /// The book has no worker of this number.
    NoSuchWorker,
    /// This worker has a node in hand already.
    HandsFull,
    /// The book was halted.
    Halted,
    /// No node is open or in hand: the search is over.
    Done,
    /// No node is open, but some are in hand: their children may be taken later.
    Idle,
    /// As many nodes were taken as the book allows.
    LimitReached,
    Ticket(Ticket),
}

/// What an accepted report did.
#[derive(Clone, Copy, Debug, PartialEq, Eq)]
pub struct CheckedIn {
    /// How many of its children were opened.
    pub opened: u64,
    /// Whether what it found is the new best.
    pub improved: bool,
}

/// Why a report is refused, or why a node can't be given back.
#[derive(Clone, Copy, Debug, PartialEq, Eq)]
pub enum CheckFault {
    /// No node was opened under this name.
    Unknown,
    /// The node under this name was checked in before, was cut, or is open.
    NotInHand,
    /// The report is on other pairs than the node's.
    OtherNode,
    /// The report is on a node of another project.
    OtherProject,
    /// The report's ceiling is below the best makespan, which this tells. The report may have left out schedules that
    /// are still wanted.
    AheadOfBook { best: Option<i64> },
    /// Memory ran out.
    Memory,
}

/// The schedule is of another project.
#[derive(Clone, Copy, Debug, PartialEq, Eq)]
pub struct OtherProject;
