//! What a caller puts between the steps of workers.

ghost use Rattle.std.specs.Prelude.{◌≡◌};
ghost use Rattle.std.specs.Arc.{arc_value};
ghost use Rattle.branching.specs.Path.{IsAt};

use branching::{OpenNode, Report, Searcher};
use std::alloc::{AllocError, Global};
use std::marker::Sync;
use std::sync::{Arc, Wait};

/// Where a worker stands, without the lock.
#[derive(Clone, Copy, Debug, PartialEq, Eq)]
pub enum Moment {
    /// It has taken the node of this name, and has not begun to expand it.
    Taken { name: u64 },
    /// Its report on the node of this name was accepted.
    CheckedIn { name: u64 },
    /// It takes no node any more.
    Ended,
}

/// What the workers of a search pass and call while they don't hold the lock. A caller's gate may wait, count, or
/// expand nodes in its own way. A report is fair whoever makes it, so no gate can make an outcome wrong.
pub trait Gate: Sync {
    /// Called by a worker at each moment.
    fn pass<R: Wait>(&self, rt: &R, worker: usize, moment: Moment);

    /// The report on the node that the worker's searcher is at, under a ceiling.
    fn expand<R: Wait>(
        &self,
        _rt: &R,
        alloc: Global,
        searcher: &mut Searcher,
        node: &Arc<OpenNode>,
        ceiling: Option<i64>,
    ) -> Result<Report, AllocError>
        requires { IsAt searcher.old (arc_value node.now) }
        ensures { searcher.new ≡ searcher.old }
    {
        searcher.expand_here(alloc, node, ceiling)
    }
}

/// A gate that holds nobody and expands as the search in one thread does.
pub struct OpenGate;

impl Gate for OpenGate {
    fn pass<R: Wait>(&self, _rt: &R, _worker: usize, _moment: Moment) {}
}
