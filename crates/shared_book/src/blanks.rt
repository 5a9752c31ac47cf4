//! The new ledgers of a shared book.

ghost use Rattle.std.specs.Prelude.{◌≡◌, ◌+◌, ◌*◌, ◌≤◌};

use std::sync::ledger::Blank;

/// New ledgers for one shared book: of the reports that were accepted, with a part for each worker, and of the steps
/// under the lock, with three parts for each worker's key and for one key more.
#[derive(Drop)]
pub struct Blanks {
    pub(crate) accepted: Blank,
    pub(crate) steps: Blank,
    ghost enough: { steps.parts ≡ 3 * (accepted.parts + 1) },
}

impl Blanks {
    /// Ledgers for so many workers.
    pub fn new(workers: usize) -> Blanks
        requires { workers ≤ 64 }
        ensures { result.accepted.parts ≡ workers }
    {
        let workers = workers as u64;
        Blanks {
            accepted: Blank::new(workers),
            steps: Blank::new(3 * (workers + 1)),
        }
    }
}
