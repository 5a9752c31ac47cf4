//! A gate that watches, holds and counts workers.

ghost use Rattle.std.specs.Prelude.{◌≡◌};
ghost use Rattle.std.specs.Arc.{arc_value};
ghost use Rattle.branching.specs.Path.{IsAt};

use branching::{OpenNode, Report, Searcher};
use network::Schedule;
use shared_book::{Key, Shared};
use std::alloc::{AllocError, Global};
use std::sync::atomic::{AtomicU64, Ordering};
use std::sync::ledger::Ledger;
use std::sync::{Arc, Mutex, Wait};
use std::thread;
use worker::{Gate, Moment};

/// Whom a gate holds.
#[derive(Clone, Copy, Debug, PartialEq, Eq)]
pub(crate) enum Holds {
    Nobody,
    /// Its second call of `expand`, until two reports were accepted.
    Second,
    /// The worker with node 6 until node 5 is taken, and the one with node 5 until the report on node 6 was accepted.
    Fifth,
    /// Each at its end, until so many have come to theirs.
    Ended(u64),
    /// It has no memory for any node.
    WithoutMemory,
    /// It makes each report under a ceiling of 1, of which the book knows nothing.
    Low,
    /// The workers with the nodes 5 and 6 until both are taken. This one of them makes reports under a ceiling of 1,
    /// and there is no memory for the other.
    Fails(usize),
}

impl Holds {
    /// What words say.
    pub(crate) fn of(words: &str) -> Holds {
        match words {
            "holds second" => Holds::Second,
            "holds fifth" => Holds::Fifth,
            "without memory" => Holds::WithoutMemory,
            "refuses first" => Holds::Fails(0),
            "refuses second" => Holds::Fails(1),
            _ => Holds::Nobody,
        }
    }

    /// Whether a search that called the gate so often ends with want of memory because of the gate.
    pub(crate) fn lacks_memory(self, calls: u64) -> bool {
        match self {
            Holds::WithoutMemory => calls > 0,
            Holds::Fails(1) => calls == 4,
            _ => false,
        }
    }
}

/// A gate that holds workers, for at most a million turns each, and counts.
#[derive(Drop)]
pub(crate) struct HoldingGate {
    pub(crate) holds: Holds,
    moments: AtomicU64,
    calls: AtomicU64,
    accepted: AtomicU64,
    of_first: AtomicU64,
    ended: AtomicU64,
    fifth_taken: AtomicU64,
    sixth_taken: AtomicU64,
    sixth_accepted: AtomicU64,
    holder_of_sixth: AtomicU64,
    gave_up: AtomicU64,
    ceiling: AtomicU64,
}

/// What a gate counted: the moments that workers passed, the calls of `expand`, the reports that were accepted, and
/// those of worker 0, the workers that ended, the holds that it gave up, and the ceiling of the third call.
#[derive(Clone, Copy, Debug, PartialEq, Eq)]
pub(crate) struct Seen {
    pub(crate) moments: u64,
    pub(crate) calls: u64,
    pub(crate) accepted: u64,
    pub(crate) of_first: u64,
    pub(crate) ended: u64,
    pub(crate) gave_up: u64,
    pub(crate) ceiling: u64,
}

impl HoldingGate {
    pub(crate) fn new(holds: Holds) -> HoldingGate {
        HoldingGate {
            holds,
            moments: AtomicU64::new(0),
            calls: AtomicU64::new(0),
            accepted: AtomicU64::new(0),
            of_first: AtomicU64::new(0),
            ended: AtomicU64::new(0),
            fifth_taken: AtomicU64::new(0),
            sixth_taken: AtomicU64::new(0),
            sixth_accepted: AtomicU64::new(0),
            holder_of_sixth: AtomicU64::new(0),
            gave_up: AtomicU64::new(0),
            ceiling: AtomicU64::new(0),
        }
    }

    pub(crate) fn seen(&self) -> Seen {
        Seen {
            moments: self.moments.load(Ordering::SeqCst),
            calls: self.calls.load(Ordering::SeqCst),
            accepted: self.accepted.load(Ordering::SeqCst),
            of_first: self.of_first.load(Ordering::SeqCst),
            ended: self.ended.load(Ordering::SeqCst),
            gave_up: self.gave_up.load(Ordering::SeqCst),
            ceiling: self.ceiling.load(Ordering::SeqCst),
        }
    }

    /// Yields until a count has reached a number. It gives up where another worker has ended before that, as workers do
    /// when memory is refused.
    fn wait_for(&self, count: &AtomicU64, number: u64) {
        let is_at_end = matches!(self.holds, Holds::Ended(_));
        for _ in 0..1_000_000u32 {
            let has_one_ended = self.ended.load(Ordering::SeqCst) > 0;
            if count.load(Ordering::SeqCst) >= number {
                return;
            }
            if has_one_ended && !is_at_end {
                break;
            }
            thread::yield_now();
        }
        self.gave_up.fetch_add(1, Ordering::SeqCst);
    }

    /// Counts an accepted report of a worker.
    fn count(&self, worker: usize) {
        if worker == 0 {
            self.of_first.fetch_add(1, Ordering::SeqCst);
        }
        self.accepted.fetch_add(1, Ordering::SeqCst);
    }

    /// Holds the workers with the nodes 5 and 6 until both are taken.
    fn hold_both(&self, worker: usize, moment: Moment) {
        match moment {
            Moment::Taken { name: 6 } => {
                let holder = worker as u64;
                self.holder_of_sixth.store(holder, Ordering::SeqCst);
                self.sixth_taken.fetch_add(1, Ordering::SeqCst);
                self.wait_for(&self.fifth_taken, 1);
            }
            Moment::Taken { name: 5 } => {
                self.fifth_taken.fetch_add(1, Ordering::SeqCst);
                self.wait_for(&self.sixth_taken, 1);
            }
            _ => {}
        }
    }

    /// The report of a worker that is refused, if this one of two is that of the node, which adds 3 before 2 under the
    /// name 6.
    fn fail(
        &self,
        alloc: Global,
        refused: usize,
        searcher: &mut Searcher,
        node: &Arc<OpenNode>,
    ) -> Result<Report, AllocError>
        requires { IsAt searcher.old (arc_value node.now) }
        ensures { searcher.new ≡ searcher.old }
    {
        let is_sixth = match node.pairs().get(0) {
            Some(pair) => pair.before == 3 && pair.after == 2,
            None => return searcher.expand_here(alloc, node, None),
        };
        let is_first = self.holder_of_sixth.load(Ordering::SeqCst) == 0;
        let worker = if is_sixth == is_first { 0 } else { 1 };
        if worker == refused {
            return searcher.expand_here(alloc, node, Some(1));
        }
        Err(AllocError)
    }

    /// Counts the worker that ends here, and holds it.
    fn end(&self) {
        self.ended.fetch_add(1, Ordering::SeqCst);
        if let Holds::Ended(count) = self.holds {
            self.wait_for(&self.ended, count);
        }
    }

    /// Holds the workers with the nodes 5 and 6: the first until the fifth is taken, and that until the sixth is
    /// accepted.
    fn hold_fifth(&self, moment: Moment) {
        match moment {
            Moment::Taken { name: 6 } => self.wait_for(&self.fifth_taken, 1),
            Moment::Taken { name: 5 } => {
                self.fifth_taken.fetch_add(1, Ordering::SeqCst);
                self.wait_for(&self.sixth_accepted, 1);
            }
            Moment::CheckedIn { name: 6 } => {
                self.sixth_accepted.fetch_add(1, Ordering::SeqCst);
            }
            _ => {}
        }
    }
}

impl Gate for HoldingGate {
    fn pass<R: Wait>(&self, _rt: &R, worker: usize, moment: Moment) {
        self.moments.fetch_add(1, Ordering::SeqCst);
        match moment {
            Moment::CheckedIn { .. } => self.count(worker),
            Moment::Ended => self.end(),
            Moment::Taken { .. } => {}
        }
        match self.holds {
            Holds::Fifth => self.hold_fifth(moment),
            Holds::Fails(_) => self.hold_both(worker, moment),
            _ => {}
        }
    }

    fn expand<R: Wait>(
        &self,
        _rt: &R,
        alloc: Global,
        searcher: &mut Searcher,
        node: &Arc<OpenNode>,
        ceiling: Option<i64>,
    ) -> Result<Report, AllocError> {
        let call = self.calls.fetch_add(1, Ordering::SeqCst);
        if call == 2 {
            let ceiling = ceiling.and_then(|ceiling| u64::try_from(ceiling).ok());
            self.ceiling.store(ceiling.unwrap_or(0), Ordering::SeqCst);
        }
        match self.holds {
            Holds::WithoutMemory => return Err(AllocError),
            Holds::Low => return searcher.expand_here(alloc, node, Some(1)),
            Holds::Fails(refused) => return self.fail(alloc, refused, searcher, node),
            Holds::Second if call == 1 => self.wait_for(&self.accepted, 2),
            _ => {}
        }
        searcher.expand_here(alloc, node, ceiling)
    }
}

/// The number of an answer.
fn answer(is: bool) -> u64 {
    if is { 1 } else { 2 }
}

/// A gate that acts once the root is taken: it gives the root back behind its worker's back, or offers a schedule. It
/// makes the first reports under a ceiling of its own.
#[derive(Drop)]
pub(crate) struct Meddler<'a, L: Ledger, S: Ledger> {
    pub(crate) shared: &'a Shared<L, S>,
    pub(crate) key: Mutex<Key<S>>,
    /// The node that is given back.
    pub(crate) gives_back: Option<u64>,
    pub(crate) start: Mutex<Option<Schedule>>,
    pub(crate) ceiling: Option<i64>,
    /// How many reports have that ceiling.
    pub(crate) lowered: u64,
    pub(crate) without_memory: bool,
    pub(crate) calls: AtomicU64,
    /// What an offer and a node that was given back were answered with: 1 for yes, 2 for no, and 0 where there was
    /// none.
    pub(crate) offered: AtomicU64,
    pub(crate) given_back: AtomicU64,
}

impl<'a, L: Ledger, S: Ledger> Meddler<'a, L, S> {
    /// What it was answered, and how often it was called.
    pub(crate) fn heard(&self, alloc: Global) -> Result<String, AllocError> {
        let offered = self.offered.load(Ordering::SeqCst);
        let given_back = self.given_back.load(Ordering::SeqCst);
        let calls = self.calls.load(Ordering::SeqCst);
        format!(in alloc; "offered {offered}; given back {given_back}; calls {calls}")
    }
}

impl<'a, L: Ledger + Sync, S: Ledger + Send + Sync> Gate for Meddler<'a, L, S> {
    fn pass<R: Wait>(&self, rt: &R, _worker: usize, moment: Moment) {
        let Moment::Taken { name } = moment else {
            return;
        };
        let mut key = self.key.lock(rt);
        if self.gives_back == Some(name) {
            let given = self.shared.give_back(rt, &mut *key, name).is_ok();
            self.given_back.store(answer(given), Ordering::SeqCst);
        }
        let start = self.start.lock(rt).take();
        if let Some(start) = start {
            let improved = matches!(self.shared.offer(rt, &mut *key, start), Ok(true));
            self.offered.store(answer(improved), Ordering::SeqCst);
        }
    }

    fn expand<R: Wait>(
        &self,
        _rt: &R,
        alloc: Global,
        searcher: &mut Searcher,
        node: &Arc<OpenNode>,
        ceiling: Option<i64>,
    ) -> Result<Report, AllocError> {
        let call = self.calls.fetch_add(1, Ordering::SeqCst);
        if self.without_memory {
            return Err(AllocError);
        }
        let own = if call < self.lowered {
            self.ceiling
        } else {
            None
        };
        searcher.expand_here(alloc, node, own.or(ceiling))
    }
}

/// A gate that gives the root back behind the back of its first worker, once the other had turns to wait for a node,
/// and holds that worker until a report was accepted.
#[derive(Drop)]
pub(crate) struct Waker<'a, L: Ledger, S: Ledger> {
    pub(crate) shared: &'a Shared<L, S>,
    pub(crate) key: Mutex<Key<S>>,
    pub(crate) taken: AtomicU64,
    pub(crate) watch: HoldingGate,
}

impl<'a, L: Ledger + Sync, S: Ledger + Send + Sync> Gate for Waker<'a, L, S> {
    fn pass<R: Wait>(&self, rt: &R, worker: usize, moment: Moment) {
        self.watch.pass(rt, worker, moment);
        let Moment::Taken { name: 0 } = moment else {
            return;
        };
        if self.taken.fetch_add(1, Ordering::SeqCst) > 0 {
            return;
        }
        for _ in 0..100_000u32 {
            thread::yield_now();
        }
        let _ = self.shared.give_back(rt, &mut *self.key.lock(rt), 0);
        self.watch.wait_for(&self.watch.accepted, 1);
    }
}
