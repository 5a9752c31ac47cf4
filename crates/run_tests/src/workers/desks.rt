//! One worker at a desk, or two at desks of one book, and what they leave.

ghost use Rattle.std.specs.Prelude.{◌≡◌, IfOk};
ghost use Rattle.shared_book.specs.Desks.{SeatedAt};

use crate::gates::{HoldingGate, Holds, Meddler, Waker};
use crate::workers::asked::{WorkerRow, asked_by, schedule_of};
use crate::workers::solving::{numbers, starts_of};
use book::{Book, CheckFault, Take};
use network::Schedule;
use node_tests::one_machine;
use shared_book::{Blanks, Key, Shared, Tally, WorkerState};
use std::alloc::Global;
use std::marker::Brand;
use std::sync::atomic::{AtomicU64, Ordering};
use std::sync::ledger::Ledger;
use std::sync::{Arc, Mutex, Wait};
use std::test::Fail;
use std::thread;
use std::thread::Threads;
use worker::{SolveFault, work};

/// How a worker ended; its number, and how many of its reports its desk counts as accepted and as ahead; what the gate
/// heard, and how often it was called.
#[derive(Drop)]
struct Worked {
    ended: Result<(), SolveFault>,
    at_desk: (usize, u64, u64),
    heard: String,
    calls: u64,
}

/// What a worker leaves: what its desk counted, the counts of the book, its best starts, and what it answers to the
/// next take.
#[derive(Drop)]
struct Left {
    worked: Worked,
    tally: Tally,
    counts: [u64; 6],
    best: String,
    then: Take,
}

impl Left {
    /// Whether the nodes opened are those checked in, cut, open and in hand, and one is open or in hand. The book has
    /// to say so too: it is halted, and a worker that could not give its node back has its hands full.
    fn is_halted(&self) -> bool {
        let [opened, checked, cut, _, waiting, hand] = self.counts;
        let left = waiting.saturating_add(hand);
        let settled = checked.saturating_add(cut);
        let is_told = if hand > 0 {
            matches!(self.then, Take::HandsFull)
        } else {
            matches!(self.then, Take::Halted)
        };
        opened == settled.saturating_add(left) && left > 0 && is_told
    }

    /// Whether a gate without memory was called, and the node that it was called for is open again.
    fn is_given_back(&self, asked: &WorkerRow<'_>) -> bool {
        let [_, _, _, _, waiting, hand] = self.counts;
        asked.holds == Holds::WithoutMemory && self.worked.calls > 0 && waiting > 0 && hand == 0
    }

    /// Whether the desk tells what it counted.
    fn is_of_desk(&self) -> bool {
        let Tally { accepted, ahead } = self.tally;
        self.worked.at_desk == (0, accepted, ahead)
    }
}

/// A gate that does what a row asks for, with a schedule to offer.
fn meddler<'a, L: Ledger, S: Ledger>(
    shared: &'a Shared<L, S>,
    key: Key<S>,
    start: Option<Schedule>,
    asked: &WorkerRow<'_>,
) -> Meddler<'a, L, S> {
    Meddler {
        shared,
        key: Mutex::new(key),
        gives_back: asked.gives_back,
        start: Mutex::new(start),
        ceiling: asked.ceiling,
        lowered: asked.lowered,
        without_memory: asked.holds == Holds::WithoutMemory,
        calls: AtomicU64::new(0),
        offered: AtomicU64::new(0),
        given_back: AtomicU64::new(0),
    }
}

/// Lets a worker work at a desk, as a row asks.
fn works_at<L: Ledger + Sync, S: Ledger + Send + Sync, R: Wait>(
    rt: &R,
    alloc: Global,
    shared: &Shared<L, S>,
    desk: &mut WorkerState<L, S>,
    key: Key<S>,
    asked: &WorkerRow<'_>,
) -> Result<Worked, Fail>
    requires { SeatedAt shared.now desk.old }
{
    let start = schedule_of(alloc, asked.starts)?;
    let gate = meddler(shared, key, start, asked);
    shared.tell(desk, asked.tells);
    let ended = work(rt, alloc, shared, desk, &gate);
    Ok(Worked {
        ended,
        at_desk: (desk.number(), desk.accepted(), desk.ahead()),
        heard: gate.heard(alloc)?,
        calls: gate.calls.load(Ordering::SeqCst),
    })
}

/// A book of one machine for so many workers.
fn machine_book(alloc: Global, workers: usize) -> Result<Book, Fail>
    ensures { IfOk result (λ book. book.checked ≡ 0) }
{
    let project = Arc::new(alloc, one_machine(alloc, &[])?)?;
    Ok(Book::open(alloc, project, workers, 100)?)
}

/// What a worker leaves that worked at a book.
fn left_in(alloc: Global, book: &mut Book, tally: Tally, worked: Worked) -> Result<Left, Fail> {
    let counts = numbers(&book.counts());
    let starts = starts_of(book.best());
    let best = format!(in alloc; "{starts:?}")?;
    Ok(Left {
        worked,
        tally,
        counts,
        best,
        then: book.take(0),
    })
}

/// What one worker on one machine leaves.
fn left_by<L: Ledger + Sync, S: Ledger + Send + Sync, R: Wait>(
    rt: &R,
    alloc: Global,
    blanks: Blanks,
    asked: &WorkerRow<'_>,
) -> Result<Left, Fail>
    requires accepted { (blanks.accepted.name ≡ L.name) × (blanks.accepted.parts ≡ L.parts) }
    requires steps { (blanks.steps.name ≡ S.name) × (blanks.steps.parts ≡ S.parts) }
    requires one { blanks.accepted.parts ≡ 1 }
{
    let book = machine_book(alloc, 1)?;
    let (shared, mut desks, key) = Shared::<L, S>::open(alloc, blanks, book, 1)?;
    let worked = works_at(rt, alloc, &shared, &mut desks[0], key, asked)?;
    let (mut book, tallies) = shared.close(alloc, desks)?;
    left_in(alloc, &mut book, tallies[0], worked)
}

/// How a worker ended. The want of memory of a book that it left sound ends the test, but where it is asked for.
fn end_of(alloc: Global, left: &Left, asked: &WorkerRow<'_>) -> Result<String, Fail> {
    match left.worked.ended {
        Ok(()) => Ok(String::from_str(alloc, "over")?),
        Err(SolveFault::Memory) if left.is_halted() && !left.is_given_back(asked) => {
            Err(SolveFault::Memory.into())
        }
        Err(fault) => Ok(format!(in alloc; "{fault:?}")?),
    }
}

/// What is told of what a worker leaves.
fn left_text(alloc: Global, left: &Left, asked: &WorkerRow<'_>) -> Result<String, Fail> {
    let end = end_of(alloc, left, asked)?;
    let Tally { accepted, ahead } = left.tally;
    let (counts, then) = (left.counts, &left.then);
    let (best, heard) = (&left.best, &left.worked.heard);
    let desk = if left.is_of_desk() { "same" } else { "other" };
    Ok(format!(in alloc;
        "; {end}; accepted {accepted}; ahead {ahead}; {desk} at the desk; counts {counts:?}; best {best}; \
        {heard}; then {then:?};"
    )?)
}

/// What is told of one worker on one machine. A row asks for what it wants to see, and for schedules that are offered
/// meanwhile, and so on.
pub(super) fn told<R: Wait>(rt: &R, alloc: Global, row: &str) -> Result<String, Fail> {
    let asked = asked_by(row);
    let left = left_by::<Brand, Brand, _>(rt, alloc, Blanks::new(1), &asked)?;
    left_text(alloc, &left, &asked)
}

/// How two workers end that work side by side.
fn ends_at<L: Ledger + Send + Sync, S: Ledger + Send + Sync, R: Threads + Wait + Sync>(
    rt: &R,
    alloc: Global,
    shared: &Shared<L, S>,
    first: WorkerState<L, S>,
    second: WorkerState<L, S>,
    gate: &Waker<'_, L, S>,
) -> [Result<(), SolveFault>; 2]
    requires first { SeatedAt shared.now first }
    requires second { SeatedAt shared.now second }
{
    let (one, other) = thread::join(
        rt,
        move || -> Result<(), SolveFault>
            requires { SeatedAt shared.now first }
        {
            let mut desk = first;
            work(rt, alloc, shared, &mut desk, gate)
        },
        move || -> Result<(), SolveFault>
            requires { SeatedAt shared.now second }
        {
            let mut desk = second;
            work(rt, alloc, shared, &mut desk, gate)
        },
    );
    [one, other]
}

/// How two workers on one machine end, of which the first to take the root loses it to the other, and how often the
/// gate gave up to wait for that one.
fn ends_of_two<L: Ledger + Send + Sync, S: Ledger + Send + Sync, R: Threads + Wait + Sync>(
    rt: &R,
    alloc: Global,
    blanks: Blanks,
) -> Result<([Result<(), SolveFault>; 2], u64), Fail>
    requires accepted { (blanks.accepted.name ≡ L.name) × (blanks.accepted.parts ≡ L.parts) }
    requires steps { (blanks.steps.name ≡ S.name) × (blanks.steps.parts ≡ S.parts) }
    requires two { blanks.accepted.parts ≡ 2 }
{
    let book = machine_book(alloc, 2)?;
    let (shared, mut desks, key) = Shared::<L, S>::open(alloc, blanks, book, 2)?;
    let Some(second) = desks.pop() else {
        unreachable!()
    };
    let Some(first) = desks.pop() else {
        unreachable!()
    };
    let gate = Waker {
        shared: &shared,
        key: Mutex::new(key),
        taken: AtomicU64::new(0),
        watch: HoldingGate::new(Holds::Nobody),
    };
    let ends = ends_at(rt, alloc, &shared, first, second, &gate);
    Ok((ends, gate.watch.seen().gave_up))
}

/// What is told of two workers. Want of memory ends the test, and so does want of a thread: then one worker waits in
/// vain.
pub(super) fn two_told<R: Threads + Wait + Sync>(rt: &R, alloc: Global) -> Result<String, Fail> {
    let (ends, gave_up) = ends_of_two::<Brand, Brand, _>(rt, alloc, Blanks::new(2))?;
    let lost = Err(SolveFault::Refused(CheckFault::NotInHand));
    if ends.contains(&Err(SolveFault::Memory)) {
        return Err(SolveFault::Memory.into());
    }
    if gave_up > 0 {
        return Err(SolveFault::Thread.into());
    }
    let one_lost = ends == [lost, Ok(())] || ends == [Ok(()), lost];
    Ok(format!(in alloc; "; one lost {one_lost};")?)
}
