//! The book that workers share, under its lock.

ghost use Rattle.std.specs.Prelude.{◌≡◌, ◌+◌, ◌*◌, ℕ, IfOk, IfErr, map, sum_by, vec_len};
ghost use Rattle.shared_book.specs.Ceiling.{Lowers, Sees};
ghost use Rattle.shared_book.specs.Desks.{IsRow, IsRowAt, SameButKey, SameButSeat, SeatedAt, CountsAccepted, tally_of};
ghost use Rattle.branching.specs.Fair.{AreListsOf};
ghost use Rattle.shared_book.specs.Locking.{CountsAnswer, CountsStop, IsEndFor, IsOfGivingBack, IsOneMore, steps_of_none};

use crate::blanks::Blanks;
use crate::fault::WorkFault;
use crate::key::Key;
use crate::locked::Locked;
use crate::state::{Tally, WorkerState};
use crate::{BestSeat, SharedCeiling};
use book::{Book, CheckFault, OtherProject, Take, Ticket};
use branching::{Branches, Report};
use network::Schedule;
use std::alloc::{AllocError, Global};
use std::sync::ledger::{Ledger, Share};
use std::sync::{Condvar, Mutex, MutexGuard, Wait};

/// What workers share: the book under its lock, a bell that tells of its changes, and the shared ceiling. Each method that
/// locks takes a key, and makes one step with it, but `stop`, which may make two.
#[derive(Drop)]
pub struct Shared<L: Ledger, S: Ledger> {
    locked: Mutex<Locked<L, S>>,
    changed: Condvar,
    best: SharedCeiling,
}

fn new_desk<L: Ledger, S: Ledger>(
    number: usize,
    share: Share<L>,
    key: Key<S>,
    seat: BestSeat,
) -> WorkerState<L, S>
    requires { (share.parts ≡ 1) × (share.amount ≡ 0) }
    ensures { (result.number ≡ number) × (result.accepted ≡ 0) × (result.ahead ≡ 0) × (result.seat ≡ seat) }
{
    WorkerState {
        number,
        accepted: 0,
        ahead: 0,
        share,
        key,
        seat,
    }
}

/// A desk for each worker, with a part and a key each, the share without a part that is left, and a key more.
fn desks_for<L: Ledger, S: Ledger>(
    alloc: Global,
    workers: usize,
    best: &SharedCeiling,
    mut seat: BestSeat,
    mut all: Share<L>,
    mut keys: Share<S>,
) -> Result<(Vec<WorkerState<L, S>>, Share<L>, Key<S>), AllocError>
    requires parts { (all.parts ≡ workers) × (all.amount ≡ 0) × (seat.ceiling ≡ best.now) }
    requires keys { (keys.parts ≡ 3 * (workers + 1)) × (keys.amount ≡ 0) }
    ensures count { IfOk result (λ r. vec_len r.0 ≡ workers) }
    ensures each { IfOk result (λ r. IsRowAt best.now 0 r.0.items) }
    ensures rest { IfOk result (λ r. (r.1.parts ≡ 0) × (r.1.amount ≡ 0)) }
    ensures key { IfOk result (λ r. r.2 ≡ steps_of_none) }
{
    let mut desks = Vec::new(alloc);
    for number in 0..workers {
        let share = all.split_off(1, 0);
        let key = Key::new(keys.split_off(3, 0));
        let desk = new_desk(number, share, key, best.split(&mut seat));
        desks.push(desk)?;
    }
    Ok((desks, all, Key::new(keys)))
}

/// What the desks counted, and their shares as one.
fn gather<L: Ledger, S: Ledger>(
    alloc: Global,
    desks: Vec<WorkerState<L, S>>,
    mut all: Share<L>,
) -> Result<(Vec<Tally>, Share<L>), AllocError>
    ensures tallies { IfOk result (λ r. r.0.items ≡ map tally_of desks.items) }
    ensures parts { IfOk result (λ r. r.1.parts ≡ all.parts + vec_len desks) }
    ensures amount { IfOk result (λ r. r.1.amount ≡ all.amount + sum_by (λ t. t.accepted) r.0.items) }
{
    let mut tallies = Vec::with_capacity(alloc, desks.len())?;
    for desk in desks {
        let WorkerState {
            accepted,
            ahead,
            share,
            ..
        } = desk;
        all.merge(share);
        tallies.push_reserved(Tally { accepted, ahead });
    }
    Ok((tallies, all))
}

impl<L: Ledger, S: Ledger> Shared<L, S> {
    /// A book that has checked nothing in under a new lock, a desk for each worker, in the order of their numbers, and
    /// a key for the caller.
    pub fn open(
        alloc: Global,
        blanks: Blanks,
        book: Book,
        workers: usize,
    ) -> Result<(Shared<L, S>, Vec<WorkerState<L, S>>, Key<S>), AllocError>
        requires accepted { (blanks.accepted.name ≡ L.name) × (blanks.accepted.parts ≡ L.parts) }
        requires steps { (blanks.steps.name ≡ S.name) × (blanks.steps.parts ≡ S.parts) }
        requires one_each { blanks.accepted.parts ≡ workers }
        requires unused { book.checked ≡ 0 }
        ensures desks { IfOk result (λ r. vec_len r.1 ≡ workers) }
        ensures each { IfOk result (λ r. IsRow r.0 r.1.items) }
    {
        let Blanks { accepted, steps } = blanks;
        let (best, seat) = SharedCeiling::open(alloc, u64::MAX)?;
        let (shares, all) = accepted.open::<L>();
        let (steps, keys) = steps.open::<S>();
        let (desks, rest, key) = desks_for(alloc, workers, &best, seat, all, keys)?;
        let shared = Shared {
            locked: Mutex::new(Locked::new(book, shares, rest, steps)),
            changed: Condvar::new(),
            best,
        };
        Ok((shared, desks, key))
    }

    /// Gives the lock back, and wakes up those who wait for a change.
    fn wake_up(&self, mut locked: MutexGuard<Locked<L, S>>) {
        let awaited = locked.take_awaited();
        drop(locked);
        if awaited {
            self.changed.notify_all();
        }
    }

    /// The next node for a desk's worker, which waits for one while all nodes are in other hands. None if the book has
    /// none for it any more. The others wake up, so that they see that too.
    pub fn next_ticket<R: Wait>(&self, rt: &R, desk: &mut WorkerState<L, S>) -> Option<Ticket>
        ensures step { CountsAnswer desk.old.key result desk.new.key }
        ensures same { SameButKey desk.old desk.new }
    {
        let mut locked = self.locked.lock(rt);
        for _ in rt.forever() {
            match locked.take(&mut desk.key, desk.number) {
                Take::Ticket(ticket) => return Some(ticket),
                Take::Idle => locked = self.changed.wait(rt, locked),
                _ => {
                    self.wake_up(locked);
                    return None;
                }
            }
        }
        unreachable!()
    }

    /// Checks a report in, and counts at the desk what came of it: the lists of one that was accepted.
    pub fn check_in<R: Wait>(
        &self,
        rt: &R,
        desk: &mut WorkerState<L, S>,
        name: u64,
        report: Report,
    ) -> Result<Branches, CheckFault>
        ensures step { IsOneMore desk.old.key desk.new.key }
        ensures same { (desk.new.number ≡ desk.old.number) × (desk.new.seat ≡ desk.old.seat) }
        ensures counts { CountsAccepted desk.old result desk.new }
        ensures lists { IfOk result (AreListsOf report) }
    {
        let WorkerState {
            accepted,
            ahead,
            share,
            key,
            ..
        } = desk;
        let mut locked = self.locked.lock(rt);
        let checked = locked.check_in(key, share, name, report);
        self.wake_up(locked);
        match checked {
            Ok((_, made)) => {
                *accepted += 1;
                Ok(made)
            }
            Err((_, fault)) => {
                if let CheckFault::AheadOfBook { .. } = fault {
                    *ahead = ahead.saturating_add(1);
                }
                Err(fault)
            }
        }
    }

    /// Ends the search after a fault of a report on the node of this name, and wakes up those who wait. For want of
    /// memory the node is given back first.
    pub fn stop<R: Wait>(
        &self,
        rt: &R,
        desk: &mut WorkerState<L, S>,
        name: u64,
        fault: CheckFault,
    ) -> WorkFault
        ensures steps { CountsStop desk.old.key fault desk.new.key }
        ensures end { IsEndFor fault result }
        ensures same { SameButKey desk.old desk.new }
    {
        let mut locked = self.locked.lock(rt);
        let ended = locked.stop(&mut desk.key, name, fault);
        self.wake_up(locked);
        ended
    }

    /// Ends the search: no node is handed out from now on.
    pub fn halt<R: Wait>(&self, rt: &R, key: &mut Key<S>)
        ensures { IsOneMore key.old key.new }
    {
        let mut locked = self.locked.lock(rt);
        locked.halt(key);
        self.wake_up(locked);
    }

    /// Gives the node in hand under a name back, as [`Book::give_back`] does, and wakes up those who wait. Any thread
    /// may call it at any time. The report on a node that was given back so is refused.
    pub fn give_back<R: Wait>(&self, rt: &R, key: &mut Key<S>, name: u64) -> Result<(), CheckFault>
        ensures step { IsOneMore key.old key.new }
        ensures fault { IfErr result IsOfGivingBack }
    {
        let mut locked = self.locked.lock(rt);
        let given = locked.give_back(key, name);
        self.wake_up(locked);
        given
    }

    /// Offers a schedule to the book, as [`Book::offer`] does, and wakes up those who wait. One of another project is
    /// handed back. Any thread may call it at any time.
    pub fn offer<R: Wait>(
        &self,
        rt: &R,
        key: &mut Key<S>,
        schedule: Schedule,
    ) -> Result<bool, (Schedule, OtherProject)>
        ensures step { IsOneMore key.old key.new }
        ensures refused { IfErr result (λ refused. refused.0 ≡ schedule) }
    {
        let mut locked = self.locked.lock(rt);
        let offered = locked.offer(key, schedule);
        self.wake_up(locked);
        offered
    }

    /// The makespan that the shared ceiling holds, in periods. `u64::MAX` stands for no schedule yet.
    pub fn look(&self, desk: &mut WorkerState<L, S>) -> u64
        requires { SeatedAt self.now desk.old }
        ensures seated { SeatedAt self.now desk.new }
        ensures same { SameButSeat desk.old desk.new }
        ensures seen { Sees desk.old.seat.view result desk.new.seat.view }
    {
        self.best.look(&mut desk.seat)
    }

    /// Offers a makespan, in periods, to the shared ceiling, through the desk's seat. The book knows nothing of it. A number
    /// that no schedule has costs expansions and no truth.
    pub fn tell(&self, desk: &mut WorkerState<L, S>, makespan: u64)
        requires { SeatedAt self.now desk.old }
        ensures seated { SeatedAt self.now desk.new }
        ensures same { SameButSeat desk.old desk.new }
        ensures lowered { (found : ℕ) × Lowers desk.old.seat.view found makespan desk.new.seat.view }
    {
        self.best.offer(&mut desk.seat, makespan);
    }

    /// The book, and what the desks counted, in their order. It takes all desks. The nodes that the book has checked in
    /// are those that were accepted at the desks.
    pub fn close(
        self,
        alloc: Global,
        desks: Vec<WorkerState<L, S>>,
    ) -> Result<(Book, Vec<Tally>), AllocError>
        requires { vec_len desks ≡ L.parts }
        ensures shares { IfOk result (λ r. sum_by (λ t. t.accepted) r.1.items ≡ r.0.checked) }
        ensures tallies { IfOk result (λ r. r.1.items ≡ map tally_of desks.items) }
    {
        let Shared { locked, .. } = self;
        let (book, mut shares, rest) = locked.into_inner().into_parts();
        let (tallies, mut all) = gather(alloc, desks, rest)?;
        shares.audit(&mut all);
        Ok((book, tallies))
    }
}
