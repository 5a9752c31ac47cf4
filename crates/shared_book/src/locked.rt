//! A book and the shares of those who checked nodes in, under one lock.

ghost use Rattle.std.specs.Prelude.{◌≡◌, ◌+◌, ◌<◌, ◌≤◌, OnOk, OnErr};
ghost use Rattle.book.specs.Steps.{Takes, ChecksInForReuse, GivesBack, Offers};
ghost use Rattle.shared_book.specs.Locking.{CountsStop, CountsTake, GivesBackAndHalts, Halts, IsOneMore, IsTwoMore, Stops};

use crate::fault::WorkFault;
use crate::key::Key;
use book::{Book, CheckFault, CheckedIn, OtherProject, Take};
use branching::{Branches, Report};
use network::Schedule;
use std::mem;
use std::sync::ledger;
use std::sync::ledger::{Ledger, Share};

/// What the lock keeps: a search book, who checked its nodes in, and how many steps were made under the lock. Each node
/// that was checked in counts in one share, and each step in one key. What is done under the lock is one of its
/// methods: no other module reaches its fields.
#[derive(Drop)]
pub(crate) struct Locked<L: Ledger, S: Ledger> {
    book: Book,
    shares: ledger::Book<L>,
    /// A share without a part. It gathers the others in the end.
    rest: Share<L>,
    steps: ledger::Book<S>,
    /// Whether a worker waits for a change of the book.
    awaited: bool,
    ghost tied: { book.checked ≡ shares.total },
    ghost no_part: { (rest.parts ≡ 0) × (rest.amount ≡ 0) },
}

impl<L: Ledger, S: Ledger> Locked<L, S> {
    /// A book that has checked nothing in, with new ledgers.
    pub(crate) fn new(
        book: Book,
        shares: ledger::Book<L>,
        rest: Share<L>,
        steps: ledger::Book<S>,
    ) -> Locked<L, S>
        requires unused { (book.checked ≡ 0) × (shares.total ≡ 0) }
        requires no_part { (rest.parts ≡ 0) × (rest.amount ≡ 0) }
    {
        Locked {
            book,
            shares,
            rest,
            steps,
            awaited: false,
        }
    }

    /// The book, and the ledger of those who checked nodes in with its share without a part.
    pub(crate) fn into_parts(self) -> (Book, ledger::Book<L>, Share<L>)
        ensures tied { result.0.checked ≡ result.1.total }
        ensures no_part { (result.2.parts ≡ 0) × (result.2.amount ≡ 0) }
    {
        let Locked {
            book,
            shares,
            rest,
            ..
        } = self;
        (book, shares, rest)
    }

    /// Whether a worker waits for a change of the book. It is told now, so it is noted no longer.
    pub(crate) fn take_awaited(&mut self) -> bool {
        mem::replace(&mut self.awaited, false)
    }

    /// The next node for a worker. One that has to wait for it is noted.
    pub(crate) fn take(&mut self, key: &mut Key<S>, worker: usize) -> Take
        ensures step { Takes self.old.book worker result self.new.book }
        ensures counted { CountsTake key.old result key.new }
    {
        let Locked {
            book,
            steps,
            awaited,
            ..
        } = self;
        let taken = book.take(worker);
        match taken {
            Take::Ticket(_) => key.count_ticket(steps),
            Take::Idle => *awaited = true,
            _ => key.count_dismissal(steps),
        }
        taken
    }

    /// Checks a report in; one that is accepted counts in the share, and its lists come back.
    pub(crate) fn check_in(
        &mut self,
        key: &mut Key<S>,
        share: &mut Share<L>,
        name: u64,
        report: Report,
    ) -> Result<(CheckedIn, Branches), (Report, CheckFault)>
        requires { 0 < share.old.parts }
        ensures step { ChecksInForReuse self.old.book name report result self.new.book }
        ensures counted { IsOneMore key.old key.new }
        ensures parts { share.new.parts ≡ share.old.parts }
        ensures accepted { OnOk result (share.new.amount ≡ share.old.amount + 1) }
        ensures refused { OnErr result (share.new.amount ≡ share.old.amount) }
        ensures fits { share.new.amount ≤ 1000000000 }
    {
        let Locked {
            book,
            shares,
            steps,
            ..
        } = self;
        key.count(steps);
        let checked = book.check_in_for_reuse(name, report);
        if checked.is_ok() {
            shares.add(share, 1);
        }
        shares.audit(share);
        let _within = book.counts();
        checked
    }

    /// Gives the node in hand under a name back.
    pub(crate) fn give_back(&mut self, key: &mut Key<S>, name: u64) -> Result<(), CheckFault>
        ensures step { GivesBack self.old.book name result self.new.book }
        ensures counted { IsOneMore key.old key.new }
    {
        key.count(&mut self.steps);
        self.book.give_back(name)
    }

    /// Offers a schedule.
    pub(crate) fn offer(
        &mut self,
        key: &mut Key<S>,
        schedule: Schedule,
    ) -> Result<bool, (Schedule, OtherProject)>
        ensures step { Offers self.old.book schedule result self.new.book }
        ensures counted { IsOneMore key.old key.new }
    {
        key.count(&mut self.steps);
        self.book.offer(schedule)
    }

    /// Ends the search: no node is handed out from now on.
    pub(crate) fn halt(&mut self, key: &mut Key<S>)
        ensures step { Halts self.old.book self.new.book }
        ensures counted { IsOneMore key.old key.new }
    {
        key.count(&mut self.steps);
        self.book.halt();
    }

    /// Gives the node back where its worker has no memory, and ends the search.
    fn give_back_and_halt(&mut self, key: &mut Key<S>, name: u64)
        ensures step { GivesBackAndHalts self.old.book name self.new.book }
        ensures counted { IsTwoMore key.old key.new }
    {
        let _given = self.give_back(key, name);
        self.halt(key);
    }

    /// Ends the search after a refusal. For want of memory the node is given back first.
    pub(crate) fn stop(&mut self, key: &mut Key<S>, name: u64, fault: CheckFault) -> WorkFault
        ensures step { Stops self.old.book name fault result self.new.book }
        ensures counted { CountsStop key.old fault key.new }
    {
        match fault {
            CheckFault::Memory => {
                self.give_back_and_halt(key, name);
                WorkFault::Memory
            }
            _ => {
                self.halt(key);
                WorkFault::Refused(fault)
            }
        }
    }
}
