//! A key to the lock, which counts what its holder does under it.

ghost use Rattle.std.specs.Prelude.{◌≡◌, ◌+◌};
ghost use Rattle.shared_book.specs.Locking.{steps_of_none, IsTicketMore, IsDismissalMore, IsOneMore};

use std::marker::Model;
use std::sync::ledger::{Book, Ledger, Share};

/// What a thread needs for each call that locks a [`Shared`](crate::Shared) book. Contracts see what was done with it
/// under the lock; it has no bytes.
#[derive(Drop)]
pub struct Key<S: Ledger> {
    tickets: Share<S>,
    dismissals: Share<S>,
    others: Share<S>,
}

impl<S: Ledger> Model for Key<S> {
    ghost use Rattle.std.specs.Prelude.{◌≡◌};
    ghost use Rattle.shared_book.specs.Locking.{Steps};

    ghost Value = { Steps };

    ghost view = { λ k. record { tickets = k.tickets.amount; dismissals = k.dismissals.amount; others = k.others.amount } };

    ghost invariant = { λ k. (k.tickets.parts ≡ 1) × (k.dismissals.parts ≡ 1) × (k.others.parts ≡ 1) };
}

impl<S: Ledger> Key<S> {
    /// A key that nothing was done with, of three parts of the ledger.
    pub(crate) fn new(mut parts: Share<S>) -> Key<S>
        requires { (parts.parts ≡ 3) × (parts.amount ≡ 0) }
        ensures { result ≡ steps_of_none }
    {
        let tickets = parts.split_off(1, 0);
        let dismissals = parts.split_off(1, 0);
        Key {
            tickets,
            dismissals,
            others: parts,
        }
    }

    /// Counts a node that was taken.
    pub(crate) fn count_ticket(&mut self, steps: &mut Book<S>)
        ensures step { IsTicketMore self.old self.new }
        ensures total { steps.new.total ≡ steps.old.total + 1 }
    {
        steps.add(&mut self.tickets, 1);
    }

    /// Counts that the book had no node any more.
    pub(crate) fn count_dismissal(&mut self, steps: &mut Book<S>)
        ensures step { IsDismissalMore self.old self.new }
        ensures total { steps.new.total ≡ steps.old.total + 1 }
    {
        steps.add(&mut self.dismissals, 1);
    }

    /// Counts any other step.
    pub(crate) fn count(&mut self, steps: &mut Book<S>)
        ensures step { IsOneMore self.old self.new }
        ensures total { steps.new.total ≡ steps.old.total + 1 }
    {
        steps.add(&mut self.others, 1);
    }
}
