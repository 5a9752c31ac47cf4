//! A worker's place: its number, its share of the ledger, and what it did.

ghost use Rattle.std.specs.Prelude.{◌≡◌, ◌≤◌};

use crate::BestSeat;
use crate::key::Key;
use std::sync::ledger::{Ledger, Share};

/// One worker's place at a [`Shared`](crate::Shared) book. It has the worker's number and counts, its share of the
/// nodes checked in, its key to the lock, and its seat at the shared ceiling.
#[derive(Drop)]
pub struct WorkerState<L: Ledger, S: Ledger> {
    pub(crate) number: usize,
    pub(crate) accepted: u64,
    pub(crate) ahead: u64,
    pub(crate) share: Share<L>,
    pub(crate) key: Key<S>,
    pub(crate) seat: BestSeat,
    ghost one_part: { share.parts ≡ 1 },
    ghost counted: { share.amount ≡ accepted },
    ghost fits: { accepted ≤ 1000000000 },
}

impl<L: Ledger, S: Ledger> WorkerState<L, S> {
    /// The number of its worker.
    pub fn number(&self) -> usize
        ensures { result ≡ self.now.number }
    {
        self.number
    }

    /// How many of its reports were accepted.
    pub fn accepted(&self) -> u64
        ensures accepted { result ≡ self.now.accepted }
        ensures share { self.now.share.amount ≡ self.now.accepted }
    {
        self.accepted
    }

    /// How many of its reports were refused as ahead of the book. It stays at `u64::MAX` once there.
    pub fn ahead(&self) -> u64
        ensures { result ≡ self.now.ahead }
    {
        self.ahead
    }
}

/// What a worker counted: its reports that were accepted, and those that were refused as ahead of the book.
#[derive(Clone, Copy, Debug, PartialEq, Eq)]
pub struct Tally {
    pub accepted: u64,
    pub ahead: u64,
}
