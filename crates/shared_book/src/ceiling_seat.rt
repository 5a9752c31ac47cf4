//! A thread's seat at the shared ceiling: what it has seen of it.

use atomic_table::Seat;
use std::marker::Model;

/// What a seat knows and has offered. It is for contracts alone: no value of it is made.
pub(crate) struct View {
    /// The least number that the seat found in the ceiling or offered.
    pub(crate) known: u64,
    /// The least number that the seat offered. What the ceiling was opened with counts as offered by its first seat. What
    /// a seat offered before it was split counts as offered by both.
    pub(crate) offered: u64,
}

/// What one thread reaches a [`SharedCeiling`](crate::SharedCeiling) with. Contracts see of which ceiling it is, what it knows and
/// what it has offered; it has no bytes. It can be dropped at any time, and what it offered stays offered.
#[derive(Drop)]
pub struct BestSeat {
    pub(crate) seat: Seat<(), View>,
}

impl Model for BestSeat {
    ghost use Rattle.shared_book.specs.Ceiling.{Seated};

    ghost Value = { Seated };

    ghost view = { λ s. record { ceiling = s.seat.table_id; view = s.seat.me.0 } };
}
