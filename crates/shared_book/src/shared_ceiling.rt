//! A number that threads lower together.

ghost use Rattle.std.specs.Prelude.{◌≡◌, ℕ, IfOk};
ghost use Rattle.shared_book.specs.Ceiling.{Sees, Lowers, opening_view};

use crate::ceiling_rule::{Alike, Least, Look, Offer};
use crate::ceiling_seat::{BestSeat, View};
use atomic_table::Table;
use std::alloc::{AllocError, Global};
use std::marker::Model;

/// The shared number. Contracts see which ceiling it is, and not what it holds. Any thread may lower that at any time.
#[derive(Drop)]
pub struct SharedCeiling {
    table: Table<(), View, u64, Least, Global>,
}

impl Model for SharedCeiling {
    ghost use Rattle.std.specs.Prelude.{◌≡◌};
    ghost use Rattle.atomic_table.specs.Seated.{table_id_coded};
    ghost use Rattle.shared_book.specs.Ceiling.{CeilingId};

    ghost Value = { CeilingId };

    ghost coded = { table_id_coded };

    ghost view = { λ w. w.table.shared.table_id };

    ghost invariant = { λ w. w.table.shared.table_id.words ≡ 1 };
}

impl SharedCeiling {
    /// A ceiling that holds `first`, and its first seat. `u64::MAX` stands for no number yet.
    pub fn open(alloc: Global, first: u64) -> Result<(SharedCeiling, BestSeat), AllocError>
        ensures ceiling { IfOk result (λ r. r.1.ceiling ≡ r.0) }
        ensures view { IfOk result (λ r. r.1.view ≡ opening_view first) }
    {
        let (table, seat) = Table::of_words(alloc, &[first], &first)?;
        Ok((SharedCeiling { table }, BestSeat { seat }))
    }

    /// The number that the ceiling holds: one load.
    pub fn look(&self, seat: &mut BestSeat) -> u64
        requires { seat.old.ceiling ≡ self.now }
        ensures ceiling { seat.new.ceiling ≡ self.now }
        ensures seen { Sees seat.old.view result seat.new.view }
    {
        self.table.shared.load::<Look>(&mut seat.seat, 0)
    }

    /// Leaves in the ceiling the lesser of what it holds and `number`: one fetch-and-least.
    pub fn offer(&self, seat: &mut BestSeat, number: u64)
        requires { seat.old.ceiling ≡ self.now }
        ensures ceiling { seat.new.ceiling ≡ self.now }
        ensures lowered { (found : ℕ) × Lowers seat.old.view found number seat.new.view }
    {
        let shared = &self.table.shared;
        shared.fetch_min::<Offer>(&mut seat.seat, 0, number);
    }

    /// A second seat, for another thread. It takes one look, after which both seats know what it found. The new seat is
    /// told by a second load, whose answer nobody reads.
    #[tactic(auto, using(crate::proofs::CeilingSteps::splits))]
    pub fn split(&self, seat: &mut BestSeat) -> BestSeat
        requires { seat.old.ceiling ≡ self.now }
        ensures ceiling { seat.new.ceiling ≡ self.now }
        ensures seen { (found : ℕ) × Sees seat.old.view found seat.new.view }
        ensures alike { result ≡ seat.new }
    {
        self.look(seat);
        let shared = &self.table.shared;
        let second = shared.split_seat::<Alike>(&mut seat.seat);
        BestSeat { seat: second }
    }
}
