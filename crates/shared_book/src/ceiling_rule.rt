//! The rule of the ceiling, and what each kind of step on it tells the seat.
ghost use Rattle.shared_book.specs.Ceiling.{Sees, Lowers, opening_view, HoldsLeast};

use crate::ceiling_seat::View;
use atomic_table::{Play, Split, TableRule};

/// The ceiling is the least number that was offered. It holds between any two steps, whatever threads take them.
pub(crate) struct Least;

impl TableRule<(), View, u64> for Least {
    ghost holds = { λ first s. HoldsLeast s };

    ghost first = { opening_view };
}

pub(crate) struct Look;

impl Play<(), View> for Look {
    ghost then = { λ step before found after. Sees before.0 found after.0 };
}

pub(crate) struct Offer;

impl Play<(), View> for Offer {
    ghost then = { λ step before found after. Lowers before.0 found step.first after.0 };
}

/// Both seats have the view of the one that was split.
pub(crate) struct Alike;

impl Split<View> for Alike {
    ghost left = { λ view. view };

    ghost right = { λ view. view };
}
