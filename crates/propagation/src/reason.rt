//! Why a literal holds, and why literals contradict each other.

use crate::literal::Literal;
use std::alloc::AllocError;

/// Why an event came.
#[derive(Clone, Copy, PartialEq, Eq, Debug, Default)]
pub enum Reason {
    /// It was tried.
    Decision,
    /// It holds from the beginning, by the project or by a ceiling.
    #[default]
    Given,
    /// An arc moved a bound.
    Arc {
        arc: u32,
    },
    /// An edge of a class of orders moved a bound.
    Order {
        order: u32,
    },
    /// An edge of a class of orders has no room, so its side is lost.
    Lost {
        order: u32,
    },
    /// The reverse has no room beside the order of this slot, by lags.
    Implied {
        slot: u32,
    },
    /// Of three places of a clique the first runs before the one between, and this one before the second.
    Through {
        clique: u32,
        first: u32,
        via: u32,
        second: u32,
    },
    /// There is no room at this time.
    Full {
        resource: u32,
        time: i32,
    },
    /// Members of a clique that run before it, or after it, push it.
    Pushed {
        clique: u32,
        time: i32,
    },
    /// In the other order members of a clique would have to run from one time to another, and need more time.
    Edge {
        clique: u32,
        from: i32,
        to: i32,
    },
    /// From one time to another it would take more of the resource than there is.
    Energy {
        resource: u32,
        from: i32,
        to: i32,
    },
    /// All other literals of the lemma at this place are false.
    Lemma {
        place: u32,
    },
}

/// Why no schedule is left.
#[derive(Clone, Copy, PartialEq, Eq, Debug)]
pub enum Conflict {
    /// This literal would have to hold, and its negation does.
    Forced { literal: Literal, reason: Reason },
    /// What must run at a time needs too much of the resource.
    Overload { resource: u32, time: i32 },
    /// Members of a clique need more time than there is from one time to another.
    Clique { clique: u32, from: i32, to: i32 },
    /// The parts that must run from one time to another need too much of the resource.
    Energy { resource: u32, from: i32, to: i32 },
    /// All literals of the lemma at this place are false.
    Lemma { place: u32 },
    /// Groups that run one after the other end too late, in whatever order.
    Tour,
}

/// Why a step of the search did not end well.
#[derive(Clone, Copy, PartialEq, Eq, Debug)]
pub enum Stop {
    /// No schedule is left.
    Conflict(Conflict),
    /// Memory ran out.
    Memory,
}

impl From<AllocError> for Stop {
    fn from(_error: AllocError) -> Stop {
        Stop::Memory
    }
}
