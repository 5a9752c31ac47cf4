//! Why a log is not right.

ghost use Rattle.std.specs.Prelude.{◌≡◌};
ghost use Rattle.record_text.specs.declared.event_fault.Wrong.TheVariants.{Memory};

use std::alloc::{AllocError, AllocFailed};
use thiserror::Error;

/// What is wrong with an event of a log.
#[derive(Clone, Copy, PartialEq, Eq, Debug, Error)]
pub enum Wrong {
    /// It is no event; at event 0 it is not the title.
    #[error("form")]
    Form,
    /// A lemma of more arcs than it may have.
    #[error("long")]
    Long,
    /// The log ends before it, or within it.
    #[error("short")]
    Short,
    /// It comes after the claim, which is the last event.
    #[error("trailing")]
    Trailing,
    /// A lemma that is not shown, or that has no empty slot.
    #[error("lemma")]
    Lemma,
    /// A drop of a slot that is empty.
    #[error("drop")]
    Drop,
    /// A schedule that is not feasible, or not shorter than those before it.
    #[error("schedule")]
    Schedule,
    /// A claim of something else than what is proved.
    #[error("claim")]
    Claim,
    /// Memory ran out.
    #[error("out of memory")]
    Memory,
}

/// The first fault of a log. Events count from 1, and the title is event 0. No number is greater than 2^64 - 1.
#[derive(Clone, Copy, PartialEq, Eq, Debug, Error)]
#[error("event {event}: {wrong}")]
pub struct EventFault {
    pub event: u64,
    pub wrong: Wrong,
}

impl From<AllocError> for EventFault {
    ghost from_gives = { λ _ fault. fault ≡ record { event = 0; wrong = Memory } };

    fn from(_e: AllocError) -> EventFault {
        EventFault {
            event: 0,
            wrong: Wrong::Memory,
        }
    }
}
