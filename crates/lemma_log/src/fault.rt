//! Why bytes are no event.

ghost use Rattle.std.specs.Prelude.{◌≡◌};
ghost use Rattle.lemma_log.specs.declared.fault.DecodeFault.TheVariants.{Memory};

use std::alloc::{AllocError, AllocFailed};

/// Why the bytes of a log don't begin with an event.
#[derive(Clone, Copy, PartialEq, Eq, Debug)]
pub enum DecodeFault {
    /// They end within what an event begins with, or there are none: with more bytes they may begin with one.
    Short,
    /// They begin with no event, whatever follows them.
    Form,
    /// They begin with a lemma of more arcs or bytes than it may have, whatever follows them.
    Long,
    /// Memory ran out.
    Memory,
}

impl From<AllocError> for DecodeFault {
    ghost from_gives = { λ _ fault. fault ≡ Memory };

    fn from(_e: AllocError) -> DecodeFault {
        DecodeFault::Memory
    }
}

impl<T: Drop> From<AllocFailed<T>> for DecodeFault {
    ghost from_gives = { λ _ fault. fault ≡ Memory };

    fn from(_e: AllocFailed<T>) -> DecodeFault {
        DecodeFault::Memory
    }
}
