//! The events of a log that a book takes, one after another.

use crate::Result;
use lemma_log::{DecodeFault, Event, read_event};
use std::alloc::{AllocError, Global};

/// Why a log is not taken.
#[derive(Clone, Copy)]
pub enum LogFault {
    Memory,
    /// The event of this number is not right, or it is no event. The title is event 0.
    Event(u64),
}

impl From<AllocError> for LogFault {
    fn from(_error: AllocError) -> LogFault {
        LogFault::Memory
    }
}

/// The event that bytes begin with, and the bytes after it. None if they end before it does.
pub fn next_event(
    alloc: Global,
    bytes: &[u8],
    number: u64,
) -> Result<Option<(Event, &[u8])>, LogFault> {
    match read_event(alloc, bytes) {
        Ok(read) => Ok(Some((read.event, &bytes[read.count..]))),
        Err(DecodeFault::Short) => Ok(None),
        Err(DecodeFault::Memory) => Err(LogFault::Memory),
        Err(_) => Err(LogFault::Event(number)),
    }
}
