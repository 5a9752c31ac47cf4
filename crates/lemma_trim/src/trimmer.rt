//! A log that is trimmed as it comes.

use crate::store::LemmaStore;
use crate::trimmed::Trimmed;
use lemma_log::{DecodeFault, Event, Read, read_event, read_title};
use lemma_record::{Checker, LogPart};
use network::Project;
use record_text::{EventFault, Wrong};
use std::alloc::{AllocError, Global};
use std::mem;

/// A log that comes piece by piece, of which what may be needed is kept.
#[derive(Drop)]
pub struct Trimmer<'a> {
    alloc: Global,
    checker: Checker<'a>,
    /// The bytes that are not used yet.
    left: Vec<u8>,
    has_title: bool,
    store: LemmaStore,
    /// The bytes of the last schedule, and those of the claim.
    schedule: Vec<u8>,
    claim: Vec<u8>,
}

/// The event that bytes begin with, if they have all of one.
fn next_event(alloc: Global, bytes: &[u8]) -> Result<Option<Read>, EventFault> {
    match read_event(alloc, bytes) {
        Ok(read) => Ok(Some(read)),
        Err(DecodeFault::Memory) => Err(EventFault {
            event: 0,
            wrong: Wrong::Memory,
        }),
        Err(_) => Ok(None),
    }
}

impl<'a> Trimmer<'a> {
    /// Nothing has come yet.
    pub fn new(alloc: Global, project: &'a Project) -> Result<Trimmer<'a>, AllocError> {
        Ok(Trimmer {
            alloc,
            checker: Checker::new(alloc, project, LogPart::whole())?,
            left: Vec::new(alloc),
            has_title: false,
            store: LemmaStore::new(alloc),
            schedule: Vec::new(alloc),
            claim: Vec::new(alloc),
        })
    }

    /// Takes the next piece of the log. A fault is the first of the log, whatever else comes.
    pub fn feed(&mut self, piece: &[u8]) -> Result<(), EventFault> {
        self.checker.feed(piece)?;
        self.left.extend_from_slice(piece)?;
        let bytes = mem::replace(&mut self.left, Vec::new(self.alloc));
        let mut left = bytes.as_slice();
        if !self.has_title {
            let Ok(count) = read_title(left) else {
                self.left = bytes;
                return Ok(());
            };
            self.has_title = true;
            left = left.get(count..).unwrap_or(&[]);
        }
        self.take_events(left)
    }

    /// Takes the events that these bytes have whole. The others are left.
    fn take_events(&mut self, bytes: &[u8]) -> Result<(), EventFault> {
        let mut left = bytes;
        for _ in 0..u64::MAX {
            let Some(read) = next_event(self.alloc, left)? else {
                break;
            };
            self.take(&read.event, left.get(..read.count).unwrap_or(&[]))?;
            left = left.get(read.count..).unwrap_or(&[]);
        }
        self.left = left.to_vec(self.alloc)?;
        Ok(())
    }

    /// Takes an event, whose bytes these are.
    fn take(&mut self, event: &Event, bytes: &[u8]) -> Result<(), AllocError> {
        match event {
            Event::Schedule { .. } => self.schedule = bytes.to_vec(self.alloc)?,
            Event::Claim(_) => self.claim = bytes.to_vec(self.alloc)?,
            _ => self.store.take(event, bytes)?,
        }
        Ok(())
    }

    /// The trimmed log, if that which came is whole.
    pub fn finish(self) -> Result<Trimmed, EventFault> {
        self.checker.finish()?;
        let Trimmer {
            alloc,
            mut store,
            schedule,
            claim,
            ..
        } = self;
        let order = store.end()?;
        Ok(Trimmed::new(alloc, store, order, schedule, claim))
    }
}
