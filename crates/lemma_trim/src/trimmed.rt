//! A trimmed log.

use crate::lines::with_slots;
use crate::slots::Slots;
use crate::store::{LemmaStore, held};
use lemma_log::{Event, put_event, put_title, read_event};
use std::alloc::{AllocError, Global};
use std::mem;

/// So many bytes leave at once, and those of one more event.
const PIECE: usize = 65_536;

/// A trimmed log, which leaves piece by piece.
#[derive(Drop)]
pub struct Trimmed {
    alloc: Global,
    store: LemmaStore,
    /// The places of the lemmas that are to be written, the first one last.
    places: Vec<usize>,
    slots: Slots,
    /// What stands before the lemmas, and after them, until it is written.
    schedule: Vec<u8>,
    claim: Vec<u8>,
    has_begun: bool,
}

impl Trimmed {
    /// The log of the lemmas at these places, of a schedule and of a claim.
    pub(crate) fn new(
        alloc: Global,
        store: LemmaStore,
        mut places: Vec<usize>,
        schedule: Vec<u8>,
        claim: Vec<u8>,
    ) -> Trimmed {
        places.reverse();
        Trimmed {
            alloc,
            store,
            places,
            slots: Slots::new(alloc),
            schedule,
            claim,
            has_begun: false,
        }
    }

    /// The next piece of the log. None at its end.
    pub fn next_piece(&mut self) -> Result<Option<Vec<u8>>, AllocError> {
        let mut piece = Vec::new(self.alloc);
        if !self.has_begun {
            self.has_begun = true;
            put_title(&mut piece)?;
            piece.extend_from_slice(&self.schedule)?;
        }
        for _ in 0..u64::MAX {
            if piece.len() >= PIECE {
                break;
            }
            let Some(place) = self.places.pop() else {
                let claim = mem::replace(&mut self.claim, Vec::new(self.alloc));
                piece.extend_from_slice(&claim)?;
                break;
            };
            self.put_lemma(&mut piece, place)?;
        }
        Ok((!piece.is_empty()).then_some(piece))
    }

    /// Writes the lemma at a place, and drops what is held by it last.
    fn put_lemma(&mut self, piece: &mut Vec<u8>, place: usize) -> Result<(), AllocError> {
        let Some(lemma) = self.store.at(place) else {
            return Ok(());
        };
        let event = mem::replace(&mut lemma.event, Vec::new(self.alloc));
        let uses = mem::replace(&mut lemma.uses, Vec::new(self.alloc));
        let held = held(self.alloc, &uses, &lemma.delays)?;
        if let Ok(read) = read_event(self.alloc, &event) {
            if let Some(event) = self.renamed(read.event, &uses, place)? {
                put_event(piece, &event)?;
            }
        }
        self.put_drops(piece, &held)
    }

    /// The event of the lemma at a place, by slots of this log. Its own is filled.
    fn renamed(
        &mut self,
        event: Event,
        uses: &[Option<usize>],
        place: usize,
    ) -> Result<Option<Event>, AllocError> {
        let Event::Lemma { arcs, lines, .. } = event else {
            return Ok(None);
        };
        let mut used = Vec::with_capacity(self.alloc, uses.len())?;
        for place in uses {
            used.push(place.and_then(|place| self.slots.slot_of(place)))?;
        }
        let lines = with_slots(self.alloc, &lines, &used)?;
        let slot = match arcs.as_slice().len() {
            0 | 1 => 0,
            _ => self.slots.fill(place)?,
        };
        Ok(Some(Event::Lemma { slot, arcs, lines }))
    }

    /// Writes drops of those of these lemmas that nothing else holds, by slot.
    fn put_drops(&mut self, piece: &mut Vec<u8>, held: &[usize]) -> Result<(), AllocError> {
        let mut dropped = Vec::new(self.alloc);
        for place in held {
            if self.store.is_let_go(*place) {
                if let Some(slot) = self.slots.slot_of(*place) {
                    dropped.push(slot)?;
                }
            }
        }
        dropped.sort_unstable();
        for slot in &dropped {
            self.slots.empty(*slot);
            put_event(piece, &Event::Drop { slot: *slot })?;
        }
        Ok(())
    }
}
