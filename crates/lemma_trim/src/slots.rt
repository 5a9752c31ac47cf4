//! The slots of a log that is written.

use std::alloc::{AllocError, Global};

/// Which slots are filled, and by the lemmas at which places.
#[derive(Drop)]
pub(crate) struct Slots {
    /// By slot: the place of its lemma.
    filled: Vec<Option<usize>>,
    /// By place: the slot of its lemma.
    of: Vec<usize>,
    /// No slot below is empty.
    least: usize,
}

impl Slots {
    /// Empty slots.
    pub(crate) fn new(alloc: Global) -> Slots {
        Slots {
            filled: Vec::new(alloc),
            of: Vec::new(alloc),
            least: 0,
        }
    }

    /// The slot of the lemma at a place.
    pub(crate) fn slot_of(&self, place: usize) -> Option<usize> {
        let slot = *self.of.get(place)?;
        (self.filled.get(slot).copied().flatten() == Some(place)).then_some(slot)
    }

    /// The least slot that is empty.
    fn least_empty(&self) -> usize {
        let filled = self.filled.iter().skip(self.least);
        self.least
            .saturating_add(filled.take_while(|room| room.is_some()).count())
    }

    /// Fills the least slot that is empty with the lemma at a place. The slot.
    pub(crate) fn fill(&mut self, place: usize) -> Result<usize, AllocError> {
        let slot = self.least_empty();
        match self.filled.get_mut(slot) {
            Some(room) => *room = Some(place),
            None => self.filled.push(Some(place))?,
        }
        for _ in self.of.len()..=place {
            self.of.push(0)?;
        }
        if let Some(of) = self.of.get_mut(place) {
            *of = slot;
        }
        self.least = slot;
        Ok(slot)
    }

    /// Empties a slot.
    pub(crate) fn empty(&mut self, slot: usize) {
        if let Some(room) = self.filled.get_mut(slot) {
            *room = None;
        }
        self.least = self.least.min(slot);
    }
}
