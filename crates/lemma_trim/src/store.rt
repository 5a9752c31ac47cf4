//! The lemmas of a log that may be needed: those that are live, and those that they rest on.

use lemma_book::MAX_SLOTS;
use lemma_log::{Event, Lines};
use lemma_proof::{Interval, Lags, LemmaSlots, Line, WindowOverload, is_small};
use network::{Lag, MAX_ACTIVITIES};
use std::alloc::{AllocError, Global};
use std::collections::BTreeSet;
use std::mem;

/// A lemma, and what holds it.
#[derive(Drop, Debug)]
pub(crate) struct KeptLemma {
    /// How many lemmas were before it.
    pub(crate) number: u64,
    /// The bytes of its event.
    pub(crate) event: Vec<u8>,
    /// For each of its lines `use` the place of that lemma; none if the slot was empty, so that nobody looks at the line.
    pub(crate) uses: Vec<Option<usize>>,
    /// The places of the lemmas whose delays its tours need, each once.
    pub(crate) delays: Vec<usize>,
    /// How many lines of kept lemmas use it, and how many kept lemmas need its delays; and one more while it is in a slot
    /// or in the root.
    holders: u64,
}

/// The places of all lemmas that a lemma holds, each as often as it does.
pub(crate) fn held(
    alloc: Global,
    uses: &[Option<usize>],
    delays: &[usize],
) -> Result<Vec<usize>, AllocError> {
    let used = uses.iter().flatten();
    used.chain(delays.iter()).copied().collect(alloc)
}

/// Lemmas at places, which a lemma keeps as long as something holds it.
#[derive(Drop)]
pub(crate) struct LemmaStore {
    alloc: Global,
    lemmas: Vec<Option<KeptLemma>>,
    /// Places without a lemma.
    free: Vec<usize>,
    /// By slot of the log: the place of its lemma.
    slots: Vec<Option<usize>>,
    /// By slot of the log: the lemmas of two arcs.
    delays: LemmaSlots,
    /// How many lemmas came.
    count: u64,
}

impl LemmaStore {
    /// No lemmas.
    pub(crate) fn new(alloc: Global) -> LemmaStore {
        LemmaStore {
            alloc,
            lemmas: Vec::new(alloc),
            free: Vec::new(alloc),
            slots: Vec::new(alloc),
            delays: LemmaSlots::new(alloc),
            count: 0,
        }
    }

    /// The lemma at a place.
    pub(crate) fn at(&mut self, place: usize) -> Option<&mut KeptLemma> {
        self.lemmas.get_mut(place)?.as_mut()
    }

    /// Takes an event of the log, whose bytes these are. Schedules and claims hold nothing.
    pub(crate) fn take(&mut self, event: &Event, bytes: &[u8]) -> Result<(), AllocError> {
        match event {
            Event::Lemma { slot, arcs, lines } => {
                let place = self.add(lines, bytes)?;
                if arcs.as_slice().len() < 2 {
                    return Ok(()); // the root holds it
                }
                self.put_delays(*slot, arcs.as_slice())?;
                self.put(*slot, place)
            }
            Event::Drop { slot } => {
                self.delays.let_go(*slot);
                self.empty(*slot)
            }
            _ => Ok(()),
        }
    }

    /// The places of the lemmas that lines use.
    fn uses_of(&self, lines: &Lines) -> Result<Vec<Option<usize>>, AllocError> {
        let mut uses = Vec::new(self.alloc);
        for line in lines.as_slice() {
            if let Line::Use(slot) = line {
                uses.push(self.slots.get(*slot).copied().flatten())?;
            }
        }
        Ok(uses)
    }

    /// Adds the places of the lemmas by which an interval and each of these have no time in common.
    fn add_delays_of(
        &self,
        found: &mut BTreeSet<usize>,
        interval: Interval,
        others: &[Interval],
    ) -> Result<(), AllocError> {
        for other in others {
            if !is_small(interval) || !is_small(*other) {
                continue;
            }
            let slot = self.delays.slot_of_delays(*other, interval);
            if let Some(Some(place)) = slot.and_then(|slot| self.slots.get(slot)) {
                found.insert(*place)?;
            }
        }
        Ok(())
    }

    /// Adds those by which any two intervals of a line have none. A tour that is right has one interval of an activity at
    /// most.
    fn add_delays(&self, found: &mut BTreeSet<usize>, line: &Line) -> Result<(), AllocError> {
        let Line::Push {
            over: WindowOverload::Tour { intervals, .. },
            ..
        } = line
        else {
            return Ok(());
        };
        let intervals = intervals.as_slice();
        if intervals.len() > MAX_ACTIVITIES {
            return Ok(());
        }
        for (place, interval) in intervals.iter().enumerate() {
            self.add_delays_of(found, *interval, &intervals[..place])?;
        }
        Ok(())
    }

    /// The places of the lemmas whose delays the tours of lines need, each once.
    fn delays_of(&self, lines: &Lines) -> Result<Vec<usize>, AllocError> {
        let mut found = BTreeSet::new(self.alloc);
        for line in lines.as_slice() {
            self.add_delays(&mut found, line)?;
        }
        found.into_iter().collect(self.alloc)
    }

    /// Adds a lemma of these lines and this event, which something holds. Its place.
    fn add(&mut self, lines: &Lines, bytes: &[u8]) -> Result<usize, AllocError> {
        let uses = self.uses_of(lines)?;
        let delays = self.delays_of(lines)?;
        for place in &held(self.alloc, &uses, &delays)? {
            if let Some(lemma) = self.at(*place) {
                lemma.holders = lemma.holders.wrapping_add(1);
            }
        }
        let lemma = KeptLemma {
            number: self.count,
            event: bytes.to_vec(self.alloc)?,
            uses,
            delays,
            holders: 1,
        };
        self.count = self.count.wrapping_add(1);
        self.place(lemma)
    }

    /// Puts a lemma at a free place.
    fn place(&mut self, lemma: KeptLemma) -> Result<usize, AllocError> {
        if let Some(place) = self.free.pop() {
            if let Some(room) = self.lemmas.get_mut(place) {
                *room = Some(lemma);
                return Ok(place);
            }
        }
        let place = self.lemmas.len();
        self.lemmas.push(Some(lemma))?;
        Ok(place)
    }

    /// A slot of the log has a lemma of these arcs.
    fn put_delays(&mut self, slot: usize, arcs: &[Lag]) -> Result<(), AllocError> {
        if arcs.len() == 2 && slot < MAX_SLOTS {
            self.delays.put(slot, Lags::new(arcs.to_vec(self.alloc)?))?;
        }
        Ok(())
    }

    /// A slot of the log has the lemma at a place.
    fn put(&mut self, slot: usize, place: usize) -> Result<(), AllocError> {
        for _ in self.slots.len()..=slot {
            self.slots.push(None)?;
        }
        if let Some(room) = self.slots.get_mut(slot) {
            *room = Some(place);
        }
        Ok(())
    }

    /// A slot of the log has no lemma any more.
    fn empty(&mut self, slot: usize) -> Result<(), AllocError> {
        let lemma = self.slots.get_mut(slot).and_then(|room| room.take());
        match lemma {
            Some(place) => self.release(place),
            None => Ok(()),
        }
    }

    /// One holder less for the lemma at a place. Without holders a lemma goes, and holds nothing any more.
    fn release(&mut self, place: usize) -> Result<(), AllocError> {
        let mut released = Vec::new(self.alloc);
        released.push(place)?;
        for _ in 0..u64::MAX {
            let Some(place) = released.pop() else {
                break;
            };
            if self.is_let_go(place) {
                for place in &self.remove(place)? {
                    released.push(*place)?;
                }
            }
        }
        Ok(())
    }

    /// One holder less. Whether that was the last one.
    pub(crate) fn is_let_go(&mut self, place: usize) -> bool {
        let Some(lemma) = self.at(place) else {
            return false;
        };
        lemma.holders = lemma.holders.wrapping_sub(1);
        lemma.holders == 0
    }

    /// Removes the lemma at a place. Which ones it held.
    fn remove(&mut self, place: usize) -> Result<Vec<usize>, AllocError> {
        let lemma = self.lemmas.get_mut(place).and_then(|room| room.take());
        self.free.push(place)?;
        match lemma {
            Some(lemma) => held(self.alloc, &lemma.uses, &lemma.delays),
            None => Ok(Vec::new(self.alloc)),
        }
    }

    /// The log has ended: its slots hold nothing any more. The places of the lemmas that are left, in the order of the log.
    pub(crate) fn end(&mut self) -> Result<Vec<usize>, AllocError> {
        for place in mem::replace(&mut self.slots, Vec::new(self.alloc))
            .into_iter()
            .flatten()
        {
            self.release(place)?;
        }
        let mut order = Vec::new(self.alloc);
        for (place, lemma) in self.lemmas.iter().enumerate() {
            if let Some(lemma) = lemma {
                order.push((lemma.number, place))?;
            }
        }
        order.sort_unstable();
        order
            .into_iter()
            .map(|(_, place)| place)
            .collect(self.alloc)
    }
}
