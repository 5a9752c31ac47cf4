//! What an analysis notes of events.

use crate::analysis::Frame;
use crate::explain_energy::Part;
use crate::{Inference, LineReason};
use instance::{Result, Table};
use propagation::{Literal, NEVER, Trail};
use std::alloc::Global;
use std::cmp::Reverse;
use std::collections::BinaryHeap;

/// No value.
const NO_VALUE: i32 = i32::MIN;

/// The notes of an analysis. Values are those of the event's slot.
#[derive(Drop)]
pub(crate) struct Marks {
    /// By event: the nogood needs this value.
    pub(crate) need: Table<i32>,
    /// Up to this the nogood has it without the literal; from `hard` on it hasn't.
    gone: Table<i32>,
    hard: Table<i32>,
    /// Events with a value in `need`, and in `gone` or `hard`.
    pub(crate) needed: Table<u32>,
    tried: Table<u32>,
    /// Needed events of levels below the last.
    pub(crate) lower: Table<u32>,
    /// Literals that were found to explain others.
    pub(crate) found: Table<Literal>,
    /// Why literals are in an explanation: the event by which each holds, how much it adds, and its activity. The last ones
    /// are left out first.
    pub(crate) causes: Table<(u32, i32, u32)>,
    /// A list that explanations work on.
    pub(crate) activities: Table<u32>,
    /// Parts of activities in an explanation of energy; and by each, the last event that it needs, with its slot and the
    /// place of the part.
    pub(crate) parts: Table<Part>,
    pub(crate) latest: BinaryHeap<(u32, u32, u32)>,
    /// What is_redundant works on.
    pub(crate) frames: Vec<Frame>,
    /// Literals that were replaced by what they follow from, each with its event.
    pub(crate) replaced: Vec<(u32, Inference)>,
    /// The literals that can't all hold; at the end their negations, which are the lemma.
    pub(crate) nogood: Vec<Literal>,
}

impl Marks {
    /// No notes.
    pub(crate) fn new(alloc: Global) -> Marks {
        Marks {
            need: Table::new(alloc, NO_VALUE),
            gone: Table::new(alloc, NO_VALUE),
            hard: Table::new(alloc, i32::MAX),
            needed: Table::new(alloc, 0),
            tried: Table::new(alloc, 0),
            lower: Table::new(alloc, 0),
            found: Table::new(alloc, NEVER),
            causes: Table::new(alloc, (0, 0, 0)),
            activities: Table::new(alloc, 0),
            parts: Table::new(alloc, Part::default()),
            latest: BinaryHeap::new(alloc),
            frames: Vec::new(alloc),
            replaced: Vec::new(alloc),
            nogood: Vec::new(alloc),
        }
    }

    /// There are places for so many events, and no notes.
    pub(crate) fn begin(&mut self, events: u32) -> Result<()> {
        for _ in self.need.count()..events {
            self.need.push(NO_VALUE)?;
            self.gone.push(NO_VALUE)?;
            self.hard.push(i32::MAX)?;
        }
        self.needed.items.clear();
        self.tried.items.clear();
        self.lower.items.clear();
        self.found.items.clear();
        self.replaced.clear();
        self.nogood.clear();
        Ok(())
    }

    /// Takes all notes of events back. What was replaced goes from the first event to the last, and then comes why the
    /// rest contradict each other.
    pub(crate) fn end(&mut self, reason: LineReason) -> Result<()> {
        let literal = NEVER;
        self.replace(u32::MAX, Inference { literal, reason })?;
        let key = |replaced: &(u32, Inference)| (replaced.0, replaced.1.literal);
        self.replaced.sort_unstable_by_key(key);
        for event in &self.needed.items {
            self.need[*event] = NO_VALUE;
        }
        for event in &self.tried.items {
            self.gone[*event] = NO_VALUE;
            self.hard[*event] = i32::MAX;
        }
        Ok(())
    }

    /// Notes that a value of an event is needed. Whether nothing of it was.
    pub(crate) fn need(&mut self, event: u32, value: i32) -> Result<bool> {
        let known = self.need[event];
        self.need[event] = known.max(value);
        if known == NO_VALUE {
            self.needed.push(event)?;
        }
        Ok(known == NO_VALUE)
    }

    /// Whether a value of an event is needed.
    pub(crate) fn is_needed(&self, event: u32) -> bool {
        self.need[event] != NO_VALUE
    }

    /// Whether the nogood has a value of an event anyway.
    pub(crate) fn has(&self, event: u32, value: i32) -> bool {
        self.need[event] >= value || self.gone[event] >= value
    }

    /// Whether it is known that the nogood needs a literal for a value of an event.
    pub(crate) fn is_hard(&self, event: u32, value: i32) -> bool {
        self.hard[event] <= value
    }

    /// Notes that the nogood has a value of an event without the literal.
    pub(crate) fn note_gone(&mut self, event: u32, value: i32) -> Result<()> {
        self.gone[event] = self.gone[event].max(value);
        self.tried.push(event)
    }

    /// Notes that the nogood needs a literal for the value of each frame.
    pub(crate) fn note_hard(&mut self) -> Result<()> {
        for Frame { event, link, .. } in &self.frames {
            self.hard[*event] = self.hard[*event].min(link.literal.value);
            self.tried.push(*event)?;
        }
        Ok(())
    }

    /// A literal of an event was replaced by what it follows from. A record has no line for what arcs say.
    pub(crate) fn replace(&mut self, event: u32, link: Inference) -> Result<()> {
        if link.reason != LineReason::Arcs {
            self.replaced.push((event, link))?;
        }
        Ok(())
    }

    /// Both literals are found.
    pub(crate) fn find(&mut self, literals: [Literal; 2]) -> Result<()> {
        self.found.items.extend_from_slice(&literals)
    }

    /// The literals of a lemma from one on are false: their negations are found.
    pub(crate) fn find_false(&mut self, lemma: &[Literal], first: usize) -> Result<()> {
        for literal in lemma.iter().skip(first) {
            self.found.push(!*literal)?;
        }
        Ok(())
    }

    /// Of the causes those that are needed, the last ones first: they go while the rest is more than there is room for.
    /// Gives how much more the rest is than it need be.
    pub(crate) fn keep_enough(&mut self, all: i32, room: i32) -> Result<i32> {
        let mut sum = all;
        self.causes.items.sort_unstable();
        self.activities.items.clear();
        for (_, amount, activity) in self.causes.items.iter().rev() {
            let rest = sum.wrapping_sub(amount.wrapping_abs());
            if rest > room {
                sum = rest;
            } else {
                self.activities.push(*activity)?;
            }
        }
        Ok(sum.wrapping_sub(room).wrapping_sub(1))
    }

    /// Events of the last level that were replaced are no longer needed.
    pub(crate) fn forget_replaced(&mut self, trail: &Trail, top: u32) {
        for event in &self.needed.items {
            if trail.event(*event).level == top {
                self.need[*event] = NO_VALUE;
            }
        }
    }

    /// Of each slot the greatest value says all; the first literal's is the greatest of its slot.
    pub(crate) fn keep_greatest(&mut self, first: Literal) {
        let nogood = &mut self.nogood;
        nogood.retain(|literal: &Literal| literal.slot != first.slot);
        nogood.sort_unstable_by_key(|literal: &Literal| Reverse(*literal));
        nogood.dedup_by_key(|literal: &mut Literal| literal.slot);
    }
}
