//! The trail: what each slot holds, and the events that made it so.

use crate::literal::Literal;
use crate::reason::{Conflict, Reason, Stop};
use instance::{Result, Table};
use std::alloc::Global;

/// A slot got a greater value.
#[derive(Clone, Copy, Debug, Default)]
pub struct BoundChange {
    pub slot: u32,
    pub old: i32,
    pub new: i32,
    pub level: u32,
    /// The slot's event before it; 0 is what it held at first.
    before: u32,
    pub reason: Reason,
}

/// The values of all slots, and the events that made them. Each decision begins a level; level 0 is the root. Event 0
/// stands for what always held.
#[derive(Drop)]
pub struct Trail {
    values: Table<i32>,
    /// For each slot its last event.
    last: Table<u32>,
    events: Table<BoundChange>,
    /// How many events there were when each level began.
    levels: Table<u32>,
}

impl Trail {
    /// The trail of no events over slots with these values.
    pub fn new(alloc: Global, values: Table<i32>) -> Result<Trail> {
        let last = Table::filled(alloc, values.count() as usize, 0, 0)?;
        let first = BoundChange::default();
        Ok(Trail {
            values,
            last,
            events: Table::filled(alloc, 1, first, first)?,
            levels: Table::new(alloc, 0),
        })
    }

    /// The values of all slots.
    pub fn values(&self) -> &Table<i32> {
        &self.values
    }

    /// The least value of a variable.
    pub fn least(&self, variable: u32) -> i32 {
        self.values[variable.wrapping_mul(2)]
    }

    /// The greatest value of a variable.
    pub fn greatest(&self, variable: u32) -> i32 {
        self.values[variable.wrapping_mul(2).wrapping_add(1)].wrapping_neg()
    }

    /// Whether a literal holds.
    #[inline(always)]
    pub fn holds(&self, literal: Literal) -> bool {
        self.values[literal.slot] >= literal.value
    }

    /// Whether the negation of a literal holds.
    #[inline(always)]
    pub fn fails(&self, literal: Literal) -> bool {
        self.values[literal.slot ^ 1].wrapping_add(literal.value) > 0
    }

    /// Whether neither holds.
    pub fn is_open(&self, literal: Literal) -> bool {
        !self.holds(literal) && !self.fails(literal)
    }

    /// The level that is searched now.
    pub fn level(&self) -> u32 {
        self.levels.count()
    }

    /// How many events there are.
    pub fn count(&self) -> u32 {
        self.events.count()
    }

    /// The event of a number.
    pub fn event(&self, number: u32) -> BoundChange {
        self.events[number]
    }

    /// The events before this one always hold.
    pub fn root_end(&self) -> u32 {
        self.levels.items.first().copied().unwrap_or(self.count())
    }

    /// The event that made a literal hold, 0 where it held always.
    #[inline(always)]
    pub fn event_of(&self, literal: Literal) -> u32 {
        let mut number = self.last[literal.slot];
        for _ in 0..u64::MAX {
            let event = &self.events[number];
            if number == 0 || event.old < literal.value {
                break;
            }
            number = event.before;
        }
        number
    }

    /// The level of a literal that holds.
    pub fn level_of(&self, literal: Literal) -> u32 {
        self.events[self.event_of(literal)].level
    }

    /// The value of a slot before an event.
    pub fn value_at(&self, slot: u32, number: u32) -> i32 {
        let (mut value, mut last) = (self.values[slot], self.last[slot]);
        for _ in 0..u64::MAX {
            if last < number || last == 0 {
                break;
            }
            let event = &self.events[last];
            (value, last) = (event.old, event.before);
        }
        value
    }

    /// Whether an event is its slot's last.
    pub fn is_last(&self, slot: u32, number: u32) -> bool {
        self.last[slot] == number
    }

    /// A slot gets a greater value.
    #[inline(always)]
    fn raise(&mut self, literal: Literal, reason: Reason) -> Result<()> {
        let Literal { slot, value } = literal;
        let number = self.events.count();
        self.events.push(BoundChange {
            slot,
            old: self.values[slot],
            new: value,
            level: self.levels.count(),
            before: self.last[slot],
            reason,
        })?;
        self.values[slot] = value;
        self.last[slot] = number;
        Ok(())
    }

    /// A literal follows. A conflict where its negation holds.
    #[inline(always)]
    pub fn force(&mut self, literal: Literal, reason: Reason) -> Result<(), Stop> {
        if self.holds(literal) {
            return Ok(());
        }
        if self.fails(literal) {
            return Err(Stop::Conflict(Conflict::Forced { literal, reason }));
        }
        self.raise(literal, reason)?;
        Ok(())
    }

    /// A level begins with what of these literals doesn't hold yet.
    pub fn decide(&mut self, literals: &[Literal]) -> Result<()> {
        self.levels.push(self.events.count())?;
        for literal in literals {
            if !self.holds(*literal) {
                self.raise(*literal, Reason::Decision)?;
            }
        }
        Ok(())
    }

    /// The levels from one on end. Gives where they begin: their events are to be taken back one by one.
    pub fn end_levels(&mut self, level: u32) -> u32 {
        let begin = self.levels[level];
        self.levels.truncate(level);
        begin
    }

    /// Takes the last event back.
    pub fn pop(&mut self) -> Option<BoundChange> {
        let event = self.events.items.pop()?;
        self.values[event.slot] = event.old;
        self.last[event.slot] = event.before;
        Some(event)
    }
}
