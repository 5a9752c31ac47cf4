//! Who needs more of a resource than is left, as bits: a set is some words in which each activity has one.

use instance::{Instance, Result, Rows, Table, narrow};
use std::mem;

/// The users of each resource by how much they need, and those that are short of one.
#[derive(Drop)]
pub(crate) struct Needs {
    /// How many words a set has.
    words: u32,
    /// By resource: what users need of it, rising; and for each such amount the set of those that need so much.
    amounts: Rows<i32>,
    needing: Table<u64>,
    /// Those that need more than is left of some resource, and those whose start is known: nothing pushes them.
    short: Table<u64>,
    fixed: Table<u64>,
}

/// What users of a resource need of it, rising.
fn amounts_of(instance: &Instance, users: &[u32], resource: u32) -> Result<Vec<i32>> {
    let mut amounts = Vec::with_capacity(instance.alloc, users.len())?;
    for activity in users {
        amounts.push(instance.demand(*activity, resource))?;
    }
    amounts.sort_unstable();
    amounts.dedup();
    Ok(amounts)
}

impl Needs {
    /// The needs of no resource.
    pub(crate) fn new(instance: &Instance) -> Result<Needs> {
        let alloc = instance.alloc;
        let words = (instance.count() as usize).div_ceil(64);
        Ok(Needs {
            words: narrow(words),
            amounts: Rows::new(alloc, 0),
            needing: Table::new(alloc, 0),
            short: Table::filled(alloc, words, 0, 0)?,
            fixed: Table::filled(alloc, words, 0, 0)?,
        })
    }

    /// Takes some users of the next resource.
    pub(crate) fn take(&mut self, instance: &Instance, users: &[u32], resource: u32) -> Result<()> {
        let amounts = amounts_of(instance, users, resource)?;
        self.amounts.push_row(&amounts)?;
        for amount in &amounts {
            self.take_needing(instance, users, resource, *amount)?;
        }
        Ok(())
    }

    /// Adds the set of those that need so much of a resource.
    fn take_needing(
        &mut self,
        instance: &Instance,
        users: &[u32],
        resource: u32,
        amount: i32,
    ) -> Result<()> {
        let from = self.needing.count();
        self.needing.fill(self.words as usize, 0)?;
        for activity in users {
            if instance.demand(*activity, resource) >= amount {
                self.needing[from.wrapping_add(*activity / 64)] |= bit(*activity);
            }
        }
        Ok(())
    }

    /// The set of those that need the amount of a number.
    fn set(&self, number: u32) -> &[u64] {
        let from = number.wrapping_mul(self.words);
        self.needing.part(from, from.wrapping_add(self.words))
    }

    /// The set of all users of a resource: they need the least amount.
    pub(crate) fn users(&self, resource: u32) -> &[u64] {
        let numbers = self.amounts.numbers(resource);
        match numbers.start < numbers.end {
            true => self.set(numbers.start),
            false => &[],
        }
    }

    /// Those that need more of a resource than there is are short of it.
    pub(crate) fn add_short(&mut self, resource: u32, room: i32) {
        let numbers = self.amounts.numbers(resource);
        let enough = |amount: &i32| *amount <= room;
        let number = narrow(self.amounts.row(resource).partition_point(enough));
        let number = numbers.start.wrapping_add(number);
        if number >= numbers.end {
            return;
        }
        let from = number.wrapping_mul(self.words);
        let needing = self.needing.part(from, from.wrapping_add(self.words));
        for (short, needing) in self.short.items.iter_mut().zip(needing) {
            *short |= *needing;
        }
    }

    /// Nobody is short.
    pub(crate) fn clear_short(&mut self) {
        self.short.items.fill(0);
    }

    /// Those of a word that are short and can be pushed. They are no longer noted.
    #[inline(always)]
    pub(crate) fn take_short(&mut self, word: u32) -> u64 {
        mem::replace(&mut self.short[word], 0) & !self.fixed[word]
    }

    /// The numbers of the words of a set.
    pub(crate) fn words(&self) -> u32 {
        self.words
    }

    /// The start of an activity is known, or no longer.
    pub(crate) fn fix(&mut self, activity: u32, is_fixed: bool) {
        let word = &mut self.fixed[activity / 64];
        *word = match is_fixed {
            true => *word | bit(activity),
            false => *word & !bit(activity),
        };
    }
}

/// The bit of an activity in its word.
fn bit(activity: u32) -> u64 {
    1u64.wrapping_shl(activity % 64)
}
