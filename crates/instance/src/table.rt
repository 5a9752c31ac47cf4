//! A list that answers at each place.

use std::alloc::{AllocError, Global};
use std::ops::{Index, IndexMut};

/// What code gives that may run out of memory.
pub type Result<T, E = AllocError> = std::result::Result<T, E>;

/// The low 32 bits of a place.
pub fn narrow(place: usize) -> u32 {
    (place & 0xffff_ffff) as u32
}

/// A number of 64 bits, or the nearest one of 32.
pub fn clip(x: i64) -> i32 {
    x.clamp(i64::from(i32::MIN), i64::from(i32::MAX)) as i32
}

/// A list that answers at each place: past its end it holds `rest`, and what is written there is lost.
#[derive(Drop)]
pub struct Table<T: Copy> {
    pub items: Vec<T>,
    rest: T,
    lost: T,
}

impl<T: Copy> Index<u32> for Table<T> {
    type Output = T;

    #[inline(always)]
    fn index(&self, at: u32) -> &T {
        if (at as usize) < self.items.len() {
            &self.items[at as usize]
        } else {
            &self.rest
        }
    }
}

impl<T: Copy> IndexMut<u32> for Table<T> {
    #[inline(always)]
    fn index_mut(&mut self, at: u32) -> &mut T {
        if (at as usize) < self.items.len() {
            return &mut self.items[at as usize];
        }
        self.lost = self.rest;
        &mut self.lost
    }
}

impl<T: Copy> Table<T> {
    /// A table of these places.
    pub fn of(items: Vec<T>, rest: T) -> Table<T> {
        let lost = rest;
        Table { items, rest, lost }
    }

    /// An empty table.
    pub fn new(alloc: Global, rest: T) -> Table<T> {
        Table::of(Vec::new(alloc), rest)
    }

    /// So many places, all of one value.
    pub fn filled(alloc: Global, count: usize, value: T, rest: T) -> Result<Table<T>> {
        let mut table = Table::new(alloc, rest);
        table.fill(count, value)?;
        Ok(table)
    }

    /// So many places more, all of one value.
    pub fn fill(&mut self, count: usize, value: T) -> Result<()> {
        self.items.reserve_exact(count)?;
        for _ in 0..count {
            self.items.push(value)?;
        }
        Ok(())
    }

    /// How many places there are.
    pub fn count(&self) -> u32 {
        narrow(self.items.len())
    }

    /// One more place.
    pub fn push(&mut self, value: T) -> Result<()> {
        self.items.push(value)?;
        Ok(())
    }

    /// Copies so many places from one on to another one on, which may be the end.
    pub fn copy(&mut self, from: u32, to: u32, count: u32) -> Result<()> {
        let (from, to, count) = (from as usize, to as usize, count as usize);
        let (last, end) = (from.saturating_add(count), to.saturating_add(count));
        if last <= self.items.len() && end <= self.items.len() {
            self.items.copy_within(from..last, to);
            return Ok(());
        }
        for at in from..last {
            let value = self.items.get(at).copied().unwrap_or(self.rest);
            if to.saturating_add(at.saturating_sub(from)) == self.items.len() {
                self.push(value)?;
            }
        }
        Ok(())
    }

    /// A place before another one, which moves up with all after it.
    pub fn insert(&mut self, at: u32, value: T) -> Result<()> {
        if (at as usize) <= self.items.len() && self.items.insert(at as usize, value).is_err() {
            return Err(AllocError);
        }
        Ok(())
    }

    /// Takes a place away. Those after it move down.
    pub fn remove(&mut self, at: u32) {
        if (at as usize) < self.items.len() {
            self.items.remove(at as usize);
        }
    }

    /// Leaves the first places.
    pub fn truncate(&mut self, count: u32) {
        self.items.truncate(count as usize);
    }

    /// Two places change what they hold.
    pub fn swap(&mut self, x: u32, y: u32) {
        let (first, second) = (self[x], self[y]);
        self[x] = second;
        self[y] = first;
    }

    /// The places from `from` up to `to`, none where these are no places.
    #[inline(always)]
    pub fn part(&self, from: u32, to: u32) -> &[T] {
        let (items, from, to) = (self.items.as_slice(), from as usize, to as usize);
        if from <= to && to <= items.len() {
            &items[from..to]
        } else {
            &items[..0]
        }
    }

    /// The same places, to be changed.
    #[inline(always)]
    pub fn part_mut(&mut self, from: u32, to: u32) -> &mut [T] {
        let (items, from, to) = (self.items.as_mut_slice(), from as usize, to as usize);
        if from <= to && to <= items.len() {
            &mut items[from..to]
        } else {
            &mut items[..0]
        }
    }
}
