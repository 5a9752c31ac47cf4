//! A heap of numbers by weight, the heaviest first.

use instance::{Result, Table};
use std::alloc::Global;

/// The place of a number that isn't in the heap.
const OUTSIDE: u32 = u32::MAX;

/// A number in the heap, with its weight.
#[derive(Clone, Copy)]
struct Entry {
    weight: f64,
    number: u32,
}

/// No number.
const NO_ENTRY: Entry = Entry {
    weight: 0.0,
    number: 0,
};

/// Numbers from 0 on with weights, and a heap of some of them.
#[derive(Drop)]
pub(crate) struct Heap {
    pub(crate) weights: Table<f64>,
    heap: Table<Entry>,
    /// By number: its place in the heap.
    places: Table<u32>,
}

impl Heap {
    /// No numbers.
    pub(crate) fn new(alloc: Global) -> Heap {
        Heap {
            weights: Table::new(alloc, 0.0),
            heap: Table::new(alloc, NO_ENTRY),
            places: Table::new(alloc, OUTSIDE),
        }
    }

    /// The next number, in the heap.
    pub(crate) fn add(&mut self, weight: f64) -> Result<()> {
        let number = self.weights.count();
        self.weights.push(weight)?;
        self.places.push(OUTSIDE)?;
        self.insert(number)
    }

    /// A number comes into the heap.
    pub(crate) fn insert(&mut self, number: u32) -> Result<()> {
        let (at, weight) = (self.heap.count(), self.weights[number]);
        self.heap.push(Entry { weight, number })?;
        self.move_up(at, Entry { weight, number });
        Ok(())
    }

    /// A number's weight grows.
    pub(crate) fn raise(&mut self, number: u32, by: f64) {
        let weight = self.weights[number] + by;
        self.weights[number] = weight;
        let at = self.places[number];
        if at != OUTSIDE {
            self.move_up(at, Entry { weight, number });
        }
    }

    /// All weights fall: each is divided by this.
    pub(crate) fn scale_down(&mut self, by: f64) {
        for weight in &mut self.weights.items {
            *weight = *weight / by;
        }
        for entry in &mut self.heap.items {
            entry.weight = entry.weight / by;
        }
    }

    /// Takes the heaviest number out of the heap.
    pub(crate) fn take_top(&mut self) -> Option<u32> {
        let last = self.heap.items.pop()?;
        let mut top = last.number;
        if self.heap.count() > 0 {
            top = self.heap[0].number;
            self.move_down(last);
        }
        self.places[top] = OUTSIDE;
        Some(top)
    }

    /// A number stands at a place of the heap.
    #[inline(always)]
    fn put(&mut self, at: u32, entry: Entry) {
        self.heap[at] = entry;
        self.places[entry.number] = at;
    }

    /// A number moves up from a place to where none above has a lesser weight.
    fn move_up(&mut self, from: u32, entry: Entry) {
        let mut at = from;
        for _ in 0..32 {
            if at == 0 {
                break;
            }
            let above = at.wrapping_sub(1) / 2;
            let other = self.heap[above];
            if other.weight >= entry.weight {
                break;
            }
            self.put(at, other);
            at = above;
        }
        self.put(at, entry);
    }

    /// A number moves down from the top to where none below has a greater weight.
    fn move_down(&mut self, entry: Entry) {
        let mut at = 0u32;
        for _ in 0..32 {
            let mut below = at.wrapping_mul(2).wrapping_add(1);
            if below >= self.heap.count() {
                break;
            }
            let (mut found, next) = (self.heap[below], below.wrapping_add(1));
            if next < self.heap.count() {
                let other = self.heap[next];
                if other.weight > found.weight {
                    (found, below) = (other, next);
                }
            }
            if found.weight <= entry.weight {
                break;
            }
            self.put(at, found);
            at = below;
        }
        self.put(at, entry);
    }
}
