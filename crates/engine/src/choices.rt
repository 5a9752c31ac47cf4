//! Which literal is tried next.
//!
//! Only literals that an analysis has met have a weight (VSIDS, Moskewicz and others 2001). Of a variable the value is
//! tried first that it had last, or that the best schedule has.

use crate::heap::Heap;
use instance::{Classes, Instance, Result, Table, narrow};
use propagation::{BoundChange, Edges, Literal, NEVER, Trail};
use std::alloc::Global;
use std::collections::HashMap;
use std::mem;

/// By how much a literal of an older conflict counts for less than one of the next.
const DECAY: f64 = 0.95;

/// Weights are scaled down above this.
const MOST: f64 = 1e100;

/// Literals whose weight is less than this part of the next conflict's are forgotten.
const FADED: f64 = 1e-30;

/// How much the seed may move a first weight, in units of the next conflict's.
const SHAKE: f64 = 1e-6;

/// The literals that may be tried, and the order in which they are.
#[derive(Drop)]
pub(crate) struct Choices {
    alloc: Global,
    /// The literals that have a weight, each as it bounds its variable from below, and their numbers.
    literals: Table<Literal>,
    numbers: HashMap<Literal, u32>,
    heap: Heap,
    /// Those that were taken from the heap, and how many there were when each level began.
    taken: Table<u32>,
    levels: Table<u32>,
    bump: f64,
    /// By variable: the value that is tried first.
    saved: Table<i32>,
    /// Activities in the order in which they are started where nothing has a weight.
    sequence: Vec<u32>,
    /// Whether orders decide all, so that starts get no weight.
    only_orders: bool,
    seed: u64,
}

/// A number of 16 bits that looks random, of a literal and a seed.
fn lot(literal: Literal, seed: u64) -> i32 {
    let key = u64::from(literal.slot).wrapping_shl(32) | u64::from(literal.value.cast_unsigned());
    let hash = key.wrapping_mul(0x9e37_79b9_7f4a_7c15).wrapping_shr(32);
    (hash.wrapping_mul(seed) & 0xffff) as i32
}

/// The start of an activity; 0 where it has none.
fn start_of(starts: &[i32], activity: u32) -> i32 {
    starts.get(activity as usize).copied().unwrap_or(0)
}

impl Choices {
    /// Nothing has a weight.
    pub(crate) fn new(
        alloc: Global,
        trail: &Trail,
        sequence: Vec<u32>,
        only_orders: bool,
        seed: u64,
    ) -> Result<Choices> {
        let mut saved = Table::new(alloc, 0);
        for variable in 0..trail.values().count() / 2 {
            saved.push(trail.least(variable))?;
        }
        Ok(Choices {
            alloc,
            literals: Table::new(alloc, NEVER),
            numbers: HashMap::new(alloc),
            heap: Heap::new(alloc),
            taken: Table::new(alloc, 0),
            levels: Table::new(alloc, 0),
            bump: 1.0,
            saved,
            sequence,
            only_orders,
            seed,
        })
    }

    /// A literal gets a weight, which it has not.
    fn add(&mut self, literal: Literal, weight: f64) -> Result<()> {
        self.numbers.insert(literal, self.literals.count())?;
        self.literals.push(literal)?;
        self.heap.add(weight)
    }

    /// Forgets literals whose weight has faded. At the root only.
    pub(crate) fn reduce(&mut self) -> Result<()> {
        let literals = mem::replace(&mut self.literals, Table::new(self.alloc, NEVER));
        let heap = mem::replace(&mut self.heap, Heap::new(self.alloc));
        self.numbers.clear();
        self.taken.items.clear();
        self.keep(&literals.items, &heap.weights.items)
    }

    /// Of these literals those whose weight has not faded get it again.
    fn keep(&mut self, literals: &[Literal], weights: &[f64]) -> Result<()> {
        let least = self.bump * FADED;
        for (literal, weight) in literals.iter().zip(weights) {
            if *weight > least {
                self.add(*literal, *weight)?;
            }
        }
        Ok(())
    }

    /// A conflict needed a literal.
    pub(crate) fn bump(&mut self, literal: Literal) -> Result<()> {
        if self.only_orders && (literal.variable() as usize) < self.sequence.len() {
            return Ok(());
        }
        let lower = if literal.is_lower() {
            literal
        } else {
            !literal
        };
        match self.numbers.get(&lower) {
            Some(number) => self.heap.raise(*number, self.bump),
            None => {
                let shake = f64::from(lot(lower, self.seed)) * SHAKE;
                self.add(lower, (shake + 1.0) * self.bump)?;
            }
        }
        Ok(())
    }

    /// The next conflict counts for more.
    pub(crate) fn age(&mut self) {
        self.bump = self.bump / DECAY;
        if self.bump > MOST {
            self.heap.scale_down(MOST);
            self.bump = self.bump / MOST;
        }
    }

    /// An event goes: its variable's saved value stays within the window that it had.
    pub(crate) fn save(&mut self, event: &BoundChange) {
        let saved = &mut self.saved[event.slot / 2];
        if event.slot % 2 == 0 {
            *saved = (*saved).max(event.new);
        } else {
            *saved = (*saved).min(event.new.wrapping_neg());
        }
    }

    /// A level begins.
    pub(crate) fn begin_level(&mut self) -> Result<()> {
        self.levels.push(self.taken.count())
    }

    /// After the trail went back to a level: literals that are open again return.
    pub(crate) fn go_back(&mut self, trail: &Trail, level: u32) -> Result<()> {
        let mut kept = self.levels[level];
        self.levels.truncate(level);
        for at in kept..self.taken.count() {
            let number = self.taken[at];
            if trail.is_open(self.literals[number]) {
                self.heap.insert(number)?;
            } else {
                self.taken[kept] = number;
                kept = kept.wrapping_add(1);
            }
        }
        self.taken.truncate(kept);
        Ok(())
    }

    /// Takes the open literal of greatest weight from the heap: its number. Those that it takes are judged again when the
    /// level ends that begins next.
    fn take_open(&mut self, trail: &Trail) -> Result<Option<u32>> {
        for _ in 0..u64::MAX {
            let Some(number) = self.heap.take_top() else {
                break;
            };
            self.taken.push(number)?;
            if trail.is_open(self.literals[number]) {
                return Ok(Some(number));
            }
        }
        Ok(None)
    }

    /// The open literal of greatest weight, as its variable's saved value says.
    fn heaviest(&mut self, trail: &Trail) -> Result<Option<Literal>> {
        let Some(number) = self.take_open(trail)? else {
            return Ok(None);
        };
        let literal = self.literals[number];
        let is_saved = self.saved[literal.variable()] >= literal.value;
        Ok(Some(if is_saved { literal } else { !literal }))
    }

    /// The open literals of greatest weight with that weight, so many at most, at a level of their own. If none has a weight,
    /// the literal that is tried next.
    pub(crate) fn heaviest_of(
        &mut self,
        trail: &Trail,
        edges: &Edges,
        most: usize,
    ) -> Result<Vec<(f64, Literal)>> {
        let mut open = Vec::new(self.alloc);
        for _ in 0..most {
            let Some(number) = self.take_open(trail)? else {
                break;
            };
            open.push((self.heap.weights[number], self.literals[number]))?;
        }
        if open.is_empty() {
            if let Some(next) = self.next_start(trail, edges) {
                open.push((1.0, next))?;
            }
        }
        Ok(open)
    }

    /// The literal to try next, at a level that begins with it; none where all is settled.
    pub(crate) fn next(&mut self, trail: &Trail, edges: &Edges) -> Result<Option<Literal>> {
        self.begin_level()?;
        let mut found = self.heaviest(trail)?;
        if found.is_none() {
            found = self.next_start(trail, edges);
        }
        if found.is_none() {
            self.levels.items.pop();
        }
        Ok(found)
    }

    /// The next open activity of the sequence; where orders decide all, the one that can be earliest.
    fn next_open(&self, trail: &Trail) -> Option<u32> {
        let (mut next, mut earliest) = (None, (i32::MAX, i32::MAX));
        for activity in &self.sequence {
            let window = (trail.least(*activity), trail.greatest(*activity));
            if window.0 < window.1 && window < earliest {
                (next, earliest) = (Some(*activity), window);
                if !self.only_orders {
                    break;
                }
            }
        }
        next
    }

    /// An activity comes before its earliest rival, of those whose order is open.
    fn before_rival(&self, trail: &Trail, edges: &Edges, activity: u32) -> Option<Literal> {
        let (mut found, mut earliest) = (None, i32::MAX);
        for other in 0..narrow(self.sequence.len()) {
            let before = edges.precedence(activity, other).unwrap_or(NEVER);
            if trail.is_open(before) && trail.least(other) < earliest {
                (found, earliest) = (Some(before), trail.least(other));
            }
        }
        found
    }

    /// The next open activity of the sequence starts as early as it can. Where orders decide all, the one that can be
    /// earliest comes before its earliest rival.
    fn next_start(&self, trail: &Trail, edges: &Edges) -> Option<Literal> {
        let activity = self.next_open(trail)?;
        if self.only_orders {
            let before = self.before_rival(trail, edges, activity);
            if before.is_some() {
                return before;
            }
        }
        Some(Literal::at_most(activity, trail.least(activity)))
    }

    /// The values of a schedule are tried first. Where nothing has a weight, activities are started in its order.
    pub(crate) fn prefer(&mut self, instance: &Instance, starts: &[i32], classes: &Classes) {
        for activity in 0..instance.count() {
            self.saved[activity] = start_of(starts, activity);
        }
        for (variable, class) in (instance.count()..u32::MAX).zip(0..classes.count()) {
            let pair = classes.pair(class);
            let end = start_of(starts, pair.first).wrapping_add(instance.durations[pair.first]);
            self.saved[variable] = i32::from(start_of(starts, pair.second) >= end);
        }
        let key = |activity: &u32| (start_of(starts, *activity), *activity);
        self.sequence.sort_unstable_by_key(key);
    }
}
