//! The greatest weights of walks between activities.

use crate::numbers::{Edge, Instance};
use crate::{Result, Table, narrow};
use std::alloc::Global;

/// No walk. All weights of walks are above it.
const NONE: i32 = i32::MIN / 2;

/// For each two activities the greatest weight of a walk, which edges that come in raise.
#[derive(Drop)]
pub struct Walks {
    alloc: Global,
    count: u32,
    weights: Table<i32>,
}

impl Walks {
    /// The walks over the lags of a project, as Floyd and Warshall (1962) find them, up to where a closed walk has positive
    /// weight.
    pub fn new(instance: &Instance) -> Result<Walks> {
        let (alloc, count) = (instance.alloc, instance.count());
        let places = (count as usize).wrapping_mul(count as usize);
        let weights = Table::filled(alloc, places, NONE, NONE)?;
        let mut walks = Walks {
            alloc,
            count,
            weights,
        };
        let loops = (0..count).map(|activity| Edge::new(activity, activity, 0));
        for edge in loops.chain(instance.leaving.values.items.iter().copied()) {
            let place = walks.place(edge.from, edge.to);
            walks.weights[place] = walks.weights[place].max(edge.weight);
        }
        for pivot in 0..count {
            walks.insert(Edge::new(pivot, pivot, 0))?;
            if walks.at(pivot, pivot) > 0 {
                break;
            }
        }
        Ok(walks)
    }

    /// Whether a closed walk has positive weight.
    pub fn has_loop(&self) -> bool {
        (0..self.count).any(|activity| self.at(activity, activity) > 0)
    }

    /// The same walks.
    pub fn try_copy(&self) -> Result<Walks> {
        let (alloc, count) = (self.alloc, self.count);
        let weights = Table::of(Vec::from_slice(alloc, &self.weights.items)?, NONE);
        Ok(Walks {
            alloc,
            count,
            weights,
        })
    }

    fn place(&self, from: u32, to: u32) -> u32 {
        from.wrapping_mul(self.count).wrapping_add(to)
    }

    fn at(&self, from: u32, to: u32) -> i32 {
        self.weights[self.place(from, to)]
    }

    /// How many activities there are.
    pub fn count(&self) -> u32 {
        self.count
    }

    /// The greatest weight of a walk; none where there is no walk.
    pub fn longest(&self, from: u32, to: u32) -> Option<i32> {
        let weight = self.at(from, to);
        (weight != NONE).then_some(weight)
    }

    /// Whether a walk has at least this weight.
    pub fn reaches(&self, from: u32, to: u32, weight: i32) -> bool {
        self.longest(from, to).is_some_and(|known| known >= weight)
    }

    /// The greatest weight of a walk, if none over the start is as great: that is all that bounds don't tell.
    pub fn beside_start(&self, from: u32, to: u32) -> Option<i32> {
        let weight = self.longest(from, to)?;
        let (Some(back), Some(head)) = (self.longest(from, 0), self.longest(0, to)) else {
            return Some(weight);
        };
        (weight > back.wrapping_add(head)).then_some(weight)
    }

    /// The weight of the walk over an edge, with the longest ones to it and from it; none where there is no walk.
    pub(crate) fn over(&self, from: u32, edge: Edge, to: u32) -> Option<i32> {
        let (first, last) = (self.longest(from, edge.from)?, self.longest(edge.to, to)?);
        Some(first.wrapping_add(edge.weight).wrapping_add(last))
    }

    /// Whether an edge closes no walk of positive weight.
    pub(crate) fn admits(&self, edge: Edge) -> bool {
        !self.reaches(edge.to, edge.from, 1i32.wrapping_sub(edge.weight))
    }

    /// The walks between some activities, each by its place in their list.
    pub(crate) fn among(&self, activities: &[u32]) -> Result<Walks> {
        let mut weights = Table::new(self.alloc, NONE);
        for from in activities {
            for to in activities {
                weights.push(self.at(*from, *to))?;
            }
        }
        Ok(Walks {
            alloc: self.alloc,
            count: narrow(activities.len()),
            weights,
        })
    }

    /// Whether one of two activities ends before the other starts.
    pub(crate) fn part(&self, instance: &Instance, a: u32, b: u32) -> bool {
        self.reaches(a, b, instance.durations[a]) || self.reaches(b, a, instance.durations[b])
    }

    /// Takes the walks over an edge; those over an activity, if the edge leads from it to itself.
    pub(crate) fn insert(&mut self, edge: Edge) -> Result<()> {
        let ways: Vec<(u32, i32)> = (0..self.count)
            .filter(|to: &u32| self.at(edge.to, *to) != NONE)
            .map(|to| (to, edge.weight.wrapping_add(self.at(edge.to, to))))
            .filter(|(to, sum)| edge.from == edge.to || *sum > self.at(edge.from, *to))
            .collect(self.alloc)?;
        for from in 0..self.count {
            let first = self.at(from, edge.from);
            if first != NONE {
                self.extend_row(from, first, &ways);
            }
        }
        Ok(())
    }

    /// Takes the ways after a first walk.
    fn extend_row(&mut self, from: u32, first: i32, ways: &[(u32, i32)]) {
        let row = self.place(from, 0);
        for (to, weight) in ways {
            let (place, sum) = (row.wrapping_add(*to), first.wrapping_add(*weight));
            if sum > self.weights[place] {
                self.weights[place] = sum;
            }
        }
    }
}
