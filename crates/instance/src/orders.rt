//! Orders of rivals that lags settle, and a sequence to start activities in.

use crate::numbers::{Edge, Instance};
use crate::walks::Walks;
use crate::{Result, Table, narrow};
use std::cmp::Reverse;
use std::mem;

/// Orders of more pairs than this would cost more than they bring.
const MOST_PAIRS: usize = 20_000;

/// About how many entries of the matrix may be looked at.
const BUDGET: u64 = 500_000_000;

/// Two rivals whose order is open.
#[derive(Clone, Copy, PartialEq, Eq, PartialOrd, Ord, Debug)]
pub struct Rivals {
    pub first: u32,
    pub second: u32,
}

/// The orders that every schedule has, and the pairs that are left open.
#[derive(Drop)]
pub struct Settled {
    /// The walks over the lags and the settled orders.
    pub walks: Walks,
    /// The edges of settled orders that the walks before them did not have.
    pub forced: Vec<Edge>,
    /// In rising order.
    pub open: Vec<Rivals>,
    /// Whether there is no schedule.
    pub is_infeasible: bool,
}

impl Settled {
    /// Whether two activities, the lesser one first, don't run at once: by lags, or as their order is open.
    pub fn is_parted(&self, instance: &Instance, first: u32, second: u32) -> bool {
        self.walks.part(instance, first, second)
            || self.open.binary_search(&Rivals { first, second }).is_ok()
    }

    /// Whether the first activity of an order can end before the other starts, if no schedule ends after `most`.
    fn fits(&self, instance: &Instance, order: Edge, most: i32) -> bool {
        let head = self.walks.longest(0, order.from).unwrap_or(0);
        let tail = self.walks.longest(order.to, instance.end()).unwrap_or(0);
        let end = head.saturating_add(order.weight).saturating_add(tail);
        end <= most && self.walks.admits(order)
    }

    /// Puts in the order of a pair if only one fits. Whether it stays open.
    fn stays_open(&mut self, instance: &Instance, pair: Rivals, most: i32) -> Result<bool> {
        let Rivals { first, second } = pair;
        let before = Edge::new(first, second, instance.durations[first]);
        let after = Edge::new(second, first, instance.durations[second]);
        let fits_before = self.fits(instance, before, most);
        let fits_after = self.fits(instance, after, most);
        if fits_before && fits_after {
            return Ok(true);
        }
        let order = if fits_before { before } else { after };
        self.is_infeasible = !fits_before && !fits_after;
        if self.is_infeasible || !self.walks.reaches(order.from, order.to, order.weight) {
            self.forced.push(order)?;
            self.walks.insert(order)?;
        }
        Ok(false)
    }

    /// Settles each open pair once, up to where there is no schedule.
    fn pass(&mut self, instance: &Instance, most: i32) -> Result<()> {
        let above = most.wrapping_add(1);
        self.is_infeasible = self.walks.reaches(0, instance.end(), above);
        for pair in mem::replace(&mut self.open, Vec::new(instance.alloc)).iter() {
            if self.is_infeasible {
                break;
            }
            if self.stays_open(instance, *pair, most)? {
                self.open.push(*pair)?;
            }
        }
        Ok(())
    }
}

/// The orders of rivals that every schedule of a makespan at most `most` has, and the pairs that are left open, settled
/// until nothing follows any more, or it gets long. Above 20,000 open pairs none is named.
pub fn settle(instance: &Instance, walks: Walks, most: i32) -> Result<Settled> {
    let after = |first: u32| first.wrapping_add(1)..instance.count();
    let pairs = (0..instance.count())
        .flat_map(|first| after(first).map(move |second| Rivals { first, second }))
        .filter(|pair| instance.are_rivals(pair.first, pair.second));
    let mut settled = Settled {
        walks,
        forced: Vec::new(instance.alloc),
        open: pairs.collect(instance.alloc)?,
        is_infeasible: false,
    };
    let count = u64::from(instance.count().max(1));
    let limit = BUDGET / count.wrapping_mul(count).max(1);
    for _ in 0..u64::MAX {
        let before = settled.forced.len();
        settled.pass(instance, most)?;
        let forced = settled.forced.len();
        if settled.is_infeasible || forced == before || forced as u64 >= limit {
            break;
        }
    }
    if settled.is_infeasible || settled.open.len() > MOST_PAIRS {
        settled.open.clear();
    }
    Ok(settled)
}

/// Whether a walk leads from one activity to another and none back.
fn is_before(walks: &Walks, first: u32, second: u32) -> bool {
    walks.longest(first, second).is_some() && walks.longest(second, first).is_none()
}

/// Activities in an order to start them at once: by their latest starts, but after all that a walk leads from, unless
/// one leads back. So what ends a maximum lag has its other predecessors placed before.
pub fn start_sequence(instance: &Instance, walks: &Walks) -> Result<Vec<u32>> {
    let (alloc, end) = (instance.alloc, instance.end());
    let mut waits = Table::new(alloc, 0);
    for activity in 0..instance.count() {
        let before = (0..instance.count()).filter(|other| is_before(walks, *other, activity));
        waits.push(narrow(before.count()))?;
    }
    let mut left: Vec<u32> = (0..instance.count()).collect(alloc)?;
    left.sort_unstable_by_key(|activity: &u32| {
        let tail = walks.longest(*activity, end).unwrap_or(0);
        (Reverse(tail), *activity)
    });
    let mut sequence = Vec::new(alloc);
    for _ in 0..instance.count() {
        let Some(at) = left.iter().position(|activity| waits[*activity] == 0) else {
            break;
        };
        let first = left.remove(at);
        for activity in left.iter().filter(|other| is_before(walks, first, **other)) {
            waits[*activity] = waits[*activity].wrapping_sub(1);
        }
        sequence.push(first)?;
    }
    Ok(sequence)
}
