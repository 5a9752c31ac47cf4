//! Tours: groups that run one after the other with delays, as a travelling salesman visits cities. The least assignment of a
//! next group to each, by the orders so far, says when all end at least.
//!
//! A look takes about the square of the groups for each group that lost its next one, once nothing else follows and orders
//! are new. Only where an assignment says more than the best clique at the root is there a machine to look at.

use crate::clique_changes::{Set, bit};
use crate::group_orders::GroupOrders;
use crate::{Conflict, Edges, Literal, Stop, Trail};
use instance::{Assignment, Costs, Instance, Machine, Member, Result, Table, clip};
use std::alloc::Global;

/// Intervals of a record begin so many periods before or after their anchors, and are so long, at most.
const MOST: i64 = 500_000_000;

/// A look for assignments that are too long.
#[derive(Drop)]
pub struct Tours {
    alloc: Global,
    orders: GroupOrders,
    /// The last activity, and the first slot of an order.
    end: u32,
    first: u32,
    anchors: Table<u32>,
    /// By places of groups, and the ends, last.
    delays: Costs,
    costs: Costs,
    /// The least assignment without orders, and that of the last look.
    root: Assignment,
    now: Assignment,
    /// How far the duals of the last look reach.
    sum: i64,
    /// Events before this one were looked at.
    queue: u32,
    /// How many costs were looked at.
    pub steps: u64,
}

/// By group: those that are known to run before it, and after it, as bits.
#[derive(Drop)]
struct Known {
    before: Table<Set>,
    after: Table<Set>,
}

/// Something to take from a dual, that of a row or a column, so that so many pairs need no order any more.
#[derive(Clone, Copy)]
struct Cut {
    place: u32,
    is_row: bool,
    cost: i64,
    pairs: i64,
}

impl Cut {
    /// Whether it saves more for its cost than another one.
    fn is_above(self, other: Cut) -> bool {
        self.pairs.wrapping_mul(other.cost) > other.pairs.wrapping_mul(self.cost)
    }
}

impl Tours {
    /// Tours over the groups of a machine.
    pub fn new(instance: &Instance, edges: &Edges, machine: &Machine) -> Result<Tours> {
        let (alloc, count) = (instance.alloc, machine.delays.count());
        let (mut root, mut anchors) = (Assignment::new(alloc, count)?, Table::new(alloc, 0));
        root.solve(&machine.delays);
        for member in &machine.members {
            anchors.push(member.activity)?;
        }
        let mut tours = Tours {
            alloc,
            orders: GroupOrders::new(instance, edges, machine)?,
            end: instance.end(),
            first: instance.count().wrapping_mul(2),
            anchors,
            delays: Costs::new(alloc, count, machine.delays.far)?,
            costs: Costs::new(alloc, count, machine.delays.far)?,
            root,
            now: Assignment::new(alloc, count)?,
            sum: 0,
            queue: 0,
            steps: 0,
        };
        for at in 0..count.wrapping_mul(count) {
            let (one, other) = tours.pair(at);
            tours.delays.set(one, other, machine.delays.at(one, other));
        }
        Ok(tours)
    }

    /// The two places of a number.
    fn pair(&self, at: u32) -> (u32, u32) {
        let count = self.delays.count().max(1);
        (at / count, at % count)
    }

    /// How many groups there are; the place of the ends.
    fn count(&self) -> u32 {
        self.orders.count()
    }

    /// How many pairs of places there are.
    fn pair_count(&self) -> u32 {
        self.delays.count().wrapping_mul(self.delays.count())
    }

    /// What is known of orders.
    fn known(&self, trail: &Trail) -> Result<Known> {
        let count = self.count() as usize;
        let mut known = Known {
            before: Table::filled(self.alloc, count, 0, 0)?,
            after: Table::filled(self.alloc, count, 0, 0)?,
        };
        for at in 0..self.pair_count() {
            let (one, other) = self.pair(at);
            if one < self.count() && other < self.count() && one != other {
                if trail.holds(self.orders.before(one, other)) {
                    known.after[one] |= bit(other);
                    known.before[other] |= bit(one);
                }
            }
        }
        Ok(known)
    }

    /// Whether a group can't be next to another one, by orders. First and last are next to the ends.
    fn is_lost(&self, known: &Known, one: u32, other: u32) -> bool {
        let ends = self.count();
        match (one == ends, other == ends) {
            (true, _) => known.before[other] != 0,
            (_, true) => known.after[one] != 0,
            _ => {
                known.before[one] & bit(other) != 0 || known.after[one] & known.before[other] != 0
            }
        }
    }

    /// The trail went back to so many events.
    pub fn go_back(&mut self, queue: u32) {
        self.queue = self.queue.min(queue);
    }

    /// Whether orders are new, or the greatest end is.
    fn has_news(&self, trail: &Trail) -> bool {
        for number in self.queue..trail.count() {
            let slot = trail.event(number).slot;
            if slot >= self.first || slot / 2 == self.end {
                return true;
            }
        }
        false
    }

    /// Sets the costs by what is known.
    fn set_costs(&mut self, known: &Known) {
        for at in 0..self.pair_count() {
            let (one, other) = self.pair(at);
            let cost = match self.is_lost(known, one, other) {
                true => self.delays.far,
                false => self.delays.at(one, other),
            };
            self.costs.set(one, other, cost);
        }
    }

    /// Whether no interval by the duals has negative length. Such ones would say nothing, as they could go round.
    fn has_lengths(&self) -> bool {
        (0..self.count()).all(|place: u32| self.now.dual_sum(place, place) >= 0)
    }

    /// Whether the groups can end in time, where orders or the end are new.
    pub fn look(&mut self, trail: &Trail) -> Result<(), Stop> {
        let has_news = self.has_news(trail);
        self.queue = trail.count();
        if !has_news {
            return Ok(());
        }
        self.steps = self.steps.wrapping_add(u64::from(self.pair_count()));
        let known = self.known(trail)?;
        self.set_costs(&known);
        self.now.copy_from(&self.root);
        self.now.solve(&self.costs);
        self.sum = self.now.sum();
        let latest = i64::from(trail.greatest(self.end));
        if self.sum <= latest || !self.has_lengths() {
            return Ok(());
        }
        self.weaken(latest)?;
        match self.is_written() {
            true => Err(Stop::Conflict(Conflict::Tour)),
            false => Ok(()),
        }
    }

    /// Whether a record has numbers for all intervals.
    fn is_written(&self) -> bool {
        (0..self.delays.count()).all(|place: u32| {
            self.now.rows[place].wrapping_abs() <= MOST
                && self.now.columns[place].wrapping_abs() <= MOST
        })
    }

    /// By how much the duals of a place are above its delay to or from another one; there an order is needed.
    fn excess(&self, one: u32, other: u32) -> i64 {
        self.now
            .dual_sum(one, other)
            .wrapping_sub(self.delays.at(one, other))
    }

    /// What the sum has to spare above a time is taken from the duals that need most orders.
    fn weaken(&mut self, latest: i64) -> Result<()> {
        for _ in 0..u64::MAX {
            let spare = self.sum.wrapping_sub(latest).wrapping_sub(1);
            let Some(cut) = self.best_cut(spare)? else {
                break;
            };
            let duals = match cut.is_row {
                true => &mut self.now.rows,
                false => &mut self.now.columns,
            };
            duals[cut.place] = duals[cut.place].wrapping_sub(cut.cost);
            self.sum = self.sum.wrapping_sub(cut.cost);
        }
        Ok(())
    }

    /// The cut that saves most for its cost, up to a cost.
    fn best_cut(&self, spare: i64) -> Result<Option<Cut>> {
        let mut best: Option<Cut> = None;
        for at in 0..self.delays.count().wrapping_mul(2) {
            let cut = self.cut_of(at / 2, at % 2 == 1, spare)?;
            best = match (best, cut) {
                (Some(known), Some(cut)) => Some(if cut.is_above(known) { cut } else { known }),
                (known, None) => known,
                (None, cut) => cut,
            };
        }
        Ok(best)
    }

    /// What a row, or a column, is above its delays, where it is so, in rising order.
    fn excesses(&self, place: u32, is_row: bool) -> Result<Vec<i64>> {
        let mut excesses = Vec::new(self.alloc);
        for other in 0..self.delays.count() {
            let excess = match is_row {
                true => self.excess(place, other),
                false => self.excess(other, place),
            };
            if other != place && excess > 0 {
                excesses.push(excess)?;
            }
        }
        excesses.sort_unstable();
        Ok(excesses)
    }

    /// The cut of a row or a column that saves most for its cost, up to a cost. No interval gets negative length.
    fn cut_of(&self, place: u32, is_row: bool, spare: i64) -> Result<Option<Cut>> {
        let room = match place < self.count() {
            true => spare.min(self.now.dual_sum(place, place)),
            false => spare,
        };
        let (mut best, mut pairs): (Option<Cut>, i64) = (None, 0);
        for cost in &self.excesses(place, is_row)? {
            pairs = pairs.wrapping_add(1);
            let cut = Cut {
                place,
                is_row,
                cost: *cost,
                pairs,
            };
            if *cost <= room && !best.is_some_and(|known: Cut| !cut.is_above(known)) {
                best = Some(cut);
            }
        }
        Ok(best)
    }
}

impl Tours {
    /// The literal by which no schedule ends as late as the duals of the last look reach.
    pub fn end(&self) -> Literal {
        Literal::at_most(self.end, clip(self.sum.wrapping_sub(1)))
    }

    /// The literal by which one group runs before another one, by their places.
    pub fn before(&self, one: u32, other: u32) -> Literal {
        self.orders.before(one, other)
    }

    /// The activity about which a group's interval lies.
    pub fn anchor(&self, place: u32) -> u32 {
        self.anchors[place]
    }

    /// The intervals by the duals of the last look.
    pub fn intervals(&self) -> Result<Vec<Member>> {
        let mut intervals = Vec::new(self.alloc);
        for place in 0..self.count() {
            intervals.push(Member {
                activity: self.anchor(place),
                at: clip(self.now.columns[place].wrapping_neg()),
                length: clip(self.now.dual_sum(place, place)),
            })?;
        }
        Ok(intervals)
    }

    /// From when on the intervals lie, and up to when they have to.
    pub fn window(&self) -> (i32, i32) {
        let (ends, sum) = (self.count(), self.sum.wrapping_sub(1));
        let to = sum.wrapping_sub(self.now.columns[ends]);
        (clip(self.now.rows[ends]), clip(to))
    }

    /// The orders by which the intervals of the last look have no time in common and lie in the window, each as two places,
    /// in rising order.
    pub fn needed_orders(&self, trail: &Trail) -> Result<Vec<(u32, u32)>> {
        let (known, mut needed) = (self.known(trail)?, Vec::new(self.alloc));
        for at in 0..self.pair_count() {
            let (one, other) = self.pair(at);
            if one != other && self.excess(one, other) > 0 {
                needed.extend_from_slice(&self.orders_against(trail, &known, one, other)?)?;
            }
        }
        needed.sort_unstable();
        needed.dedup();
        Ok(needed)
    }

    /// The orders that were known first by which a place is not next to another one.
    fn orders_against(
        &self,
        trail: &Trail,
        known: &Known,
        one: u32,
        other: u32,
    ) -> Result<Vec<(u32, u32)>> {
        let (ends, mut orders) = (self.count(), Vec::new(self.alloc));
        let is_inner = one != ends && other != ends;
        if is_inner && known.before[one] & bit(other) != 0 {
            orders.push((other, one))?;
            return Ok(orders);
        }
        let between = match (one == ends, other == ends) {
            (true, _) => known.before[other],
            (_, true) => known.after[one],
            _ => known.after[one] & known.before[other],
        };
        let via = self.earliest(trail, between, one, other);
        if one != ends {
            orders.push((one, via))?;
        }
        if other != ends {
            orders.push((via, other))?;
        }
        Ok(orders)
    }

    /// Of some groups, as bits, that which was known first to run between two places.
    fn earliest(&self, trail: &Trail, groups: Set, one: u32, other: u32) -> u32 {
        let groups = (0..self.count()).filter(|place: &u32| groups & bit(*place) != 0);
        let key = |place: &u32| self.event_between(trail, one, *place, other);
        groups.min_by_key(key).unwrap_or(0)
    }

    /// The event by which a group runs between two places. All run between the ends.
    fn event_between(&self, trail: &Trail, one: u32, place: u32, other: u32) -> u32 {
        let ends = self.count();
        let event = |literal: Literal, is_end: bool| if is_end {
            0
        } else {
            trail.event_of(literal)
        };
        let before = event(self.before(one, place), one == ends);
        before.max(event(self.before(place, other), other == ends))
    }
}
