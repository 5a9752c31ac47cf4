//! A virtual machine: groups that run one after the other. Each has an interval about one of its activities, its anchor, and
//! no two of these overlap. How far the intervals reach, the duals of an assignment of a next group to each say.

use crate::assignment::{Assignment, Costs};
use crate::classes::{Classes, DelayLemma, Shown, reverse};
use crate::groups::{Groups, Joint};
use crate::member::{Late, Member};
use crate::numbers::{Edge, Instance};
use crate::orders::Settled;
use crate::{Result, Rows, Table, clip, narrow};
use std::alloc::Global;
use std::cmp::Reverse;

/// How many groups a machine has.
const LEAST: usize = 3;

const MOST: usize = 64;

/// Of two members of a machine, by their places, the first runs before the second on side 0 of a class, and after it on side
/// 1.
#[derive(Clone, Copy)]
pub struct GroupOrder {
    pub first: u32,
    pub second: u32,
    pub class: u32,
}

/// A virtual machine.
#[derive(Drop)]
pub struct Machine {
    /// The intervals of groups. Their activities, the anchors, rise.
    pub members: Vec<Member>,
    pub orders: Vec<GroupOrder>,
    /// By the places of two members: how long after the first anchor the second one starts at least, if its group is later.
    /// Behind the members are the ends: when each anchor starts at least, and how long after it a schedule ends.
    pub delays: Costs,
    /// No schedule ends before this.
    pub value: i64,
}

/// An order of a group: on this side of a class it runs before another one.
#[derive(Clone, Copy)]
struct Join {
    other: u32,
    side: u32,
    class: u32,
}

/// By group, its orders.
fn joins(alloc: Global, groups: &Groups, classes: &Classes) -> Result<Rows<Join>> {
    let mut joins = Vec::new(alloc);
    for class in 0..classes.count() {
        let pair = classes.pair(class);
        let (one, other) = (groups.group(pair.first), groups.group(pair.second));
        if one != other {
            joins.push((
                one,
                Join {
                    other,
                    side: 0,
                    class,
                },
            ))?;
            joins.push((
                other,
                Join {
                    other: one,
                    side: 1,
                    class,
                },
            ))?;
        }
    }
    let none = Join {
        other: 0,
        side: 0,
        class: 0,
    };
    Rows::by_row(alloc, joins, none)
}

/// Groups of which each two have an order, greedily: those of most orders first.
fn clique_of(alloc: Global, joins: &Rows<Join>) -> Result<Vec<u32>> {
    let mut groups: Vec<u32> = (0..joins.count()).collect(alloc)?;
    groups.sort_unstable_by_key(|group: &u32| (Reverse(joins.row(*group).len()), *group));
    let mut clique = Vec::new(alloc);
    for group in &groups {
        let joined = joins.row(*group);
        let fits = |member: &u32| joined.iter().any(|join: &Join| join.other == *member);
        if !joined.is_empty() && clique.iter().all(fits) {
            clique.push(*group)?;
        }
    }
    Ok(clique)
}

/// Two anchors, and how long after each the other one starts at least, if its group is later by an order.
#[derive(Clone, Copy)]
struct Delays {
    there: i32,
    back: i32,
    join: Join,
}

/// A search for a machine.
#[derive(Drop)]
struct MachineSearch<'a> {
    instance: &'a Instance,
    settled: &'a Settled,
    groups: &'a Groups,
    classes: &'a Classes,
    joins: Rows<Join>,
    /// Of each group its activities, by their least starts.
    places: Rows<u32>,
}

impl<'a> MachineSearch<'a> {
    fn new(
        instance: &'a Instance,
        settled: &'a Settled,
        groups: &'a Groups,
        classes: &'a Classes,
    ) -> Result<MachineSearch<'a>> {
        let joins = joins(instance.alloc, groups, classes)?;
        let mut places = Rows::new(instance.alloc, 0);
        for group in &clique_of(instance.alloc, &joins)? {
            let mut members = Vec::from_slice(instance.alloc, groups.members.row(*group))?;
            let head = |member: &u32| (settled.walks.longest(0, *member), *member);
            members.sort_unstable_by_key(head);
            places.push_row(&members)?;
        }
        Ok(MachineSearch {
            instance,
            settled,
            groups,
            classes,
            joins,
            places,
        })
    }

    /// Of each group the activity at a place, or its last one.
    fn anchors(&self, place: usize) -> Result<Vec<u32>> {
        let mut anchors = Vec::new(self.instance.alloc);
        for group in 0..self.places.count() {
            let members = self.places.row(group);
            let at = place.min(members.len().saturating_sub(1));
            anchors.push(members.get(at).copied().unwrap_or(0))?;
        }
        Ok(anchors)
    }

    /// Whether no anchor has play to one of another list. Then these say the same.
    fn are_tied(&self, anchors: &[u32], others: &[u32]) -> bool {
        let walks = &self.settled.walks;
        anchors.iter().zip(others).all(|(anchor, other): (&u32, &u32)| match (
            walks.longest(*anchor, *other),
            walks.longest(*other, *anchor),
        ) {
            (Some(there), Some(back)) => there.wrapping_add(back) == 0,
            _ => false,
        })
    }

    /// The lists of anchors that say something new, each of rising activities.
    fn all_anchors(&self) -> Result<Vec<Vec<u32>>> {
        let rows = 0..self.places.count();
        let most = rows
            .map(|row| self.places.row(row).len())
            .max()
            .unwrap_or(0);
        let mut lists: Vec<Vec<u32>> = Vec::new(self.instance.alloc);
        for place in 0..most {
            let anchors = self.anchors(place)?;
            if !lists.iter().any(|others| self.are_tied(&anchors, others)) {
                lists.push(anchors)?;
            }
        }
        for anchors in lists.iter_mut() {
            anchors.sort_unstable();
        }
        Ok(lists)
    }

    /// How long after one anchor another one starts at least, on a side of a class.
    fn delay(&self, class: u32, side: u32, from: u32, to: u32) -> Option<i32> {
        let edges = self.classes.side(class, side).iter();
        let delays = edges.filter_map(|edge| self.settled.walks.over(from, *edge, to));
        delays.max()
    }

    /// The delays of two anchors by an order of their groups.
    fn delays_by(&self, join: Join, one: u32, other: u32) -> Option<Delays> {
        let Join { side, class, .. } = join;
        let there = self.delay(class, side, one, other)?;
        let back = self.delay(class, 1u32.wrapping_sub(side), other, one)?;
        Some(Delays { there, back, join })
    }

    /// The greatest delays of two anchors by orders of their groups, the first of these.
    fn delays(&self, one: u32, other: u32) -> Option<Delays> {
        let to = self.groups.group(other);
        let joins = self.joins.row(self.groups.group(one)).iter();
        joins
            .filter(|join: &&Join| join.other == to)
            .filter_map(|join| self.delays_by(*join, one, other))
            .max_by_key(|delays: &Delays| {
                let both = delays.there.wrapping_add(delays.back);
                (both, Reverse(delays.join.class))
            })
    }

    /// A machine's delays of two anchors, and the order by which they hold. Whether there are such.
    fn add_order(&self, machine: &mut Machine, anchors: &[u32], at: (u32, u32)) -> Result<bool> {
        let (first, second) = at;
        let place = |at: u32| anchors.get(at as usize).copied().unwrap_or(0);
        let Some(delays) = self.delays(place(first), place(second)) else {
            return Ok(false);
        };
        let Delays { there, back, join } = delays;
        machine.delays.set(first, second, i64::from(there));
        machine.delays.set(second, first, i64::from(back));
        let class = join.class;
        machine.orders.push(match join.side {
            0 => GroupOrder {
                first,
                second,
                class,
            },
            _ => GroupOrder {
                first: second,
                second: first,
                class,
            },
        })?;
        Ok(true)
    }

    /// When each anchor starts at least, and how long after it a schedule ends.
    fn add_ends(&self, machine: &mut Machine, anchors: &[u32]) {
        let (ends, walks) = (narrow(anchors.len()), &self.settled.walks);
        for (place, anchor) in (0..u32::MAX).zip(anchors) {
            let head = walks.longest(0, *anchor).unwrap_or(0);
            let tail = walks.longest(*anchor, self.instance.end()).unwrap_or(0);
            machine.delays.set(ends, place, i64::from(head));
            machine.delays.set(place, ends, i64::from(tail));
        }
    }

    /// The machine of some anchors. None where two have no delays, or where an interval would have negative length.
    fn machine(&self, anchors: &[u32]) -> Result<Option<Machine>> {
        let (alloc, count) = (self.instance.alloc, narrow(anchors.len()).max(1));
        let far = i64::from(self.instance.horizon).wrapping_mul(2);
        let mut machine = Machine {
            members: Vec::new(alloc),
            orders: Vec::new(alloc),
            delays: Costs::new(alloc, count.wrapping_add(1), far)?,
            value: 0,
        };
        for at in 0..count.wrapping_mul(count) {
            let at = (at / count, at % count);
            if at.0 < at.1 && !self.add_order(&mut machine, anchors, at)? {
                return Ok(None);
            }
        }
        self.add_ends(&mut machine, anchors);
        machine.take_members(alloc, anchors)?;
        let has_lengths = machine
            .members
            .iter()
            .all(|member: &Member| member.length >= 0);
        Ok(has_lengths.then_some(machine))
    }

    /// The machines above a value, the best one first.
    fn machines(&self, least: i64) -> Result<Vec<(Reverse<i64>, usize, Machine)>> {
        let mut machines = Vec::new(self.instance.alloc);
        let groups = self.places.count() as usize;
        if groups < LEAST || MOST < groups {
            return Ok(machines);
        }
        for (number, anchors) in self.all_anchors()?.iter().enumerate() {
            if let Some(machine) = self.machine(anchors)? {
                if machine.value > least {
                    machines.push((Reverse(machine.value), number, machine))?;
                }
            }
        }
        machines.sort_by_key(|machine: &(Reverse<i64>, usize, Machine)| (machine.0, machine.1))?;
        Ok(machines)
    }

    /// What a record needs of a machine, in a list of its own. None where orders don't show it all.
    fn lemmas(&self, joint: &[Joint], machine: &Machine) -> Result<Option<Classes>> {
        let mut shown = Classes::new(self.instance);
        for order in &machine.orders {
            let lemmas = machine.lemmas(self.instance.alloc, self.classes, *order)?;
            let anchors = [order.first, order.second].map(|at: u32| machine.member(at).activity);
            let groups = anchors.map(|anchor: u32| self.groups.group(anchor));
            let two = self.groups.two(self.instance, self.settled, joint, groups)?;
            if !two.show(&mut shown, &lemmas)? {
                return Ok(None);
            }
        }
        Ok(Some(shown))
    }
}

impl Machine {
    /// The member at a place.
    pub fn member(&self, place: u32) -> Member {
        self.members
            .get(place as usize)
            .copied()
            .unwrap_or_default()
    }

    /// The intervals about anchors, by the duals of a least assignment: each begins as early and ends as late as the delays
    /// allow.
    fn take_members(&mut self, alloc: Global, anchors: &[u32]) -> Result<()> {
        let (delays, ends) = (&self.delays, narrow(anchors.len()));
        let mut assignment = Assignment::new(alloc, delays.count())?;
        assignment.solve(delays);
        let mut rows = Table::new(alloc, 0i64);
        for place in 0..delays.count() {
            rows.push(assignment.rows[place].wrapping_sub(assignment.rows[ends]))?;
        }
        let mut columns = Table::new(alloc, 0i64);
        for place in 0..delays.count() {
            columns.push(delays.left_of_column(place, &rows))?;
        }
        columns[ends] = columns[ends].max(0);
        self.value = columns[ends];
        for (place, anchor) in (0..u32::MAX).zip(anchors) {
            let (before, after) = (columns[place], delays.left_of_row(place, &columns));
            let length = before.wrapping_add(after);
            self.value = self.value.wrapping_add(length);
            self.members.push(Member {
                activity: *anchor,
                at: clip(before.wrapping_neg()),
                length: clip(length),
            })?;
        }
        Ok(())
    }

    /// What orders have to show of two members.
    fn lemmas(
        &self,
        alloc: Global,
        classes: &Classes,
        order: GroupOrder,
    ) -> Result<Vec<DelayLemma>> {
        let GroupOrder {
            first: one,
            second: other,
            class,
        } = order;
        let (first, second) = (self.member(one), self.member(other));
        let there = self.delay(one, other);
        let back = self.delay(other, one);
        let mut lemmas = Vec::new(alloc);
        if classes.is_loose(class) {
            let sides = [0, 1].map(|side: u32| classes.first_edge(class, side));
            push_side(&mut lemmas, sides, there, Late { first, second })?;
            let (sides, late) = (
                [sides[1], sides[0]],
                Late {
                    first: second,
                    second: first,
                },
            );
            push_side(&mut lemmas, sides, back, late)?;
        }
        lemmas.push(DelayLemma {
            shown: Shown::Apart,
            edges: [reverse(there), reverse(back)],
        })?;
        Ok(lemmas)
    }

    /// The edge of the delay of the anchors at two places.
    fn delay(&self, one: u32, other: u32) -> Edge {
        let (from, to) = (self.member(one).activity, self.member(other).activity);
        Edge::new(from, to, clip(self.delays.at(one, other)))
    }
}

/// Lists what a side of a class says of two members, by the first edges of it and of the other side: their anchors have a
/// delay; and it is this side that holds where the second member does not end before the first begins.
fn push_side(
    lemmas: &mut Vec<DelayLemma>,
    sides: [Edge; 2],
    delay: Edge,
    late: Late,
) -> Result<()> {
    let [own, other] = sides;
    let (from, to) = (delay.from, delay.to);
    lemmas.push(DelayLemma {
        shown: Shown::Delay { from, to },
        edges: [reverse(other), reverse(delay)],
    })?;
    lemmas.push(DelayLemma {
        shown: Shown::Late(late),
        edges: [reverse(own), late.edge()],
    })?;
    Ok(())
}

/// The machine that says most of all places of an anchor in its group, if that is more than a makespan; with what a record
/// needs of it.
fn shown_machine(
    instance: &Instance,
    settled: &Settled,
    groups: &Groups,
    joint: &[Joint],
    classes: &Classes,
    least: i64,
) -> Result<Option<(Machine, Classes)>> {
    let search = MachineSearch::new(instance, settled, groups, classes)?;
    for (_, _, machine) in search.machines(least)? {
        if let Some(shown) = search.lemmas(joint, &machine)? {
            return Ok(Some((machine, shown)));
        }
    }
    Ok(None)
}

/// The machine that says most of all places of an anchor in its group, if that is more than a makespan. What a record needs
/// of it goes to the classes.
pub(crate) fn best_machine(
    instance: &Instance,
    settled: &Settled,
    groups: &Groups,
    joint: &[Joint],
    classes: &mut Classes,
    least: i64,
) -> Result<Option<Machine>> {
    let found = shown_machine(instance, settled, groups, joint, classes, least)?;
    let Some((machine, shown)) = found else {
        return Ok(None);
    };
    classes.push_lemmas(&shown.lemmas, &shown.proofs)?;
    Ok(Some(machine))
}
