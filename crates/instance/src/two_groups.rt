//! Two groups of activities: walks between these alone, and what the orders of their rivals say of each other.

use crate::classes::{Classes, DelayLemma, NO_RIVALS, Shown, order_edge, reverse};
use crate::member::{Late, Member};
use crate::numbers::{Edge, Instance};
use crate::orders::Rivals;
use crate::walks::Walks;
use crate::{Result, Rows, Table, narrow};

/// The activities of two groups. Edges and rivals go by their places here.
#[derive(Drop)]
pub(crate) struct TwoGroups<'a> {
    instance: &'a Instance,
    activities: Vec<u32>,
    walks: Walks,
    rivals: Vec<Rivals>,
}

/// What follows from some edges.
#[derive(Drop)]
struct Closure {
    walks: Walks,
    /// By pair of rivals: 1 where the first comes first, -1 where the second does, else 0.
    signs: Table<i32>,
    /// The orders that are forced one after the other, by activities.
    forced: Vec<Rivals>,
    /// Whether the edges and these orders contradict each other.
    is_contradiction: bool,
}

impl Closure {
    /// An edge more.
    fn take(&mut self, edge: Edge) -> Result<()> {
        if self.is_contradiction || !self.walks.admits(edge) {
            self.is_contradiction = true;
            return Ok(());
        }
        self.walks.insert(edge)
    }
}

/// A class of orders that was found: by activities, the edges of its sides and its pairs.
#[derive(Drop)]
struct Found {
    before: Vec<Edge>,
    after: Vec<Edge>,
    pairs: Vec<Rivals>,
}

/// The first of some edges.
fn first_of(edges: &[Edge]) -> Edge {
    edges.first().copied().unwrap_or(Edge::new(0, 0, 0))
}

impl Found {
    /// Whether it is one order, without delays.
    fn is_plain(&self, instance: &Instance) -> bool {
        self.pairs.len() == 1
            && self.pairs.iter().all(|pair: &Rivals| {
                first_of(&self.before) == order_edge(instance, pair.first, pair.second)
                    && first_of(&self.after) == order_edge(instance, pair.second, pair.first)
            })
    }

    /// What orders have to show of it, as a class of a number, whose edges have numbers from `edge` on.
    fn lemmas(&self, instance: &Instance, class: u32, edge: u32) -> Result<Vec<DelayLemma>> {
        let (before, after) = (first_of(&self.before), first_of(&self.after));
        let mut lemmas = Vec::new(instance.alloc);
        let edges = [reverse(before), reverse(after)];
        let shown = Shown::Either { class };
        lemmas.push(DelayLemma { shown, edges })?;
        let middle = edge.wrapping_add(narrow(self.before.len()));
        push_further(&mut lemmas, &self.before, after, edge)?;
        push_further(&mut lemmas, &self.after, before, middle)?;
        if self.before.len() > 1 || self.after.len() > 1 {
            for Rivals { first, second } in &self.pairs {
                push_shown(&mut lemmas, instance, before, (*first, *second))?;
                push_shown(&mut lemmas, instance, after, (*second, *first))?;
            }
        }
        Ok(lemmas)
    }
}

/// Lists that each further edge of a side, whose numbers begin with `number`, holds where the side does.
fn push_further(
    lemmas: &mut Vec<DelayLemma>,
    side: &[Edge],
    other: Edge,
    number: u32,
) -> Result<()> {
    for (edge, own) in (number..u32::MAX).zip(side).skip(1) {
        let edges = [reverse(other), reverse(*own)];
        let shown = Shown::Further { edge };
        lemmas.push(DelayLemma { shown, edges })?;
    }
    Ok(())
}

/// Lists that a side holds where the second of two activities does not end before the first starts.
fn push_shown(
    lemmas: &mut Vec<DelayLemma>,
    instance: &Instance,
    own: Edge,
    (first, second): (u32, u32),
) -> Result<()> {
    let late = Late {
        first: Member::of(instance, first),
        second: Member::of(instance, second),
    };
    let (shown, edges) = (Shown::Late(late), [reverse(own), late.edge()]);
    lemmas.push(DelayLemma { shown, edges })?;
    Ok(())
}

impl<'a> TwoGroups<'a> {
    /// Two groups over the longest walks, with pairs of rivals, of which one is in each group.
    pub(crate) fn new(
        instance: &'a Instance,
        walks: &Walks,
        groups: [&[u32]; 2],
        pairs: &[Rivals],
    ) -> Result<TwoGroups<'a>> {
        let mut activities = Vec::from_slice(instance.alloc, groups[0])?;
        activities.extend_from_slice(groups[1])?;
        let mut two = TwoGroups {
            instance,
            walks: walks.among(&activities)?,
            activities,
            rivals: Vec::new(instance.alloc),
        };
        for pair in pairs {
            let (first, second) = (two.place(pair.first), two.place(pair.second));
            two.rivals.push(Rivals { first, second })?;
        }
        Ok(two)
    }

    /// How many activities there are.
    pub(crate) fn count(&self) -> u32 {
        narrow(self.activities.len())
    }

    /// The place of an activity.
    fn place(&self, activity: u32) -> u32 {
        let at = self.activities.iter().position(|other| *other == activity);
        narrow(at.unwrap_or(0))
    }

    /// The activity at a place.
    fn activity(&self, place: u32) -> u32 {
        self.activities.get(place as usize).copied().unwrap_or(0)
    }

    /// The edge between activities that one between places is.
    fn named(&self, edge: Edge) -> Edge {
        Edge::new(
            self.activity(edge.from),
            self.activity(edge.to),
            edge.weight,
        )
    }

    /// The edge between places that one between activities is.
    fn placed(&self, edge: Edge) -> Edge {
        Edge::new(self.place(edge.from), self.place(edge.to), edge.weight)
    }

    /// The pair of activities that one of places is.
    fn named_pair(&self, pair: Rivals) -> Rivals {
        Rivals {
            first: self.activity(pair.first),
            second: self.activity(pair.second),
        }
    }

    /// The edge of the order of two places.
    fn order(&self, first: u32, second: u32) -> Edge {
        Edge::new(first, second, self.instance.durations[self.activity(first)])
    }

    /// What follows from edges by the walks and the rivals of these groups.
    fn close(&self, edges: &[Edge]) -> Result<Closure> {
        let alloc = self.instance.alloc;
        let mut closure = Closure {
            walks: self.walks.try_copy()?,
            signs: Table::filled(alloc, self.rivals.len(), 0, 0)?,
            forced: Vec::new(alloc),
            is_contradiction: false,
        };
        for edge in edges {
            closure.take(*edge)?;
        }
        for _ in 0..u64::MAX {
            let before = closure.forced.len();
            self.force_all(&mut closure)?;
            if closure.is_contradiction || closure.forced.len() == before {
                break;
            }
        }
        Ok(closure)
    }

    /// Forces each order of rivals once whose other order does not fit.
    fn force_all(&self, closure: &mut Closure) -> Result<()> {
        for (number, pair) in (0..u32::MAX).zip(&self.rivals) {
            if closure.signs[number] == 0 && !closure.is_contradiction {
                closure.signs[number] = self.force(closure, *pair)?;
            }
        }
        Ok(())
    }

    /// Forces the order of two rivals, if the other one does not fit. Gives the sign of the pair.
    fn force(&self, closure: &mut Closure, pair: Rivals) -> Result<i32> {
        let Rivals { first, second } = pair;
        let (before, after) = (self.order(first, second), self.order(second, first));
        let (fits_before, fits_after) = (closure.walks.admits(before), closure.walks.admits(after));
        if fits_before && fits_after {
            return Ok(0);
        }
        let (order, sign) = if fits_after { (after, -1) } else { (before, 1) };
        if !closure.walks.reaches(order.from, order.to, order.weight) {
            let (first, second) = (order.from, order.to);
            closure
                .forced
                .push(self.named_pair(Rivals { first, second }))?;
            closure.take(order)?;
        }
        Ok(sign)
    }

    /// Those of some edges between places that no other ones imply, by walks.
    fn needed(&self, mut edges: Vec<Edge>) -> Result<Vec<Edge>> {
        let mut kept = Vec::new(self.instance.alloc);
        for _ in 0..edges.len() {
            let Some(edge) = edges.pop() else { break };
            let implies = |other: &Edge| {
                let way = self.walks.over(edge.from, *other, edge.to);
                way.is_some_and(|weight| weight >= edge.weight)
            };
            if !edges.iter().any(implies) && !kept.iter().any(implies) {
                kept.push(edge)?;
            }
        }
        kept.reverse();
        Ok(kept)
    }

    /// The delays of some orders between places, over the walks that follow from one of them.
    fn delays(&self, walks: &Walks, orders: &[Rivals], is_turned: bool) -> Result<Vec<Edge>> {
        let mut delays = Vec::new(self.instance.alloc);
        for Rivals { first, second } in orders {
            let (from, to) = if is_turned {
                (*second, *first)
            } else {
                (*first, *second)
            };
            let weight = walks.longest(from, to).unwrap_or(0);
            delays.push(Edge::new(from, to, weight))?;
        }
        self.needed(delays)
    }

    /// Whether two edges between places contradict each other by walks alone.
    fn contradict(&self, one: Edge, other: Edge) -> bool {
        let way = self.walks.over(one.to, other, one.from);
        way.is_some_and(|weight| weight.wrapping_add(one.weight) > 0)
    }

    /// Puts two edges first that contradict each other. Whether there are such.
    fn put_first(&self, before: &mut Vec<Edge>, after: &mut Vec<Edge>) -> bool {
        for at in 0..before.len() {
            let Some(one) = before.get(at).copied() else {
                break;
            };
            let place = after.iter().position(|other| self.contradict(one, *other));
            if let Some(place) = place {
                before.swap(0, at);
                after.swap(0, place);
                return true;
            }
        }
        false
    }

    /// The orders that show that not both of two edges between activities hold. None where they don't show it.
    fn proof(&self, edges: [Edge; 2]) -> Result<Option<Vec<Rivals>>> {
        let closure = self.close(&edges.map(|edge: Edge| self.placed(edge)))?;
        Ok(closure.is_contradiction.then_some(closure.forced))
    }

    /// The orders that show each of some lemmas. None where they don't show one.
    fn proofs(&self, lemmas: &[DelayLemma]) -> Result<Option<Rows<Rivals>>> {
        let mut proofs = Rows::new(self.instance.alloc, NO_RIVALS);
        for lemma in lemmas {
            let Some(orders) = self.proof(lemma.edges)? else {
                return Ok(None);
            };
            proofs.push_row(&orders)?;
        }
        Ok(Some(proofs))
    }

    /// The orders that follow from that of a number, and are turned where it is; each as it stands where that one is not.
    fn same(
        &self,
        number: u32,
        sides: &[Closure; 2],
        done: &Table<bool>,
    ) -> Result<Vec<(u32, Rivals)>> {
        let mut same = Vec::new(self.instance.alloc);
        for (other, pair) in (0..u32::MAX).zip(&self.rivals).skip(number as usize) {
            let (sign, turned) = (sides[0].signs[other], sides[1].signs[other]);
            if done[other] || sign == 0 || turned != sign.wrapping_neg() {
                continue;
            }
            let Rivals { first, second } = *pair;
            let (first, second) = if sign > 0 {
                (first, second)
            } else {
                (second, first)
            };
            same.push((other, Rivals { first, second }))?;
        }
        Ok(same)
    }

    /// The class of some orders between places, by what follows from the first of them and from its reverse. None where no
    /// edges contradict each other by walks alone.
    fn found(&self, orders: &[Rivals], sides: &[Closure; 2]) -> Result<Option<Found>> {
        let mut before = self.delays(&sides[0].walks, orders, false)?;
        let mut after = self.delays(&sides[1].walks, orders, true)?;
        if !self.put_first(&mut before, &mut after) {
            return Ok(None);
        }
        let alloc = self.instance.alloc;
        Ok(Some(Found {
            before: before.iter().map(|edge| self.named(*edge)).collect(alloc)?,
            after: after.iter().map(|edge| self.named(*edge)).collect(alloc)?,
            pairs: orders
                .iter()
                .map(|pair| self.named_pair(*pair))
                .collect(alloc)?,
        }))
    }

    /// Adds lemmas, if orders show them all.
    pub(crate) fn show(&self, classes: &mut Classes, lemmas: &[DelayLemma]) -> Result<bool> {
        let Some(proofs) = self.proofs(lemmas)? else {
            return Ok(false);
        };
        classes.push_lemmas(lemmas, &proofs)?;
        Ok(true)
    }

    /// Adds a class that was found, if orders show all that a record needs of it.
    fn add(&self, classes: &mut Classes, found: &Found) -> Result<bool> {
        if found.is_plain(self.instance) {
            return Ok(false);
        }
        let (class, edge) = (classes.count(), classes.edges.values.count());
        let lemmas = found.lemmas(self.instance, class, edge)?;
        if !self.show(classes, &lemmas)? {
            return Ok(false);
        }
        classes.pairs.push_row(&found.pairs)?;
        classes.edges.push_row(&found.before)?;
        classes.edges.push_row(&found.after)?;
        Ok(true)
    }

    /// Adds the class of the order of a number, if both orders are possible. Gives how many steps it took.
    fn add_class_of(
        &self,
        classes: &mut Classes,
        number: u32,
        done: &mut Table<bool>,
    ) -> Result<u64> {
        let Some(Rivals { first, second }) = self.rivals.get(number as usize).copied() else {
            return Ok(0);
        };
        let sides = [
            self.close(&[self.order(first, second)])?,
            self.close(&[self.order(second, first)])?,
        ];
        let forced = sides[0].forced.len().wrapping_add(sides[1].forced.len()) as u64;
        let size = u64::from(self.count().wrapping_mul(self.count()));
        let steps = forced
            .wrapping_add(2)
            .wrapping_mul(size.wrapping_add(self.rivals.len() as u64));
        if sides[0].is_contradiction || sides[1].is_contradiction {
            return Ok(steps);
        }
        let same = self.same(number, &sides, done)?;
        let orders: Vec<Rivals> = same
            .iter()
            .map(|(_, order)| *order)
            .collect(self.instance.alloc)?;
        if let Some(found) = self.found(&orders, &sides)? {
            if self.add(classes, &found)? {
                for (other, _) in &same {
                    done[*other] = true;
                }
            }
        }
        Ok(steps)
    }

    /// Adds the classes of these groups' orders that are more than an order, up to so many steps. Gives how many are left.
    pub(crate) fn add_classes(&self, classes: &mut Classes, steps: u64) -> Result<u64> {
        let count = self.rivals.len();
        let mut done = Table::filled(self.instance.alloc, count, false, true)?;
        let mut left = steps;
        for number in 0..narrow(count) {
            if !done[number] && left > 0 {
                let taken = self.add_class_of(classes, number, &mut done)?;
                left = left.saturating_sub(taken);
            }
        }
        Ok(left)
    }
}
