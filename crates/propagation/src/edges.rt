//! Arcs and orders of rivals: how they move bounds.

use crate::implied::implied_orders;
use crate::{Literal, NEVER, Reason, Stop, Trail};
use instance::{Classes, Edge, Instance, Result, Rivals, Rows, Settled, Table, Walks, narrow};

/// The slot `to` has at least the value of the slot `from` and `weight`: least starts forward over a lag, greatest ones,
/// negated, backward.
#[derive(Clone, Copy, Default)]
pub struct Arc {
    pub from: u32,
    pub to: u32,
    pub weight: i32,
}

/// An arc that holds where the literal of a class of orders does, or its negation.
#[derive(Clone, Copy, Default)]
pub struct Order {
    pub arc: Arc,
    pub literal: Literal,
}

/// The arcs and orders of a project.
#[derive(Drop)]
pub struct Edges {
    activities: u32,
    /// By the slot that they leave.
    pub arcs: Rows<Arc>,
    pub orders: Rows<Order>,
    /// By order: its edge's number among those of the classes.
    pub edge_of: Table<u32>,
    /// By slot: the orders that the slot's literal makes hold.
    by_slot: Rows<u32>,
    /// By the slot of an order, after those of bounds: the orders that it implies by lags.
    implied: Rows<Literal>,
    /// By first and second activity: the literal by which they run in this order, none where they do so by lags.
    precedences: Table<Option<Literal>>,
}

/// The two arcs of an edge.
fn arcs_of(edge: Edge) -> [Arc; 2] {
    let (from, to) = (edge.from.wrapping_mul(2), edge.to.wrapping_mul(2));
    let weight = edge.weight;
    let forward = Arc { from, to, weight };
    let (from, to) = (to.wrapping_add(1), from.wrapping_add(1));
    [forward, Arc { from, to, weight }]
}

/// Whether two other edges imply one, not round a closed walk of weight 0.
fn is_implied(walks: &Walks, edge: Edge) -> bool {
    let Edge { from, to, weight } = edge;
    let is_short = |a: u32, b: u32, back: i32| !walks.reaches(a, b, back.wrapping_neg());
    (1..walks.count()).any(|middle: u32| {
        let ways = (walks.longest(from, middle), walks.longest(middle, to));
        let (Some(first), Some(last)) = ways else {
            return false;
        };
        middle != from
            && middle != to
            && first.wrapping_add(last) >= weight
            && is_short(middle, from, first)
            && is_short(to, middle, last)
    })
}

/// The arcs that bounds need, by the slot that they leave: those of the strongest edge of each two activities, unless
/// two others imply it.
fn needed(instance: &Instance, settled: &Settled) -> Result<Rows<Arc>> {
    let mut edges = Vec::from_slice(instance.alloc, &instance.leaving.values.items)?;
    edges.extend_from_slice(&settled.forced)?;
    edges.sort_unstable();
    edges.dedup();
    let mut arcs = Vec::new(instance.alloc);
    for edge in &edges {
        let Edge { from, to, weight } = *edge;
        let is_inner = from != 0 && to != 0 && from != to;
        let is_strongest = !settled.walks.reaches(from, to, weight.wrapping_add(1));
        if is_inner && is_strongest && !is_implied(&settled.walks, *edge) {
            for arc in arcs_of(*edge) {
                arcs.push((arc.from, arc))?;
            }
        }
    }
    Rows::by_row(instance.alloc, arcs, Arc::default())
}

/// What says that activities run in an order, where lags do.
fn precedences(instance: &Instance, walks: &Walks) -> Result<Table<Option<Literal>>> {
    let mut precedences = Table::new(instance.alloc, Some(NEVER));
    for a in 0..instance.count() {
        let duration = instance.durations[a];
        for b in 0..instance.count() {
            let is_settled = a != b && duration > 0 && walks.reaches(a, b, duration);
            precedences.push((!is_settled).then_some(NEVER))?;
        }
    }
    Ok(precedences)
}

impl Edges {
    /// The arcs of a project and of settled orders, and the classes of those that are open.
    pub fn new(instance: &Instance, settled: &Settled, classes: &Classes) -> Result<Edges> {
        let alloc = instance.alloc;
        let mut edges = Edges {
            activities: instance.count(),
            arcs: needed(instance, settled)?,
            orders: Rows::new(alloc, Order::default()),
            edge_of: Table::new(alloc, 0),
            by_slot: Rows::new(alloc, 0),
            implied: Rows::new(alloc, NEVER),
            precedences: precedences(instance, &settled.walks)?,
        };
        edges.take_pairs(classes);
        edges.take_orders(instance, classes)?;
        edges.list_orders(instance)?;
        edges.implied = implied_orders(instance, settled, classes, &edges)?;
        Ok(edges)
    }

    /// Lists the orders by the slots of their literals.
    fn list_orders(&mut self, instance: &Instance) -> Result<()> {
        let mut by_slot = Vec::new(instance.alloc);
        for (number, order) in (0..u32::MAX).zip(&self.orders.values.items) {
            by_slot.push((order.literal.slot, number))?;
        }
        self.by_slot = Rows::by_row(instance.alloc, by_slot, 0)?;
        Ok(())
    }

    /// The literal of a class, or its negation.
    pub(crate) fn side(&self, class: u32, side: u32) -> Literal {
        Literal::order(
            class
                .wrapping_add(self.activities)
                .wrapping_mul(2)
                .wrapping_add(side),
        )
    }

    /// Takes the literals of the orders of each class.
    fn take_pairs(&mut self, classes: &Classes) {
        for class in 0..classes.count() {
            let before = self.side(class, 0);
            for Rivals { first, second } in classes.pairs.row(class) {
                self.set_precedence(*first, *second, before);
                self.set_precedence(*second, *first, !before);
            }
        }
    }

    /// Takes the arcs of both sides of each class.
    fn take_orders(&mut self, instance: &Instance, classes: &Classes) -> Result<()> {
        let (mut orders, mut numbers) = (Vec::new(instance.alloc), Vec::new(instance.alloc));
        for row in 0..classes.count().wrapping_mul(2) {
            let literal = self.side(row / 2, row % 2);
            for number in classes.edges.numbers(row) {
                for arc in arcs_of(classes.edges.values[number]) {
                    orders.push((arc.from, Order { arc, literal }))?;
                    numbers.push((arc.from, number))?;
                }
            }
        }
        self.orders = Rows::by_row(instance.alloc, orders, Order::default())?;
        self.edge_of = Rows::by_row(instance.alloc, numbers, 0)?.values;
        Ok(())
    }

    /// One activity runs before another one where a literal holds.
    fn set_precedence(&mut self, a: u32, b: u32, literal: Literal) {
        self.precedences[a.wrapping_mul(self.activities).wrapping_add(b)] = Some(literal);
    }

    /// The literal by which one activity ends before another one starts; none if it does so by lags.
    pub fn precedence(&self, a: u32, b: u32) -> Option<Literal> {
        self.precedences[a.wrapping_mul(self.activities).wrapping_add(b)]
    }

    /// The number of an order's slot, after those of bounds.
    pub(crate) fn number_of(&self, slot: u32) -> u32 {
        slot.wrapping_sub(self.activities.wrapping_mul(2))
    }

    /// What follows by arcs and orders from a slot that has a new value.
    #[inline(always)]
    pub fn follow(&self, trail: &mut Trail, slot: u32) -> Result<(), Stop> {
        if slot >= self.activities.wrapping_mul(2) {
            self.follow_pair(trail, slot)?;
            return self.follow_implied(trail, slot);
        }
        let value = trail.values()[slot];
        self.follow_arcs(trail, slot, value)?;
        self.follow_orders(trail, slot, value)
    }

    /// What follows by the arcs of a slot.
    #[inline(always)]
    fn follow_arcs(&self, trail: &mut Trail, slot: u32, value: i32) -> Result<(), Stop> {
        let first = self.arcs.numbers(slot).start;
        let mut left = self.arcs.row(slot);
        let mut number = first;
        for _ in 0..u64::MAX {
            let values = trail.values().items.as_slice();
            let moves = |arc: &Arc| is_less(values, arc.to, value.wrapping_add(arc.weight));
            let Some(at) = left.iter().position(moves) else {
                break;
            };
            let (arc, arcs) = (left[at], &left[at + 1..]);
            let literal = Literal::new(arc.to, value.wrapping_add(arc.weight));
            number = number.wrapping_add(narrow(at));
            trail.force(literal, Reason::Arc { arc: number })?;
            number = number.wrapping_add(1);
            left = arcs;
        }
        Ok(())
    }

    /// What follows by the orders of a slot. The bounds that they would move are mostly there already.
    #[inline(always)]
    fn follow_orders(&self, trail: &mut Trail, slot: u32, value: i32) -> Result<(), Stop> {
        let first = self.orders.numbers(slot).start;
        let mut left = self.orders.row(slot);
        let mut number = first;
        for _ in 0..u64::MAX {
            let values = trail.values().items.as_slice();
            let Some(at) = left.iter().position(|order| says(values, *order, value)) else {
                break;
            };
            let (order, orders) = (left[at], &left[at + 1..]);
            number = number.wrapping_add(narrow(at));
            follow_order(trail, order, value, number)?;
            number = number.wrapping_add(1);
            left = orders;
        }
        Ok(())
    }

    /// What follows from the slot of a pair.
    fn follow_pair(&self, trail: &mut Trail, slot: u32) -> Result<(), Stop> {
        for order in self.by_slot.row(slot) {
            let value = trail.values()[self.orders.values[*order].arc.from];
            follow_order(trail, self.orders.values[*order], value, *order)?;
        }
        Ok(())
    }

    /// The orders that the order of a slot implies.
    fn follow_implied(&self, trail: &mut Trail, slot: u32) -> Result<(), Stop> {
        for order in self.implied.row(self.number_of(slot)) {
            trail.force(*order, Reason::Implied { slot })?;
        }
        Ok(())
    }
}

/// Whether a slot has less than a value.
#[inline(always)]
fn is_less(values: &[i32], slot: u32, value: i32) -> bool {
    (slot as usize) < values.len() && values[slot as usize] < value
}

/// Whether something follows by an order from a slot of a value: the bound that it would move is not there, and either the
/// order holds, or there is no room and it is not lost yet.
#[inline(always)]
fn says(values: &[i32], order: Order, value: i32) -> bool {
    let Order { arc, literal } = order;
    let bound = value.wrapping_add(arc.weight);
    if !is_less(values, arc.to, bound) {
        return false;
    }
    if is_less(values, arc.to ^ 1, 1i32.wrapping_sub(bound)) {
        !is_less(values, literal.slot, literal.value)
    } else {
        is_less(values, literal.slot ^ 1, 1i32.wrapping_sub(literal.value))
    }
}

/// An order from a slot of a value moves a bound where it holds; one that has no room is lost.
#[inline(always)]
fn follow_order(trail: &mut Trail, order: Order, from: i32, number: u32) -> Result<(), Stop> {
    let Order { arc, literal } = order;
    let moved = Literal::new(arc.to, from.wrapping_add(arc.weight));
    // The bound that it would move is mostly there already.
    if trail.holds(moved) || trail.fails(literal) {
        Ok(())
    } else if trail.holds(literal) {
        trail.force(moved, Reason::Order { order: number })
    } else if trail.fails(moved) {
        trail.force(!literal, Reason::Lost { order: number })
    } else {
        Ok(())
    }
}
