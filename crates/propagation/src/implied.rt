//! Orders that an order of rivals implies by lags: i before j gives a before b where the longest walks from a to i and
//! from j to b leave b no room before a, `walk(a, i) + p(i) + walk(j, b) + p(b) > 0`. Bounds alone show none of them. In
//! place of p(i) stands the delay of a class. Classes whose side holds by more than one edge are not implied.

use crate::{Edges, Literal, NEVER};
use instance::{Classes, Edge, Instance, Result, Rivals, Rows, Settled, Table, Walks};
use std::cmp::Reverse;

/// So many pairs of walks are looked at, and about so many orders are kept: 1,000 activities take .02 s.
const LOOKS: u64 = 20_000_000;

const KEPT: u32 = 1_000_000;

/// An activity at the other end of a walk, and how much the walk adds.
#[derive(Clone, Copy, PartialEq, Eq, PartialOrd, Ord, Debug, Default)]
struct End {
    added: i32,
    activity: u32,
}

/// A search for the orders that others imply.
#[derive(Drop)]
struct ImpliedOrders<'a> {
    edges: &'a Edges,
    classes: &'a Classes,
    /// By activity with an open order: walks that lead to it, and walks from it with the duration of the other end, the
    /// greatest first.
    to: Rows<End>,
    from: Rows<End>,
    /// By the slot of an order, after those of bounds: the orders that it implies.
    implied: Rows<Literal>,
    /// By such a slot: the one that implied it last.
    last: Table<u32>,
    looks: u64,
}

/// For each activity with an open order the ends of walks to it, or from it, that have one too.
fn ends_of_walks(
    instance: &Instance,
    walks: &Walks,
    is_paired: &Table<bool>,
    is_to: bool,
) -> Result<Rows<End>> {
    let mut rows = Rows::new(instance.alloc, End::default());
    for activity in 0..instance.count() {
        let mut ends = Vec::new(instance.alloc);
        if is_paired[activity] {
            list_ends(&mut ends, instance, walks, is_paired, activity, is_to)?;
        }
        rows.push_row(&ends)?;
    }
    Ok(rows)
}

/// Lists the ends of walks to an activity, or from it, the greatest first.
fn list_ends(
    ends: &mut Vec<End>,
    instance: &Instance,
    walks: &Walks,
    is_paired: &Table<bool>,
    own: u32,
    is_to: bool,
) -> Result<()> {
    for activity in 0..instance.count() {
        let (walk, more) = match is_to {
            true => (walks.beside_start(activity, own), 0),
            false => (
                walks.beside_start(own, activity),
                instance.durations[activity],
            ),
        };
        if let (true, Some(weight)) = (is_paired[activity], walk) {
            let added = weight.wrapping_add(more);
            ends.push(End { added, activity })?;
        }
    }
    ends.sort_unstable_by_key(|end: &End| (Reverse(end.added), end.activity));
    Ok(())
}

impl ImpliedOrders<'_> {
    /// Lists what a literal implies by the first edge that holds where it does.
    fn list(&mut self, own: Literal, edge: Edge) -> Result<()> {
        for number in self.to.numbers(edge.from) {
            let End { added, activity } = self.to.values[number];
            let looks = self.list_from(own, activity, added.wrapping_add(edge.weight), edge.to)?;
            self.looks = self.looks.saturating_add(looks);
            let is_full = self.looks > LOOKS || self.implied.values.count() > KEPT;
            if looks <= 1 || is_full {
                break;
            }
        }
        self.implied.close()
    }

    /// Lists the orders of an activity before those at the ends of walks from `second`, which leave no room with what was
    /// added before. Gives how many walks it looked at.
    fn list_from(&mut self, own: Literal, activity: u32, added: i32, second: u32) -> Result<u64> {
        let mut looks = 1u64;
        for number in self.from.numbers(second) {
            let end = self.from.values[number];
            if added.wrapping_add(end.added) <= 0 {
                break;
            }
            looks = looks.saturating_add(1);
            if let Some(order) = self.edges.precedence(activity, end.activity) {
                self.keep(own, order)?;
            }
        }
        Ok(looks)
    }

    /// An order implies another one, which is kept once.
    fn keep(&mut self, own: Literal, order: Literal) -> Result<()> {
        let slot = self.edges.number_of(order.slot);
        let is_new = order != NEVER && order.slot != own.slot && self.last[slot] != own.slot;
        if is_new && !self.classes.is_loose(slot / 2) {
            self.last[slot] = own.slot;
            self.implied.values.push(order)?;
        }
        Ok(())
    }
}

/// The activities with an open order.
fn paired(instance: &Instance, pairs: &[Rivals]) -> Result<Table<bool>> {
    let count = instance.count() as usize;
    let mut is_paired = Table::filled(instance.alloc, count, false, false)?;
    for Rivals { first, second } in pairs {
        (is_paired[*first], is_paired[*second]) = (true, true);
    }
    Ok(is_paired)
}

/// By the slot of an order, after those of bounds: the orders that it implies by lags and settled orders.
pub(crate) fn implied_orders(
    instance: &Instance,
    settled: &Settled,
    classes: &Classes,
    edges: &Edges,
) -> Result<Rows<Literal>> {
    let (alloc, walks) = (instance.alloc, &settled.walks);
    let is_paired = paired(instance, &settled.open)?;
    let slots = classes.count().wrapping_mul(2);
    let mut orders = ImpliedOrders {
        edges,
        classes,
        to: ends_of_walks(instance, walks, &is_paired, true)?,
        from: ends_of_walks(instance, walks, &is_paired, false)?,
        implied: Rows::new(alloc, NEVER),
        last: Table::filled(alloc, slots as usize, 0, 0)?,
        looks: 0,
    };
    for row in 0..slots {
        let own = edges.side(row / 2, row % 2);
        orders.list(own, classes.first_edge(row / 2, row % 2))?;
    }
    Ok(orders.implied)
}
