//! Orders of the groups of a virtual machine.

use crate::{Edges, Literal, NEVER};
use instance::{Instance, Machine, Result, Table, narrow};

/// By the places of two groups: the literal by which the first runs before the second.
#[derive(Drop)]
pub(crate) struct GroupOrders {
    count: u32,
    literals: Table<Literal>,
}

impl GroupOrders {
    /// The orders of a machine's groups.
    pub(crate) fn new(
        instance: &Instance,
        edges: &Edges,
        machine: &Machine,
    ) -> Result<GroupOrders> {
        let count = narrow(machine.members.len());
        let places = count.wrapping_mul(count) as usize;
        let mut orders = GroupOrders {
            count,
            literals: Table::filled(instance.alloc, places, NEVER, NEVER)?,
        };
        for order in &machine.orders {
            let before = edges.side(order.class, 0);
            orders.set(order.first, order.second, before);
            orders.set(order.second, order.first, !before);
        }
        Ok(orders)
    }

    fn set(&mut self, one: u32, other: u32, literal: Literal) {
        self.literals[one.wrapping_mul(self.count).wrapping_add(other)] = literal;
    }

    /// How many groups there are.
    pub(crate) fn count(&self) -> u32 {
        self.count
    }

    /// The literal by which a group runs before another one.
    pub(crate) fn before(&self, one: u32, other: u32) -> Literal {
        self.literals[one.wrapping_mul(self.count).wrapping_add(other)]
    }
}
