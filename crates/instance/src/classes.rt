//! Classes of orders: orders of rivals that follow from each other, so that one literal says them all.

use crate::member::Late;
use crate::numbers::{Edge, Instance};
use crate::orders::Rivals;
use crate::{Result, Rows};

/// What orders that are forced one after the other show of classes: not both edges of a lemma hold.
#[derive(Clone, Copy, PartialEq, Eq, Debug)]
pub enum Shown {
    /// One of the first edges of the class holds.
    Either { class: u32 },
    /// The edge of this number holds where its side of the class does.
    Further { edge: u32 },
    /// A side of a class holds where two members stand so.
    Late(Late),
    /// The second anchor starts so long after the first one where a side of their class holds.
    Delay { from: u32, to: u32 },
    /// One of the delays of two anchors holds.
    Apart,
}

/// Not both of these edges hold.
#[derive(Clone, Copy)]
pub struct DelayLemma {
    pub shown: Shown,
    pub edges: [Edge; 2],
}

/// The classes of a project's open orders. Each has two sides: side 0 holds where its literal does, and side 1 where it does
/// not.
#[derive(Drop)]
pub struct Classes {
    /// By class: the pairs that it orders, on side 0 the first of each before the second.
    pub pairs: Rows<Rivals>,
    /// By class and side: the edges that hold then, which imply all its orders. The first ones of both sides contradict
    /// each other.
    pub edges: Rows<Edge>,
    /// What a record needs of the classes that are more than an order.
    pub lemmas: Vec<DelayLemma>,
    /// By lemma: the orders that show it, each forced by the edges and the orders before it.
    pub proofs: Rows<Rivals>,
}

/// Past the end of a list of rivals.
pub(crate) const NO_RIVALS: Rivals = Rivals {
    first: 0,
    second: 0,
};

/// The edge by which one activity starts once another one has ended.
pub fn order_edge(instance: &Instance, first: u32, second: u32) -> Edge {
    Edge::new(first, second, instance.durations[first])
}

/// The edge that holds where this one does not.
pub fn reverse(edge: Edge) -> Edge {
    Edge::new(edge.to, edge.from, 1i32.wrapping_sub(edge.weight))
}

impl Classes {
    /// No classes.
    pub(crate) fn new(instance: &Instance) -> Classes {
        let (alloc, none) = (instance.alloc, Edge::new(0, 0, 0));
        Classes {
            pairs: Rows::new(alloc, NO_RIVALS),
            edges: Rows::new(alloc, none),
            lemmas: Vec::new(alloc),
            proofs: Rows::new(alloc, NO_RIVALS),
        }
    }

    /// A class for each of these pairs.
    pub fn of_pairs(instance: &Instance, pairs: &[Rivals]) -> Result<Classes> {
        let mut classes = Classes::new(instance);
        for pair in pairs {
            classes.push_pair(instance, *pair)?;
        }
        Ok(classes)
    }

    /// Takes lemmas with what shows them.
    pub(crate) fn push_lemmas(
        &mut self,
        lemmas: &[DelayLemma],
        proofs: &Rows<Rivals>,
    ) -> Result<()> {
        for (lemma, number) in lemmas.iter().zip(0..u32::MAX) {
            self.lemmas.push(*lemma)?;
            self.proofs.push_row(proofs.row(number))?;
        }
        Ok(())
    }

    /// A class of one order, without delays.
    pub(crate) fn push_pair(&mut self, instance: &Instance, pair: Rivals) -> Result<()> {
        let Rivals { first, second } = pair;
        self.pairs.push_row(&[pair])?;
        self.edges.push_row(&[order_edge(instance, first, second)])?;
        self.edges.push_row(&[order_edge(instance, second, first)])
    }

    /// How many there are.
    pub fn count(&self) -> u32 {
        self.pairs.count()
    }

    /// The first edge of a side of a class.
    pub fn first_edge(&self, class: u32, side: u32) -> Edge {
        let row = class.wrapping_mul(2).wrapping_add(side);
        self.edges.values[self.edges.numbers(row).start]
    }

    /// The edges of a side of a class.
    pub fn side(&self, class: u32, side: u32) -> &[Edge] {
        self.edges.row(class.wrapping_mul(2).wrapping_add(side))
    }

    /// The first pair of a class.
    pub fn pair(&self, class: u32) -> Rivals {
        self.pairs.values[self.pairs.numbers(class).start]
    }

    /// Whether the class is one order, without delays.
    pub fn is_plain(&self, instance: &Instance, class: u32) -> bool {
        let Rivals { first, second } = self.pair(class);
        self.pairs.row(class).len() == 1
            && self.first_edge(class, 0) == order_edge(instance, first, second)
            && self.first_edge(class, 1) == order_edge(instance, second, first)
    }

    /// Whether one edge is not enough for a side: then an order of the class may show that a side holds, but not by one
    /// edge.
    pub fn is_loose(&self, class: u32) -> bool {
        self.side(class, 0).len() > 1 || self.side(class, 1).len() > 1
    }
}
