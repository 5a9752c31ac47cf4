//! The nodes in the hands of workers, with their names.

ghost use Rattle.std.specs.Prelude.{◌≡◌, ◌≢◌, ◌<◌, ◌≤◌, [], ◌∷◌, length, replicate, Some, None, IfOk, IfSome, IfNone, MatchOption, slice_set};
ghost use Rattle.std.specs.Arc.{arc_value};
ghost use Rattle.std.specs.List.{All};
ghost use Rattle.book.specs.State.{Named, node_named, Holds, in_hand, held_node, hand_of};
ghost use Rattle.book.specs.Steps.{IsFull};
ghost use Rattle.branching.specs.Right.{IsLeast};
ghost use Rattle.book.specs.Sound.{bounds_of};

use branching::{OpenNode, lesser};
use std::alloc::{AllocError, Global};
use std::marker::Model;
use std::sync::Arc;

/// A node in hand.
#[derive(Drop, Debug)]
pub(crate) struct Held {
    pub(crate) name: u64,
    pub(crate) node: Arc<OpenNode>,
}

/// What each worker has in hand.
#[derive(Drop, Debug)]
pub(crate) struct Hands {
    hands: Vec<Option<Held>>,
}

impl Model for Hands {
    ghost use Rattle.std.specs.Prelude.{List, Option, map};
    ghost use Rattle.book.specs.State.{Named, hand_of};

    ghost Value = { List (Option Named) };

    ghost view = { λ h. map hand_of h.hands.items };
}

/// The node in a hand, where it has this name.
fn node_named(hand: &Option<Held>, name: u64) -> Option<&Arc<OpenNode>>
    ensures found { IfSome result (λ node. hand_of hand.now ≡ Some (node_named name (arc_value node.now))) }
    ensures none { IfNone result (All (λ (held : Named). held.name ≢ name) (in_hand (hand_of hand.now ∷ []))) }
{
    match hand {
        Some(held) if held.name == name => Some(&held.node),
        _ => None,
    }
}

/// The bound of the node in a hand.
fn bound_in(hand: &Option<Held>) -> Option<i64>
    ensures { IsLeast (bounds_of (in_hand (hand_of hand.now ∷ []))) result }
{
    match hand {
        None => None,
        Some(held) => Some(held.node.bound()),
    }
}

impl Hands {
    /// So many empty hands.
    pub(crate) fn new(alloc: Global, workers: usize) -> Result<Hands, AllocError>
        ensures { IfOk result (λ hands. hands ≡ replicate workers None) }
    {
        let mut hands = Vec::with_capacity(alloc, workers)?;
        for _ in 0..workers {
            hands.push(None)?;
        }
        Ok(Hands { hands })
    }

    /// Whether the worker's hand holds a node, none where there is no such worker.
    pub(crate) fn is_full(&self, worker: usize) -> Option<bool>
        ensures { MatchOption result (length self.now ≤ worker) (IsFull self.now worker) }
    {
        if worker >= self.hands.len() {
            return None;
        }
        match &self.hands[worker] {
            None => Some(false),
            Some(_) => Some(true),
        }
    }

    /// The worker that has the node of this name in hand, and the node.
    pub(crate) fn find(&self, name: u64) -> Option<(usize, &Arc<OpenNode>)>
        ensures found { IfSome result (λ found. Holds self.now found.0 (node_named name (arc_value found.1.now))) }
        ensures none { IfNone result (All (λ (held : Named). held.name ≢ name) (in_hand self.now)) }
    {
        for (worker, hand) in self.hands.iter().enumerate() {
            if let Some(node) = node_named(hand, name) {
                return Some((worker, node));
            }
        }
        None
    }

    /// How many hands hold a node.
    pub(crate) fn count(&self) -> usize
        ensures { result ≡ length (in_hand self.now) }
    {
        self.hands.iter().filter(|hand| hand.is_some()).count()
    }

    /// The least bound of the nodes in hand.
    pub(crate) fn least_bound(&self) -> Option<i64>
        ensures { IsLeast (bounds_of (in_hand self.now)) result }
    {
        let mut least = None;
        for hand in &self.hands {
            least = lesser(least, bound_in(hand));
        }
        least
    }

    /// Puts a node into a worker's hand.
    pub(crate) fn fill(&mut self, worker: usize, held: Held)
        requires { worker < length self.old }
        ensures { self.new ≡ slice_set self.old worker (Some (held_node held)) }
    {
        self.hands[worker] = Some(held);
    }

    /// Empties a worker's hand.
    pub(crate) fn empty(&mut self, worker: usize)
        requires { worker < length self.old }
        ensures { self.new ≡ slice_set self.old worker None }
    {
        self.hands[worker] = None;
    }
}
