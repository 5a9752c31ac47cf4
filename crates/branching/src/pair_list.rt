//! The pairs of a node: those of its parent, the one that it has more, and those that this one forced.

ghost use Rattle.std.specs.Prelude.{◌≡◌, ◌↔◌, ◌++◌, IfOk, IsTrue, length, slice_get};
ghost use Rattle.std.specs.Option.{option_to_list};
ghost use Rattle.branching.specs.Path.{IsFrontOf};

use network::Pair;
use std::alloc::{AllocError, Global};
use std::marker::Model;

/// The pair at a place of a pair, if there is one, and those that it forced.
fn own_pair(added: Option<Pair>, forced: &[Pair], place: usize) -> Option<Pair>
    ensures { result ≡ slice_get (option_to_list added ++ forced.now) place }
{
    match (added, place.checked_sub(1)) {
        (Some(_), Some(rest)) => forced.get(rest).copied(),
        (Some(added), None) => Some(added),
        (None, _) => forced.get(place).copied(),
    }
}

/// Pairs in the order in which they were added.
#[derive(Drop, Debug)]
pub struct PairList<'a> {
    before: &'a [Pair],
    added: Option<Pair>,
    forced: &'a [Pair],
}

impl<'a> Model for PairList<'a> {
    ghost use Rattle.std.specs.Prelude.{List, ◌++◌};
    ghost use Rattle.network.specs.declared.parts.Pair.{Pair};

    ghost Value = { List Pair };

    ghost use Rattle.std.specs.Option.{option_to_list};

    ghost view = { λ s. s.before.now ++ (option_to_list s.added ++ s.forced.now) };
}

impl<'a> PairList<'a> {
    /// The pairs of all three, one after the other.
    pub(crate) fn of(before: &'a [Pair], added: Option<Pair>, forced: &'a [Pair]) -> PairList<'a>
        ensures { result ≡ before.now ++ (option_to_list added ++ forced.now) }
    {
        PairList {
            before,
            added,
            forced,
        }
    }

    /// The pairs of the node's parent.
    pub(crate) fn before(&self) -> &'a [Pair]
        ensures { IsFrontOf result.now self.now }
    {
        self.before
    }

    /// The pair at a place, if there is one.
    pub fn get(&self, place: usize) -> Option<Pair>
        ensures { result ≡ slice_get self.now place }
    {
        match self.before.get(place) {
            Some(pair) => Some(*pair),
            None => own_pair(self.added, self.forced, place - self.before.len()),
        }
    }

    /// How many pairs there are.
    pub fn len(&self) -> usize
        ensures { result ≡ length self.now }
    {
        let added = usize::from(self.added.is_some());
        self.before.len() + added + self.forced.len()
    }

    /// Whether both are the same pairs in the same order.
    pub fn is_same(&self, other: &PairList) -> bool
        ensures { IsTrue result ↔ (self.now ≡ other.now) }
    {
        if self.len() != other.len() {
            return false;
        }
        for place in 0..self.len() {
            if self.get(place) != other.get(place) {
                return false;
            }
        }
        true
    }

    /// The pairs as one list.
    pub fn to_vec(&self, alloc: Global) -> Result<Vec<Pair>, AllocError>
        ensures { IfOk result (λ pairs. pairs.items ≡ self.now) }
    {
        let mut pairs = Vec::with_capacity(alloc, self.len())?;
        pairs.extend_from_slice(self.before)?;
        if let Some(added) = self.added {
            pairs.push(added)?;
        }
        pairs.extend_from_slice(self.forced)?;
        Ok(pairs)
    }
}
