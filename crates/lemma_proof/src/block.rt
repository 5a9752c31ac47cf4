//! Arcs beside a matrix.

ghost use Rattle.std.specs.Prelude.{◌≡◌, ◌<◌, ◌+ℤ◌, ◌++◌, ◌∷◌, [], length, IsTrue, Some, IfOk, OnOk};
ghost use Rattle.network.specs.Problem.{IsWithin};
ghost use Rattle.network.specs.Schedule.{start};
ghost use Rattle.std.specs.Bool.{MatchBool};
ghost use Rattle.network.specs.declared.limits.TheConstants.{MAX_WALK_WEIGHT};
ghost use Rattle.longest_path.specs.Insert.{ClosesNone, rows_over};
ghost use Rattle.longest_path.specs.Matrix.{IsFull, greater};
ghost use Rattle.lemma_proof.specs.declared.block.TheConstants.{MAX_SEEN};
ghost use Rattle.lemma_proof.specs.Implied.{ImpliesWith};
ghost use Rattle.lemma_proof.specs.Heads.{IsLight};
ghost use Rattle.lemma_proof.specs.Block.{AreEnds, IsBlock, IsToldOf, seen, told_by};

use crate::both::{push_both, rise_both, root_both, try_both};
use crate::heads::Heads;
use crate::table::{columns, rows};
use longest_path::Matrix;
use network::{Lag, MAX_WALK_WEIGHT};
use std::alloc::{AllocError, Global};
use std::marker::Model;

/// What the weight of a walk that is easily seen is not beyond.
pub const MAX_SEEN: i64 = MAX_WALK_WEIGHT + MAX_WALK_WEIGHT;

/// Whether the arcs of a matrix and those beside it close a walk of positive weight, by what an arc more told of heads
/// and tails.
fn told(settled: Option<bool>) -> Option<bool>
    ensures { result ≡ told_by settled }
{
    match settled {
        None => Some(true),
        Some(true) => Some(false),
        Some(false) => None,
    }
}

/// The greater of an entry and the way by 0.
fn or_by_start(entry: i64, tail: i64, head: i64) -> i64
    requires entry { IsWithin MAX_WALK_WEIGHT entry }
    requires tail { IsWithin MAX_WALK_WEIGHT tail }
    requires head { IsWithin MAX_WALK_WEIGHT head }
    ensures value { greater (Some entry) (Some (tail +ℤ head)) ≡ Some result }
    ensures small { IsWithin MAX_SEEN result }
{
    let by_start = tail + head;
    if entry < by_start { by_start } else { entry }
}

/// The matrix of some arcs by which every activity reaches every other, arcs beside it, and by both the weights of
/// walks from 0, the heads, and back to it, the tails. An arc more costs a number for each activity, and no matrix.
///
/// As long as the heads meet all arcs, no closed walk is positive: they are a list of starts that meets each of them.
/// Where a way from 0 over an arc and back weighs more than 0, one is. An arc that touches 0 is met from then on, since
/// heads and tails are never above 0 together.
#[derive(Drop)]
pub struct Block {
    /// The arcs beside the matrix.
    more: Vec<Lag>,
    heads: Heads,
    /// The heads in the other direction.
    tails: Heads,
    /// Whether heads and tails meet all arcs.
    settled: bool,
}

impl Model for Block {
    ghost use Rattle.lemma_proof.specs.Block.{BlockOf};
    ghost use Rattle.lemma_proof.specs.Halves.{AreHalves, block_of};

    ghost Value = { BlockOf };

    ghost view = { λ s. block_of s.more.items s.heads s.tails };

    ghost invariant = { λ s. AreHalves s.more.items s.heads s.tails s.settled };
}

impl Block {
    /// That of a matrix, with no arc beside it.
    pub fn new(alloc: Global, matrix: &Matrix) -> Result<Block, AllocError>
        requires full { IsFull matrix.now }
        requires some { 0 < length matrix.now }
        ensures rows { IfOk result (λ x. x.rows ≡ matrix.now) }
        ensures more { IfOk result (λ x. x.more ≡ []) }
    {
        let heads = Heads::new(alloc, rows(alloc, matrix)?)?;
        let tails = Heads::new(alloc, columns(alloc, matrix)?)?;
        Ok(Block {
            more: Vec::new(alloc),
            heads,
            tails,
            settled: true,
        })
    }

    /// How many activities there are.
    pub fn activity_count(&self) -> usize
        ensures value { result ≡ length self.now.rows }
        ensures law { IsBlock self.now }
    {
        let _columns = self.tails.activity_count();
        self.heads.activity_count()
    }

    /// The arcs beside the matrix.
    pub fn more(&self) -> &[Lag]
        ensures { result.now ≡ self.now.more }
    {
        self.more.as_slice()
    }

    /// Begins anew, with no arc beside the matrix.
    pub fn begin(&mut self)
        ensures rows { self.new.rows ≡ self.old.rows }
        ensures more { self.new.more ≡ [] }
    {
        let _columns = self.tails.activity_count();
        let _rows = self.heads.activity_count();
        self.more.clear();
        self.heads.begin();
        self.tails.begin();
        self.settled = true;
    }

    /// Takes an arc into the matrix, with which it closes no walk of positive weight, and begins anew. Takes no memory.
    pub fn take_root(&mut self, arc: Lag)
        requires light { IsLight (length self.old.rows) arc }
        requires none { ClosesNone arc self.old.rows }
        ensures rows { self.new.rows ≡ rows_over arc self.old.rows }
        ensures more { self.new.more ≡ [] }
    {
        self.more.clear();
        root_both(&mut self.heads, &mut self.tails, arc);
        self.settled = true;
    }

    /// Adds an arc. Whether the arcs close a walk of positive weight then; none where the heads don't tell.
    pub fn add(&mut self, arc: Lag) -> Result<Option<bool>, AllocError>
        requires { IsLight (length self.old.rows) arc }
        ensures rows { self.new.rows ≡ self.old.rows }
        ensures more { OnOk result (self.new.more ≡ self.old.more ++ arc ∷ []) }
        ensures told { IfOk result (λ dead. IsToldOf (length self.new.rows) self.new.rows self.new.more dead) }
    {
        let _columns = self.tails.activity_count();
        let _rows = self.heads.activity_count();
        let was_settled = self.settled;
        self.settled = false;
        self.more.push(arc)?;
        push_both(&mut self.heads, &mut self.tails, arc)?;
        if !was_settled {
            return Ok(None);
        }
        let settled = rise_both(&mut self.heads, &mut self.tails, arc);
        self.settled = settled.unwrap_or(false);
        Ok(told(settled))
    }

    /// Takes for the trial heads and tails with one arc more.
    pub fn try_arc(&mut self, arc: Lag)
        requires { IsLight (length self.old.rows) arc }
        ensures rows { self.new.rows ≡ self.old.rows }
        ensures more { self.new.more ≡ self.old.more }
        ensures tried { AreEnds self.old.rows (self.old.more ++ arc ∷ []) self.new.tried_heads self.new.tried_tails }
    {
        let _columns = self.tails.activity_count();
        try_both(&mut self.heads, &mut self.tails, arc);
    }

    /// The weight of a walk from activity `a` to activity `b` that is easily seen.
    pub fn weight(&self, a: usize, b: usize) -> i64
        requires from_activity { a < length self.now.rows }
        requires to_activity { b < length self.now.rows }
        ensures value { seen self.now.rows self.now.heads self.now.tails a b ≡ Some result }
        ensures small { IsWithin MAX_SEEN result }
    {
        if a == 0 {
            return self.heads.head(b);
        }
        if b == 0 {
            return self.tails.head(a);
        }
        or_by_start(
            self.heads.weight(a, b),
            self.tails.head(a),
            self.heads.head(b),
        )
    }

    /// The same in the trial.
    pub fn tried_weight(&self, a: usize, b: usize) -> i64
        requires from_activity { a < length self.now.rows }
        requires to_activity { b < length self.now.rows }
        ensures value { seen self.now.rows self.now.tried_heads self.now.tried_tails a b ≡ Some result }
        ensures small { IsWithin MAX_SEEN result }
    {
        if a == 0 {
            return self.heads.tried(b);
        }
        if b == 0 {
            return self.tails.tried(a);
        }
        or_by_start(
            self.heads.weight(a, b),
            self.tails.tried(a),
            self.heads.tried(b),
        )
    }

    /// Whether the way over this arc shows that the matrix's arcs and it imply the other.
    pub fn implies_over(&self, over: Lag, arc: Lag) -> bool
        requires over { IsLight (length self.now.rows) over }
        requires from_activity { arc.from < length self.now.rows }
        requires to_activity { arc.to < length self.now.rows }
        ensures { IsTrue result → ImpliesWith (length self.now.rows) self.now.rows (over ∷ []) arc }
    {
        let first = self.heads.weight(arc.from, over.from);
        let last = self.heads.weight(over.to, arc.to);
        arc.weight <= first + over.weight + last
    }

    /// Whether a way over one of the arcs beside the matrix shows that they imply this one, where neither touches 0: heads
    /// and tails tell of the others.
    pub fn implies_by_one(&self, arc: Lag) -> bool
        requires from_activity { arc.from < length self.now.rows }
        requires to_activity { arc.to < length self.now.rows }
        ensures { IsTrue result → ImpliesWith (length self.now.rows) self.now.rows self.now.more arc }
    {
        if arc.from == 0 || arc.to == 0 {
            return false;
        }
        for index in 0..self.heads.arc_count() {
            let over = self.heads.arc(index);
            let first = self.heads.weight(arc.from, over.from);
            let last = self.heads.weight(over.to, arc.to);
            if arc.weight <= first + over.weight + last {
                return true;
            }
        }
        false
    }
}
