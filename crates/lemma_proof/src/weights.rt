//! Weights of walks over the arcs of a block, entry by entry.

ghost use Rattle.std.specs.Prelude.{◌≡◌, ◌↔◌, ◌<◌, List, length, None, Some, IsTrue, IfSome};
ghost use Rattle.network.specs.declared.parts.Lag.{Lag};
ghost use Rattle.network.specs.declared.limits.TheConstants.{MAX_WALK_WEIGHT};
ghost use Rattle.network.specs.Problem.{IsWithin};
ghost use Rattle.network.specs.Walk.{entry};
ghost use Rattle.longest_path.specs.Insert.{rows_over};
ghost use Rattle.std.specs.Bool.{MatchBool};
ghost use Rattle.longest_path.specs.Matrix.{greater, joined, Reaches};
ghost use Rattle.lemma_proof.specs.Implied.{ImpliesWith};
ghost use Rattle.lemma_proof.specs.Sources.{MayTry};
ghost use Rattle.lemma_proof.specs.Reasons.{Implies, MayBeAdded, MayBeWith, TellsWhether, entries_of_block, entries_of_matrix, rows_with};

use crate::{Block, MAX_SEEN};
use longest_path::Matrix;
use network::{Lag, MAX_WALK_WEIGHT};
use std::marker::Model;

/// The greatest weight of an arc of a lemma, in periods: no horizon of a project is greater. The least weight is its
/// negative.
pub const MAX_ARC_WEIGHT: i64 = 1_002_000_000;

/// What the reverse of an arc weighs at most.
const MAX_REVERSE_WEIGHT: i64 = MAX_ARC_WEIGHT + 1;

/// What a walk, a reverse and a walk weigh at most.
const MAX_WAY_WEIGHT: i64 = MAX_WALK_WEIGHT + MAX_REVERSE_WEIGHT + MAX_WALK_WEIGHT;

/// What a weight is not beyond, wherever it comes from.
const MAX_KNOWN_WEIGHT: i64 = MAX_WAY_WEIGHT + MAX_SEEN;

/// The weight of the way that goes on by an arc and then a walk.
fn way(first: Option<i64>, arc: i64, last: Option<i64>) -> Option<i64>
    requires first { IfSome first (λ x. IsWithin MAX_WALK_WEIGHT x) }
    requires arc { IsWithin MAX_REVERSE_WEIGHT arc }
    requires last { IfSome last (λ x. IsWithin MAX_WALK_WEIGHT x) }
    ensures sum { result ≡ joined (joined first (Some arc)) last }
    ensures small { IfSome result (λ x. IsWithin MAX_WAY_WEIGHT x) }
{
    match (first, last) {
        (Some(first), Some(last)) => Some(first + arc + last),
        _ => None,
    }
}

/// Whether a weight is at most another one, which is there.
fn is_at_most(weight: i64, other: Option<i64>) -> bool
    ensures { MatchBool result (Reaches weight other) (¬ Reaches weight other) }
{
    match other {
        Some(other) => weight <= other,
        None => false,
    }
}

/// The greater of two weights.
fn greater(x: Option<i64>, y: Option<i64>) -> Option<i64>
    ensures { result ≡ greater x y }
{
    match (x, y) {
        (Some(x), Some(y)) => Some(if x < y { y } else { x }),
        (Some(x), None) => Some(x),
        (None, y) => y,
    }
}

/// The greatest weight of a walk over the arcs of a matrix and one more, if there is one, which is not inserted.
fn weight_with(matrix: &Matrix, added: Option<Lag>, a: usize, b: usize) -> Option<i64>
    requires added { MayBeWith added matrix.now }
    requires from_activity { a < length matrix.now }
    requires to_activity { b < length matrix.now }
    ensures value { result ≡ entry (rows_with added matrix.now) a b }
    ensures fits { IfSome result (λ w. IsWithin MAX_WAY_WEIGHT w) }
{
    let weight = matrix.get(a, b);
    let Some(arc) = added else {
        return weight;
    };
    let first = matrix.get(a, arc.from);
    let last = matrix.get(arc.to, b);
    greater(weight, way(first, arc.weight, last))
}

/// The weight of a walk that is easily seen in a block, or in its trial.
fn seen_weight(block: &Block, tried: Option<Lag>, a: usize, b: usize) -> i64
    requires from_activity { a < length block.now.rows }
    requires to_activity { b < length block.now.rows }
    ensures value { entry (entries_of_block tried block.now).rows a b ≡ Some result }
    ensures small { IsWithin MAX_SEEN result }
{
    match tried {
        Some(_) => block.tried_weight(a, b),
        None => block.weight(a, b),
    }
}

/// Whether a way over an arc beside the matrix, or over that of the trial, shows that the arcs imply this one.
fn seen_beside(block: &Block, tried: Option<Lag>, arc: Lag) -> bool
    requires tried { MayTry tried block.now.rows }
    requires from_activity { arc.from < length block.now.rows }
    requires to_activity { arc.to < length block.now.rows }
    ensures { IsTrue result → ImpliesWith (length block.now.rows) block.now.rows
        (entries_of_block tried block.now).more arc }
{
    if let Some(over) = tried {
        if block.implies_over(over, arc) {
            return true;
        }
    }
    block.implies_by_one(arc)
}

/// Where weights come from.
#[derive(Drop)]
enum Source<'a> {
    /// A matrix, and an arc more, which is not inserted.
    Matrix(&'a Matrix, Option<Lag>),
    /// What is easily seen in a block, or in its trial with an arc more.
    Seen(&'a Block, Option<Lag>),
}

/// Weights of walks over the arcs of a block, or over these and one arc more: the greatest ones, or those that are
/// easily seen.
#[derive(Drop)]
pub struct Weights<'a> {
    source: Source<'a>,
}

impl<'a> Model for Weights<'a> {
    ghost use Rattle.lemma_proof.specs.Reasons.{Entries};
    ghost use Rattle.lemma_proof.specs.Sources.{entries_of, IsSource};

    ghost Value = { Entries };

    ghost view = { λ s. entries_of s.source };

    ghost invariant = { λ s. IsSource s.source };
}

impl<'a> Weights<'a> {
    /// Those of a matrix.
    pub fn of(matrix: &'a Matrix) -> Weights<'a>
        ensures { result ≡ entries_of_matrix matrix.now }
    {
        Weights {
            source: Source::Matrix(matrix, None),
        }
    }

    /// Those of a matrix with this arc more.
    pub fn with(matrix: &'a Matrix, arc: Lag) -> Weights<'a>
        requires { MayBeAdded matrix.now arc }
        ensures { result ≡ entries_of_matrix (rows_over arc matrix.now) }
    {
        Weights {
            source: Source::Matrix(matrix, Some(arc)),
        }
    }

    /// Those that are easily seen in a block, or in its trial with an arc more.
    pub fn seen(block: &'a Block, tried: Option<Lag>) -> Weights<'a>
        requires { MayTry tried block.now.rows }
        ensures { result ≡ entries_of_block tried block.now }
    {
        Weights {
            source: Source::Seen(block, tried),
        }
    }

    /// The weight of a walk from activity `a` to activity `b`, none where there is no walk.
    pub fn get(&self, a: usize, b: usize) -> Option<i64>
        requires from_activity { a < length self.now.rows }
        requires to_activity { b < length self.now.rows }
        ensures value { result ≡ entry self.now.rows a b }
        ensures fits { IfSome result (λ w. IsWithin MAX_KNOWN_WEIGHT w) }
    {
        match self.source {
            Source::Matrix(matrix, added) => weight_with(matrix, added, a, b),
            Source::Seen(block, tried) => Some(seen_weight(block, tried, a, b)),
        }
    }

    /// Whether a way over an arc beside the matrix shows that the arcs imply this one.
    fn implies_beside(&self, arc: Lag) -> bool
        requires from_activity { arc.from < length self.now.rows }
        requires to_activity { arc.to < length self.now.rows }
        ensures { IsTrue result → ImpliesWith (length self.now.rows) self.now.own self.now.more arc }
    {
        match self.source {
            Source::Matrix(_, _) => false,
            Source::Seen(block, tried) => seen_beside(block, tried, arc),
        }
    }

    /// Whether the arcs imply this one.
    pub fn implies(&self, arc: Lag) -> bool
        requires from_activity { arc.from < length self.now.rows }
        requires to_activity { arc.to < length self.now.rows }
        ensures { TellsWhether (length self.now.rows) self.now result (λ arcs. Implies arcs arc) }
    {
        if is_at_most(arc.weight, self.get(arc.from, arc.to)) {
            return true;
        }
        self.implies_beside(arc)
    }
}
