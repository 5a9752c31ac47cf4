//! The arcs of a block while the lines of a lemma's proof are checked.

ghost use Rattle.std.specs.Prelude.{◌≡◌, ◌<◌, ◌++◌, ◌∷◌, [], ℕ, List, None, Some, length, true, false, IsTrue, is_some, not, IfOk, IfSome, IsSome, OnOk, OnErr, MatchOption};
ghost use Rattle.std.specs.Bool.{MatchBool};
ghost use Rattle.std.specs.List.{All, Contains};
ghost use Rattle.network.specs.declared.parts.Lag.{Lag};
ghost use Rattle.network.specs.Problem.{IsWithin, activity_count};
ghost use Rattle.network.specs.declared.limits.TheConstants.{MAX_WALK_WEIGHT};
ghost use Rattle.network.specs.Walk.{HasPositiveCycle, IsMatrixOf, entry};
ghost use Rattle.longest_path.specs.Matrix.{IsFull};
ghost use Rattle.lemma_proof.specs.Heads.{IsLight};
ghost use Rattle.lemma_proof.specs.Implied.{Implies};
ghost use Rattle.lemma_proof.specs.Lines.{AreLemmas, Shows};
ghost use Rattle.lemma_proof.specs.Bench.{Holds, IsKnownOf, IsMatrixOfAll};
ghost use Rattle.lemma_proof.specs.Stepping.{Steps};

use crate::dense::{matrix_of_all, take_arc};
use crate::effort::Effort;
use crate::line::Line;
use crate::shows::{seen_arc, shown_arc, weights_asked};
use crate::{Block, LemmaSlots, Weights};
use longest_path::MarkedMatrix;
use network::{Lag, Project};
use std::alloc::{AllocError, Global};
use std::marker::Model;

/// The matrix of the root's arcs, and beside it the arcs of the one lemma that is checked.
#[derive(Drop)]
pub struct Bench {
    alloc: Global,
    /// The matrix of the root's arcs.
    matrix: MarkedMatrix,
    /// This matrix, and the arcs beside it.
    block: Block,
    /// What it took to look through these.
    effort: Effort,
    /// The matrix of all arcs, where heads and tails didn't show enough.
    dense: Option<MarkedMatrix>,
    /// Whether all arcs close a walk of positive weight.
    is_infeasible: bool,
}

impl Model for Bench {
    ghost use Rattle.lemma_proof.specs.Bench.{BenchOf, IsBench, bench_of};

    ghost Value = { BenchOf };

    ghost view = { λ s. bench_of s.matrix.rows s.block s.dense s.is_infeasible };

    ghost invariant = { λ s. IsBench s.matrix.rows s.block s.dense };
}

impl Bench {
    /// That of a matrix, with no arc beside it.
    pub fn new(alloc: Global, matrix: MarkedMatrix) -> Result<Bench, AllocError>
        requires full { IsFull matrix.rows }
        requires some { 0 < length matrix.rows }
        ensures rows { IfOk result (λ x. x.rows ≡ matrix.rows) }
    {
        let block = Block::new(alloc, matrix.matrix())?;
        Ok(Bench {
            alloc,
            matrix,
            block,
            effort: Effort::none(),
            dense: None,
            is_infeasible: false,
        })
    }

    /// Adds an arc to the root's. Whether it closes a walk of positive weight with them, and is not added.
    pub fn add_root(&mut self, arc: Lag) -> Result<bool, AllocError>
        requires { IsLight (length self.old.rows) arc }
        ensures size { length self.new.rows ≡ length self.old.rows }
        ensures added { IfOk result (λ closes. (own : List Lag) → IsMatrixOf (length self.old.rows) own self.old.rows →
            MatchBool closes (HasPositiveCycle (own ++ arc ∷ []))
            (IsMatrixOf (length self.old.rows) (own ++ arc ∷ []) self.new.rows)) }
        ensures unchanged { IfOk result (λ closes. closes ≡ true → self.new ≡ self.old) }
        ensures failed { OnErr result (self.new ≡ self.old) }
    {
        prove!(self.block.activity_count() > 0);
        if take_arc(&mut self.matrix, arc)? {
            return Ok(true);
        }
        self.block.take_root(arc);
        self.effort = Effort::none();
        self.dense = None;
        self.is_infeasible = false;
        Ok(false)
    }

    /// The greatest weight of a walk over the root's arcs.
    pub fn weight(&self, a: usize, b: usize) -> i64
        requires from_activity { a < length self.now.rows }
        requires to_activity { b < length self.now.rows }
        ensures value { entry self.now.rows a b ≡ Some result }
        ensures small { IsWithin MAX_WALK_WEIGHT result }
    {
        self.matrix.matrix().get(a, b).unwrap_or(0)
    }

    /// Begins anew, with no arc beside the matrix.
    pub(crate) fn begin(&mut self)
        ensures rows { self.new.rows ≡ self.old.rows }
        ensures more { self.new.more ≡ [] }
        ensures dense { self.new.dense ≡ None }
        ensures live { self.new.is_infeasible ≡ false }
    {
        self.block.begin();
        self.effort = Effort::none();
        self.dense = None;
        self.is_infeasible = false;
    }

    /// Makes the matrix of all arcs.
    fn make_dense(&mut self) -> Result<(), AllocError>
        ensures rows { self.new.rows ≡ self.old.rows }
        ensures made { OnOk result ((own : List Lag) → IsMatrixOf (length self.old.rows) own self.old.rows →
            IsKnownOf (length self.old.rows) own self.old.more self.new.is_infeasible self.new.more self.new.dense) }
        ensures there { OnOk result (is_some self.new.dense ≡ not self.new.is_infeasible) }
    {
        prove!(self.block.activity_count() > 0);
        let dense = matrix_of_all(self.alloc, self.matrix.matrix(), &self.block)?;
        self.is_infeasible = dense.is_none();
        self.dense = dense;
        Ok(())
    }

    /// Finds whether all arcs close a walk of positive weight, of which this one came last: over it and one more of those
    /// beside the root's, as two orders of rivals do, or else by the matrix of all arcs.
    fn look_back(&mut self, arc: Lag) -> Result<(), AllocError>
        requires light { IsLight (length self.old.rows) arc }
        requires beside { Contains self.old.more arc }
        ensures rows { self.new.rows ≡ self.old.rows }
        ensures made { OnOk result ((own : List Lag) → IsMatrixOf (length self.old.rows) own self.old.rows →
            IsKnownOf (length self.old.rows) own self.old.more self.new.is_infeasible self.new.more self.new.dense) }
    {
        let back = Lag {
            from: arc.to,
            to: arc.from,
            weight: 1 - arc.weight,
        };
        if self.block.implies_by_one(back) {
            self.is_infeasible = true;
            return Ok(());
        }
        self.make_dense()
    }

    /// Adds an arc.
    pub(crate) fn add(&mut self, arc: Lag) -> Result<(), AllocError>
        requires live { self.old.is_infeasible ≡ false }
        requires light { IsLight (length self.old.rows) arc }
        ensures rows { self.new.rows ≡ self.old.rows }
        ensures added { OnOk result ((own arcs : List Lag) → Holds own arcs self.old →
            Holds own (arcs ++ arc ∷ []) self.new) }
    {
        if let Some(mut dense) = self.dense.take() {
            self.is_infeasible = take_arc(&mut dense, arc)?;
            self.dense = Some(dense);
            return Ok(());
        }
        self.effort = self.effort.with_arc(arc);
        match self.block.add(arc)? {
            Some(is_infeasible) => self.is_infeasible = is_infeasible,
            None => self.look_back(arc)?,
        }
        Ok(())
    }

    /// Whether all arcs close a walk of positive weight.
    pub(crate) fn is_infeasible(&self) -> bool
        ensures { result ≡ self.now.is_infeasible }
    {
        self.is_infeasible
    }

    /// Whether an arc is implied, as far as it is seen.
    pub(crate) fn implies(&self, arc: Lag) -> bool
        requires live { self.now.is_infeasible ≡ false }
        requires light { IsLight (length self.now.rows) arc }
        ensures { IsTrue result → (own arcs : List Lag) → Holds own arcs self.now → Implies (own ++ arcs) arc }
    {
        prove!(self.block.activity_count() > 0);
        match &self.dense {
            Some(dense) => Weights::of(dense.matrix()).implies(arc),
            None => Weights::seen(&self.block, None).implies(arc),
        }
    }

    /// Makes the matrix of all arcs, where there is none.
    fn settle(&mut self) -> Result<(), AllocError>
        requires live { self.old.is_infeasible ≡ false }
        requires none { self.old.dense ≡ None }
        ensures rows { self.new.rows ≡ self.old.rows }
        ensures all { OnOk result ((own arcs : List Lag) → Holds own arcs self.old →
            IsMatrixOfAll (length self.old.rows) own arcs self.new.dense) }
        ensures kept { OnOk result ((own arcs : List Lag) → Holds own arcs self.old → Holds own arcs self.new) }
        ensures there { OnOk result (is_some self.new.dense ≡ not self.new.is_infeasible) }
    {
        self.make_dense()
    }

    /// The arc that a line shows, by the matrix of all arcs.
    fn shown_by_all(&self, project: &Project, lemmas: &LemmaSlots, line: &Line) -> Option<Lag>
        requires size { length self.now.rows ≡ activity_count project.now }
        requires lemmas { AreLemmas project.now lemmas.now }
        ensures there { IsSome result → IsSome self.now.dense }
        ensures light { IfSome result (IsLight (length self.now.rows)) }
        ensures shown { (own arcs : List Lag) → IsMatrixOfAll (length self.now.rows) own arcs self.now.dense →
            MatchOption result ((e : Lag) → ¬ Shows project.now lemmas.now (own ++ arcs) line.now e)
            (Shows project.now lemmas.now (own ++ arcs) line.now) }
    {
        let dense = self.dense.as_ref()?;
        shown_arc(project, dense.matrix(), lemmas, line)
    }

    /// The arc that a line shows, if it shows one: by walks that are easily seen, as long as they take less than the matrix of
    /// all arcs would, or else by that.
    pub(crate) fn shown_arc(
        &mut self,
        project: &Project,
        lemmas: &LemmaSlots,
        line: &Line,
    ) -> Result<Option<Lag>, AllocError>
        requires live { self.old.is_infeasible ≡ false }
        requires size { length self.old.rows ≡ activity_count project.now }
        requires lemmas { AreLemmas project.now lemmas.now }
        ensures rows { self.new.rows ≡ self.old.rows }
        ensures light { IfOk result (λ found. IfSome found (IsLight (length self.old.rows))) }
        ensures live { IfOk result (λ found. IsSome found → self.new.is_infeasible ≡ false) }
        ensures kept { OnOk result ((own arcs : List Lag) → Holds own arcs self.old → Holds own arcs self.new) }
        ensures shown { IfOk result (λ found. (own arcs : List Lag) → Holds own arcs self.old →
            MatchOption found ((e : Lag) → ¬ Shows project.now lemmas.now (own ++ arcs) line.now e)
            (Shows project.now lemmas.now (own ++ arcs) line.now)) }
    {
        if self.dense.is_some() {
            return Ok(self.shown_by_all(project, lemmas, line));
        }
        self.effort = self.effort.with_weights(weights_asked(lemmas, line));
        let spent = self.effort.is_spent(self.block.activity_count());
        let seen = seen_arc(project, &mut self.block, spent, lemmas, line);
        if seen.is_some() {
            return Ok(seen);
        }
        self.settle()?;
        Ok(self.shown_by_all(project, lemmas, line))
    }

    /// Adds the arc that a line shows, unless it is implied. Whether it was added; none if the line shows none.
    pub(crate) fn step(
        &mut self,
        project: &Project,
        lemmas: &LemmaSlots,
        line: &Line,
    ) -> Result<Option<bool>, AllocError>
        requires live { self.old.is_infeasible ≡ false }
        requires size { length self.old.rows ≡ activity_count project.now }
        requires lemmas { AreLemmas project.now lemmas.now }
        ensures rows { self.new.rows ≡ self.old.rows }
        ensures steps { IfOk result (λ found. (own arcs : List Lag) → Holds own arcs self.old →
            Steps project.now lemmas.now line.now own arcs self.new found) }
    {
        let Some(arc) = self.shown_arc(project, lemmas, line)? else {
            return Ok(None);
        };
        if self.implies(arc) {
            return Ok(Some(false));
        }
        self.add(arc)?;
        Ok(Some(true))
    }

    /// Begins anew with these arcs beside the matrix.
    pub(crate) fn suppose(&mut self, arcs: &[Lag]) -> Result<(), AllocError>
        requires light { All (IsLight (length self.old.rows)) arcs.now }
        ensures rows { self.new.rows ≡ self.old.rows }
        ensures supposed { OnOk result ((own : List Lag) → IsMatrixOf (length self.old.rows) own self.old.rows →
            Holds own arcs.now self.new) }
    {
        self.begin();
        for arc in arcs {
            if self.is_infeasible {
                return Ok(());
            }
            self.add(*arc)?;
        }
        Ok(())
    }
}
