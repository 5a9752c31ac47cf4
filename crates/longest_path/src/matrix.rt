//! The greatest weights of walks between all activities.

ghost use Rattle.std.specs.Prelude.{◌≡◌, ◌<◌, ◌≤◌, pos, length, take, drop, Some, Err, IsTrue, IfSome, IfOk, IfErr, OnOk, OnErr};
ghost use Rattle.network.specs.Walk.{entry, Rows};
ghost use Rattle.std.specs.Bool.{MatchBool};
ghost use Rattle.longest_path.specs.Insert.{arc_of, AddsArc, ClosesCycle, MayInsert, TakesArc, IsInsertFault};
ghost use Rattle.longest_path.specs.Saved.{LeadsBackIfKept, undone};
ghost use Rattle.network.specs.declared.limits.TheConstants.{MAX_ACTIVITIES, MAX_WALK_WEIGHT};
ghost use Rattle.network.specs.Problem.{IsWithin};
ghost use Rattle.longest_path.specs.Matrix.{IsMatrix};

use crate::fault::PathFault;
use crate::grid::Grid;
use crate::insert::{go_over, is_positive, sum};
use crate::saves::Saves;
use network::Lag;
use std::alloc::{AllocError, Global};
use std::marker::Model;

/// The greatest weights of walks between activities, over arcs of which no closed walk has positive
/// weight. Its value is the list of rows.
#[derive(Drop, Debug)]
pub struct Matrix {
    pub(crate) grid: Grid,
    /// A workspace for a row.
    pub(crate) via: Vec<i32>,
}

impl Model for Matrix {
    ghost use Rattle.network.specs.Walk.{Rows};
    ghost use Rattle.longest_path.specs.Matrix.{IsMatrixWithWorkspace};

    ghost Value = { Rows };

    ghost view = { λ s. s.grid };

    ghost invariant = { λ s. IsMatrixWithWorkspace s.grid s.via.items };
}

impl Matrix {
    /// How many activities there are.
    pub fn activity_count(&self) -> usize
        ensures value { result ≡ length self.now }
        ensures limit { length self.now ≤ MAX_ACTIVITIES }
        ensures law { IsMatrix self.now }
    {
        self.grid.size()
    }

    /// The greatest weight of a walk from activity `a` to activity `b` in periods, none where there
    /// is no walk.
    pub fn get(&self, a: usize, b: usize) -> Option<i64>
        requires from_activity { a < length self.now }
        requires to_activity { b < length self.now }
        ensures value { result ≡ entry self.now a b }
        ensures fits { IfSome result (λ w. IsWithin MAX_WALK_WEIGHT w) }
        ensures diagonal { a ≡ b → result ≡ Some (pos 0) }
    {
        self.grid.get(a, b)
    }

    /// An equal matrix.
    pub fn try_copy(&self, alloc: Global) -> Result<Self, AllocError>
        ensures { IfOk result (λ matrix. matrix ≡ self.now) }
    {
        let grid = self.grid.try_copy(alloc)?;
        let via = Vec::from_slice(alloc, self.via.as_slice())?;
        Ok(Matrix { grid, via })
    }

    /// Whether one arc more closes a walk of positive weight, by the way back.
    pub(crate) fn closes_cycle(&self, arc: Lag) -> bool
        requires from_activity { arc.from < length self.now }
        requires to_activity { arc.to < length self.now }
        requires light { MayInsert arc self.now }
        ensures { MatchBool result (ClosesCycle arc self.now) (TakesArc arc self.now) }
    {
        is_positive(sum(self.grid.get(arc.to, arc.from), Some(arc.weight)))
    }

    /// As [`MarkedMatrix::insert`](crate::MarkedMatrix::insert), and saves what may gain of each row that gains, if it
    /// is kept. A fault leaves the matrix and the saves as they were.
    pub(crate) fn insert(
        &mut self,
        i: usize,
        j: usize,
        w: i64,
        saves: &mut Saves,
        keeps: bool,
    ) -> Result<(), PathFault>
        requires from_activity { i < length self.old }
        requires to_activity { j < length self.old }
        requires limit { MayInsert (arc_of i j w) self.old }
        requires width { saves.old.width ≡ length self.old }
        ensures size { length self.new ≡ length self.old }
        ensures law { IsMatrix self.new }
        ensures width { saves.new.width ≡ saves.old.width }
        ensures ok { OnOk result (AddsArc (arc_of i j w) self.old self.new) }
        ensures fault { IfErr result (IsInsertFault (arc_of i j w) self.old) }
        ensures memory { result ≡ Err PathFault.Memory → IsTrue keeps }
        ensures kept { LeadsBackIfKept keeps saves.old saves.new self.old self.new }
        ensures unchanged { OnErr result (self.new ≡ self.old) }
        ensures same_saves { OnErr result (saves.new ≡ saves.old) }
    {
        let arc = Lag {
            from: i,
            to: j,
            weight: w,
        };
        if self.closes_cycle(arc) {
            return Err(PathFault::PositiveCycle { at: i });
        }
        go_over(&mut self.grid, self.via.as_mut_slice(), arc, saves, keeps)?;
        Ok(())
    }

    /// Puts the parts of rows back that were saved after the first `count`.
    pub(crate) fn undo(&mut self, count: usize, saves: &mut Saves)
        requires count { count ≤ length saves.old.saves }
        requires width { saves.old.width ≡ length self.old }
        requires law { IsMatrix (undone (drop count saves.old.saves) self.old) }
        ensures size { length self.new ≡ length self.old }
        ensures width { saves.new.width ≡ saves.old.width }
        ensures kept { saves.new.saves ≡ take count saves.old.saves }
        ensures back { self.new ≡ undone (drop count saves.old.saves) self.old }
    {
        saves.undo(count, &mut self.grid);
    }
}
