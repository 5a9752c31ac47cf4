//! A matrix with marks to go back to.

ghost use Rattle.std.specs.Prelude.{◌≡◌, ◌<◌, [], ◌∷◌, length, Err, IfErr, OnOk, OnErr};
ghost use Rattle.longest_path.specs.Insert.{arc_of, AddsArc, FillsRows, MayInsert, IsInsertFault};
ghost use Rattle.longest_path.specs.Saved.{Marked};
ghost use Rattle.network.specs.declared.limits.TheConstants.{MAX_LAG_WEIGHT};
ghost use Rattle.network.specs.Problem.{IsWithin};

use crate::fault::PathFault;
use crate::matrix::Matrix;
use crate::saves::Saves;
use network::Lag;
use std::alloc::{AllocError, Global};
use std::marker::Model;

/// A matrix that goes back to marks. Its value is its rows now and the rows at each mark, the last
/// mark first.
///
/// For the way back it keeps the parts of rows that may have gained since the first mark, and no copy of the matrix.
#[derive(Drop, Debug)]
pub struct MarkedMatrix {
    matrix: Matrix,
    saves: Saves,
    /// How many parts of rows were saved when each mark was made.
    marks: Vec<usize>,
}

impl Model for MarkedMatrix {
    ghost use Rattle.std.specs.Prelude.{reverse};
    ghost use Rattle.longest_path.specs.Saved.{Marked, marked_rows, IsMarked};

    ghost Value = { Marked };

    ghost view = { λ s. record {
      rows = s.matrix;
      marks = marked_rows s.saves.saves s.matrix (reverse s.marks.items);
    } };

    ghost invariant = { λ s. IsMarked s.matrix s.saves (reverse s.marks.items) };
}

impl MarkedMatrix {
    /// A matrix with no mark.
    pub fn new(alloc: Global, matrix: Matrix) -> MarkedMatrix
        ensures { result ≡ record { rows = matrix; marks = [] } }
    {
        let width = matrix.activity_count();
        MarkedMatrix {
            matrix,
            saves: Saves::new(alloc, width),
            marks: Vec::new(alloc),
        }
    }

    /// The matrix as it is now.
    pub fn matrix(&self) -> &Matrix
        ensures { result.now ≡ self.now.rows }
    {
        &self.matrix
    }

    /// How many marks there are.
    pub fn mark_count(&self) -> usize
        ensures { result ≡ length self.now.marks }
    {
        self.marks.len()
    }

    /// Makes a mark. Where there is no memory, nothing changes.
    pub fn mark(&mut self) -> Result<(), AllocError>
        ensures ok { OnOk result (self.new ≡ record { rows = self.old.rows; marks = self.old.rows ∷ self.old.marks }) }
        ensures unchanged { OnErr result (self.new ≡ self.old) }
    {
        self.marks.reserve(1)?;
        self.marks.push_reserved(self.saves.len());
        Ok(())
    }

    /// Goes back to the last mark, which is then no mark any more. Takes no memory.
    pub fn go_back(&mut self)
        requires { 0 < length self.old.marks }
        ensures { self.old.marks ≡ self.new.rows ∷ self.new.marks }
    {
        let count = self.marks.pop().unwrap();
        self.matrix.undo(count, &mut self.saves);
    }

    /// Adds the arc of weight `w` from activity `i` to activity `j`. An entry is then the greater of what it was and
    /// the way over the arc. The marks stay.
    ///
    /// [`PathFault::PositiveCycle`] comes where the arc closes a walk of positive weight, and names `i`.
    /// [`PathFault::Memory`] comes only if there is a mark, and no memory for what may gain: without a mark nothing is
    /// saved. A fault leaves the matrix as it was.
    pub fn insert(&mut self, i: usize, j: usize, w: i64) -> Result<(), PathFault>
        requires from_activity { i < length self.old.rows }
        requires to_activity { j < length self.old.rows }
        requires limit { IsWithin MAX_LAG_WEIGHT w }
        ensures size { length self.new.rows ≡ length self.old.rows }
        ensures marks { self.new.marks ≡ self.old.marks }
        ensures ok { OnOk result (AddsArc (arc_of i j w) self.old.rows self.new.rows) }
        ensures fault { IfErr result (IsInsertFault (arc_of i j w) self.old.rows) }
        ensures memory { result ≡ Err PathFault.Memory → 0 < length self.old.marks }
        ensures unchanged { OnErr result (self.new ≡ self.old) }
    {
        self.take(i, j, w)
    }

    /// The same for an arc of any weight that a walk may have, with which every activity reaches every other.
    pub fn insert_filling(&mut self, i: usize, j: usize, w: i64) -> Result<(), PathFault>
        requires from_activity { i < length self.old.rows }
        requires to_activity { j < length self.old.rows }
        requires limit { FillsRows (arc_of i j w) self.old.rows }
        ensures size { length self.new.rows ≡ length self.old.rows }
        ensures marks { self.new.marks ≡ self.old.marks }
        ensures ok { OnOk result (AddsArc (arc_of i j w) self.old.rows self.new.rows) }
        ensures fault { IfErr result (IsInsertFault (arc_of i j w) self.old.rows) }
        ensures memory { result ≡ Err PathFault.Memory → 0 < length self.old.marks }
        ensures unchanged { OnErr result (self.new ≡ self.old) }
    {
        self.take(i, j, w)
    }

    /// Adds an arc of either kind.
    fn take(&mut self, i: usize, j: usize, w: i64) -> Result<(), PathFault>
        requires from_activity { i < length self.old.rows }
        requires to_activity { j < length self.old.rows }
        requires limit { MayInsert (arc_of i j w) self.old.rows }
        ensures size { length self.new.rows ≡ length self.old.rows }
        ensures marks { self.new.marks ≡ self.old.marks }
        ensures ok { OnOk result (AddsArc (arc_of i j w) self.old.rows self.new.rows) }
        ensures fault { IfErr result (IsInsertFault (arc_of i j w) self.old.rows) }
        ensures memory { result ≡ Err PathFault.Memory → 0 < length self.old.marks }
        ensures unchanged { OnErr result (self.new ≡ self.old) }
    {
        let keeps = !self.marks.is_empty();
        self.matrix.insert(i, j, w, &mut self.saves, keeps)
    }

    /// Makes a mark and adds the arc. A fault leaves all as it was.
    pub fn insert_under_mark(&mut self, arc: Lag) -> Result<(), PathFault>
        requires from_activity { arc.from < length self.old.rows }
        requires to_activity { arc.to < length self.old.rows }
        requires light { IsWithin MAX_LAG_WEIGHT arc.weight }
        ensures marks { OnOk result (self.new.marks ≡ self.old.rows ∷ self.old.marks) }
        ensures ok { OnOk result (AddsArc arc self.old.rows self.new.rows) }
        ensures fault { IfErr result (IsInsertFault arc self.old.rows) }
        ensures unchanged { OnErr result (self.new ≡ self.old) }
    {
        self.mark()?;
        if let Err(fault) = self.insert(arc.from, arc.to, arc.weight) {
            self.go_back();
            return Err(fault);
        }
        Ok(())
    }
}
