//! The parts of rows that changed since a mark.

ghost use Rattle.std.specs.Prelude.{◌≡◌, ◌++◌, ◌∷◌, [], ◌<◌, ◌≤◌, ◌+◌, ◌-◌, length, take, drop, OnOk, OnErr};
ghost use Rattle.longest_path.specs.Saved.{PutsLastBack, undone};
ghost use Rattle.network.specs.Walk.{Rows};

use crate::grid::Grid;
use std::alloc::{AllocError, Global};
use std::marker::Model;

/// The last `count` cells of a list.
fn last_cells(cells: &[i32], count: usize) -> &[i32]
    requires { count ≤ length cells.now }
    ensures { result.now ≡ drop (length cells.now - count) cells.now }
{
    let start = cells.len() - count;
    &cells[start..]
}

/// Where a part of a row stands: its row, its first column, and how many columns it has.
#[derive(Clone, Copy, Debug)]
pub(crate) struct Part {
    row: usize,
    from: usize,
    count: usize,
}

/// Parts of the rows of a grid as they were before the rows gained, in the order in which they were
/// saved. The cells stand one after another in one list.
#[derive(Drop, Debug)]
pub(crate) struct Saves {
    width: usize,
    parts: Vec<Part>,
    cells: Vec<i32>,
}

impl Model for Saves {
    ghost use Rattle.longest_path.specs.Saved.{SavedParts, saves_of, AreSaved};

    ghost Value = { SavedParts };

    ghost view = { λ s. record { width = s.width; saves = saves_of s.parts.items s.cells.items } };

    ghost invariant = { λ s. AreSaved s.width s.parts.items s.cells.items };
}

impl Saves {
    /// No part of the rows of a grid of `width` columns.
    pub(crate) fn new(alloc: Global, width: usize) -> Saves
        ensures { result ≡ record { width = width; saves = [] } }
    {
        Saves {
            width,
            parts: Vec::new(alloc),
            cells: Vec::new(alloc),
        }
    }

    /// How many parts there are.
    pub(crate) fn len(&self) -> usize
        ensures { result ≡ length self.now.saves }
    {
        self.parts.len()
    }

    /// Saves the cells of a row from column `from` on. Where there is no memory, nothing changes.
    pub(crate) fn push(&mut self, row: usize, from: usize, cells: &[i32]) -> Result<(), AllocError>
        requires low { row < self.old.width }
        requires inside { from + length cells.now ≤ self.old.width }
        ensures width { self.new.width ≡ self.old.width }
        ensures added { OnOk result (self.new.saves
            ≡ self.old.saves ++ record { row = row; from = from; cells = cells.now } ∷ []) }
        ensures unchanged { OnErr result (self.new ≡ self.old) }
    {
        self.parts.reserve(1)?;
        self.cells.extend_from_slice(cells)?;
        let count = cells.len();
        self.parts.push_reserved(Part { row, from, count });
        Ok(())
    }

    /// Puts the part that was saved last back.
    fn put_back(&mut self, grid: &mut Grid)
        requires some { 0 < length self.old.saves }
        requires wide { length grid.old ≡ self.old.width }
        ensures width { self.new.width ≡ self.old.width }
        ensures last { PutsLastBack self.old.saves self.new.saves grid.old grid.new }
        ensures size { length grid.new ≡ length grid.old }
    {
        let part = self.parts.pop().unwrap();
        let cells = last_cells(self.cells.as_slice(), part.count);
        grid.put_row(part.row, part.from, cells);
        self.cells.truncate(self.cells.len() - part.count);
    }

    /// Puts the parts back that were saved after the first `count`, the last one first.
    pub(crate) fn undo(&mut self, count: usize, grid: &mut Grid)
        requires count { count ≤ length self.old.saves }
        requires wide { length grid.old ≡ self.old.width }
        ensures width { self.new.width ≡ self.old.width }
        ensures kept { self.new.saves ≡ take count self.old.saves }
        ensures back { grid.new ≡ undone (drop count self.old.saves) grid.old }
        ensures size { length grid.new ≡ length grid.old }
    {
        while count < self.len() {
            self.put_back(grid);
        }
    }
}
