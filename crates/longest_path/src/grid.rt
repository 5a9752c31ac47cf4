//! The cells of a matrix in one list.

ghost use Rattle.std.specs.Prelude.{◌≡◌, [], slice_set, ◌+◌, ◌*◌, ◌+ℤ◌, ◌≤ℤ◌, ◌<◌, ◌≤◌, ℕ, length, slice_index_or, take, drop, None, Some, IfOk, IfSome};
ghost use Rattle.network.specs.Walk.{entry, Rows};
ghost use Rattle.longest_path.specs.Matrix.{greater, joined, IsSquare, IsWithoutArcs, IsRaised, weight_of, weight_at, placed_at, written_at, replaced_at, relaxed_by, IsRelaxed, IsRow, IsRowRelaxed, HasSmallSums};
ghost use Rattle.network.specs.declared.limits.TheConstants.{MAX_ACTIVITIES, MAX_LAG_WEIGHT, MAX_WALK_WEIGHT};
ghost use Rattle.network.specs.Problem.{IsWithin};
ghost use Rattle.longest_path.specs.declared.grid.TheConstants.{MAX_FIRST_WEIGHT, MAX_WAY_WEIGHT};

use network::{Lag, MAX_LAG_WEIGHT, MAX_WALK_WEIGHT};
use std::alloc::{AllocError, Global};
use std::marker::Model;

/// The cell of an entry that isn't there.
const NOTHING: i32 = i32::MIN;

/// What the first part of a way weighs at most, which is a walk, or a walk and an arc.
pub const MAX_FIRST_WEIGHT: i64 = MAX_WALK_WEIGHT + MAX_LAG_WEIGHT;

/// What a way weighs at most, which is its first part and a walk.
pub(crate) const MAX_WAY_WEIGHT: i64 = MAX_FIRST_WEIGHT + MAX_WALK_WEIGHT;

/// What a cell says.
fn weight(cell: i32) -> Option<i64>
    ensures { result ≡ weight_of cell }
{
    if NOTHING < cell {
        Some(cell as i64)
    } else {
        None
    }
}

/// The greater of two cells.
fn better(x: i32, y: i32) -> i32
    ensures value { weight_of result ≡ greater (weight_of x) (weight_of y) }
    ensures low { x ≤ℤ result }
{
    if x < y { y } else { x }
}

/// The cell of the way whose first part weighs `first`.
pub(crate) fn sum(first: i32, last: i32) -> i32
    requires { IfSome (weight_of last) (λ y. IsWithin MAX_WAY_WEIGHT (first +ℤ y)) }
    ensures { weight_of result ≡ joined (Some first) (weight_of last) }
{
    if NOTHING < last {
        first + last
    } else {
        NOTHING
    }
}

/// Takes for each cell of a row the way that begins with a walk of weight `first` and goes on by `via`, if that is
/// greater.
///
/// Two slices of one length, an index, and a store for every cell: in this form the loop is compiled
/// to vector code.
fn relax(row: &mut [i32], first: i32, via: &[i32])
    requires wide { length row.old ≡ length via.now }
    requires fits { HasSmallSums first via.now }
    ensures wide { length row.new ≡ length row.old }
    ensures through { (k : ℕ) → weight_at row.new k ≡ relaxed_by first (weight_at via.now k) (weight_at row.old k) }
{
    for b in 0..row.len() {
        row[b] = better(row[b], sum(first, via[b]));
    }
}

/// The place of a cell.
fn place(size: usize, a: usize, b: usize) -> usize
    requires few { size ≤ MAX_ACTIVITIES }
    requires row { a < size }
    requires column { b < size }
    ensures value { result ≡ a * size + b }
    ensures low { result < size * size }
{
    a * size + b
}

/// Where a row begins.
fn row_start(size: usize, a: usize) -> usize
    requires few { size ≤ MAX_ACTIVITIES }
    requires row { a < size }
    ensures value { result ≡ a * size }
    ensures end { result + size ≤ size * size }
    ensures small { size * size ≤ 1004004 }
{
    a * size
}

/// The cells of a row.
fn row_cells(cells: &[i32], size: usize, a: usize) -> &[i32]
    requires few { size ≤ MAX_ACTIVITIES }
    requires row { a < size }
    requires whole { length cells.now ≡ size * size }
    ensures { result.now ≡ take size (drop (a * size) cells.now) }
{
    let start = row_start(size, a);
    &cells[start..start + size]
}

/// Row `a` takes the way that begins with a walk of weight `first` and goes on by `via`, from column
/// `from` on.
fn relax_part(cells: &mut [i32], size: usize, a: usize, from: usize, first: i32, via: &[i32])
    requires few { size ≤ MAX_ACTIVITIES }
    requires row { a < size }
    requires whole { length cells.old ≡ size * size }
    requires inside { from + length via.now ≤ size }
    requires fits { HasSmallSums first via.now }
    ensures long { length cells.new ≡ length cells.old }
    ensures relaxed { IsRowRelaxed size a first (placed_at from via.now) cells.old cells.new }
{
    let start = row_start(size, a) + from;
    relax(&mut cells[start..start + via.len()], first, via);
}

/// Row `a` becomes other cells, from column `from` on.
fn put_part(cells: &mut [i32], size: usize, a: usize, from: usize, part: &[i32])
    requires few { size ≤ MAX_ACTIVITIES }
    requires row { a < size }
    requires whole { length cells.old ≡ size * size }
    requires inside { from + length part.now ≤ size }
    ensures long { length cells.new ≡ length cells.old }
    ensures put { cells.new ≡ replaced_at (a * size + from) part.now cells.old }
{
    let start = row_start(size, a) + from;
    cells[start..start + part.len()].copy_from_slice(part);
}

/// A square of weights, row after row in one list of cells. Four bytes a cell, since the greatest
/// weights of walks, and the sums of two, are within i32.
#[derive(Drop, Debug)]
pub(crate) struct Grid {
    size: usize,
    cells: Vec<i32>,
}

impl Model for Grid {
    ghost use Rattle.network.specs.Walk.{Rows};
    ghost use Rattle.longest_path.specs.Matrix.{rows_of, IsGrid};

    ghost Value = { Rows };

    ghost view = { λ s. rows_of s.size s.cells.items };

    ghost invariant = { λ s. IsGrid s.size s.cells.items };
}

impl Grid {
    /// No entry is there.
    fn empty(alloc: Global, size: usize) -> Result<Grid, AllocError>
        requires { size ≤ MAX_ACTIVITIES }
        ensures square { IfOk result (λ grid. IsSquare size grid) }
        ensures none { IfOk result (λ grid. (a b : ℕ) → entry grid a b ≡ None) }
    {
        let cells = vec![in alloc; NOTHING; size * size]?;
        Ok(Grid { size, cells })
    }

    /// No arc: a walk of weight 0 from each vertex to itself, and no other.
    pub(crate) fn without_arcs(alloc: Global, size: usize) -> Result<Grid, AllocError>
        requires { size ≤ MAX_ACTIVITIES }
        ensures { IfOk result (λ grid. IsWithoutArcs size grid) }
    {
        let mut grid = Grid::empty(alloc, size)?;
        for a in 0..size {
            grid.raise(Lag {
                from: a,
                to: a,
                weight: 0,
            });
        }
        Ok(grid)
    }

    /// How many rows there are.
    pub(crate) fn size(&self) -> usize
        ensures value { result ≡ length self.now }
        ensures square { IsSquare (length self.now) self.now }
        ensures few { length self.now ≤ MAX_ACTIVITIES }
    {
        self.size
    }

    /// The entry of row `a` and column `b`.
    pub(crate) fn get(&self, a: usize, b: usize) -> Option<i64>
        requires row { a < length self.now }
        requires column { b < length self.now }
        ensures { result ≡ entry self.now a b }
    {
        weight(self.cells[place(self.size, a, b)])
    }

    /// Takes an arc for the entry of its ends, where it is greater.
    pub(crate) fn raise(&mut self, arc: Lag)
        requires from_vertex { arc.from < length self.old }
        requires to_vertex { arc.to < length self.old }
        requires light { IsWithin MAX_LAG_WEIGHT arc.weight }
        ensures square { IsSquare (length self.old) self.new }
        ensures raised { IsRaised arc self.old self.new }
    {
        let at = place(self.size, arc.from, arc.to);
        self.cells[at] = better(self.cells[at], arc.weight as i32);
    }

    /// Copies a row.
    pub(crate) fn copy_row(&self, a: usize, row: &mut [i32])
        requires row { a < length self.now }
        requires long { length row.old ≡ length self.now }
        ensures { IsRow a self.now row.new }
    {
        row.copy_from_slice(row_cells(self.cells.as_slice(), self.size, a));
    }

    /// The cells of a row.
    pub(crate) fn row(&self, a: usize) -> &[i32]
        requires row { a < length self.now }
        ensures { IsRow a self.now result.now }
    {
        row_cells(self.cells.as_slice(), self.size, a)
    }

    /// Row `a` becomes other cells, from column `from` on.
    pub(crate) fn put_row(&mut self, a: usize, from: usize, part: &[i32])
        requires row { a < length self.old }
        requires inside { from + length part.now ≤ length self.old }
        ensures { self.new ≡ slice_set self.old a (written_at from part.now (slice_index_or self.old a [])) }
    {
        let size = self.size;
        put_part(self.cells.as_mut_slice(), size, a, from, part);
    }

    /// Row `a` takes the way that begins with a walk of weight `first` and goes on by `via`, from
    /// column `from` on.
    pub(crate) fn relax_row(&mut self, a: usize, from: usize, first: i64, via: &[i32])
        requires row { a < length self.old }
        requires inside { from + length via.now ≤ length self.old }
        requires small { IsWithin MAX_FIRST_WEIGHT first }
        requires fits { HasSmallSums first via.now }
        ensures square { IsSquare (length self.old) self.new }
        ensures relaxed { IsRelaxed a first (placed_at from via.now) self.old self.new }
    {
        let size = self.size;
        relax_part(self.cells.as_mut_slice(), size, a, from, first as i32, via);
    }

    /// A copy with cells of its own.
    pub(crate) fn try_copy(&self, alloc: Global) -> Result<Grid, AllocError>
        ensures { IfOk result (λ grid. grid ≡ self.now) }
    {
        let cells = Vec::from_slice(alloc, self.cells.as_slice())?;
        Ok(Grid {
            size: self.size,
            cells,
        })
    }
}
