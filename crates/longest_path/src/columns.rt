//! The columns in which rows gain by the way over one arc. They are among those in which the row of the arc's start
//! gains.

ghost use Rattle.std.specs.Prelude.{◌≡◌, ◌<◌, ◌≤◌, ℕ, length};
ghost use Rattle.std.specs.Bool.{MatchBool};
ghost use Rattle.longest_path.specs.Matrix.{IsRow, GainsNothingAt, HasSmallSums};
ghost use Rattle.longest_path.specs.Insert.{IsReady, StartGainsNothing};

use crate::grid::{Grid, sum};
use network::Lag;

/// Whether column `b` of a row gains by the way that begins with a walk of weight `first` and goes on
/// by `via`.
fn gains(row: &[i32], first: i32, via: &[i32], b: usize) -> bool
    requires column { b < length row.now }
    requires wide { length row.now ≡ length via.now }
    requires fits { HasSmallSums first via.now }
    ensures { MatchBool result (GainsNothingAt first via.now row.now b → ⊥) (GainsNothingAt first via.now row.now b) }
{
    row[b] < sum(first, via[b])
}

/// The first column that gains, and the row's length where none does.
fn first_gain(row: &[i32], first: i32, via: &[i32]) -> usize
    requires wide { length row.now ≡ length via.now }
    requires fits { HasSmallSums first via.now }
    ensures inside { result ≤ length row.now }
    ensures before { (b : ℕ) → b < result → GainsNothingAt first via.now row.now b }
{
    for b in 0..row.len() {
        if gains(row, first, via, b) {
            return b;
        }
    }
    row.len()
}

/// Where the columns from `from` on that gain end, and `from` where none gains.
fn end_of_gains(row: &[i32], first: i32, via: &[i32], from: usize) -> usize
    requires wide { length row.now ≡ length via.now }
    requires fits { HasSmallSums first via.now }
    requires low { from ≤ length row.now }
    ensures low { from ≤ result }
    ensures inside { result ≤ length row.now }
    ensures after { (b : ℕ) → result ≤ b → GainsNothingAt first via.now row.now b }
{
    let mut end = row.len();
    while from < end && !gains(row, first, via, end - 1) {
        end -= 1;
    }
    end
}

/// The first column that gains in the row of an arc's start, and the one after the last. `via` is the
/// row of the arc's end.
pub(crate) fn gaining_columns(grid: &Grid, arc: Lag, via: &[i32]) -> (usize, usize)
    requires ready { IsReady arc grid.now }
    requires via { IsRow arc.to grid.now via.now }
    ensures low { result.0 ≤ result.1 }
    ensures inside { result.1 ≤ length grid.now }
    ensures before { (b : ℕ) → b < result.0 → StartGainsNothing arc grid.now b }
    ensures after { (b : ℕ) → result.1 ≤ b → StartGainsNothing arc grid.now b }
{
    let row = grid.row(arc.from);
    let weight = arc.weight as i32;
    let from = first_gain(row, weight, via);
    let end = end_of_gains(row, weight, via, from);
    (from, end)
}
