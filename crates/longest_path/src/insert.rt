//! Takes the walks over a new arc into a matrix.

ghost use Rattle.std.specs.Prelude.{◌≡◌, Some, IfSome, ◌<◌, ℕ, ℤ, pos, ◌+ℤ◌, ◌≤ℤ◌, length, FitsSigned, IsTrue, OnOk, OnErr};
ghost use Rattle.network.specs.declared.limits.TheConstants.{MAX_LAG_WEIGHT, MAX_WALK_WEIGHT};
ghost use Rattle.longest_path.specs.declared.grid.TheConstants.{MAX_FIRST_WEIGHT};
ghost use Rattle.network.specs.Problem.{IsWithin};
ghost use Rattle.longest_path.specs.Matrix.{greater, joined, Reaches, IfSomeAbove, IsSquare, placed_at, IsRowOver};
ghost use Rattle.std.specs.Int.{w64};
ghost use Rattle.std.specs.Bool.{MatchBool};
ghost use Rattle.network.specs.Walk.{entry};
ghost use Rattle.longest_path.specs.Insert.{weight_over, IsFirstOver, IsEntryOver, IsReadyRow};
ghost use Rattle.longest_path.specs.Saved.{LeadsBackIfKept, MayGoOver};

use crate::columns::gaining_columns;
use crate::grid::{Grid, MAX_FIRST_WEIGHT};
use crate::saves::Saves;
use network::{Lag, MAX_LAG_WEIGHT, MAX_WALK_WEIGHT};
use std::alloc::AllocError;

/// What a way over an arc weighs at most: two walks, and an arc counted twice.
pub const MAX_WAY_WITH: i64 = MAX_FIRST_WEIGHT + MAX_FIRST_WEIGHT;

/// The weight of a walk and then an arc.
pub fn then_arc(weight: Option<i64>, arc: i64) -> Option<i64>
    requires weight { IfSome weight (λ x. IsWithin MAX_WALK_WEIGHT x) }
    requires arc { IsWithin MAX_LAG_WEIGHT arc }
    ensures sum { result ≡ joined weight (Some arc) }
    ensures small { IfSome result (λ x. IsWithin MAX_FIRST_WEIGHT x) }
{
    match weight {
        Some(weight) => Some(weight + arc),
        None => None,
    }
}

/// The weight of a walk, or of the way that has these two parts where that is greater.
pub fn or_way(weight: Option<i64>, first: Option<i64>, last: Option<i64>) -> Option<i64>
    requires weight { IfSome weight (λ x. IsWithin MAX_WALK_WEIGHT x) }
    requires first { IfSome first (λ x. IsWithin MAX_FIRST_WEIGHT x) }
    requires last { IfSome last (λ x. IsWithin MAX_FIRST_WEIGHT x) }
    ensures value { result ≡ greater weight (joined first last) }
    ensures small { IfSome result (λ x. IsWithin MAX_WAY_WITH x) }
{
    let (Some(first), Some(last)) = (first, last) else {
        return weight;
    };
    let way = first + last;
    match weight {
        Some(weight) if weight >= way => Some(weight),
        _ => Some(way),
    }
}

/// The weight of one walk after another.
pub(crate) fn sum(x: Option<i64>, y: Option<i64>) -> Option<i64>
    requires { IfSome x (λ x. IfSome y (λ y. FitsSigned w64 (x +ℤ y))) }
    ensures { result ≡ joined x y }
{
    match (x, y) {
        (Some(x), Some(y)) => Some(x + y),
        _ => None,
    }
}

/// Whether an entry is there and at least `weight`.
pub(crate) fn is_reached(weight: i64, entry: Option<i64>) -> bool
    ensures { MatchBool result (Reaches weight entry) (Reaches weight entry → ⊥) }
{
    match entry {
        Some(other) => weight <= other,
        None => false,
    }
}

/// Whether the entry is there and above 0.
pub(crate) fn is_positive(entry: Option<i64>) -> bool
    ensures { MatchBool result (IfSomeAbove entry) ((w : ℤ) → entry ≡ Some w → w ≤ℤ pos 0) }
{
    match entry {
        Some(weight) => weight > 0,
        None => false,
    }
}

/// The weight of the way from `a` over an arc. None if the arc's end gains nothing by it: then no other entry of the
/// row does.
pub(crate) fn first_over(grid: &Grid, a: usize, arc: Lag) -> Option<i64>
    requires row { a < length grid.now }
    requires from_vertex { arc.from < length grid.now }
    requires to_vertex { arc.to < length grid.now }
    requires light { IsWithin MAX_WALK_WEIGHT arc.weight }
    requires entry_fits { (x : ℤ) → entry grid.now a arc.from ≡ Some x → IsWithin MAX_WALK_WEIGHT x }
    ensures { IsFirstOver arc grid.now a result }
{
    let first = grid.get(a, arc.from)? + arc.weight;
    if is_reached(first, grid.get(a, arc.to)) {
        None
    } else {
        Some(first)
    }
}

/// Row `a` takes the way over an arc and on by `via`, from column `from` on. What it may change there is saved before,
/// if it is kept.
fn go_over_row(
    grid: &mut Grid,
    a: usize,
    arc: Lag,
    from: usize,
    via: &[i32],
    saves: &mut Saves,
    keeps: bool,
) -> Result<(), AllocError>
    requires ready { IsReadyRow a arc from via.now grid.old }
    requires width { saves.old.width ≡ length grid.old }
    ensures square { IsSquare (length grid.old) grid.new }
    ensures width { saves.new.width ≡ saves.old.width }
    ensures over { OnOk result (IsRowOver a (weight_over arc grid.old a) (placed_at from via.now) grid.old grid.new) }
    ensures kept { LeadsBackIfKept keeps saves.old saves.new grid.old grid.new }
    ensures memory { OnErr result (IsTrue keeps) }
{
    let Some(first) = first_over(grid, a, arc) else {
        return Ok(());
    };
    if keeps {
        saves.push(a, from, &grid.row(a)[from..from + via.len()])?;
    }
    grid.relax_row(a, from, first, via);
    Ok(())
}

/// Each row takes the way over an arc, where that is greater. `via` is a workspace for a row. Where there is no memory for
/// what is saved, nothing changes.
pub(crate) fn go_over(
    grid: &mut Grid,
    via: &mut [i32],
    arc: Lag,
    saves: &mut Saves,
    keeps: bool,
) -> Result<(), AllocError>
    requires { MayGoOver arc grid.old via.old saves.old }
    ensures size { length grid.new ≡ length grid.old }
    ensures width { saves.new.width ≡ saves.old.width }
    ensures square { OnOk result (IsSquare (length grid.old) grid.new) }
    ensures over { OnOk result ((a b : ℕ) → IsEntryOver arc grid.old a b (entry grid.new a b)) }
    ensures kept { LeadsBackIfKept keeps saves.old saves.new grid.old grid.new }
    ensures memory { OnErr result (IsTrue keeps) }
    ensures same_grid { OnErr result (grid.new ≡ grid.old) }
    ensures same_saves { OnErr result (saves.new ≡ saves.old) }
{
    let count = saves.len();
    grid.copy_row(arc.to, via);
    let (from, end) = gaining_columns(grid, arc, via);
    for a in 0..grid.size() {
        if let Err(error) = go_over_row(grid, a, arc, from, &via[from..end], saves, keeps) {
            saves.undo(count, grid);
            return Err(error);
        }
    }
    Ok(())
}
