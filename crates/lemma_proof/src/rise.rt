//! Weights from 0 that rise by arcs, beside weights back to 0.

ghost use Rattle.std.specs.Prelude.{◌≡◌, ◌<◌, ◌≤ℤ◌, ◌<ℤ◌, ◌∷◌, [], length};
ghost use Rattle.std.specs.Bool.{MatchBool};
ghost use Rattle.std.specs.List.{All};
ghost use Rattle.network.specs.Problem.{IsWithin};
ghost use Rattle.network.specs.Schedule.{start};
ghost use Rattle.network.specs.declared.limits.TheConstants.{MAX_WALK_WEIGHT};
ghost use Rattle.lemma_proof.specs.Heads.{IsLight, IsTable, table_rows};
ghost use Rattle.lemma_proof.specs.Rising.{AreThereAndBack, HaveRisen, IsPassed, IsRaised, IsRaisedBy, IsRisenBy, MeetsAllArcs};

use crate::raise::raise;
use network::Lag;

/// The weight of an activity.
pub(crate) fn weight_at(weights: &[i32], i: usize) -> i64
    requires { i < length weights.now }
    ensures { result ≡ start weights.now i }
{
    weights[i] as i64
}

/// Whether one weight is greater than another.
pub(crate) fn exceeds(weight: i64, other: i64) -> bool
    ensures { MatchBool result (other <ℤ weight) (weight ≤ℤ other) }
{
    weight > other
}

/// Raises the weights by the way to an activity and on by its row.
fn raise_to(there: &mut [i32], table: &[Vec<i32>], to: usize, way: i64)
    requires table { IsTable (table_rows table.now) }
    requires long { length there.old ≡ length (table_rows table.now) }
    requires to_activity { to < length (table_rows table.now) }
    requires small { IsWithin MAX_WALK_WEIGHT way }
    ensures { IsRaised (table_rows table.now) to way there.old there.new }
{
    raise(there, way as i32, table[to].as_slice());
}

/// Raises the weight of an arc's end to the way over the arc, and what follows by the matrix, unless the weights meet
/// the arc. Whether it did; none where the way and back to 0 weighs more than 0.
fn raise_by(there: &mut [i32], back: &[i32], table: &[Vec<i32>], arc: Lag) -> Option<bool>
    requires table { IsTable (table_rows table.now) }
    requires both { AreThereAndBack (table_rows table.now) there.old back.now }
    requires light { IsLight (length (table_rows table.now)) arc }
    ensures risen { HaveRisen (table_rows table.now) (arc ∷ []) back.now there.old there.new }
    ensures raised { IsRaisedBy arc back.now there.old there.new result }
{
    let way = weight_at(there, arc.from) + arc.weight;
    if !exceeds(way, weight_at(there, arc.to)) {
        return Some(false);
    }
    if exceeds(way + weight_at(back, arc.to), 0) {
        return None;
    }
    raise_to(there, table, arc.to, way);
    Some(true)
}

/// Raises the weights by each arc in turn. Whether one did; none where a way over one and back to 0 weighs more than 0.
fn pass(there: &mut [i32], back: &[i32], table: &[Vec<i32>], arcs: &[Lag]) -> Option<bool>
    requires table { IsTable (table_rows table.now) }
    requires both { AreThereAndBack (table_rows table.now) there.old back.now }
    requires light { All (IsLight (length (table_rows table.now))) arcs.now }
    ensures risen { HaveRisen (table_rows table.now) arcs.now back.now there.old there.new }
    ensures passed { IsPassed arcs.now back.now there.new result }
{
    let mut raised = false;
    for arc in arcs {
        if raise_by(there, back, table, *arc)? {
            raised = true;
        }
    }
    Some(raised)
}

/// Passes over the arcs until a pass raises nothing, but no oftener than once more than there are arcs. Whether the
/// weights meet all arcs then; none where a way over one and back to 0 weighs more than 0.
///
/// So many passes are enough unless a closed walk has positive weight.
fn settle(there: &mut [i32], back: &[i32], table: &[Vec<i32>], arcs: &[Lag]) -> Option<bool>
    requires table { IsTable (table_rows table.now) }
    requires both { AreThereAndBack (table_rows table.now) there.old back.now }
    requires light { All (IsLight (length (table_rows table.now))) arcs.now }
    ensures risen { HaveRisen (table_rows table.now) arcs.now back.now there.old there.new }
    ensures settled { MeetsAllArcs arcs.now back.now there.new result }
{
    for _pass in 0..arcs.len() + 1 {
        if !pass(there, back, table, arcs)? {
            return Some(true);
        }
    }
    Some(false)
}

/// Raises the weights by an arc, and then by the others as long as they raise some. Whether the weights meet all arcs
/// then, if they met the others before; none where a way over one and back to 0 weighs more than 0.
pub(crate) fn rise(
    there: &mut [i32],
    back: &[i32],
    table: &[Vec<i32>],
    arcs: &[Lag],
    arc: Lag,
) -> Option<bool>
    requires table { IsTable (table_rows table.now) }
    requires both { AreThereAndBack (table_rows table.now) there.old back.now }
    requires light { IsLight (length (table_rows table.now)) arc }
    requires arcs_light { All (IsLight (length (table_rows table.now))) arcs.now }
    ensures risen { HaveRisen (table_rows table.now) (arc ∷ arcs.now) back.now there.old there.new }
    ensures told { IsRisenBy arc arcs.now back.now there.old there.new result }
{
    if raise_by(there, back, table, arc)? {
        settle(there, back, table, arcs)
    } else {
        Some(true)
    }
}
