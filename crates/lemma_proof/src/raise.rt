//! Raises a row of weights by a way.

ghost use Rattle.std.specs.Prelude.{◌≡◌, ◌<◌, ◌+ℤ◌, ℕ, length};
ghost use Rattle.std.specs.Int.{int_max};
ghost use Rattle.network.specs.Problem.{IsWithin};
ghost use Rattle.network.specs.Schedule.{start};
ghost use Rattle.network.specs.declared.limits.TheConstants.{MAX_WALK_WEIGHT};

/// Each weight of a row becomes the way of weight `by` and then `via`, where that is greater.
///
/// In this form the loop is compiled to vector code.
pub(crate) fn raise(row: &mut [i32], by: i32, via: &[i32])
    requires wide { length row.old ≡ length via.now }
    requires by { IsWithin MAX_WALK_WEIGHT by }
    requires via { (k : ℕ) → k < length via.now → IsWithin MAX_WALK_WEIGHT (start via.now k) }
    ensures wide { length row.new ≡ length row.old }
    ensures raised { (k : ℕ) → k < length row.old →
        start row.new k ≡ int_max (start row.old k) (by +ℤ start via.now k) }
{
    for k in 0..row.len() {
        row[k] = row[k].max(by + via[k]);
    }
}
