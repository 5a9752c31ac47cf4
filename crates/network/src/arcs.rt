//! The arcs of a project that its text does not list.

ghost use Rattle.std.specs.Prelude.{◌≡◌, ◌<◌, ◌≤◌, ◌++◌, length, map, OnOk};
ghost use Rattle.std.specs.List.{All, range_with_len};
ghost use Rattle.network.specs.Problem.{start_arc, lasting};

use crate::parts::{Lag, Pair};
use std::alloc::AllocError;

/// Adds the arc from the start to each activity after it, up to the end.
pub(crate) fn push_start_arcs(arcs: &mut Vec<Lag>, end: usize) -> Result<(), AllocError>
    ensures { OnOk result (arcs.new.items ≡ arcs.old.items ++ map start_arc (range_with_len 1 end)) }
{
    for i in 0..end {
        arcs.push(Lag {
            from: 0,
            to: i + 1,
            weight: 0,
        })?;
    }
    Ok(())
}

/// Adds the arc from each activity before the end to the end.
pub(crate) fn push_end_arcs(
    arcs: &mut Vec<Lag>,
    durations: &[i64],
    end: usize,
) -> Result<(), AllocError>
    requires { end ≤ length durations.now }
    ensures { OnOk result (arcs.new.items
        ≡ arcs.old.items ++ map (λ i. lasting durations.now i end) (range_with_len 0 end)) }
{
    for i in 0..end {
        arcs.push(Lag {
            from: i,
            to: end,
            weight: durations[i],
        })?;
    }
    Ok(())
}

/// Adds the arc that each pair stands for.
pub(crate) fn push_pair_arcs(
    arcs: &mut Vec<Lag>,
    durations: &[i64],
    pairs: &[Pair],
) -> Result<(), AllocError>
    requires { All (λ q. q.before < length durations.now) pairs.now }
    ensures { OnOk result (arcs.new.items
        ≡ arcs.old.items ++ map (λ q. lasting durations.now q.before q.after) pairs.now) }
{
    for pair in pairs {
        arcs.push(Lag {
            from: pair.before,
            to: pair.after,
            weight: durations[pair.before],
        })?;
    }
    Ok(())
}
