//! The matrix of all arcs, where heads and tails don't show enough.

ghost use Rattle.std.specs.Prelude.{◌≡◌, ◌<◌, length, IfOk, OnErr};
ghost use Rattle.std.specs.List.{All};
ghost use Rattle.longest_path.specs.Insert.{FillsRows};
ghost use Rattle.longest_path.specs.Matrix.{IsFull};
ghost use Rattle.lemma_proof.specs.Heads.{IsLight};
ghost use Rattle.lemma_proof.specs.Block.{IsMatrixWith, IsInserted};

use longest_path::{MarkedMatrix, Matrix, PathFault};
use network::Lag;
use std::alloc::{AllocError, Global};

/// Adds an arc with which every activity reaches every other. Whether it closes a walk of positive weight, and is not
/// added.
pub fn take(matrix: &mut MarkedMatrix, arc: Lag) -> Result<bool, AllocError>
    requires from_activity { arc.from < length matrix.old.rows }
    requires to_activity { arc.to < length matrix.old.rows }
    requires fills { FillsRows arc matrix.old.rows }
    ensures size { length matrix.new.rows ≡ length matrix.old.rows }
    ensures taken { IfOk result (IsInserted arc matrix.old matrix.new) }
    ensures unchanged { OnErr result (matrix.new ≡ matrix.old) }
{
    match matrix.insert_filling(arc.from, arc.to, arc.weight) {
        Ok(()) => Ok(false),
        Err(PathFault::PositiveCycle { .. }) => Ok(true),
        Err(PathFault::Memory) => Err(AllocError),
    }
}

/// The matrix of the arcs of a matrix and of these more. None if they close a walk of positive weight.
pub fn matrix_with(
    alloc: Global,
    matrix: &Matrix,
    arcs: &[Lag],
) -> Result<Option<MarkedMatrix>, AllocError>
    requires full { IsFull matrix.now }
    requires arcs { All (IsLight (length matrix.now)) arcs.now }
    ensures { IfOk result (IsMatrixWith matrix.now arcs.now) }
{
    prove!(matrix.activity_count() <= 1002);
    let mut with = MarkedMatrix::new(alloc, matrix.try_copy(alloc)?);
    for arc in arcs {
        if take(&mut with, *arc)? {
            return Ok(None);
        }
    }
    Ok(Some(with))
}
