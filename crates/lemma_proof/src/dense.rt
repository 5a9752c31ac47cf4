//! The matrix of all arcs of a block.

ghost use Rattle.std.specs.Prelude.{◌≡◌, length, IfOk, IfSome, OnErr, OnOk};
ghost use Rattle.longest_path.specs.Matrix.{IsFull};
ghost use Rattle.lemma_proof.specs.Heads.{IsLight};
ghost use Rattle.lemma_proof.specs.Block.{IsMatrixWith, IsInserted};
ghost use Rattle.lemma_proof.specs.Bench.{IsWide};

use crate::{Block, matrix_with, take};
use longest_path::{MarkedMatrix, Matrix};
use network::Lag;
use std::alloc::{AllocError, Global};

/// The matrix of a matrix's arcs and those beside it. None where they close a walk of positive weight.
pub(crate) fn matrix_of_all(
    alloc: Global,
    matrix: &Matrix,
    block: &Block,
) -> Result<Option<MarkedMatrix>, AllocError>
    requires same { block.now.rows ≡ matrix.now }
    requires full { IsFull matrix.now }
    ensures wide { IfOk result (λ found. IfSome found (IsWide (length matrix.now))) }
    ensures with { IfOk result (IsMatrixWith matrix.now block.now.more) }
{
    prove!(matrix.activity_count() <= 1_002);
    prove!(block.activity_count() > 0);
    matrix_with(alloc, matrix, block.more())
}

/// Adds an arc to such a matrix. Whether it closes a walk of positive weight, and is not added.
pub(crate) fn take_arc(dense: &mut MarkedMatrix, arc: Lag) -> Result<bool, AllocError>
    requires wide { IsWide (length dense.old.rows) dense.old }
    requires light { IsLight (length dense.old.rows) arc }
    ensures wide { OnOk result (IsWide (length dense.old.rows) dense.new) }
    ensures taken { IfOk result (IsInserted arc dense.old dense.new) }
    ensures unchanged { OnErr result (dense.new ≡ dense.old) }
{
    prove!(dense.matrix().activity_count() <= 1_002);
    take(dense, arc)
}
