//! The rows and the columns of a matrix as tables.

ghost use Rattle.std.specs.Prelude.{◌≡◌, ◌<◌, length, map, IfOk};
ghost use Rattle.std.specs.List.{range_with_len};
ghost use Rattle.longest_path.specs.Matrix.{IsMatrix};
ghost use Rattle.lemma_proof.specs.Tables.{cell, row_cells, column_cells};

use longest_path::Matrix;
use std::alloc::{AllocError, Global};

/// The weight of an entry that is there, and 0 for one that isn't.
fn cell(matrix: &Matrix, a: usize, b: usize) -> i32
    requires from_activity { a < length matrix.now }
    requires to_activity { b < length matrix.now }
    ensures { result ≡ cell matrix.now a b }
{
    match matrix.get(a, b) {
        Some(weight) => weight as i32,
        None => 0,
    }
}

/// A row of a matrix.
fn row(alloc: Global, matrix: &Matrix, a: usize) -> Result<Vec<i32>, AllocError>
    requires { a < length matrix.now }
    ensures { IfOk result (λ cells. cells.items ≡ row_cells matrix.now a) }
{
    let mut cells = Vec::with_capacity(alloc, matrix.activity_count())?;
    for b in 0..matrix.activity_count() {
        cells.push(cell(matrix, a, b))?;
    }
    Ok(cells)
}

/// A column of a matrix.
fn column(alloc: Global, matrix: &Matrix, b: usize) -> Result<Vec<i32>, AllocError>
    requires { b < length matrix.now }
    ensures { IfOk result (λ cells. cells.items ≡ column_cells matrix.now b) }
{
    let mut cells = Vec::with_capacity(alloc, matrix.activity_count())?;
    for a in 0..matrix.activity_count() {
        cells.push(cell(matrix, a, b))?;
    }
    Ok(cells)
}

/// The rows of a matrix.
pub(crate) fn rows(alloc: Global, matrix: &Matrix) -> Result<Vec<Vec<i32>>, AllocError>
    ensures rows { IfOk result (λ table. map (λ cells. cells.items) table.items ≡
        map (row_cells matrix.now) (range_with_len 0 (length matrix.now))) }
    ensures law { IsMatrix matrix.now }
{
    let mut table = Vec::with_capacity(alloc, matrix.activity_count())?;
    for a in 0..matrix.activity_count() {
        table.push(row(alloc, matrix, a)?)?;
    }
    Ok(table)
}

/// The columns of a matrix.
pub(crate) fn columns(alloc: Global, matrix: &Matrix) -> Result<Vec<Vec<i32>>, AllocError>
    ensures { IfOk result (λ table. map (λ cells. cells.items) table.items ≡
        map (column_cells matrix.now) (range_with_len 0 (length matrix.now))) }
{
    let mut table = Vec::with_capacity(alloc, matrix.activity_count())?;
    for b in 0..matrix.activity_count() {
        table.push(column(alloc, matrix, b)?)?;
    }
    Ok(table)
}
