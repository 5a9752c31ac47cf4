//! A table that takes the ways over an arc, in place.

ghost use Rattle.std.specs.Prelude.{◌≡◌, ◌<◌, List, ℤ, [], slice_set, slice_index_or, length};
ghost use Rattle.longest_path.specs.Insert.{ClosesNone, rows_over};
ghost use Rattle.lemma_proof.specs.Heads.{IsLight, IsRowAt, IsTable, cells_of, table_rows};
ghost use Rattle.lemma_proof.specs.Rooting.{HasTakenWay, MayTakeWay};

use crate::raise::raise;
use crate::rise::{exceeds, weight_at};
use network::Lag;

/// Takes for each entry of a row the way over an arc and on by the row of its end, where that is greater.
fn raise_over(row: &mut [i32], via: &[i32], arc: Lag)
    requires { MayTakeWay arc row.old via.now }
    ensures { HasTakenWay arc via.now row.old row.new }
{
    let first = weight_at(row, arc.from) + arc.weight;
    if exceeds(first, weight_at(row, arc.to)) {
        raise(row, first as i32, via);
    }
}

/// The same for a row of a table.
fn raise_row(table: &mut [Vec<i32>], a: usize, via: &[i32], arc: Lag)
    requires row { a < length table.old }
    requires may { MayTakeWay arc (slice_index_or (cells_of table.old) a []) via.now }
    ensures { (new : List ℤ) × (cells_of table.new ≡ slice_set (cells_of table.old) a new)
        × HasTakenWay arc via.now (slice_index_or (cells_of table.old) a []) new }
{
    raise_over(table[a].as_mut_slice(), via, arc);
}

/// Each row of a table takes the way over an arc and on by the row of its end, where that is greater.
pub(crate) fn go_over(table: &mut [Vec<i32>], via: &[i32], arc: Lag)
    requires table { IsTable (table_rows table.old) }
    requires light { IsLight (length (table_rows table.old)) arc }
    requires none { ClosesNone arc (table_rows table.old) }
    requires via { IsRowAt (table_rows table.old) arc.to via.now }
    ensures { table_rows table.new ≡ rows_over arc (table_rows table.old) }
{
    for a in 0..table.len() {
        raise_row(table, a, via, arc);
    }
}
