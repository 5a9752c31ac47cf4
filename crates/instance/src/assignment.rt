//! Assignments of columns to rows at least cost, by shortest ways (the Hungarian method of Kuhn 1955; Jonker and Volgenant
//! 1987).

use crate::{Result, Table};
use std::alloc::Global;

/// A square table of costs.
#[derive(Drop)]
pub struct Costs {
    count: u32,
    values: Table<i64>,
    /// What no assignment takes.
    pub far: i64,
}

impl Costs {
    /// A table of so many rows and columns, where nothing fits yet.
    pub fn new(alloc: Global, count: u32, far: i64) -> Result<Costs> {
        let places = (count as usize).wrapping_mul(count as usize);
        let values = Table::filled(alloc, places, far, far)?;
        Ok(Costs { count, values, far })
    }

    /// How many rows and columns there are.
    pub fn count(&self) -> u32 {
        self.count
    }

    /// The cost of a row and a column.
    pub fn at(&self, row: u32, column: u32) -> i64 {
        self.values[row.wrapping_mul(self.count).wrapping_add(column)]
    }

    /// A row and a column have another cost.
    pub fn set(&mut self, row: u32, column: u32, cost: i64) {
        self.values[row.wrapping_mul(self.count).wrapping_add(column)] = cost;
    }

    /// The least of a row's costs, but its own, less these of the columns.
    pub(crate) fn left_of_row(&self, row: u32, columns: &Table<i64>) -> i64 {
        let others = (0..self.count).filter(|column: &u32| *column != row);
        let left = others.map(|column| self.at(row, column).wrapping_sub(columns[column]));
        left.min().unwrap_or(0)
    }

    /// The least of a column's costs, but its own, less these of the rows.
    pub(crate) fn left_of_column(&self, column: u32, rows: &Table<i64>) -> i64 {
        let others = (0..self.count).filter(|row: &u32| *row != column);
        let left = others.map(|row| self.at(row, column).wrapping_sub(rows[row]));
        left.min().unwrap_or(0)
    }
}

/// No row.
const NONE: u32 = u32::MAX;

/// A least assignment, with duals: that of a row and that of a column add up to their cost at most, and to just their cost
/// where one is assigned to the other.
#[derive(Drop)]
pub struct Assignment {
    count: u32,
    pub rows: Table<i64>,
    pub columns: Table<i64>,
    /// By column its row. Behind them is a place for a row that has no column yet.
    row_of: Table<u32>,
    /// By row.
    is_assigned: Table<bool>,
    /// By column, of the ways from a row: the column before it, how much longer the way is than by the duals, and whether it
    /// is the shortest.
    before: Table<u32>,
    excess: Table<i64>,
    is_reached: Table<bool>,
}

/// Values of one table for those of another one.
fn copy<T: Copy>(to: &mut Table<T>, from: &Table<T>) {
    for (old, new) in to.items.iter_mut().zip(&from.items) {
        *old = *new;
    }
}

/// All places have a value.
fn set_all<T: Copy>(table: &mut Table<T>, value: T) {
    for old in table.items.iter_mut() {
        *old = value;
    }
}

impl Assignment {
    /// No column is assigned, and all duals are 0.
    pub fn new(alloc: Global, count: u32) -> Result<Assignment> {
        let places = (count as usize).saturating_add(1);
        Ok(Assignment {
            count,
            rows: Table::filled(alloc, places, 0, 0)?,
            columns: Table::filled(alloc, places, 0, 0)?,
            row_of: Table::filled(alloc, places, NONE, NONE)?,
            is_assigned: Table::filled(alloc, places, false, false)?,
            before: Table::filled(alloc, places, 0, 0)?,
            excess: Table::filled(alloc, places, 0, 0)?,
            is_reached: Table::filled(alloc, places, false, true)?,
        })
    }

    /// The same assignment as another one of the same size.
    pub fn copy_from(&mut self, other: &Assignment) {
        copy(&mut self.rows, &other.rows);
        copy(&mut self.columns, &other.columns);
        copy(&mut self.row_of, &other.row_of);
    }

    /// The least assignment for costs that are nowhere below the duals. What is assigned already stays if its cost is still
    /// that of the duals.
    pub fn solve(&mut self, costs: &Costs) {
        self.free_lost(costs);
        for row in 0..self.count {
            if !self.is_assigned[row] {
                self.assign(costs, row);
            }
        }
    }

    /// The sum of the duals, which is the least cost.
    pub fn sum(&self) -> i64 {
        let duals = (0..self.count).map(|place| self.dual_sum(place, place));
        duals.fold(0, i64::wrapping_add)
    }

    /// The duals of a row and of a column together.
    pub fn dual_sum(&self, row: u32, column: u32) -> i64 {
        self.rows[row].wrapping_add(self.columns[column])
    }

    /// Takes columns from rows whose costs rose.
    fn free_lost(&mut self, costs: &Costs) {
        set_all(&mut self.is_assigned, false);
        for column in 0..self.count {
            let row = self.row_of[column];
            let stays = row != NONE && costs.at(row, column) == self.dual_sum(row, column);
            if stays {
                self.is_assigned[row] = true;
            } else {
                self.row_of[column] = NONE;
            }
        }
    }

    /// A row gets a column by the shortest way; the rows on it get their next ones.
    fn assign(&mut self, costs: &Costs, row: u32) {
        set_all(&mut self.excess, i64::MAX);
        set_all(&mut self.is_reached, false);
        let mut column = self.count;
        self.row_of[column] = row;
        for _ in 0..self.count {
            column = self.reach_next(costs, column);
            if self.row_of[column] == NONE {
                break;
            }
        }
        self.shift_rows(column);
    }

    /// The nearest column that was not reached yet, after a reached one. The duals change so that its way fits them.
    fn reach_next(&mut self, costs: &Costs, from: u32) -> u32 {
        self.is_reached[from] = true;
        let row = self.row_of[from];
        let (mut least, mut nearest) = (i64::MAX, from);
        for column in 0..self.count {
            if self.is_reached[column] {
                continue;
            }
            let excess = costs
                .at(row, column)
                .wrapping_sub(self.dual_sum(row, column));
            if excess < self.excess[column] {
                (self.excess[column], self.before[column]) = (excess, from);
            }
            if self.excess[column] < least {
                (least, nearest) = (self.excess[column], column);
            }
        }
        self.shift_duals(least);
        nearest
    }

    /// The ways that were reached get so much longer by the duals.
    fn shift_duals(&mut self, by: i64) {
        for column in 0..=self.count {
            if self.is_reached[column] {
                let row = self.row_of[column];
                self.rows[row] = self.rows[row].wrapping_add(by);
                self.columns[column] = self.columns[column].wrapping_sub(by);
            } else if self.excess[column] < i64::MAX {
                self.excess[column] = self.excess[column].wrapping_sub(by);
            }
        }
    }

    /// Each column on the way to one gets the row of the column before it.
    fn shift_rows(&mut self, last: u32) {
        let mut column = last;
        for _ in 0..=self.count {
            if column == self.count {
                break;
            }
            let before = self.before[column];
            self.row_of[column] = self.row_of[before];
            column = before;
        }
    }
}
