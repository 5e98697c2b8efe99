//! Tables: rows of equal length.
ghost use Rattle.std.specs.Prelude.{◌≡◌, ◌<◌, ℕ, length, IfOk, replicate, get_or, slice_set, []};
ghost use Rattle.cb_plan.specs.PlanTables.{cell, cell_set, IsTable};

use std::alloc::{AllocError, Global};
use std::marker::Model;

/// One row of a table.
#[derive(Drop)]
struct Row<T> {
    cells: Vec<T>,
}

impl<T> Model for Row<T> {
    ghost use Rattle.std.specs.Prelude.{List};

    ghost Value = { List T };

    ghost view = { λ row. row.cells.items };
}

impl<T: Copy> Row<T> {
    /// A row with one value everywhere.
    fn new(alloc: Global, cols: usize, blank: T) -> Result<Self, AllocError>
        ensures { IfOk result (λ row. row ≡ replicate cols blank) }
    {
        let mut cells = Vec::with_capacity(alloc, cols)?;
        for _ in 0..cols {
            cells.push(blank)?;
        }
        Ok(Row { cells })
    }

    /// The value in a column.
    fn get(&self, col: usize) -> T
        requires { col < length self.now }
        ensures { result ≡ get_or self.now col result }
    {
        self.cells[col]
    }

    /// Puts a value into a column.
    fn set(&mut self, col: usize, value: T)
        requires { col < length self.old }
        ensures { self.new ≡ slice_set self.old col value }
    {
        self.cells[col] = value;
    }
}

/// Rows of equal length.
#[derive(Drop)]
pub(crate) struct Table<T> {
    rows: Vec<Row<T>>,
}

impl<T> Model for Table<T> {
    ghost use Rattle.std.specs.Prelude.{List};

    ghost Value = { List (List T) };

    ghost view = { λ t. t.rows.items };
}

impl<T: Copy> Table<T> {
    /// A table with one value everywhere.
    pub(crate) fn new(alloc: Global, rows: usize, cols: usize, blank: T) -> Result<Self, AllocError>
        ensures { IfOk result (λ t. t ≡ replicate rows (replicate cols blank)) }
    {
        let mut table = Vec::new(alloc);
        for _ in 0..rows {
            table.push(Row::new(alloc, cols, blank)?)?;
        }
        Ok(Table { rows: table })
    }

    /// The value in a row and a column.
    pub(crate) fn get(&self, row: usize, col: usize) -> T
        requires row { row < length self.now }
        requires col { col < length (get_or self.now row []) }
        ensures { result ≡ cell result self.now row col }
    {
        self.rows[row].get(col)
    }

    /// Puts a value into a row and a column.
    pub(crate) fn set(&mut self, row: usize, col: usize, value: T)
        requires row { row < length self.old }
        requires col { col < length (get_or self.old row []) }
        ensures { self.new ≡ cell_set self.old row col value }
    {
        self.rows[row].set(col, value);
    }
}
