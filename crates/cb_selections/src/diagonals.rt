//! The diagonal of a block as a column, and a column as the diagonal of a block.
ghost use Rattle.std.specs.Prelude.{◌≡◌, ◌≢◌, ℕ, ◌<◌, ◌≤◌, ◌++◌, length, min, All, AllPairs, IfOk, OnOk};
ghost use Rattle.cb_semirings.specs.Arithmetic.{IsValue};
ghost use Rattle.cb_matrix.specs.Combined.{stored};
ghost use Rattle.cb_matrix.specs.Sparse.{IsMatrix, IsBefore, IsInside};
ghost use Rattle.cb_matrix.specs.Values.{empty_matrix};
ghost use Rattle.cb_dcsc.specs.Columns.{row_value, with_entries};
ghost use Rattle.cb_operations.specs.SelectionAnswers.{diagonal_of, diagonal_matrix};

use crate::shape_of;
use cb_dcsc::Block;
use cb_matrix::Entry;
use cb_semirings::Semiring;
use std::alloc::{AllocError, Global};

/// The main diagonal of a block, as a block of one column with as many rows as the diagonal has places.
///
/// Costs a binary search for each column that has entries.
pub fn diagonal<S: Semiring>(alloc: Global, block: &Block<S>) -> Result<Block<S>, AllocError>
    ensures { IfOk result (λ column. column ≡ diagonal_of S.arithmetic block.now) }
{
    let shape = block.shape();
    let side = shape.rows().min(shape.cols());
    let mut out = Block::empty(alloc, shape_of(side, 1));
    push_diagonal(&mut out, block)?;
    Ok(out)
}

/// The square block with the entries of a column on its main diagonal.
///
/// Costs a few instructions for each entry.
pub fn diagonal_matrix<S: Semiring>(
    alloc: Global,
    column: &Block<S>,
) -> Result<Block<S>, AllocError>
    requires { column.now.shape.cols ≡ 1 }
    ensures { IfOk result (λ square. square ≡ diagonal_matrix S.arithmetic column.now) }
{
    let side = column.shape().rows();
    let mut out = Block::empty(alloc, shape_of(side, side));
    out.reserve(column.len())?;
    push_places(&mut out, column)?;
    Ok(out)
}

/// Stores the diagonal of a block in an empty column.
fn push_diagonal<S: Semiring>(out: &mut Block<S>, block: &Block<S>) -> Result<(), AllocError>
    requires matrix { IsMatrix S.arithmetic block.now }
    requires out_matrix { IsMatrix S.arithmetic out.old }
    requires empty { out.old ≡ empty_matrix (record { rows = min block.now.shape.rows block.now.shape.cols; cols = 1 }) }
    ensures { OnOk result (out.new ≡ diagonal_of S.arithmetic block.now) }
{
    let columns = block.column_numbers();
    for n in 0..columns.len() {
        let (rows, values) = block.nth_column(n);
        let value = value_at::<S>(rows, values, columns[n]);
        push_value(out, columns[n], value)?;
    }
    Ok(())
}

/// Stores a value in a row of a column, below all the others, unless it is zero.
fn push_value<S: Semiring>(out: &mut Block<S>, row: u32, value: u64) -> Result<(), AllocError>
    requires matrix { IsMatrix S.arithmetic out.old }
    requires column { out.old.shape.cols ≡ 1 }
    requires inside { value ≢ S.arithmetic.zero → row < out.old.shape.rows }
    requires after { All (λ e. IsBefore e (record { row = row; column = 0; value = value })) out.old.entries }
    requires value { IsValue S.arithmetic value }
    ensures entries { OnOk result (out.new ≡ with_entries out.old (stored S.arithmetic.zero (record { row = row; column = 0; value = value }))) }
    ensures matrix { OnOk result (IsMatrix S.arithmetic out.new) }
{
    if value != S::zero() {
        out.push(Entry {
            row,
            column: 0,
            value,
        })?;
    }
    Ok(())
}

/// The value at a row of a column, by a binary search.
fn value_at<S: Semiring>(rows: &[u32], values: &[u64], row: u32) -> u64
    requires lengths { length values.now ≡ length rows.now }
    requires order { AllPairs (λ i j. i < j) rows.now }
    ensures { result ≡ row_value S.arithmetic.zero rows.now values.now row }
{
    match rows.binary_search(&row) {
        Ok(n) => values[n],
        Err(_) => S::zero(),
    }
}

/// Stores the entries of a column on the diagonal of an empty square block.
fn push_places<S: Semiring>(out: &mut Block<S>, column: &Block<S>) -> Result<(), AllocError>
    requires matrix { IsMatrix S.arithmetic column.now }
    requires out_matrix { IsMatrix S.arithmetic out.old }
    requires empty { out.old ≡ empty_matrix (record { rows = column.now.shape.rows; cols = column.now.shape.rows }) }
    ensures { OnOk result (out.new ≡ diagonal_matrix S.arithmetic column.now) }
{
    let (rows, values) = column.column(0);
    for n in 0..rows.len() {
        out.push(Entry {
            row: rows[n],
            column: rows[n],
            value: values[n],
        })?;
    }
    Ok(())
}
