//! The sums of the rows and of the columns of a block, and of all its entries.
//!
//! Values are added by the semiring's sum, and sums of zero aren't stored. A column's entries are adjacent, so one pass adds
//! up all columns. Rows are added up in one pass too, in a list of one number for each row; or as the columns of the
//! transpose, if such a list would cost more than the entries.
//!
//! This is the reduction of Buluç and Gilbert, The Combinatorial BLAS (Int. J. High Perform. Comput. Appl. 2011,
//! section 3.1).
ghost use Rattle.std.specs.Prelude.{◌≡◌, length, All, IfOk};
ghost use Rattle.cb_semirings.specs.Arithmetic.{IsValue};
ghost use Rattle.cb_matrix.specs.Sparse.{IsMatrix};
ghost use Rattle.cb_matrix.specs.Values.{total};
ghost use Rattle.cb_matrix.specs.Operations.{column_sums, row_sums};
ghost use Rattle.cb_reshape.specs.Sums.{matrix_total, AddsRowSums};

use crate::{column_of_list, has_few_rows, transpose};
use cb_dcsc::Block;
use cb_matrix::Shape;
use cb_semirings::Semiring;
use std::alloc::{AllocError, Global};

/// Returns the sum of each column of a block, in a block of one row. Costs one pass over the values, and a few instructions for
/// each column that has entries, whatever the shape is.
pub fn column_sums<S: Semiring>(alloc: Global, block: &Block<S>) -> Result<Block<S>, AllocError>
    ensures { IfOk result (λ sums. sums ≡ column_sums S.arithmetic block.now) }
{
    let shape = one_row(block.shape());
    let numbers = block.column_numbers();
    let mut columns = Vec::with_capacity(alloc, numbers.len())?;
    let mut sums = Vec::with_capacity(alloc, numbers.len())?;
    for n in 0..numbers.len() {
        let (_rows, values) = block.nth_column(n);
        let sum = sum_of_values::<S>(values);
        if sum != S::zero() {
            columns.push_reserved(numbers[n]);
            sums.push_reserved(sum);
        }
    }
    Block::from_row(alloc, shape, 0, columns, sums)
}

/// Returns the sum of each row of a block, in a block of one column. Costs one pass over the entries, and a list of one
/// number for each row of the shape. If there are more than four rows for each entry, it costs a transpose of the block
/// instead, and one of the result.
pub fn row_sums<S: Semiring>(alloc: Global, block: &Block<S>) -> Result<Block<S>, AllocError>
    ensures { IfOk result (λ sums. sums ≡ row_sums S.arithmetic block.now) }
{
    if has_few_rows(block) {
        listed_row_sums(alloc, block)
    } else {
        turned_row_sums(alloc, block)
    }
}

/// The sum of each row, by a list of all rows' sums.
fn listed_row_sums<S: Semiring>(alloc: Global, block: &Block<S>) -> Result<Block<S>, AllocError>
    ensures { IfOk result (λ sums. sums ≡ row_sums S.arithmetic block.now) }
{
    let shape = one_column(block.shape());
    let mut sums = vec![in alloc; S::zero(); shape.rows() as usize]?;
    add_row_sums(&mut sums, block);
    column_of_list(alloc, shape, &sums)
}

/// The sum of each row, as the sums of the columns of the transpose.
fn turned_row_sums<S: Semiring>(alloc: Global, block: &Block<S>) -> Result<Block<S>, AllocError>
    ensures { IfOk result (λ sums. sums ≡ row_sums S.arithmetic block.now) }
{
    let turned = transpose(alloc, block)?;
    let sums = column_sums(alloc, &turned)?;
    transpose(alloc, &sums)
}

/// Adds the sum of each row of a block to the number at the row's place in a list. Costs one pass over the entries, and no
/// memory.
fn add_row_sums<S: Semiring>(sums: &mut [u64], block: &Block<S>)
    requires length { length sums.old ≡ block.now.shape.rows }
    requires values { All (IsValue S.arithmetic) sums.old }
    ensures length { length sums.new ≡ length sums.old }
    ensures values { All (IsValue S.arithmetic) sums.new }
    ensures sums { AddsRowSums S.arithmetic block.now sums.old sums.new }
{
    let _shape = block.shape();
    let (rows, values) = (block.row_numbers(), block.values());
    for n in 0..rows.len() {
        let row = rows[n] as usize;
        sums[row] = S::add(sums[row], values[n]);
    }
}

/// Returns the shape of one column with the rows of another shape.
fn one_column(shape: Shape) -> Shape
    ensures { result ≡ record { rows = shape.rows; cols = 1 } }
{
    Shape::new(shape.rows(), 1).unwrap()
}

/// Returns the sum of all values of a block, which is zero if it has no entries. Costs one pass over the values, and no
/// memory.
pub fn total<S: Semiring>(block: &Block<S>) -> u64
    ensures { result ≡ matrix_total S.arithmetic block.now }
{
    let _shape = block.shape();
    sum_of_values::<S>(block.values())
}

/// Returns the shape of one row with the columns of another shape.
fn one_row(shape: Shape) -> Shape
    ensures { result ≡ record { rows = 1; cols = shape.cols } }
{
    Shape::new(1, shape.cols()).unwrap()
}

/// Returns the sum of a list of values.
fn sum_of_values<S: Semiring>(values: &[u64]) -> u64
    requires { All (IsValue S.arithmetic) values.now }
    ensures sum { result ≡ total S.arithmetic values.now }
    ensures value { IsValue S.arithmetic result }
{
    let mut sum = S::zero();
    for value in values {
        sum = S::add(sum, *value);
    }
    sum
}
