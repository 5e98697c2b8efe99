//! Sums over the columns of a matrix, made in shares: each share adds up a range of columns, and then the shares are added up.
//!
//! A product with a vector, the sums of rows and the sum of all values have in each row what the columns of the matrix add to it.
//! So a share reads the entries in its columns and no others, and copies none of a matrix in one panel. What it adds up is a list
//! with a number for each row: two such lists are added far faster than two columns of a matrix.
ghost use Rattle.std.specs.Prelude.{◌≡◌, ◌≤◌, [], ◌∷◌, length, All, IfOk};
ghost use Rattle.cb_semirings.specs.Arithmetic.{IsValue};
ghost use Rattle.cb_matrix.specs.Sparse.{IsMatrix};
ghost use Rattle.cb_matrix.specs.Sparse.{at};
ghost use Rattle.cb_matrix.specs.Values.{product};
ghost use Rattle.cb_matrix.specs.Operations.{row_sums};
ghost use Rattle.cb_operations.specs.OperationAnswers.{operand_count_of, Agree, shapes_in};
ghost use Rattle.cb_operations.specs.Operands.{lent_in};
ghost use Rattle.cb_layout.specs.Panels.{whole_of};
ghost use Rattle.cb_reshape.specs.Sums.{matrix_total};
ghost use Rattle.cb_shares.specs.Shares.{panel};
ghost use Rattle.cb_shares.specs.Sums.{AddsShares, AddsTotals, IsColumnOf, IsListOf, IsSumOfColumns, share_of, some_entries};

use crate::columns::{columns_between, places_between};
use crate::entry_ends::entries_of;
use cb_dcsc::Block;
use cb_dense::add_product_of_columns;
use cb_layout::{PanelledMatrix, Whole};
use cb_matrix::Shape;
use cb_operations::Operation;
use cb_reshape::column_of_list;
use cb_semirings::Semiring;
use std::alloc::{AllocError, Global};

/// What some columns add to the result of a product with a vector or of sums of rows: a list with the value of each row, made of
/// the columns of the first matrix from `first` up to, but not including, `end`.
///
/// Costs a list of one number for each row, and what these columns cost; of a product, at most also a step for each entry of the
/// vector in the rows before `end`. The columns of a matrix in several panels are copied.
pub fn share_of_sum<S: Semiring>(
    alloc: Global,
    operation: Operation,
    operands: &[&PanelledMatrix<S>],
    first: u32,
    end: u32,
) -> Result<Vec<u64>, AllocError>
    requires sum { IsSumOfColumns operation }
    requires count { length operands.now ≡ operand_count_of operation }
    requires agree { Agree operation (shapes_in (lent_in operands.now)) }
    ensures { IfOk result (λ list. IsListOf S.arithmetic (share_of operation S.arithmetic (lent_in operands.now) first end) list.items) }
{
    match (operation, operands) {
        (Operation::RowSums, [a]) => share_of_row_sums(alloc, a, first, end),
        (Operation::MultiplyVector, [a, x]) => share_of_product(alloc, a, x, first, end),
        _ => unreachable!(),
    }
}

/// The same of sums of rows.
fn share_of_row_sums<S: Semiring>(
    alloc: Global,
    a: &PanelledMatrix<S>,
    first: u32,
    end: u32,
) -> Result<Vec<u64>, AllocError>
    ensures { IfOk result (λ list. IsListOf S.arithmetic (row_sums S.arithmetic (panel a.now first end)) list.items) }
{
    let part = columns_in_one(alloc, a, first, end)?;
    row_sums_of(alloc, part.block(), first, end)
}

/// The same of a block.
fn row_sums_of<S: Semiring>(
    alloc: Global,
    block: &Block<S>,
    first: u32,
    end: u32,
) -> Result<Vec<u64>, AllocError>
    ensures { IfOk result (λ list. IsListOf S.arithmetic (row_sums S.arithmetic (panel block.now first end)) list.items) }
{
    let mut sums = vec![in alloc; S::zero(); block.shape().rows() as usize]?;
    let (from, to) = entries_between(block, first, end);
    add_rows(&mut sums, block, from, to);
    Ok(sums)
}

/// Adds some entries of a block to zeros at the places of their rows: the entries from one index up to, but not including, another,
/// counted by column and then by row.
fn add_rows<S: Semiring>(sums: &mut [u64], block: &Block<S>, from: usize, to: usize)
    requires length { length sums.old ≡ block.now.shape.rows }
    requires zeros { All (λ x. x ≡ S.arithmetic.zero) sums.old }
    requires order { from ≤ to }
    requires within { to ≤ length block.now.entries }
    ensures { IsListOf S.arithmetic (row_sums S.arithmetic (some_entries from to block.now)) sums.new }
{
    let _shape = block.shape();
    let rows = block.row_numbers();
    let values = block.values();
    for n in from..to {
        let row = rows[n] as usize;
        sums[row] = S::add(sums[row], values[n]);
    }
}

/// The same of a product with a vector.
fn share_of_product<S: Semiring>(
    alloc: Global,
    a: &PanelledMatrix<S>,
    x: &PanelledMatrix<S>,
    first: u32,
    end: u32,
) -> Result<Vec<u64>, AllocError>
    requires agree { a.now.shape.cols ≡ x.now.shape.rows }
    requires column { x.now.shape.cols ≡ 1 }
    ensures { IfOk result (λ list. IsListOf S.arithmetic (product S.arithmetic (panel a.now first end) x.now) list.items) }
{
    let part = columns_in_one(alloc, a, first, end)?;
    let vector = x.whole()?;
    product_of(alloc, part.block(), vector.block(), first, end)
}

/// The same of blocks.
fn product_of<S: Semiring>(
    alloc: Global,
    block: &Block<S>,
    vector: &Block<S>,
    first: u32,
    end: u32,
) -> Result<Vec<u64>, AllocError>
    requires agree { block.now.shape.cols ≡ vector.now.shape.rows }
    requires column { vector.now.shape.cols ≡ 1 }
    ensures { IfOk result (λ list. IsListOf S.arithmetic (product S.arithmetic (panel block.now first end) vector.now) list.items) }
{
    prove_eq!(block.shape().cols(), vector.shape().rows());
    let (low, high) = places_between(block, first, end);
    let mut sums = vec![in alloc; S::zero(); block.shape().rows() as usize]?;
    add_product_of_columns(&mut sums, block, vector, low, high);
    Ok(sums)
}

/// One block that has the same entries in these columns as a matrix: the matrix itself, if it is in one panel, or else a copy of
/// these columns.
fn columns_in_one<'a, S: Semiring>(
    alloc: Global,
    matrix: &'a PanelledMatrix<S>,
    first: u32,
    end: u32,
) -> Result<Whole<'a, Block<S>>, AllocError>
    ensures columns { IfOk result (λ part. panel (whole_of part) first end ≡ panel matrix.now first end) }
    ensures shape { IfOk result (λ part. (whole_of part).shape ≡ matrix.now.shape) }
{
    let (front, others) = matrix.panels();
    if others.is_empty() {
        return Ok(Whole::Lent(front));
    }
    columns_between(alloc, matrix, first, end)
}

/// Where the entries of a block in a range of columns start and end among all.
fn entries_between<S: Semiring>(block: &Block<S>, first: u32, end: u32) -> (usize, usize)
    ensures order { result.0 ≤ result.1 }
    ensures within { result.1 ≤ length block.now.entries }
    ensures entries { some_entries result.0 result.1 block.now ≡ panel block.now first end }
{
    let from = entries_of(block, first);
    let to = entries_of(block, end).max(from);
    (from, to)
}

/// The sum of all values of a matrix in the columns from `first` up to, but not including, `end`. Costs two binary searches for
/// each panel and one pass over these values, and no memory.
pub fn total_of_columns<S: Semiring>(matrix: &PanelledMatrix<S>, first: u32, end: u32) -> u64
    ensures { result ≡ matrix_total S.arithmetic (panel matrix.now first end) }
{
    let (front, others) = matrix.panels();
    prove_eq!(front.shape(), matrix.shape());
    let mut sum = total_of(front, first, end);
    for panel in others {
        sum = S::add(sum, total_of(panel, first, end));
    }
    sum
}

/// The same of a block.
fn total_of<S: Semiring>(block: &Block<S>, first: u32, end: u32) -> u64
    ensures { result ≡ matrix_total S.arithmetic (panel block.now first end) }
{
    let (from, to) = entries_between(block, first, end);
    let _shape = block.shape();
    let values = block.values();
    let mut sum = S::zero();
    for n in from..to {
        sum = S::add(sum, values[n]);
    }
    sum
}

/// Adds a share to that of the columns before it: each number of a list to the number at its place in another of the same length.
/// A list of a single number is the sum of all values in these columns.
pub fn add_share<S: Semiring>(sums: &mut [u64], more: &[u64])
    requires length { length more.now ≡ length sums.old }
    requires values { All (IsValue S.arithmetic) sums.old }
    requires more { All (IsValue S.arithmetic) more.now }
    ensures shares { AddsShares S.arithmetic sums.old more.now sums.new }
    ensures totals { AddsTotals S.arithmetic sums.old more.now sums.new }
{
    for n in 0..sums.len() {
        sums[n] = S::add(sums[n], more[n]);
    }
}

/// The matrix of one column that has the values of a list, one in each row of a shape. Zeros aren't stored. Costs a few
/// instructions for each row.
pub fn column_of_sums<S: Semiring>(
    alloc: Global,
    shape: Shape,
    sums: &[u64],
) -> Result<Block<S>, AllocError>
    requires column { shape.cols ≡ 1 }
    requires length { length sums.now ≡ shape.rows }
    requires values { All (IsValue S.arithmetic) sums.now }
    ensures { IfOk result (IsColumnOf S.arithmetic sums.now) }
{
    column_of_list(alloc, shape, sums)
}
