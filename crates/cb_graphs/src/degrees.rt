//! Degrees: how many entries each row or column of a block has. In the graph of a square block, these are the edges that
//! leave a vertex, and those that lead to it.
ghost use Rattle.std.specs.Prelude.{◌≡◌, ◌≢◌, ℕ, ◌<◌, ◌≤◌, ◌==◌, length, map, slice_index, count_by, All, IfOk};
ghost use Rattle.cb_semirings.specs.Arithmetic.{IsValue};
ghost use Rattle.cb_semirings.specs.Tables.{plus_times};
ghost use Rattle.cb_dcsc.specs.Columns.{in_column, columns_with_entries};
ghost use Rattle.cb_graphs.specs.Degrees.{row_degrees, column_degrees};

use cb_dcsc::Block;
use cb_matrix::{LIMIT, Shape};
use cb_reshape::{column_of_list, has_few_rows, transpose};
use cb_semirings::{PlusTimes, Semiring};
use std::alloc::{AllocError, Global};

/// Returns how many entries each row of a block has, in one column over plus-times. A row without entries isn't stored.
///
/// Costs one pass over the rows of the entries, and a list of one number for each row of the shape. If there are more than
/// four rows for each entry, it costs a transpose of the block instead.
pub fn row_degrees<S: Semiring>(
    alloc: Global,
    block: &Block<S>,
) -> Result<Block<PlusTimes>, AllocError>
    ensures { IfOk result (λ degrees. degrees ≡ row_degrees S.arithmetic block.now) }
{
    if has_few_rows(block) {
        counted_row_degrees(alloc, block)
    } else {
        turned_row_degrees(alloc, block)
    }
}

/// The degree of each row, by a count for each row of the shape.
fn counted_row_degrees<S: Semiring>(
    alloc: Global,
    block: &Block<S>,
) -> Result<Block<PlusTimes>, AllocError>
    ensures { IfOk result (λ degrees. degrees ≡ row_degrees S.arithmetic block.now) }
{
    let shape = one_column(block.shape().rows());
    let counts = row_counts(alloc, shape.rows(), block.row_numbers())?;
    column_of_list(alloc, shape, &counts)
}

/// How often each row below a bound is listed.
fn row_counts(alloc: Global, bound: u32, rows: &[u32]) -> Result<Vec<u64>, AllocError>
    requires { All (λ r. r < bound) rows.now }
    ensures length { IfOk result (λ v. length v.items ≡ bound) }
    ensures values { IfOk result (λ v. All (IsValue plus_times) v.items) }
    ensures counts { IfOk result (λ v. (i : ℕ) → i < bound → slice_index v.items i ≡ count_by (λ r. r == i) rows.now) }
{
    let mut counts = vec![in alloc; 0u64; bound as usize]?;
    for row in rows {
        let count = counts[*row as usize];
        counts[*row as usize] = count + 1;
    }
    Ok(counts)
}

/// The degree of each row, as that of a column of the transpose.
fn turned_row_degrees<S: Semiring>(
    alloc: Global,
    block: &Block<S>,
) -> Result<Block<PlusTimes>, AllocError>
    ensures { IfOk result (λ degrees. degrees ≡ row_degrees S.arithmetic block.now) }
{
    let turned = transpose(alloc, block)?;
    column_degrees(alloc, &turned)
}

/// Returns how many entries each column of a block has, in one column over plus-times: row j has the degree of column j.
/// A column without entries isn't stored.
///
/// Costs a few instructions for each column that has entries.
pub fn column_degrees<S: Semiring>(
    alloc: Global,
    block: &Block<S>,
) -> Result<Block<PlusTimes>, AllocError>
    ensures { IfOk result (λ degrees. degrees ≡ column_degrees S.arithmetic block.now) }
{
    let counts = column_counts(alloc, block)?;
    let mut degrees = Block::empty(alloc, one_column(block.shape().cols()));
    degrees.push_column(0, block.column_numbers(), &counts)?;
    Ok(degrees)
}

/// Returns the shape of one column with this many rows.
fn one_column(rows: u32) -> Shape
    requires { rows ≤ LIMIT }
    ensures { result ≡ record { rows = rows; cols = 1 } }
{
    Shape::new(rows, 1).unwrap()
}

/// How many entries each column that has entries has.
fn column_counts<S: Semiring>(alloc: Global, block: &Block<S>) -> Result<Vec<u64>, AllocError>
    ensures counts { IfOk result (λ v. v.items ≡ map (λ c. length (in_column c block.now.entries)) (columns_with_entries block.now.entries)) }
    ensures values { IfOk result (λ v. All (IsValue plus_times) v.items) }
    ensures some { IfOk result (λ v. All (λ n. n ≢ 0) v.items) }
{
    let columns = block.columns();
    let mut counts = Vec::with_capacity(alloc, columns)?;
    for n in 0..columns {
        let (start, end) = block.nth_range(n);
        counts.push_reserved((end - start) as u64);
    }
    Ok(counts)
}
