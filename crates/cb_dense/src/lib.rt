//! The product of a sparse block and a sparse vector, added to a dense vector.
//!
//! The dense vector has a sum for each row of the block. That pays if most rows have a sum, or if several products are added
//! to the same sums. Otherwise use `cb_product` with a block of one column: its result is a sparse vector, and its cost
//! doesn't depend on the number of rows.
//!
//! The product is a sum of columns of the block: column k times the vector's entry in row k. The block's columns and the
//! vector's entries both ascend, so one pass over both finds all entries. This is the sum by columns of Gilbert, Moler and
//! Schreiber, Sparse Matrices in MATLAB (SIAM J. Matrix Anal. Appl. 1992, section 3.1), without marks of the rows that have a
//! sum.
#![tactic(auto)]

ghost use Rattle.std.specs.Prelude.{◌≡◌, ℕ, ◌<◌, ◌≤◌, Some, length, All, AllPairs, slice_index, slice_range};
ghost use Rattle.cb_semirings.specs.Arithmetic.{IsValue};
ghost use Rattle.cb_matrix.specs.Sparse.{at};
ghost use Rattle.cb_matrix.specs.Values.{product};
ghost use Rattle.cb_dcsc.specs.Columns.{columns_with_entries};
ghost use Rattle.cb_product.specs.SparseColumn.{scaled_at};
ghost use Rattle.cb_product.specs.DenseSums.{AddsToSums};
ghost use Rattle.cb_product.specs.InColumns.{only_columns};

use cb_dcsc::Block;
use cb_semirings::Semiring;

/// Adds the product of a block and a vector to dense sums, one for each row of the block.
///
/// The vector is a block of one column, with as many rows as the first block has columns.
///
/// Costs O(entries of the vector + nonempty columns of the block + products), and no memory. The entries of a vector that has
/// one in each row aren't searched.
pub fn add_product<S: Semiring>(sums: &mut [u64], matrix: &Block<S>, vector: &Block<S>)
    requires length { length sums.old ≡ matrix.now.shape.rows }
    requires values { All (IsValue S.arithmetic) sums.old }
    requires agree { matrix.now.shape.cols ≡ vector.now.shape.rows }
    requires column { vector.now.shape.cols ≡ 1 }
    ensures length { length sums.new ≡ length sums.old }
    ensures values { All (IsValue S.arithmetic) sums.new }
    ensures sums { AddsToSums S.arithmetic matrix.now.shape.rows (λ i. at S.arithmetic (product S.arithmetic matrix.now vector.now) i 0) sums.old sums.new }
{
    let columns = matrix.column_numbers();
    add_product_of_columns(sums, matrix, vector, 0, columns.len());
}

/// Adds the product of some columns of a block and a vector: of those from one place up to, but not including, another, among the
/// columns that have entries.
///
/// Costs the same for these columns alone, but may pass over the entries of the vector that are before them.
pub fn add_product_of_columns<S: Semiring>(
    sums: &mut [u64],
    matrix: &Block<S>,
    vector: &Block<S>,
    low: usize,
    high: usize,
)
    requires length { length sums.old ≡ matrix.now.shape.rows }
    requires values { All (IsValue S.arithmetic) sums.old }
    requires agree { matrix.now.shape.cols ≡ vector.now.shape.rows }
    requires column { vector.now.shape.cols ≡ 1 }
    requires order { low ≤ high }
    requires within { high ≤ length (columns_with_entries matrix.now.entries) }
    ensures length { length sums.new ≡ length sums.old }
    ensures values { All (IsValue S.arithmetic) sums.new }
    ensures sums { AddsToSums S.arithmetic matrix.now.shape.rows (λ i. at S.arithmetic (product S.arithmetic (only_columns (slice_range (columns_with_entries matrix.now.entries) low high) matrix.now) vector.now) i 0) sums.old sums.new }
{
    prove_eq!(matrix.shape().cols(), vector.shape().rows());
    let all = matrix.column_numbers();
    let columns = &all[low..high];
    let (places, factors) = (vector.row_numbers(), vector.values());
    let mut next = 0;
    for n in 0..columns.len() {
        next = advance(places, next, columns[n]);
        if next < places.len() && places[next] == columns[n] {
            let (rows, values) = matrix.nth_column(low + n);
            add_column::<S>(sums, rows, values, factors[next]);
        }
    }
}

/// Returns the index of the first of these rows, which ascend, that isn't before `row`. Those at indices below `from` are
/// before it. In a vector with an entry in each row, it is found at once.
#[inline(always)]
fn advance(rows: &[u32], from: usize, row: u32) -> usize
    requires ascending { AllPairs (λ i j. i < j) rows.now }
    requires passed { (k : ℕ) → k < from → slice_index rows.now k < row }
    ensures before { (k : ℕ) → k < result → slice_index rows.now k < row }
    ensures reached { result < length rows.now → row ≤ slice_index rows.now result }
{
    let own = row as usize;
    if own < rows.len() && rows[own] == row {
        return own;
    }
    let mut n = from;
    while n < rows.len() && rows[n] < row {
        n += 1;
    }
    n
}

/// Adds a column, times a factor, to the sums of its rows.
#[inline(always)]
fn add_column<S: Semiring>(sums: &mut [u64], rows: &[u32], values: &[u64], scale: u64)
    requires sums { All (IsValue S.arithmetic) sums.old }
    requires lengths { length values.now ≡ length rows.now }
    requires values { All (IsValue S.arithmetic) values.now }
    requires order { AllPairs (λ i j. i < j) rows.now }
    requires inside { All (λ i. i < length sums.old) rows.now }
    requires scale { IsValue S.arithmetic scale }
    ensures length { length sums.new ≡ length sums.old }
    ensures values { All (IsValue S.arithmetic) sums.new }
    ensures sums { AddsToSums S.arithmetic (length sums.old) (scaled_at S.arithmetic rows.now values.now (Some scale)) sums.old sums.new }
{
    for n in 0..rows.len() {
        let row = rows[n] as usize;
        sums[row] = S::add(sums[row], S::mul(values[n], scale));
    }
}
