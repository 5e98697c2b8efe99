//! The sums of a column: one for each of the mask's rows, and one more that is dropped. Values at other rows are added to
//! that one, so that additions need no branch.
ghost use Rattle.std.specs.Prelude.{◌≡◌, ℕ, ◌+◌, ◌<◌, ◌^◌, length, All, AllPairs, OnOk};
ghost use Rattle.cb_semirings.specs.Arithmetic.{IsValue};
ghost use Rattle.cb_matrix.specs.Sparse.{IsMatrix, at};
ghost use Rattle.cb_dcsc.specs.Columns.{row_value, columns_with_entries};
ghost use Rattle.cb_product.specs.SparseColumn.{one_value};
ghost use Rattle.cb_product.specs.Terms.{column_sum};
ghost use Rattle.cb_masked.specs.declared.places.TheConstants.{NONE};
ghost use Rattle.cb_masked.specs.PlaceTables.{AreNoted};
ghost use Rattle.cb_masked.specs.RowSums.{AreSums, AddsEach, HaveEach};

use crate::places::{clear, note, place_of};
use cb_dcsc::Block;
use cb_semirings::Semiring;
use std::alloc::AllocError;

/// The mask's rows are searched for in a column with more than this many times the entries of the mask's column.
const LONG: usize = 16;

/// Computes for each of the given rows the sum of columns of the left block, each times a factor. `inner` has the numbers of
/// the columns; `places` is the table of the left block's columns. `slots`, a table for the rows, is cleared before and
/// after.
pub(crate) fn sum_column<S: Semiring>(
    sums: &mut Vec<u64>,
    rows: &[u32],
    slots: &mut [u32],
    left: &Block<S>,
    places: &[u32],
    inner: &[u32],
    factors: &[u64],
) -> Result<(), AllocError>
    requires left { IsMatrix S.arithmetic left.now }
    requires rows { AllPairs (λ i j. i < j) rows.now }
    requires few { length rows.now < 2 ^ 32 }
    requires cleared { All (λ x. x ≡ NONE) slots.old }
    requires places { AreNoted places.now (columns_with_entries left.now.entries) }
    requires lengths { length factors.now ≡ length inner.now }
    requires factors { All (IsValue S.arithmetic) factors.now }
    ensures cleared { OnOk result (All (λ x. x ≡ NONE) slots.new) }
    ensures same_length { OnOk result (length sums.new.items ≡ length rows.now) }
    ensures are_values { OnOk result (All (IsValue S.arithmetic) sums.new.items) }
    ensures sums { OnOk result (HaveEach S.arithmetic rows.now (λ i. column_sum S.arithmetic left.now i inner.now factors.now) sums.new.items) }
{
    sums.clear();
    sums.resize(rows.len() + 1, S::zero())?;
    note(slots, rows);
    add_terms(sums, rows, slots, left, places, inner, factors);
    clear(slots, rows);
    sums.truncate(rows.len());
    Ok(())
}

/// Adds columns of the left block, given by their numbers, each times a factor, to sums that are zero.
fn add_terms<S: Semiring>(
    sums: &mut [u64],
    rows: &[u32],
    slots: &[u32],
    left: &Block<S>,
    places: &[u32],
    inner: &[u32],
    factors: &[u64],
)
    requires left { IsMatrix S.arithmetic left.now }
    requires rows { AllPairs (λ i j. i < j) rows.now }
    requires slots { AreNoted slots.now rows.now }
    requires places { AreNoted places.now (columns_with_entries left.now.entries) }
    requires lengths { length factors.now ≡ length inner.now }
    requires factors { All (IsValue S.arithmetic) factors.now }
    requires one_more { length sums.old ≡ length rows.now + 1 }
    requires zeros { All (λ x. x ≡ S.arithmetic.zero) sums.old }
    ensures are { AreSums S.arithmetic rows.now sums.new }
    ensures sums { HaveEach S.arithmetic rows.now (λ i. column_sum S.arithmetic left.now i inner.now factors.now) sums.new }
{
    for n in 0..inner.len() {
        add_term(sums, rows, slots, left, places, inner[n], factors[n]);
    }
}

/// Adds a column of the left block, times a factor, in the cheaper of two ways.
#[inline(always)]
fn add_term<S: Semiring>(
    sums: &mut [u64],
    rows: &[u32],
    slots: &[u32],
    left: &Block<S>,
    places: &[u32],
    column: u32,
    factor: u64,
)
    requires rows { AllPairs (λ i j. i < j) rows.now }
    requires slots { AreNoted slots.now rows.now }
    requires places { AreNoted places.now (columns_with_entries left.now.entries) }
    requires factor { IsValue S.arithmetic factor }
    requires sums { AreSums S.arithmetic rows.now sums.old }
    ensures are { AreSums S.arithmetic rows.now sums.new }
    ensures sums { AddsEach S.arithmetic rows.now (λ i. S.arithmetic.mul (at S.arithmetic left.now i column) factor) sums.old sums.new }
{
    let n = place_of(places, left.column_numbers(), column);
    if n < left.columns() {
        let (column_rows, values) = left.nth_column(n);
        if column_rows.len() / LONG <= rows.len() {
            add_listed::<S>(sums, rows, slots, column_rows, values, factor);
        } else {
            add_found::<S>(sums, rows, column_rows, values, factor);
        }
    }
}

/// Adds a column, times a factor: the row of each of its entries is looked up. Costs O(entries of the column).
#[inline(always)]
fn add_listed<S: Semiring>(
    sums: &mut [u64],
    rows: &[u32],
    slots: &[u32],
    column_rows: &[u32],
    values: &[u64],
    factor: u64,
)
    requires rows { AllPairs (λ i j. i < j) rows.now }
    requires slots { AreNoted slots.now rows.now }
    requires order { AllPairs (λ i j. i < j) column_rows.now }
    requires lengths { length values.now ≡ length column_rows.now }
    requires values { All (IsValue S.arithmetic) values.now }
    requires factor { IsValue S.arithmetic factor }
    requires sums { AreSums S.arithmetic rows.now sums.old }
    ensures are { AreSums S.arithmetic rows.now sums.new }
    ensures sums { AddsEach S.arithmetic rows.now (λ i. S.arithmetic.mul (row_value S.arithmetic.zero column_rows.now values.now i) factor) sums.old sums.new }
{
    for n in 0..column_rows.len() {
        add_at::<S>(sums, rows, slots, column_rows[n], S::mul(values[n], factor));
    }
}

/// Adds a value to the sum of a row, or to the one that is dropped.
#[inline(always)]
fn add_at<S: Semiring>(sums: &mut [u64], rows: &[u32], slots: &[u32], row: u32, value: u64)
    requires rows { AllPairs (λ i j. i < j) rows.now }
    requires slots { AreNoted slots.now rows.now }
    requires value { IsValue S.arithmetic value }
    requires sums { AreSums S.arithmetic rows.now sums.old }
    ensures are { AreSums S.arithmetic rows.now sums.new }
    ensures sums { AddsEach S.arithmetic rows.now (one_value S.arithmetic.zero (row, value)) sums.old sums.new }
{
    let n = place_of(slots, rows, row);
    sums[n] = S::add(sums[n], value);
}

/// Adds a column, times a factor: each of the mask's rows is searched for in it.
fn add_found<S: Semiring>(
    sums: &mut [u64],
    rows: &[u32],
    column_rows: &[u32],
    values: &[u64],
    factor: u64,
)
    requires order { AllPairs (λ i j. i < j) column_rows.now }
    requires lengths { length values.now ≡ length column_rows.now }
    requires values { All (IsValue S.arithmetic) values.now }
    requires factor { IsValue S.arithmetic factor }
    requires sums { AreSums S.arithmetic rows.now sums.old }
    ensures are { AreSums S.arithmetic rows.now sums.new }
    ensures sums { AddsEach S.arithmetic rows.now (λ i. S.arithmetic.mul (row_value S.arithmetic.zero column_rows.now values.now i) factor) sums.old sums.new }
{
    for n in 0..rows.len() {
        let value = value_at::<S>(column_rows, values, rows[n]);
        sums[n] = S::add(sums[n], S::mul(value, factor));
    }
}

/// Returns the value of a column at a row, by a binary search.
fn value_at<S: Semiring>(rows: &[u32], values: &[u64], row: u32) -> u64
    requires order { AllPairs (λ i j. i < j) rows.now }
    requires lengths { length values.now ≡ length rows.now }
    requires values { All (IsValue S.arithmetic) values.now }
    ensures value { result ≡ row_value S.arithmetic.zero rows.now values.now row }
    ensures is_value { IsValue S.arithmetic result }
{
    match rows.binary_search(&row) {
        Ok(n) => values[n],
        Err(_) => S::zero(),
    }
}
