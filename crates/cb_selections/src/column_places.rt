//! Where listed columns are among those that have entries.
//!
//! Each is looked for once, and its place is kept, so that the entries are counted and then copied without a second search.
ghost use Rattle.std.specs.Prelude.{◌≡◌, ◌≢◌, ◌<◌, ◌≤◌, IsTrue, IfOk, length, All, AllPairs};
ghost use Rattle.cb_semirings.specs.Arithmetic.{IsValue};
ghost use Rattle.cb_dcsc.specs.Columns.{in_column, rows_of, values_of};

use cb_dcsc::Block;
use cb_semirings::Semiring;
use std::alloc::{AllocError, Global};

/// Listed columns of a block.
#[derive(Drop)]
pub(crate) struct ColumnPlaces {
    /// For each, its likely place among the columns that have entries: where it is, or where it would be.
    pub(crate) places: Vec<u32>,
    /// How many entries they have together.
    pub(crate) entries: usize,
}

/// Finds columns of a block.
pub(crate) fn places_of_columns<S: Semiring>(
    alloc: Global,
    block: &Block<S>,
    columns: &[u32],
) -> Result<ColumnPlaces, AllocError>
    ensures { IfOk result (λ found. length found.places.items ≡ length columns.now) }
{
    let stored = block.column_numbers();
    let missing = (block.shape().cols() as usize).saturating_sub(stored.len());
    let mut places = Vec::with_capacity(alloc, columns.len())?;
    let mut entries = 0usize;
    let mut last = 0usize;
    let mut place = 0usize;
    for n in 0..columns.len() {
        place = place_after(stored, missing, last, place, columns[n]);
        last = columns[n] as usize;
        places.push_reserved(place.min(u32::MAX as usize) as u32);
        if place < stored.len() && stored[place] == columns[n] {
            let (start, end) = block.nth_range(place);
            entries = entries.saturating_add(end - start);
        }
    }
    Ok(ColumnPlaces { places, entries })
}

/// The likely place of a column among these, given that of another one, `last`. So many columns are `missing` among these.
///
/// It is as far behind the place of a column in front of it as the columns are apart, unless some between them are missing. Where
/// the other one isn't near, the place is as far from the front as the column, unless some in front of it are missing.
#[inline(always)]
fn place_after(stored: &[u32], missing: usize, last: usize, place: usize, column: u32) -> usize {
    let number = column as usize;
    if last <= number && number - last <= missing {
        let most = place.saturating_add(number - last).min(stored.len());
        if most < stored.len() && stored[most] == column {
            return most;
        }
        return searched(stored, place.min(most), most, column);
    }
    let most = number.min(stored.len());
    searched(
        stored,
        number.saturating_sub(missing).min(most),
        most,
        column,
    )
}

/// How many columns are below one, where at least `from` of these are, and at most `most`.
///
/// Which half is next is chosen without a branch, so the processor needn't guess, and searches for several columns overlap.
#[inline(always)]
fn searched(stored: &[u32], from: usize, most: usize, column: u32) -> usize
    requires order { from ≤ most }
    requires within { most ≤ length stored.now }
{
    let mut place = from;
    let mut size = most - from;
    while size > 0 {
        let half = size - size / 2;
        let middle = place + half;
        if stored[middle - 1] < column {
            place = middle;
        }
        size -= half;
    }
    place
}

/// The rows of a column and its values, if it has any. If its place isn't the likely one, it is searched for.
#[inline(always)]
pub(crate) fn column_at<S: Semiring>(block: &Block<S>, column: u32, place: u32) -> (&[u32], &[u64])
    ensures rows { result.0.now ≡ rows_of (in_column column block.now.entries) }
    ensures values { result.1.now ≡ values_of (in_column column block.now.entries) }
    ensures ascending { AllPairs (λ i j. i < j) result.0.now }
    ensures are_values { All (IsValue S.arithmetic) result.1.now }
{
    let columns = block.column_numbers();
    let place = place as usize;
    if place < columns.len() && columns[place] == column {
        return block.nth_column(place);
    }
    if is_missing(columns, place, column) {
        return (&[], &[]);
    }
    block.column(column)
}

/// Whether a column lies between the nth of these columns, which ascend, and the one before it, and so isn't one of them.
#[inline(always)]
fn is_missing(columns: &[u32], n: usize, column: u32) -> bool
    requires { AllPairs (λ c d. c < d) columns.now }
    ensures { IsTrue result → All (λ c. c ≢ column) columns.now }
{
    n <= columns.len()
        && (n == 0 || columns[n - 1] < column)
        && (n == columns.len() || column < columns[n])
}
