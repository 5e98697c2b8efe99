//! The parts of a block's columns that are in a region.
ghost use Rattle.std.specs.Prelude.{◌≡◌, ℕ, ◌<◌, ◌≤◌, ◌+◌, true, false, length, slice_index, AllPairs};
ghost use Rattle.cb_operations.specs.Regions.{is_in};
ghost use Rattle.cb_selections.specs.KernelSteps.{is_one_range};

use cb_operations::{Diagonal, Region};

/// Whether the rows of a region follow one another in each column.
pub(crate) fn is_one_range(region: Region) -> bool
    ensures { result ≡ is_one_range region }
{
    match region {
        Region::Lower(_) => true,
        Region::Upper(_) => true,
        Region::On(_) => true,
        Region::Off(_) => false,
    }
}

/// Where those of a column's rows that are in a region start and end, by a binary search.
pub(crate) fn range(region: Region, column: u32, rows: &[u32]) -> (usize, usize)
    requires one { is_one_range region ≡ true }
    requires ascending { AllPairs (λ i j. i < j) rows.now }
    ensures order { result.0 ≤ result.1 }
    ensures within { result.1 ≤ length rows.now }
    ensures inside { (k : ℕ) → result.0 ≤ k → k < result.1 → is_in region (slice_index rows.now k) column ≡ true }
    ensures before { (k : ℕ) → k < result.0 → is_in region (slice_index rows.now k) column ≡ false }
    ensures after { (k : ℕ) → result.1 ≤ k → k < length rows.now → is_in region (slice_index rows.now k) column ≡ false }
{
    match region {
        Region::Lower(diagonal) => (split(diagonal, column, rows).0, rows.len()),
        Region::Upper(diagonal) => (0, split(diagonal, column, rows).1),
        Region::On(diagonal) => split(diagonal, column, rows),
        Region::Off(_) => unreachable!(),
    }
}

/// How many of a column's rows, which ascend, are above a diagonal, and how many are above or on it.
fn split(diagonal: Diagonal, column: u32, rows: &[u32]) -> (usize, usize)
    requires { AllPairs (λ i j. i < j) rows.now }
    ensures order { result.0 ≤ result.1 }
    ensures within { result.1 ≤ length rows.now }
    ensures above { (k : ℕ) → k < result.0 → slice_index rows.now k + diagonal.column < column + diagonal.row }
    ensures on { (k : ℕ) → result.0 ≤ k → k < result.1 → slice_index rows.now k + diagonal.column ≡ column + diagonal.row }
    ensures below { (k : ℕ) → result.1 ≤ k → k < length rows.now → column + diagonal.row < slice_index rows.now k + diagonal.column }
{
    let (right, down) = diagonal.distances(0, column);
    if right < down {
        return (0, 0);
    }
    let Ok(row) = u32::try_from(right - down) else {
        return (rows.len(), rows.len());
    };
    match rows.binary_search(&row) {
        Ok(n) => (n, n + 1),
        Err(n) => (n, n),
    }
}
