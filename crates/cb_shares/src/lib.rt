//! Shares of what is computed of matrices in panels: which columns of the answer each thread makes, how it makes them, and how the
//! panels are put beside one another.
//!
//! A share is a range of columns of the answer. Sums and products place by place, prunes, sums of columns, entries in a region,
//! functions of entries, complemented masks and updates have in each column only what their operands have there; a product is
//! made of the same columns of the right factor, and a Kronecker product of columns of the left one. So a share takes these columns
//! of its operands, and no entry of another. Columns that are listed by their numbers are shared by their places in the list.
//!
//! The columns of a product are divided so that all shares take about the same number of products of two values, as in
//! Nagasaka, Matsuoka, Azad and Buluç, High-performance Sparse Matrix-Matrix Products on Intel KNL and Multicore Architectures
//! (ICPP Workshops 2018).
//!
//! Nothing here starts a thread: `cb_panels` does, by a runtime, and so may a program in C.
#![tactic(auto)]

mod answers;
mod columns;
mod entry_ends;
mod extracts;
mod joins;
mod parts;
mod products;
mod sums;
mod updates;

ghost use Rattle.std.specs.Prelude.{◌≡◌, ℕ, ◌<◌, ◌≤◌, length, get_or, slice_index, All, AllPairs, IfOk};
ghost use Rattle.cb_shares.specs.Shares.{AreEnds};

pub use answers::{check, computed_columns, is_by_columns};
use cb_dcsc::Block;
use cb_product::{ColumnIndex, products_of_columns, total_products};
use cb_semirings::Semiring;
pub use columns::columns_between;
pub use entry_ends::{ends_by_entries, even_ends};
pub use extracts::extracted_columns;
pub use joins::{are_before, join, total};
use std::alloc::{AllocError, Global};
pub use sums::{add_share, column_of_sums, share_of_sum, total_of_columns};
pub use updates::update_columns;

/// Returns where each of `count` shares of a product's columns ends. All shares take about the same number of products of
/// two values, and about `least` or more: if there are too few products, the last shares have no columns. Columns stay
/// whole, so a share next to a large column may take fewer.
///
/// Costs an index of the left block's columns, and a pass over the right block's entries.
pub fn ends_of<S: Semiring>(
    alloc: Global,
    left: &Block<S>,
    right: &Block<S>,
    count: usize,
    least: usize,
) -> Result<Vec<u32>, AllocError>
    requires { left.now.shape.cols ≡ right.now.shape.rows }
    ensures { IfOk result (λ ends. AreEnds count right.now.shape.cols ends.items) }
{
    let index = ColumnIndex::new(alloc, left, right.len())?;
    let counts = products_of_columns(alloc, left, &index, right)?;
    let share = (total_products(&counts) / count.max(1))
        .saturating_add(1)
        .max(least);
    let cols = right.shape().cols();
    ends_by(alloc, right.column_numbers(), cols, &counts, share, count)
}

/// Where shares end, given how many products each column takes, and each share.
fn ends_by(
    alloc: Global,
    columns: &[u32],
    cols: u32,
    counts: &[usize],
    share: usize,
    count: usize,
) -> Result<Vec<u32>, AllocError>
    requires ascending { AllPairs (λ c d. c < d) columns.now }
    requires within { All (λ c. c < cols) columns.now }
    ensures { IfOk result (λ ends. AreEnds count cols ends.items) }
{
    let mut ends = Vec::with_capacity(alloc, count)?;
    if count == 0 {
        return Ok(ends);
    }
    let mut place = 0;
    let mut sum = 0usize;
    for n in 1..count {
        place = place_after(counts, place, &mut sum, share.saturating_mul(n));
        ends.push(column_at(columns, cols, place))?;
    }
    ends.push(cols)?;
    Ok(ends)
}

/// The first place, at or after `from`, before which the counts add up to a target. `sum` is the sum of those before it.
fn place_after(counts: &[usize], from: usize, sum: &mut usize, target: usize) -> usize
    ensures { from ≤ result }
{
    for n in from..counts.len() {
        if *sum >= target {
            return n;
        }
        *sum = sum.saturating_add(counts[n]);
    }
    from.max(counts.len())
}

/// The column at a place among columns that have entries, or the number of all columns after the last of them.
fn column_at(columns: &[u32], cols: u32, place: usize) -> u32
    ensures { result ≡ get_or columns.now place cols }
{
    match columns.get(place) {
        Some(column) => *column,
        None => cols,
    }
}
