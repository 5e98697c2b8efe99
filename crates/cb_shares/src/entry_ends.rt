//! Where shares end that take about the same number of entries.
ghost use Rattle.std.specs.Prelude.{◌≡◌, ◌<◌, ◌≤◌, length, take, drop, All, IfOk};
ghost use Rattle.cb_shares.specs.Shares.{AreEnds};

use cb_dcsc::{Block, first_from};
use cb_layout::PanelledMatrix;
use cb_semirings::Semiring;
use std::alloc::{AllocError, Global};

/// Returns where each of `count` shares of the columns of matrices, which have this many columns, ends. All shares take about
/// the same number of entries, and about `least` or more: if there are too few entries, the last shares have no columns.
/// Columns stay whole, so a share next to a large column may take fewer.
///
/// Costs a few binary searches for each share and panel.
pub fn ends_by_entries<S: Semiring>(
    alloc: Global,
    operands: &[&PanelledMatrix<S>],
    cols: u32,
    count: usize,
    least: usize,
) -> Result<Vec<u32>, AllocError>
    ensures { IfOk result (λ ends. AreEnds count cols ends.items) }
{
    let mut ends = Vec::with_capacity(alloc, count)?;
    if count == 0 {
        return Ok(ends);
    }
    let share = (entries_before(operands, cols) / count)
        .saturating_add(1)
        .max(least);
    let mut end = 0;
    for n in 1..count {
        end = column_after(operands, end, cols, share.saturating_mul(n));
        ends.push(end)?;
    }
    ends.push(cols)?;
    Ok(ends)
}

/// Returns where each of `count` ranges of columns ends, if each has about as many columns.
pub fn even_ends(alloc: Global, cols: u32, count: usize) -> Result<Vec<u32>, AllocError>
    ensures { IfOk result (λ ends. AreEnds count cols ends.items) }
{
    let mut ends = Vec::with_capacity(alloc, count)?;
    if count == 0 {
        return Ok(ends);
    }
    let step = (cols as usize / count) as u32;
    let mut end = 0u32;
    while ends.len() + 1 < count {
        end = end.saturating_add(step).min(cols);
        ends.push(end)?;
    }
    ends.push(cols)?;
    Ok(ends)
}

/// The first column, at or after `from`, before which matrices have this many entries; or the end of all columns if there is
/// none.
fn column_after<S: Semiring>(
    operands: &[&PanelledMatrix<S>],
    from: u32,
    cols: u32,
    target: usize,
) -> u32
    requires { from ≤ cols }
    ensures from { from ≤ result }
    ensures cols { result ≤ cols }
{
    let mut low = from;
    let mut high = cols;
    while low < high {
        let middle = low + (high - low) / 2;
        if entries_before(operands, middle) < target {
            low = middle + 1;
        } else {
            high = middle;
        }
    }
    low
}

/// How many entries matrices have before a column.
fn entries_before<S: Semiring>(operands: &[&PanelledMatrix<S>], column: u32) -> usize {
    let mut sum = 0usize;
    for matrix in operands {
        let (first, others) = matrix.panels();
        sum = sum.saturating_add(entries_of(first, column));
        for panel in others {
            sum = sum.saturating_add(entries_of(panel, column));
        }
    }
    sum
}

/// How many entries a block has before a column.
pub(crate) fn entries_of<S: Semiring>(block: &Block<S>, column: u32) -> usize
    ensures within { result ≤ length block.now.entries }
    ensures before { All (λ e. e.column < column) (take result block.now.entries) }
    ensures after { All (λ e. column ≤ e.column) (drop result block.now.entries) }
{
    let _shape = block.shape();
    let columns = block.column_numbers();
    let place = first_from(columns, column);
    if place < columns.len() {
        let (start, _end) = block.nth_range(place);
        start
    } else {
        block.len()
    }
}
