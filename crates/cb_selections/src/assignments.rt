//! A part of a block replaced by another block.
ghost use Rattle.std.specs.Prelude.{◌≡◌, ◌↔◌, ℕ, IsTrue, ◌<◌, ◌≤◌, ◌+◌, ◌-◌, ◌++◌, ◌^◌, length, map, take, drop, slice_index, slice_index_or, All, AllPairs, IfOk, OnOk};
ghost use Rattle.cb_matrix.specs.Sparse.{IsMatrix};
ghost use Rattle.cb_matrix.specs.Values.{empty_matrix};
ghost use Rattle.cb_dcsc.specs.Columns.{in_column, rows_of, values_of, columns_with_entries};
ghost use Rattle.cb_product.specs.SparseColumn.{IsSparseColumn};
ghost use Rattle.cb_operations.specs.SelectionAnswers.{assigned};
ghost use Rattle.cb_selections.specs.KernelSteps.{IsFirstFrom, HasRowsReplaced};

use cb_dcsc::{Block, first_from};
use cb_semirings::Semiring;
use std::alloc::{AllocError, Global};

/// The block with its part that begins at the corner, a row and a column, replaced by another block. All old entries of
/// the part are dropped, whether or not the other block has entries at their places.
///
/// Costs a copy of the entries beside the columns of the part, and a few instructions for each entry of these columns and of
/// the other block, with at most two binary searches for each of these columns.
pub fn assign<S: Semiring>(
    alloc: Global,
    block: &Block<S>,
    corner: (u32, u32),
    part: &Block<S>,
) -> Result<Block<S>, AllocError>
    requires rows { corner.0 + part.now.shape.rows ≤ block.now.shape.rows }
    requires cols { corner.1 + part.now.shape.cols ≤ block.now.shape.cols }
    ensures { IfOk result (λ whole. whole ≡ assigned S.arithmetic corner part.now block.now) }
{
    let mut out = Block::empty(alloc, block.shape());
    out.reserve(block.len().max(part.len()))?;
    let mut rows = Vec::new(alloc);
    let mut values = Vec::new(alloc);
    push_assigned(&mut out, &mut rows, &mut values, block, corner, part)?;
    Ok(out)
}

/// Stores the block with its part replaced in an empty block: the columns in front of the part, those of the part, and those
/// behind it. The lists hold one column at a time.
fn push_assigned<S: Semiring>(
    out: &mut Block<S>,
    kept_rows: &mut Vec<u32>,
    kept_values: &mut Vec<u64>,
    block: &Block<S>,
    corner: (u32, u32),
    part: &Block<S>,
) -> Result<(), AllocError>
    requires rows { corner.0 + part.now.shape.rows ≤ block.now.shape.rows }
    requires cols { corner.1 + part.now.shape.cols ≤ block.now.shape.cols }
    requires out_matrix { IsMatrix S.arithmetic out.old }
    requires empty { out.old ≡ empty_matrix block.now.shape }
    ensures { OnOk result (out.new ≡ assigned S.arithmetic corner part.now block.now) }
{
    let (outer, inner) = (block.shape(), part.shape());
    let end = corner.1 + inner.cols();
    let range = (corner.0, corner.0 + inner.rows());
    out.append_columns(block, (0, corner.1), (0, 0))?;
    let columns = block.column_numbers();
    let part_columns = part.column_numbers();
    let mut x = first_from(columns, corner.1);
    let mut y = 0;
    let mut column = next_column(columns, x, part_columns, y, corner.1, end);
    while column < end {
        let (rows, values) = column_at(block, x, column);
        let (part_rows, part_values) = column_at(part, y, column - corner.1);
        replace_rows::<S>(
            kept_rows,
            kept_values,
            rows,
            values,
            part_rows,
            part_values,
            range,
        )?;
        out.push_column(column, kept_rows, kept_values)?;
        x = next_place(columns, x, column);
        y = next_place(part_columns, y, column - corner.1);
        column = next_column(columns, x, part_columns, y, corner.1, end);
    }
    out.append_columns(block, (end, outer.cols()), (0, end))
}

/// The lower of the numbers at places of two lists, of which the second ones are moved so that 0 comes to `from`; or `end`, if
/// both lists have ended.
#[inline(always)]
fn next_column(
    columns: &[u32],
    x: usize,
    part_columns: &[u32],
    y: usize,
    from: u32,
    end: u32,
) -> u32
    requires order { from ≤ end }
    requires inside { All (λ c. c < end - from) part_columns.now }
    ensures end { result ≤ end }
    ensures left { x < length columns.now → result ≤ slice_index columns.now x }
    ensures right { y < length part_columns.now → result ≤ slice_index part_columns.now y + from }
    ensures greatest { (c : ℕ) → c ≤ slice_index_or columns.now x end → c ≤ slice_index_or part_columns.now y (end - from) + from → c ≤ result }
{
    let left = nth_or(columns, x, end);
    let right = nth_or(part_columns, y, end - from) + from;
    left.min(right)
}

/// The nth of these columns, or this number if they are fewer.
#[inline(always)]
fn nth_or(columns: &[u32], n: usize, end: u32) -> u32
    ensures { result ≡ slice_index_or columns.now n end }
{
    if n < columns.len() { columns[n] } else { end }
}

/// The rows and values of a column, which is the nth that has entries or has none.
#[inline(always)]
fn column_at<S: Semiring>(block: &Block<S>, n: usize, column: u32) -> (&[u32], &[u64])
    requires { IsFirstFrom (columns_with_entries block.now.entries) column n }
    ensures rows { result.0.now ≡ rows_of (in_column column block.now.entries) }
    ensures values { result.1.now ≡ values_of (in_column column block.now.entries) }
{
    if is_nth(block.column_numbers(), n, column) {
        return block.nth_column(n);
    }
    (&[], &[])
}

/// The place of the first of these columns that is behind one, from that of the first that isn't in front of it.
#[inline(always)]
fn next_place(columns: &[u32], n: usize, column: u32) -> usize
    requires ascending { AllPairs (λ c d. c < d) columns.now }
    requires first { IsFirstFrom columns.now column n }
    ensures { IsFirstFrom columns.now (column + 1) result }
{
    if is_nth(columns, n, column) { n + 1 } else { n }
}

/// Whether a column is the nth of these.
#[inline(always)]
fn is_nth(columns: &[u32], n: usize, column: u32) -> bool
    ensures { IsTrue result ↔ ((n < length columns.now) × (slice_index columns.now n ≡ column)) }
{
    n < columns.len() && columns[n] == column
}

/// Fills two lists with the rows and values of a column, with those in a range of rows replaced by those of another column,
/// whose row 0 comes to the first row of the range.
fn replace_rows<S: Semiring>(
    kept_rows: &mut Vec<u32>,
    kept_values: &mut Vec<u64>,
    rows: &[u32],
    values: &[u64],
    part_rows: &[u32],
    part_values: &[u64],
    range: (u32, u32),
) -> Result<(), AllocError>
    requires column { IsSparseColumn S.arithmetic rows.now values.now }
    requires part_column { IsSparseColumn S.arithmetic part_rows.now part_values.now }
    requires order { range.0 ≤ range.1 }
    requires inside { All (λ i. i < range.1 - range.0) part_rows.now }
    ensures column { OnOk result (IsSparseColumn S.arithmetic kept_rows.new.items kept_values.new.items) }
    ensures values { OnOk result (HasRowsReplaced S.arithmetic.zero range rows.now values.now part_rows.now part_values.now kept_rows.new.items kept_values.new.items) }
{
    let start = first_from(rows, range.0);
    let end = first_from(rows, range.1);
    fill_rows(kept_rows, rows, part_rows, (start, end), range.0)?;
    fill(kept_values, values, part_values, start, end)
}

/// Fills a list with rows, of which those from one place up to another are replaced by others, moved so that 0 comes to `top`.
fn fill_rows(
    list: &mut Vec<u32>,
    rows: &[u32],
    others: &[u32],
    places: (usize, usize),
    top: u32,
) -> Result<(), AllocError>
    requires order { places.0 ≤ places.1 }
    requires within { places.1 ≤ length rows.now }
    requires limit { All (λ i. i + top < 2 ^ 32) others.now }
    ensures { OnOk result (list.new.items ≡ take places.0 rows.now ++ (map (λ i. i + top) others.now ++ drop places.1 rows.now)) }
{
    list.clear();
    list.extend_from_slice(&rows[..places.0])?;
    push_moved(list, others, top)?;
    list.extend_from_slice(&rows[places.1..])?;
    Ok(())
}

/// Appends numbers to a list, moved so that 0 comes to `top`.
fn push_moved(list: &mut Vec<u32>, numbers: &[u32], top: u32) -> Result<(), AllocError>
    requires { All (λ i. i + top < 2 ^ 32) numbers.now }
    ensures { OnOk result (list.new.items ≡ list.old.items ++ map (λ i. i + top) numbers.now) }
{
    list.reserve(numbers.len())?;
    for number in numbers {
        list.push_reserved(*number + top);
    }
    Ok(())
}

/// Fills a list with items, of which those from one place up to another are replaced by others.
fn fill<T: Copy>(
    list: &mut Vec<T>,
    items: &[T],
    others: &[T],
    start: usize,
    end: usize,
) -> Result<(), AllocError>
    requires order { start ≤ end }
    requires within { end ≤ length items.now }
    ensures { OnOk result (list.new.items ≡ take start items.now ++ (others.now ++ drop end items.now)) }
{
    list.clear();
    list.extend_from_slice(&items[..start])?;
    list.extend_from_slice(others)?;
    list.extend_from_slice(&items[end..])?;
    Ok(())
}
