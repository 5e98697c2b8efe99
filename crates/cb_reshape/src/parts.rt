//! A part of a block, moved to another place.
ghost use Rattle.std.specs.Prelude.{◌≡◌, ◌≢◌, ℕ, ◌<◌, ◌≤◌, ◌+◌, ◌-◌, ◌^◌, length, map, slice_index, All, AllPairs, IfOk, OnOk};
ghost use Rattle.cb_semirings.specs.Arithmetic.{IsValue};
ghost use Rattle.cb_matrix.specs.Sparse.{IsMatrix};
ghost use Rattle.cb_dcsc.specs.Columns.{columns_with_entries, with_entries};
ghost use Rattle.cb_dcsc.specs.Compressed.{entries_in};
ghost use Rattle.cb_reshape.specs.Moving.{Fits, moved_entries};

use cb_dcsc::{Block, first_from};
use cb_matrix::Shape;
use cb_semirings::Semiring;
use std::alloc::{AllocError, Global};

/// A range of rows and a range of columns, each given by its first number and the one after its last, and the place to
/// which the first row and column move.
#[derive(Clone, Copy)]
pub(crate) struct Part {
    pub rows: (u32, u32),
    pub cols: (u32, u32),
    pub corner: (u32, u32),
}

/// The part of a block, in a block of the given shape.
pub(crate) fn moved<S: Semiring>(
    alloc: Global,
    shape: Shape,
    block: &Block<S>,
    part: Part,
) -> Result<Block<S>, AllocError>
    requires matrix { IsMatrix S.arithmetic block.now }
    requires fits { Fits shape part }
    ensures entries { IfOk result (λ m. m ≡ record { shape = shape; entries = moved_entries part block.now.entries }) }
    ensures matrix { IfOk result (λ m. IsMatrix S.arithmetic m) }
{
    if part.rows.0 == 0 && block.shape().rows() <= part.rows.1 {
        return moved_columns(alloc, shape, block, part);
    }
    moved_rows(alloc, shape, block, part)
}

/// The same for a part that has all rows of the block, so that whole columns move.
fn moved_columns<S: Semiring>(
    alloc: Global,
    shape: Shape,
    block: &Block<S>,
    part: Part,
) -> Result<Block<S>, AllocError>
    requires matrix { IsMatrix S.arithmetic block.now }
    requires fits { Fits shape part }
    requires first { part.rows.0 ≡ 0 }
    requires rows { block.now.shape.rows ≤ part.rows.1 }
    ensures entries { IfOk result (λ m. m ≡ record { shape = shape; entries = moved_entries part block.now.entries }) }
    ensures matrix { IfOk result (λ m. IsMatrix S.arithmetic m) }
{
    let mut out = Block::empty(alloc, shape);
    out.append_columns(block, part.cols, part.corner)?;
    Ok(out)
}

/// The same for any part, column by column.
fn moved_rows<S: Semiring>(
    alloc: Global,
    shape: Shape,
    block: &Block<S>,
    part: Part,
) -> Result<Block<S>, AllocError>
    requires matrix { IsMatrix S.arithmetic block.now }
    requires fits { Fits shape part }
    ensures entries { IfOk result (λ m. m ≡ record { shape = shape; entries = moved_entries part block.now.entries }) }
    ensures matrix { IfOk result (λ m. IsMatrix S.arithmetic m) }
{
    let columns = block.column_numbers();
    let first = first_from(columns, part.cols.0);
    let last = first_from(columns, part.cols.1);
    let mut out = Block::empty(alloc, shape);
    out.reserve(count(block, first, last, part.rows))?;
    let mut list = Vec::new(alloc);
    for n in first..last {
        let (rows, values) = block.nth_column(n);
        append_column(&mut out, &mut list, columns[n], rows, values, part)?;
    }
    Ok(out)
}

/// How many entries a range of rows has in the columns with entries from the nth up to another.
fn count<S: Semiring>(block: &Block<S>, first: usize, last: usize, rows: (u32, u32)) -> usize
    requires range { rows.0 ≤ rows.1 }
    requires within { last ≤ length (columns_with_entries block.now.entries) }
{
    let mut entries = 0usize;
    for n in first..last {
        let (all, _) = block.nth_column(n);
        let (start, end) = range_within(all, rows);
        entries = entries.saturating_add(end - start);
    }
    entries
}

/// Appends what the part has of one of its columns. The list is for the moved rows.
fn append_column<S: Semiring>(
    out: &mut Block<S>,
    list: &mut Vec<u32>,
    column: u32,
    rows: &[u32],
    values: &[u64],
    part: Part,
) -> Result<(), AllocError>
    requires fits { Fits out.old.shape part }
    requires matrix { IsMatrix S.arithmetic out.old }
    requires column_start { part.cols.0 ≤ column }
    requires column_end { column < part.cols.1 }
    requires before { All (λ e. e.column < column - part.cols.0 + part.corner.1) out.old.entries }
    requires order { AllPairs (λ i j. i < j) rows.now }
    requires lengths { length values.now ≡ length rows.now }
    requires values { All (IsValue S.arithmetic) values.now }
    requires not_zero { All (λ v. v ≢ S.arithmetic.zero) values.now }
    ensures entries { OnOk result (out.new ≡ with_entries out.old (moved_entries part (entries_in column rows.now values.now))) }
    ensures matrix { OnOk result (IsMatrix S.arithmetic out.new) }
{
    let (start, end) = range_within(rows, part.rows);
    fill_moved(list, &rows[start..end], part.rows.0, part.corner.0)?;
    let moved_column = column - part.cols.0 + part.corner.1;
    out.push_column(moved_column, list, &values[start..end])?;
    Ok(())
}

/// Fills a list with numbers, moved so that `from` comes to `to`.
fn fill_moved(list: &mut Vec<u32>, numbers: &[u32], from: u32, to: u32) -> Result<(), AllocError>
    requires above { All (λ i. from ≤ i) numbers.now }
    requires limit { All (λ i. i - from + to < 2 ^ 32) numbers.now }
    ensures { OnOk result (list.new.items ≡ map (λ i. i - from + to) numbers.now) }
{
    list.clear();
    list.reserve(numbers.len())?;
    for number in numbers {
        list.push_reserved(*number - from + to);
    }
    Ok(())
}

/// Where those of these numbers, which ascend, that are in a range start and end.
fn range_within(numbers: &[u32], range: (u32, u32)) -> (usize, usize)
    requires range { range.0 ≤ range.1 }
    requires ascending { AllPairs (λ i j. i < j) numbers.now }
    ensures order { result.0 ≤ result.1 }
    ensures within { result.1 ≤ length numbers.now }
    ensures before { (k : ℕ) → k < result.0 → slice_index numbers.now k < range.0 }
    ensures first { (k : ℕ) → result.0 ≤ k → k < length numbers.now → range.0 ≤ slice_index numbers.now k }
    ensures last { (k : ℕ) → k < result.1 → slice_index numbers.now k < range.1 }
    ensures after { (k : ℕ) → result.1 ≤ k → k < length numbers.now → range.1 ≤ slice_index numbers.now k }
{
    (first_from(numbers, range.0), first_from(numbers, range.1))
}
