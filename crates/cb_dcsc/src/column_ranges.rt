//! A range of columns of one block, stored in another.
ghost use Rattle.std.specs.Prelude.{◌≡◌, ℕ, ◌<◌, ◌≤◌, ◌+◌, ◌-◌, ◌^◌, ◌++◌, length, map, slice_index, slice_range, All, AllPairs, OnOk, OnErr, vec_len, vec_capacity};
ghost use Rattle.cb_matrix.specs.Sparse.{IsMatrix};
ghost use Rattle.cb_dcsc.specs.Columns.{with_entries, moved_columns};
ghost use Rattle.cb_dcsc.specs.Compressed.{opened};

use crate::{Block, extend_reserved, reserve_both};
use cb_semirings::Semiring;
use std::alloc::AllocError;

impl<S: Semiring> Block<S> {
    /// Stores the entries that another block has in a range of columns after all the others, moved so that row 0 and the first
    /// of these columns come to `corner`, a row and a column. If memory is refused, the block stays as it was.
    ///
    /// Costs two binary searches, and a copy of these entries and of the numbers of their columns; nothing is done column by
    /// column.
    pub fn append_columns(
        &mut self,
        other: &Block<S>,
        cols: (u32, u32),
        corner: (u32, u32),
    ) -> Result<(), AllocError>
        requires range { cols.0 ≤ cols.1 }
        requires rows { corner.0 + other.now.shape.rows ≤ self.old.shape.rows }
        requires cols { corner.1 + (cols.1 - cols.0) ≤ self.old.shape.cols }
        requires before { All (λ e. e.column < corner.1) self.old.entries }
        ensures ok { OnOk result (self.new ≡ with_entries self.old (moved_columns cols corner other.now.entries)) }
        ensures err { OnErr result (self.new ≡ self.old) }
        ensures matrix { IsMatrix S.arithmetic self.new }
    {
        let len = self.rows.len();
        let first = first_from(&other.columns, cols.0);
        let end = first_from(&other.columns, cols.1);
        if end <= first {
            return Ok(());
        }
        let (start, stop) = starts_at(&other.starts, first, end);
        let (columns, entries) = (end - first, stop - start);
        reserve_both(&mut self.columns, &mut self.starts, columns, columns + 1)?;
        reserve_both(&mut self.rows, &mut self.values, entries, entries)?;
        extend_moved(
            &mut self.columns,
            between(&other.columns, first, end),
            cols.0,
            corner.1,
        );
        extend_starts(
            &mut self.starts,
            between(&other.starts, first + 1, end + 1),
            start,
            len,
        );
        extend_moved(
            &mut self.rows,
            between(&other.rows, start, stop),
            0,
            corner.0,
        );
        extend_reserved(&mut self.values, between(&other.values, start, stop));
        Ok(())
    }
}

/// How many of these numbers, which ascend, are below a bound. They are searched only if some are below it and some aren't.
pub fn first_from(numbers: &[u32], bound: u32) -> usize
    requires { AllPairs (λ i j. i < j) numbers.now }
    ensures within { result ≤ length numbers.now }
    ensures below { (k : ℕ) → k < result → slice_index numbers.now k < bound }
    ensures from { (k : ℕ) → result ≤ k → k < length numbers.now → bound ≤ slice_index numbers.now k }
{
    if numbers.is_empty() || bound <= numbers[0] {
        return 0;
    }
    if numbers[numbers.len() - 1] < bound {
        return numbers.len();
    }
    match numbers.binary_search(&bound) {
        Ok(n) => n,
        Err(n) => n,
    }
}

/// Where two parts start.
fn starts_at(starts: &[usize], first: usize, second: usize) -> (usize, usize)
    requires first { first < length starts.now }
    requires second { second < length starts.now }
    ensures first { result.0 ≡ slice_index starts.now first }
    ensures second { result.1 ≡ slice_index starts.now second }
{
    (starts[first], starts[second])
}

/// The items from one place up to another.
fn between<T: Copy>(items: &[T], start: usize, end: usize) -> &[T]
    requires order { start ≤ end }
    requires within { end ≤ length items.now }
    ensures { result.now ≡ slice_range items.now start end }
{
    &items[start..end]
}

/// Appends numbers to a list that has room for them, moved so that `from` comes to `to`.
fn extend_moved(list: &mut Vec<u32>, numbers: &[u32], from: u32, to: u32)
    requires room { vec_len list.old + length numbers.now ≤ vec_capacity list.old }
    requires above { All (λ n. from ≤ n) numbers.now }
    requires limit { All (λ n. n - from + to < 2 ^ 32) numbers.now }
    ensures { list.new.items ≡ list.old.items ++ map (λ n. n - from + to) numbers.now }
{
    let len = list.len();
    extend_reserved(list, numbers);
    if from != to {
        move_numbers(&mut list[len..], from, to);
    }
}

/// Moves numbers so that `from` comes to `to`.
fn move_numbers(numbers: &mut [u32], from: u32, to: u32)
    requires above { All (λ n. from ≤ n) numbers.old }
    requires limit { All (λ n. n - from + to < 2 ^ 32) numbers.old }
    ensures { numbers.new ≡ map (λ n. n - from + to) numbers.old }
{
    for number in numbers.iter_mut() {
        *number = *number - from + to;
    }
}

/// Appends where more parts end to a list of starts that has room for them, moved so that `from` comes to `to`.
fn extend_starts(starts: &mut Vec<usize>, ends: &[usize], from: usize, to: usize)
    requires room { vec_len starts.old + length ends.now < vec_capacity starts.old }
    requires above { All (λ n. from ≤ n) ends.now }
    requires limit { All (λ n. n - from + to < 2 ^ 64) ends.now }
    ensures { starts.new.items ≡ opened starts.old.items ++ map (λ n. n - from + to) ends.now }
{
    if starts.is_empty() {
        starts.push_reserved(0);
    }
    let len = starts.len();
    extend_reserved(starts, ends);
    if from != to {
        move_starts(&mut starts[len..], from, to);
    }
}

/// Moves starts so that `from` comes to `to`.
fn move_starts(starts: &mut [usize], from: usize, to: usize)
    requires above { All (λ n. from ≤ n) starts.old }
    requires limit { All (λ n. n - from + to < 2 ^ 64) starts.old }
    ensures { starts.new ≡ map (λ n. n - from + to) starts.old }
{
    for start in starts.iter_mut() {
        *start = *start - from + to;
    }
}
