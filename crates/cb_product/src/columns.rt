//! A column of a product while it is built, and the sum of two columns.
ghost use Rattle.std.specs.Prelude.{◌≡◌, ◌≢◌, ◌↔◌, IsTrue, ℕ, ◌<◌, ◌≤◌, List, [], length, drop, All, AllPairs, Contains, IfOk, IfNone, IfSome, OnOk, slice_index, slice_range, take};
ghost use Rattle.cb_semirings.specs.Arithmetic.{IsValue};
ghost use Rattle.cb_dcsc.specs.Columns.{in_column, row_value, rows_of, values_of};
ghost use Rattle.cb_product.specs.SparseColumn.{IsSparseColumn, IsColumnOf, AddsToColumn, one_value, scaled, scaled_at, scaled_rest, joined_value};
ghost use Rattle.cb_product.specs.Terms.{IsTerm, terms_value};
ghost use Rattle.cb_product.specs.InColumns.{is_among};
ghost use Rattle.cb_product.specs.Outside.{outside, ArePassed};

use crate::joins::{products_in, put, put_joined, put_rest, put_terms};
use crate::terms::Term;
use cb_dcsc::Block;
use cb_semirings::Semiring;
use std::alloc::{AllocError, Global};
use std::marker::{Model, PhantomData};

/// A sparse column: the rows of its entries, ascending, and their values, none of which is zero. Its lists have room for
/// more entries, so that an entry is stored without asking for memory.
#[derive(Drop)]
pub(crate) struct Column<S: Semiring> {
    /// How many entries there are. What the lists have behind them doesn't count.
    len: usize,
    rows: Vec<u32>,
    values: Vec<u64>,
    semiring: PhantomData<S>,
}

impl<S: Semiring> Model for Column<S> {
    ghost use Rattle.std.specs.Prelude.{◌≤◌, take, length};
    ghost use Rattle.cb_product.specs.SparseColumn.{SparseColumn, IsSparseColumn, first_entries};

    ghost Value = { SparseColumn };

    ghost view = { λ a. first_entries a.len a.rows.items a.values.items };

    ghost invariant = { λ a. IsSparseColumn S.arithmetic (take a.len a.rows.items) (take a.len a.values.items) × (a.len ≤ length a.rows.items) × (length a.rows.items ≤ length a.values.items) };
}

impl<S: Semiring> Column<S> {
    /// Returns a column without entries.
    pub fn new(alloc: Global) -> Self
        ensures { result.rows ≡ [] }
    {
        Column {
            len: 0,
            rows: Vec::new(alloc),
            values: Vec::new(alloc),
            semiring: PhantomData,
        }
    }

    /// Removes all entries, and keeps the memory.
    pub fn clear(&mut self)
        ensures { self.new.rows ≡ [] }
    {
        self.len = 0;
    }

    /// Returns the rows and the values of the entries.
    pub fn entries(&self) -> (&[u32], &[u64])
        ensures rows { result.0.now ≡ self.now.rows }
        ensures values { result.1.now ≡ self.now.values }
        ensures column { IsSparseColumn S.arithmetic self.now.rows self.now.values }
    {
        (&self.rows[..self.len], &self.values[..self.len])
    }

    /// Appends an entry, unless its value is zero. Its row comes after all others.
    #[inline(always)]
    pub fn keep(&mut self, row: u32, value: u64) -> Result<(), AllocError>
        requires after { All (λ i. i < row) self.old.rows }
        requires value { IsValue S.arithmetic value }
        ensures sum { OnOk result (AddsToColumn S.arithmetic (one_value S.arithmetic.zero (row, value)) self.old self.new) }
        ensures rows { OnOk result ((bound : ℕ) → row < bound → All (λ i. i < bound) self.new.rows) }
    {
        if self.len == self.rows.len() {
            let room = self.len.saturating_mul(2).saturating_add(16);
            lengthen(&mut self.rows, &mut self.values, room)?;
        }
        self.len = put::<S>(&mut self.rows, &mut self.values, self.len, row, value);
        Ok(())
    }

    /// Appends the entries of another column from the nth on, times a factor if there is one. Their rows come after all
    /// others.
    pub fn append(
        &mut self,
        rows: &[u32],
        values: &[u64],
        scale: Option<u64>,
        from: usize,
    ) -> Result<(), AllocError>
        requires lengths { length values.now ≡ length rows.now }
        requires values { All (IsValue S.arithmetic) values.now }
        requires order { AllPairs (λ i j. i < j) rows.now }
        requires scale { IfSome scale (IsValue S.arithmetic) }
        requires after { from < length rows.now → All (λ i. i < slice_index rows.now from) self.old.rows }
        ensures { OnOk result (AddsToColumn S.arithmetic (scaled_rest S.arithmetic rows.now values.now scale from) self.old self.new) }
    {
        let room = self.len + rows.len();
        lengthen(&mut self.rows, &mut self.values, room)?;
        self.len = put_rest::<S>(
            &mut self.rows,
            &mut self.values,
            self.len,
            rows,
            values,
            scale,
            from,
        );
        Ok(())
    }

    /// Replaces this column by the sum of two others, the second times a factor if there is one. Costs O(entries of both).
    pub fn join(
        &mut self,
        own_rows: &[u32],
        own_values: &[u64],
        rows: &[u32],
        values: &[u64],
        scale: Option<u64>,
    ) -> Result<(), AllocError>
        requires own_lengths { length own_values.now ≡ length own_rows.now }
        requires own_values { All (IsValue S.arithmetic) own_values.now }
        requires own_order { AllPairs (λ i j. i < j) own_rows.now }
        requires lengths { length values.now ≡ length rows.now }
        requires values { All (IsValue S.arithmetic) values.now }
        requires order { AllPairs (λ i j. i < j) rows.now }
        requires scale { IfSome scale (IsValue S.arithmetic) }
        ensures { OnOk result (IsColumnOf S.arithmetic (joined_value S.arithmetic own_rows.now own_values.now rows.now values.now scale) self.new) }
    {
        let room = own_rows.len() + rows.len();
        lengthen(&mut self.rows, &mut self.values, room)?;
        self.len = put_joined::<S>(
            &mut self.rows,
            &mut self.values,
            own_rows,
            own_values,
            None,
            rows,
            values,
            scale,
        );
        Ok(())
    }

    /// Replaces this column by the sum of another and of terms, which are joined to it one after another. The entries of
    /// `spare` are lost. Costs O(entries and products * terms).
    pub fn join_terms(
        &mut self,
        spare: &mut Column<S>,
        own_rows: &[u32],
        own_values: &[u64],
        rows: &[u32],
        values: &[u64],
        terms: &[Term],
    ) -> Result<(), AllocError>
        requires own_lengths { length own_values.now ≡ length own_rows.now }
        requires own_values { All (IsValue S.arithmetic) own_values.now }
        requires own_order { AllPairs (λ i j. i < j) own_rows.now }
        requires lengths { length values.now ≡ length rows.now }
        requires values { All (IsValue S.arithmetic) values.now }
        requires terms { All (IsTerm S.arithmetic rows.now) terms.now }
        ensures { OnOk result (IsColumnOf S.arithmetic (λ i. S.arithmetic.add (row_value S.arithmetic.zero own_rows.now own_values.now i) (terms_value S.arithmetic rows.now values.now i terms.now)) self.new) }
    {
        let room = own_rows.len().saturating_add(products_in(terms));
        lengthen(&mut self.rows, &mut self.values, room)?;
        lengthen(&mut spare.rows, &mut spare.values, room)?;
        spare.len = 0;
        self.len = put_terms::<S>(
            &mut self.rows,
            &mut self.values,
            &mut spare.rows,
            &mut spare.values,
            own_rows,
            own_values,
            rows,
            values,
            terms,
        );
        Ok(())
    }

    /// Replaces this column by another, times a factor if there is one, without its entries in the excluded rows. Costs
    /// O(entries + excluded rows).
    pub fn fill_outside(
        &mut self,
        rows: &[u32],
        values: &[u64],
        scale: Option<u64>,
        excluded: &[u32],
    ) -> Result<(), AllocError>
        requires lengths { length values.now ≡ length rows.now }
        requires values { All (IsValue S.arithmetic) values.now }
        requires order { AllPairs (λ i j. i < j) rows.now }
        requires scale { IfSome scale (IsValue S.arithmetic) }
        requires excluded { AllPairs (λ i j. i < j) excluded.now }
        ensures { OnOk result (IsColumnOf S.arithmetic (outside S.arithmetic.zero excluded.now (scaled_at S.arithmetic rows.now values.now scale)) self.new) }
    {
        self.clear();
        let mut next = 0;
        for n in 0..rows.len() {
            if !is_next(excluded, &mut next, rows[n]) {
                self.keep(rows[n], scaled::<S>(values[n], scale))?;
            }
        }
        Ok(())
    }
}

/// Makes the lists of a column as long as `room`, unless they are longer.
#[inline(always)]
fn lengthen(rows: &mut Vec<u32>, values: &mut Vec<u64>, room: usize) -> Result<(), AllocError>
    requires { length rows.old.items ≤ length values.old.items }
    ensures room { OnOk result (room ≤ length rows.new.items) }
    ensures lengths { length rows.new.items ≤ length values.new.items }
    ensures rows { take (length rows.old.items) rows.new.items ≡ rows.old.items }
    ensures values { take (length values.old.items) values.new.items ≡ values.old.items }
{
    if room <= rows.len() {
        return Ok(());
    }
    grow(rows, values, room)
}

/// Does so where the first list is shorter than `room`.
#[inline(never)]
fn grow(rows: &mut Vec<u32>, values: &mut Vec<u64>, room: usize) -> Result<(), AllocError>
    requires lengths { length rows.old.items ≤ length values.old.items }
    requires shorter { length rows.old.items ≤ room }
    ensures room { OnOk result (room ≤ length rows.new.items) }
    ensures lengths { length rows.new.items ≤ length values.new.items }
    ensures rows { take (length rows.old.items) rows.new.items ≡ rows.old.items }
    ensures values { take (length values.old.items) values.new.items ≡ values.old.items }
{
    if room > values.len() {
        values.resize(room, 0)?;
    }
    rows.resize(room, 0)
}

/// Whether a row is one of these rows, which ascend. A caller that asks for rows in ascending order, and keeps `next` from
/// call to call, gets all answers in O(rows + answers).
#[inline(always)]
fn is_next(rows: &[u32], next: &mut usize, row: u32) -> bool
    requires ascending { AllPairs (λ i j. i < j) rows.now }
    requires passed { ArePassed rows.now next.old row }
    ensures among { result ≡ is_among rows.now row }
    ensures passed { ArePassed rows.now next.new row }
{
    while *next < rows.len() && rows[*next] < row {
        *next += 1;
    }
    *next < rows.len() && rows[*next] == row
}

/// Returns a value times a factor if there is one. No factor stands for one, which a semiring need not have.
#[inline(always)]
pub(crate) fn scaled<S: Semiring>(value: u64, scale: Option<u64>) -> u64
    requires value { IsValue S.arithmetic value }
    requires scale { IfSome scale (IsValue S.arithmetic) }
    ensures { result ≡ scaled S.arithmetic value scale }
{
    match scale {
        Some(factor) => S::mul(value, factor),
        None => value,
    }
}

/// Whether a value is the semiring's zero, which isn't stored.
#[inline(always)]
pub(crate) fn is_zero<S: Semiring>(value: u64) -> bool
    ensures { IsTrue result ↔ (value ≡ S.arithmetic.zero) }
{
    value == S::zero()
}

/// Returns the rows and the values of a column, which [`place_of_next`] finds.
#[inline(always)]
pub(crate) fn of_next<'a, S: Semiring>(
    block: &'a Block<S>,
    next: &mut usize,
    column: u32,
) -> (&'a [u32], &'a [u64])
    ensures rows { result.0.now ≡ rows_of (in_column column block.now.entries) }
    ensures values { result.1.now ≡ values_of (in_column column block.now.entries) }
    ensures ascending { AllPairs (λ i j. i < j) result.0.now }
    ensures are_values { All (IsValue S.arithmetic) result.1.now }
{
    match place_of_next(block.column_numbers(), next, column) {
        Some(n) => block.nth_column(n),
        None => (&[], &[]),
    }
}

/// Returns where the entries of a column, which [`place_of_next`] finds, start and end among all.
#[inline(always)]
pub(crate) fn range_of_next<S: Semiring>(
    block: &Block<S>,
    next: &mut usize,
    column: u32,
) -> (usize, usize)
    ensures order { result.0 ≤ result.1 }
    ensures within { result.1 ≤ length block.now.entries }
    ensures entries { slice_range block.now.entries result.0 result.1 ≡ in_column column block.now.entries }
{
    match place_of_next(block.column_numbers(), next, column) {
        Some(n) => block.nth_range(n),
        None => (0, 0),
    }
}

/// Returns the place of a column among columns that ascend. A caller that asks for columns in ascending order, and keeps
/// `next` from call to call, gets each in constant time. A column that is out of order is found by a binary search.
#[inline(always)]
fn place_of_next(columns: &[u32], next: &mut usize, column: u32) -> Option<usize>
    requires { AllPairs (λ c d. c < d) columns.now }
    ensures within { IfSome result (λ n. n < length columns.now) }
    ensures column { IfSome result (λ n. slice_index columns.now n ≡ column) }
    ensures none { IfNone result (All (λ c. c ≢ column) columns.now) }
{
    let n = *next;
    if n < columns.len() && columns[n] == column {
        *next = n + 1;
        return Some(n);
    }
    if is_missing(columns, n, column) {
        return None;
    }
    match columns.binary_search(&column) {
        Ok(n) => Some(n),
        Err(_) => None,
    }
}

/// Whether a column lies between the nth of these columns, which ascend, and the one before it, and so isn't one of them.
#[inline(always)]
fn is_missing(columns: &[u32], n: usize, column: u32) -> bool
    requires { AllPairs (λ c d. c < d) columns.now }
    ensures { IsTrue result → All (λ c. c ≢ column) columns.now }
{
    n <= columns.len()
        && (n == 0 || columns[n - 1] < column)
        && (n == columns.len() || column < columns[n])
}

/// Returns the columns in at least one of two lists, ascending, each once. Costs O(columns of both).
pub(crate) fn union(alloc: Global, left: &[u32], right: &[u32]) -> Result<Vec<u32>, AllocError>
    requires left { AllPairs (λ c d. c < d) left.now }
    requires right { AllPairs (λ c d. c < d) right.now }
    ensures ascending { IfOk result (λ v. AllPairs (λ c d. c < d) v.items) }
    ensures left { IfOk result (λ v. (c : ℕ) → Contains left.now c → Contains v.items c) }
    ensures right { IfOk result (λ v. (c : ℕ) → Contains right.now c → Contains v.items c) }
    ensures within { IfOk result (λ v. (n : ℕ) → All (λ c. c < n) left.now → All (λ c. c < n) right.now → All (λ c. c < n) v.items) }
{
    let mut columns = Vec::new(alloc);
    columns.reserve(left.len().max(right.len()))?;
    let mut x = 0;
    let mut y = 0;
    while x < left.len() {
        if y >= right.len() {
            columns.extend_from_slice(&left[x..])?;
            return Ok(columns);
        }
        let first = left[x];
        let second = right[y];
        if first < second {
            columns.push(first)?;
            x += 1;
        } else if second < first {
            columns.push(second)?;
            y += 1;
        } else {
            columns.push(first)?;
            x += 1;
            y += 1;
        }
    }
    columns.extend_from_slice(&right[y..])?;
    Ok(columns)
}
