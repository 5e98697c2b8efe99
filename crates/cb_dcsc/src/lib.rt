//! Sparse blocks in doubly compressed columns.
//!
//! The memory of a block depends on its entries alone. No list in it is as long as a row or a column of its shape: a
//! block of 2,147,483,647 by 2,147,483,647 with three entries holds three entries.
//!
//! It has four lists: the columns that have entries, ascending (JC); where the entries of each of these columns start,
//! and where the last of them end (CP); and the row (IR) and the value (NUM) of every entry, by column and then by row.
//! A block without entries has four empty lists. This is the layout of Buluç and Gilbert, Parallel Sparse Matrix-Matrix
//! Multiplication and Indexing (SIAM J. Sci. Comput. 2012, section 3), without their AUX index: a column is found by
//! binary search in JC.
//!
//! The lists are private. Callers see a block as a shape and its stored entries, the same record as for a matrix of
//! `cb_matrix`, and iterate over its columns, each borrowed as two slices.
#![tactic(auto)]

ghost use Rattle.std.specs.Prelude.{◌≡◌, ◌≢◌, ◌↔◌, ℕ, ◌<◌, ◌≤◌, ◌+◌, ◌-◌, ◌^◌, IsTrue, List, [], ◌∷◌, ◌++◌, length, All, AllPairs, Contains};
ghost use Rattle.std.specs.Prelude.{IfOk, IsErrOf, OnOk, OnErr, Some, vec_len, vec_capacity, slice_index, slice_index_or, slice_range, take, drop, map};
ghost use Rattle.cb_semirings.specs.Arithmetic.{IsValue};
ghost use Rattle.cb_dcsc.specs.Compressed.{opened, entries_in, with_column, csc_matrix, AreStarts, AreNonempty};

mod block_faults;
mod column_ranges;
mod single_rows;

pub use block_faults::BlockFault;
use cb_matrix::{Entry, Shape};
use cb_semirings::Semiring;
pub use column_ranges::first_from;
use std::alloc::{AllocError, Global};
use std::marker::{Model, PhantomData};
use std::mem::swap;

/// How many times as many entries make it worth while to move them within their memory, instead of copying them.
const FAR_MORE: usize = 8;

/// A sparse matrix, stored by the columns that have entries.
#[derive(Drop)]
pub struct Block<S: Semiring> {
    shape: Shape,
    /// JC: the columns that have entries.
    columns: Vec<u32>,
    /// CP: where the entries of each column start, and where those of the last one end.
    starts: Vec<usize>,
    /// IR: the row of each entry.
    rows: Vec<u32>,
    /// NUM: the value of each entry.
    values: Vec<u64>,
    semiring: PhantomData<S>,
}

impl<S: Semiring> Model for Block<S> {
    ghost use Rattle.cb_matrix.specs.Sparse.{Sparse};
    ghost use Rattle.cb_dcsc.specs.Compressed.{block_of, IsBlock};

    ghost Value = { Sparse };

    ghost view = { λ a. block_of a.shape a.columns.items a.starts.items a.rows.items a.values.items };

    ghost invariant = { λ a. IsBlock S.arithmetic a.shape a.columns.items a.starts.items a.rows.items a.values.items };
}

impl<S: Semiring> Block<S> {
    ghost use Rattle.cb_matrix.specs.Sparse.{Sparse, IsMatrix, at, IsInside, IsBefore};
    ghost use Rattle.cb_matrix.specs.Values.{empty_matrix};
    ghost use Rattle.cb_dcsc.specs.declared.block_faults.BlockFault.TheVariants.{Place, Order, Zero};
    ghost use Rattle.cb_dcsc.specs.BlockFaults.{first_fault};
    ghost use Rattle.cb_dcsc.specs.Columns.{in_column, rows_of, values_of, columns_with_entries, with_entry, with_entries, revalued};

    /// The block without entries.
    pub fn empty(alloc: Global, shape: Shape) -> Self
        ensures value { result ≡ empty_matrix shape }
        ensures matrix { IsMatrix S.arithmetic result }
    {
        Block {
            shape,
            columns: Vec::new(alloc),
            starts: Vec::new(alloc),
            rows: Vec::new(alloc),
            values: Vec::new(alloc),
            semiring: PhantomData,
        }
    }

    /// How many rows and columns there are. The contract also says that the stored entries are inside them, ascend by
    /// column and then row, and aren't zero.
    pub fn shape(&self) -> Shape
        ensures shape { result ≡ self.now.shape }
        ensures matrix { IsMatrix S.arithmetic self.now }
    {
        self.shape
    }

    /// How many entries are stored.
    pub fn len(&self) -> usize
        ensures { result ≡ length self.now.entries }
    {
        self.rows.len()
    }

    /// How many columns have entries.
    pub fn columns(&self) -> usize
        ensures { result ≡ length (columns_with_entries self.now.entries) }
    {
        self.columns.len()
    }

    /// The number of the nth column that has entries, in constant time.
    pub fn column_number(&self, n: usize) -> u32
        requires { n < length (columns_with_entries self.now.entries) }
        ensures { result ≡ slice_index (columns_with_entries self.now.entries) n }
    {
        self.columns[n]
    }

    /// The columns that have entries, ascending.
    pub fn column_numbers(&self) -> &[u32]
        ensures numbers { result.now ≡ columns_with_entries self.now.entries }
        ensures ascending { AllPairs (λ c d. c < d) result.now }
        ensures inside { All (λ c. c < self.now.shape.cols) result.now }
        ensures all { All (λ e. Contains result.now e.column) self.now.entries }
    {
        &self.columns
    }

    /// The rows of all entries, by column and then by row.
    pub fn row_numbers(&self) -> &[u32]
        ensures { result.now ≡ rows_of self.now.entries }
    {
        &self.rows
    }

    /// The values of all entries, by column and then by row.
    pub fn values(&self) -> &[u64]
        ensures { result.now ≡ values_of self.now.entries }
    {
        &self.values
    }

    /// Where the entries of the nth column that has entries start and end among all entries.
    pub fn nth_range(&self, n: usize) -> (usize, usize)
        requires { n < length (columns_with_entries self.now.entries) }
        ensures some { result.0 < result.1 }
        ensures within { result.1 ≤ length self.now.entries }
        ensures entries { slice_range self.now.entries result.0 result.1 ≡ in_column (slice_index (columns_with_entries self.now.entries) n) self.now.entries }
    {
        bounds(&self.starts, n)
    }

    /// Where the entries of a column start and end among all entries, by a binary search.
    pub fn range(&self, column: u32) -> (usize, usize)
        ensures order { result.0 ≤ result.1 }
        ensures within { result.1 ≤ length self.now.entries }
        ensures entries { slice_range self.now.entries result.0 result.1 ≡ in_column column self.now.entries }
    {
        match self.columns.binary_search(&column) {
            Ok(n) => self.nth_range(n),
            Err(_) => (0, 0),
        }
    }

    /// The rows of a column, ascending, and its values, by a binary search. Both are empty if the column has no entries
    /// or is outside the shape.
    pub fn column(&self, column: u32) -> (&[u32], &[u64])
        ensures rows { result.0.now ≡ rows_of (in_column column self.now.entries) }
        ensures values { result.1.now ≡ values_of (in_column column self.now.entries) }
        ensures ascending { AllPairs (λ i j. i < j) result.0.now }
        ensures are_values { All (IsValue S.arithmetic) result.1.now }
    {
        match self.columns.binary_search(&column) {
            Ok(n) => self.nth_column(n),
            Err(_) => (&[], &[]),
        }
    }

    /// The rows and values of the nth column that has entries, in constant time.
    #[inline(always)]
    pub fn nth_column(&self, n: usize) -> (&[u32], &[u64])
        requires { n < length (columns_with_entries self.now.entries) }
        ensures rows { result.0.now ≡ rows_of (in_column (slice_index (columns_with_entries self.now.entries) n) self.now.entries) }
        ensures values { result.1.now ≡ values_of (in_column (slice_index (columns_with_entries self.now.entries) n) self.now.entries) }
        ensures ascending { AllPairs (λ i j. i < j) result.0.now }
        ensures are_values { All (IsValue S.arithmetic) result.1.now }
    {
        (
            part(&self.starts, &self.rows, n),
            part(&self.starts, &self.values, n),
        )
    }

    /// The value at a place, by two binary searches.
    pub fn get(&self, row: u32, column: u32) -> u64
        ensures value { result ≡ at S.arithmetic self.now row column }
        ensures is_value { IsValue S.arithmetic result }
    {
        let (rows, values) = self.column(column);
        match rows.binary_search(&row) {
            Ok(n) => values[n],
            Err(_) => S::zero(),
        }
    }

    /// The stored entry with an index, counted by column and then by row. Its column is found by a binary search; to
    /// iterate over all entries, take the columns one after another.
    pub fn entry_at(&self, index: usize) -> Entry
        requires { index < length self.now.entries }
        ensures { result ≡ slice_index_or self.now.entries index result }
    {
        let n = part_of(&self.starts, index);
        Entry {
            row: self.rows[index],
            column: self.columns[n],
            value: self.values[index],
        }
    }

    /// A list of all stored entries, by column and then by row.
    pub fn entries(&self) -> Result<Vec<Entry>, AllocError>
        ensures { IfOk result (λ v. v.items ≡ self.now.entries) }
    {
        let mut entries = Vec::new(*self.rows.allocator());
        entries.reserve(self.len())?;
        for n in 0..self.columns() {
            let (rows, values) = self.nth_column(n);
            append_column(&mut entries, self.column_number(n), rows, values)?;
        }
        Ok(entries)
    }

    /// The block of entries that ascend by column and then by row, none of them zero. Otherwise the fault of the first
    /// faulty entry: it is outside the shape, or else not after the entry before it, or else zero.
    pub fn from_sorted(alloc: Global, shape: Shape, entries: &[Entry]) -> Result<Self, BlockFault>
        requires { All (λ e. IsValue S.arithmetic e.value) entries.now }
        ensures ok { IfOk result (λ m. m ≡ record { shape = shape; entries = entries.now }) }
        ensures place { (n : ℕ) → IsErrOf result (BlockFault.Place n) ↔ (first_fault S.arithmetic shape entries.now ≡ Some (Place n)) }
        ensures order { (n : ℕ) → IsErrOf result (BlockFault.Order n) ↔ (first_fault S.arithmetic shape entries.now ≡ Some (Order n)) }
        ensures zero { (n : ℕ) → IsErrOf result (BlockFault.Zero n) ↔ (first_fault S.arithmetic shape entries.now ≡ Some (Zero n)) }
    {
        if let Some(fault) = block_faults::first_fault::<S>(shape, entries) {
            return Err(fault);
        }
        Ok(Self::from_ordered(alloc, shape, entries)?)
    }

    /// The block of entries that are inside the shape, ascend by column and then by row, and aren't zero.
    pub fn from_ordered(alloc: Global, shape: Shape, entries: &[Entry]) -> Result<Self, AllocError>
        requires inside { All (IsInside shape) entries.now }
        requires order { AllPairs IsBefore entries.now }
        requires values { All (λ e. IsValue S.arithmetic e.value) entries.now }
        requires not_zero { All (λ e. e.value ≢ S.arithmetic.zero) entries.now }
        ensures { IfOk result (λ m. m ≡ record { shape = shape; entries = entries.now }) }
    {
        let mut block = Block::empty(alloc, shape);
        block.reserve(entries.len())?;
        for entry in entries {
            block.push(*entry)?;
        }
        Ok(block)
    }

    /// The block of a matrix in compressed columns (CSC): where each column of the shape starts and the last one ends,
    /// and the row and the value of each entry, by column and then by row. The lists of rows and of values are consumed
    /// and become the block's.
    ///
    /// Costs a few instructions for each column of the shape. No entry is read.
    pub fn from_csc(
        alloc: Global,
        shape: Shape,
        starts: &[usize],
        rows: Vec<u32>,
        values: Vec<u64>,
    ) -> Result<Self, AllocError>
        requires starts { AreStarts shape.cols starts.now rows.items values.items }
        requires matrix { IsMatrix S.arithmetic (csc_matrix shape starts.now rows.items values.items) }
        ensures { IfOk result (λ m. m ≡ csc_matrix shape starts.now rows.items values.items) }
    {
        if rows.is_empty() {
            return Ok(Block::empty(alloc, shape));
        }
        let (columns, starts) = nonempty_columns(alloc, shape.cols(), starts, rows.len())?;
        Ok(Block {
            shape,
            columns,
            starts,
            rows,
            values,
            semiring: PhantomData,
        })
    }

    /// A copy. Fails only if memory for its lists is refused.
    pub fn try_clone(&self) -> Result<Self, AllocError>
        ensures { IfOk result (λ copy. copy ≡ self.now) }
    {
        let alloc = *self.rows.allocator();
        Ok(Block {
            shape: self.shape,
            columns: Vec::from_slice(alloc, &self.columns)?,
            starts: Vec::from_slice(alloc, &self.starts)?,
            rows: Vec::from_slice(alloc, &self.rows)?,
            values: Vec::from_slice(alloc, &self.values)?,
            semiring: PhantomData,
        })
    }

    /// The block with other values at the same places, one for each entry, by column and then by row. The list of values is
    /// consumed and becomes the block's; the other lists are copied whole.
    pub fn with_values(&self, values: Vec<u64>) -> Result<Self, AllocError>
        requires count { length values.items ≡ length self.now.entries }
        requires values { All (IsValue S.arithmetic) values.items }
        requires not_zero { All (λ v. v ≢ S.arithmetic.zero) values.items }
        ensures { IfOk result (λ m. m ≡ record { shape = self.now.shape; entries = revalued self.now.entries values.items }) }
    {
        let alloc = *self.rows.allocator();
        Ok(Block {
            shape: self.shape,
            columns: Vec::from_slice(alloc, &self.columns)?,
            starts: Vec::from_slice(alloc, &self.starts)?,
            rows: Vec::from_slice(alloc, &self.rows)?,
            values,
            semiring: PhantomData,
        })
    }

    /// The same block over another semiring, in which its values are values too. Nothing is copied.
    pub fn recast<T: Semiring>(self) -> Block<T>
        requires values { All (λ e. IsValue T.arithmetic e.value × (e.value ≢ T.arithmetic.zero)) self.entries }
        ensures { result ≡ self }
    {
        let Block {
            shape,
            columns,
            starts,
            rows,
            values,
            ..
        } = self;
        Block {
            shape,
            columns,
            starts,
            rows,
            values,
            semiring: PhantomData,
        }
    }

    /// The lists of the block, without a copy: the columns that have entries, ascending, and the row and the value of each
    /// entry, by column and then by row.
    pub fn into_lists(self) -> (Vec<u32>, Vec<u32>, Vec<u64>)
        ensures columns { result.0.items ≡ columns_with_entries self.entries }
        ensures rows { result.1.items ≡ rows_of self.entries }
        ensures values { result.2.items ≡ values_of self.entries }
    {
        let Block {
            columns,
            rows,
            values,
            ..
        } = self;
        (columns, rows, values)
    }

    /// Reserves memory for this many more entries, and for as many columns as they can have, so that storing them
    /// reallocates no list.
    pub fn reserve(&mut self, entries: usize) -> Result<(), AllocError>
        ensures same { self.new ≡ self.old }
    {
        let columns = entries.min(self.shape.cols() as usize);
        if columns == 0 {
            return Ok(());
        }
        reserve_both(&mut self.columns, &mut self.starts, columns, columns + 1)?;
        reserve_both(&mut self.rows, &mut self.values, entries, entries)?;
        Ok(())
    }

    /// Stores one more entry, after all the others. If memory is refused, the block stays as it was.
    pub fn push(&mut self, entry: Entry) -> Result<(), AllocError>
        requires inside { IsInside self.old.shape entry }
        requires order { All (λ e. IsBefore e entry) self.old.entries }
        requires value { IsValue S.arithmetic entry.value }
        requires not_zero { entry.value ≢ S.arithmetic.zero }
        ensures ok { OnOk result (self.new ≡ with_entry self.old entry) }
        ensures err { OnErr result (self.new ≡ self.old) }
        ensures matrix { IsMatrix S.arithmetic self.new }
    {
        reserve_both(&mut self.rows, &mut self.values, 1, 1)?;
        let len = self.rows.len();
        if ends_with(&self.columns, entry.column) {
            let last = self.starts.len() - 1;
            self.starts[last] = len + 1;
            self.rows.push_reserved(entry.row);
            self.values.push_reserved(entry.value);
            return Ok(());
        }
        start_column(&mut self.columns, &mut self.starts, entry.column, len + 1)?;
        self.rows.push_reserved(entry.row);
        self.values.push_reserved(entry.value);
        Ok(())
    }

    /// Stores a whole column after all the others, given by its rows, which ascend, and the value at each. A column without
    /// rows isn't stored. If memory is refused, the block stays as it was.
    #[inline(always)]
    pub fn push_column(
        &mut self,
        column: u32,
        rows: &[u32],
        values: &[u64],
    ) -> Result<(), AllocError>
        requires lengths { length values.now ≡ length rows.now }
        requires ascending { AllPairs (λ i j. i < j) rows.now }
        requires rows { All (λ i. i < self.old.shape.rows) rows.now }
        requires column { column < self.old.shape.cols }
        requires before { All (λ e. e.column < column) self.old.entries }
        requires values { All (IsValue S.arithmetic) values.now }
        requires not_zero { All (λ v. v ≢ S.arithmetic.zero) values.now }
        ensures ok { OnOk result (self.new ≡ with_column self.old column rows.now values.now) }
        ensures err { OnErr result (self.new ≡ self.old) }
        ensures matrix { IsMatrix S.arithmetic self.new }
    {
        let len = self.rows.len();
        if rows.is_empty() {
            return Ok(());
        }
        reserve_both(&mut self.rows, &mut self.values, rows.len(), rows.len())?;
        let end = len + rows.len();
        start_column(&mut self.columns, &mut self.starts, column, end)?;
        extend_reserved(&mut self.rows, rows);
        extend_reserved(&mut self.values, values);
        Ok(())
    }

    /// Stores all entries of another block of the same shape after all the others, and leaves the other without entries. The
    /// last column of this block may continue in the other. If memory is refused, both blocks stay as they were. Costs
    /// O(entries of the other), or nothing if this block has no entries: then it takes over the other's lists. Where the
    /// other has far more entries, it takes over the lists of its rows and values: these move within their memory to make
    /// room for this block's in front. That is O(entries of the other) too, but touches hardly any new memory for them; the
    /// columns are still copied.
    pub fn append(&mut self, other: &mut Block<S>) -> Result<(), AllocError>
        requires shape { other.old.shape ≡ self.old.shape }
        requires matrix { IsMatrix S.arithmetic (with_entries self.old other.old.entries) }
        ensures ok { OnOk result (self.new ≡ with_entries self.old other.old.entries) }
        ensures other_ok { OnOk result (other.new ≡ empty_matrix other.old.shape) }
        ensures err { OnErr result (self.new ≡ self.old) }
        ensures other_err { OnErr result (other.new ≡ other.old) }
    {
        if self.len() == 0 {
            swap(self, other);
            return Ok(());
        }
        if other.len() == 0 {
            return Ok(());
        }
        self.append_some(other)
    }

    /// The same for two blocks that have entries. All memory is taken before anything is stored.
    fn append_some(&mut self, other: &mut Block<S>) -> Result<(), AllocError>
        requires shape { other.old.shape ≡ self.old.shape }
        requires matrix { IsMatrix S.arithmetic (with_entries self.old other.old.entries) }
        requires some { 0 < length self.old.entries }
        requires other_some { 0 < length other.old.entries }
        ensures ok { OnOk result (self.new ≡ with_entries self.old other.old.entries) }
        ensures other_ok { OnOk result (other.new ≡ empty_matrix other.old.shape) }
        ensures err { OnErr result (self.new ≡ self.old) }
        ensures other_err { OnErr result (other.new ≡ other.old) }
    {
        let shared = usize::from(ends_with(&self.columns, other.columns[0]));
        let more = other.columns.len();
        reserve_both(&mut self.columns, &mut self.starts, more, more)?;
        let len = self.rows.len();
        append_entries(
            &mut self.rows,
            &mut self.values,
            &mut other.rows,
            &mut other.values,
        )?;
        extend_reserved(&mut self.columns, rest(&other.columns, shared));
        append_starts(&mut self.starts, &other.starts, shared, len);
        *other = Block::empty(*self.rows.allocator(), self.shape);
        Ok(())
    }
}

/// Where the nth part starts and ends.
fn bounds(starts: &[usize], n: usize) -> (usize, usize)
    requires { n + 1 < length starts.now }
    ensures start { result.0 ≡ slice_index starts.now n }
    ensures end { result.1 ≡ slice_index starts.now (n + 1) }
{
    (starts[n], starts[n + 1])
}

/// The part with this index: that of the last start that isn't above it.
fn part_of(starts: &[usize], index: usize) -> usize
    requires some { 0 < length starts.now }
    requires first { slice_index starts.now 0 ≤ index }
    requires ascending { AllPairs (λ a b. a < b) starts.now }
    ensures within { result < length starts.now }
    ensures here { slice_index starts.now result ≤ index }
    ensures next { result + 1 < length starts.now → index < slice_index starts.now (result + 1) }
{
    match starts.binary_search(&index) {
        Ok(n) => n,
        Err(n) => n - 1,
    }
}

/// The nth part of a list, from its start to the next.
#[inline(always)]
fn part<'a, T: Copy>(starts: &[usize], items: &'a [T], n: usize) -> &'a [T]
    requires place { n + 1 < length starts.now }
    requires rising { slice_index starts.now n ≤ slice_index starts.now (n + 1) }
    requires within { slice_index starts.now (n + 1) ≤ length items.now }
    ensures { result.now ≡ slice_range items.now (slice_index starts.now n) (slice_index starts.now (n + 1)) }
{
    let start = starts[n];
    let end = starts[n + 1];
    &items[start..end]
}

/// Appends the entries of one column.
fn append_column(
    entries: &mut Vec<Entry>,
    column: u32,
    rows: &[u32],
    values: &[u64],
) -> Result<(), AllocError>
    requires { length values.now ≡ length rows.now }
    ensures { OnOk result (entries.new.items ≡ entries.old.items ++ entries_in column rows.now values.now) }
{
    for n in 0..rows.len() {
        entries.push(Entry {
            row: rows[n],
            column,
            value: values[n],
        })?;
    }
    Ok(())
}

/// Whether a list ends with this number.
fn ends_with(numbers: &[u32], number: u32) -> bool
    ensures { IsTrue result ↔ ((0 < length numbers.now) × (slice_index numbers.now (length numbers.now - 1) ≡ number)) }
{
    match numbers.last() {
        Some(last) => *last == number,
        None => false,
    }
}

/// Appends the number of one more column, and where its part ends. If memory is refused, the lists stay as they were.
#[inline(always)]
fn start_column(
    columns: &mut Vec<u32>,
    starts: &mut Vec<usize>,
    column: u32,
    end: usize,
) -> Result<(), AllocError>
    ensures columns { OnOk result (columns.new.items ≡ columns.old.items ++ column ∷ []) }
    ensures starts { OnOk result (starts.new.items ≡ opened starts.old.items ++ end ∷ []) }
    ensures columns_stay { OnErr result (columns.new.items ≡ columns.old.items) }
    ensures starts_stay { OnErr result (starts.new.items ≡ starts.old.items) }
{
    columns.reserve(1)?;
    starts.reserve(2)?;
    if starts.is_empty() {
        starts.push_reserved(0);
    }
    columns.push_reserved(column);
    starts.push_reserved(end);
    Ok(())
}

/// Reserves memory for more items of two lists: `more_left` of one and `more_right` of the other.
#[inline(always)]
fn reserve_both<T: Copy, U: Copy>(
    left: &mut Vec<T>,
    right: &mut Vec<U>,
    more_left: usize,
    more_right: usize,
) -> Result<(), AllocError>
    ensures left { left.new.items ≡ left.old.items }
    ensures right { right.new.items ≡ right.old.items }
    ensures left_len { vec_len left.new ≡ vec_len left.old }
    ensures right_len { vec_len right.new ≡ vec_len right.old }
    ensures left_room { OnOk result (vec_len left.new + more_left ≤ vec_capacity left.new) }
    ensures right_room { OnOk result (vec_len right.new + more_right ≤ vec_capacity right.new) }
{
    left.reserve(more_left)?;
    right.reserve(more_right)?;
    Ok(())
}

/// The items from a place on.
fn rest<T: Copy>(items: &[T], place: usize) -> &[T]
    requires { place ≤ length items.now }
    ensures { result.now ≡ drop place items.now }
{
    &items[place..]
}

/// Appends where the parts of another list end, which lie behind `len` items. The last `shared` parts end with the first of
/// these instead.
fn append_starts(starts: &mut Vec<usize>, more: &[usize], shared: usize, len: usize)
    requires shared { shared ≤ length starts.old.items }
    requires some { 0 < length more.now }
    requires room { vec_len starts.old + length more.now ≤ vec_capacity starts.old + 1 }
    requires ends { All (λ e. e + len < 2 ^ 64) more.now }
    ensures { starts.new.items ≡ take (length starts.old.items - shared) starts.old.items ++ map (λ e. e + len) (drop 1 more.now) }
{
    starts.truncate(starts.len() - shared);
    for end in rest(more, 1) {
        starts.push_reserved(*end + len);
    }
}

/// Appends items to a list that has room for them.
#[inline(always)]
fn extend_reserved<T: Copy>(list: &mut Vec<T>, items: &[T])
    requires { vec_len list.old + length items.now ≤ vec_capacity list.old }
    ensures { list.new.items ≡ list.old.items ++ items.now }
{
    match list.extend_from_slice(items) {
        Ok(()) => {}
        Err(_) => unreachable!(),
    }
}

/// Appends the rows and the values of other entries, which may be taken away from the other lists. Where the others are far
/// more, it takes over their lists, with its own items in front, so that hardly any memory is touched for the first time. If
/// memory is refused, all lists stay as they were.
fn append_entries(
    rows: &mut Vec<u32>,
    values: &mut Vec<u64>,
    more_rows: &mut Vec<u32>,
    more_values: &mut Vec<u64>,
) -> Result<(), AllocError>
    ensures rows { OnOk result (rows.new.items ≡ rows.old.items ++ more_rows.old.items) }
    ensures values { OnOk result (values.new.items ≡ values.old.items ++ more_values.old.items) }
    ensures rows_stay { OnErr result (rows.new.items ≡ rows.old.items) }
    ensures values_stay { OnErr result (values.new.items ≡ values.old.items) }
    ensures more_rows_stay { OnErr result (more_rows.new.items ≡ more_rows.old.items) }
    ensures more_values_stay { OnErr result (more_values.new.items ≡ more_values.old.items) }
{
    if rows.len() < more_rows.len() / FAR_MORE {
        reserve_both(more_rows, more_values, rows.len(), values.len())?;
        put_before(more_rows, rows);
        put_before(more_values, values);
        swap(rows, more_rows);
        swap(values, more_values);
        return Ok(());
    }
    reserve_both(rows, values, more_rows.len(), more_values.len())?;
    extend_reserved(rows, more_rows);
    extend_reserved(values, more_values);
    Ok(())
}

/// Puts items in front of those of a list that has room for them. These move within its memory.
fn put_before<T: Copy>(list: &mut Vec<T>, items: &[T])
    requires { vec_len list.old + length items.now ≤ vec_capacity list.old }
    ensures { list.new.items ≡ items.now ++ list.old.items }
{
    let len = list.len();
    extend_reserved(list, items);
    list.copy_within(0..len, items.len());
    write_front(list, items);
}

/// Writes items over the first of a slice.
fn write_front<T: Copy>(slice: &mut [T], items: &[T])
    requires { length items.now ≤ length slice.old }
    ensures { slice.new ≡ items.now ++ drop (length items.now) slice.old }
{
    slice[..items.len()].copy_from_slice(items);
}

/// The columns that have entries, and where each starts and the last one ends, given the same for all columns of the
/// shape. `entries` is the number of entries.
fn nonempty_columns(
    alloc: Global,
    count: u32,
    all: &[usize],
    entries: usize,
) -> Result<(Vec<u32>, Vec<usize>), AllocError>
    requires count { length all.now ≡ count + 1 }
    requires first { slice_index all.now 0 ≡ 0 }
    requires rising { (j : ℕ) → j < count → slice_index all.now j ≤ slice_index all.now (j + 1) }
    ensures { IfOk result (λ p. AreNonempty count all.now p.0.items p.1.items) }
{
    let room = entries.min(count as usize);
    let mut columns = Vec::with_capacity(alloc, room)?;
    let mut starts = Vec::with_capacity(alloc, room + 1)?;
    starts.push_reserved(0);
    for column in 0..count {
        let end = all[column as usize + 1];
        if all[column as usize] < end {
            columns.push(column)?;
            starts.push(end)?;
        }
    }
    Ok((columns, starts))
}
