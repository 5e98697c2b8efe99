//! Rows and columns of a block by their numbers.
//!
//! Columns are found one by one. Rows are the columns of the transpose; but where no row is listed twice, each entry's row is
//! looked up instead, in a table with a place for each row of the block. Whether a row is listed can't be predicted, so its
//! entry is written in any case, and the next one over it if it isn't. Where the numbers ascend, the entries of a column stay
//! in order; otherwise they are sorted (`sorted_rows`).
//!
//! The columns of a range of the result are made alone, so that threads can share them.
ghost use Rattle.std.specs.Prelude.{◌≡◌, ℕ, ◌<◌, ◌≤◌, ◌-◌, IsTrue, None, option_copied, length, take, slice_index, All, AllPairs, IfOk, IfSome, OnOk};
ghost use Rattle.cb_semirings.specs.Arithmetic.{IsValue};
ghost use Rattle.cb_matrix.specs.Sparse.{IsMatrix};
ghost use Rattle.cb_matrix.specs.Values.{empty_matrix};
ghost use Rattle.cb_dcsc.specs.Columns.{in_column, rows_of, values_of};
ghost use Rattle.cb_selections.specs.Extracted.{AreBelow, AreFew, columns_between, extracted_between, extracted_by, listed_or_all, rows_by, columns_by};
ghost use Rattle.cb_selections.specs.ListedRows.{HoldPlaces, ArePlaces, IsListed};
ghost use Rattle.cb_selections.specs.RowTables.{IsRowTable};

use crate::column_places::{ColumnPlaces, column_at, places_of_columns};
use crate::sorted_rows::{KeptColumn, write_sorted};
use crate::{expected, shape_of};
use cb_dcsc::Block;
use cb_lists::ascends;
use cb_matrix::LIMIT;
use cb_reshape::transpose;
use cb_semirings::Semiring;
use std::alloc::{AllocError, Global};

/// The most rows of a block for each listed row or entry for which a table of all its rows costs no more than they do.
const ROWS_PER_PLACE: usize = 4;

/// The rows and columns of a block with the given numbers, in that order, or all of them. A number may appear more than once.
///
/// Costs what the columns cost (`extract_columns`), and what the rows cost (`extract_rows`) in these columns. If the numbers of
/// the rows are those of all rows, in order, each costs a comparison.
pub fn extract<S: Semiring>(
    alloc: Global,
    block: &Block<S>,
    rows: Option<&[u32]>,
    cols: Option<&[u32]>,
) -> Result<Block<S>, AllocError>
    requires rows { AreBelow block.now.shape.rows (option_copied rows) }
    requires cols { AreBelow block.now.shape.cols (option_copied cols) }
    requires row_limit { AreFew (option_copied rows) }
    requires column_limit { AreFew (option_copied cols) }
    ensures { IfOk result (λ part. part ≡ extracted_by S.arithmetic (option_copied rows.entry) (option_copied cols.entry) block.now) }
{
    match (rows, cols) {
        (Some(rows), Some(cols)) => both_between(alloc, block, rows, cols, 0, cols.len()),
        (Some(rows), None) => extract_rows(alloc, block, rows),
        (None, Some(cols)) => extract_columns(alloc, block, cols),
        (None, None) => copy(block),
    }
}

/// A copy of a block, which has all its rows and columns.
fn copy<S: Semiring>(block: &Block<S>) -> Result<Block<S>, AllocError>
    ensures { IfOk result (λ whole. whole ≡ extracted_by S.arithmetic None None block.now) }
{
    prove_eq!(block.shape(), block.shape());
    block.try_clone()
}

/// The columns, at the places from `first` up to, but not including, `end` of the list of column numbers, of the matrix of the
/// rows and columns of a block with the given numbers ([`extract`]), in a block of its shape.
///
/// Costs what these columns cost.
pub fn extract_between<S: Semiring>(
    alloc: Global,
    block: &Block<S>,
    rows: Option<&[u32]>,
    cols: &[u32],
    first: usize,
    end: usize,
) -> Result<Block<S>, AllocError>
    requires rows { AreBelow block.now.shape.rows (option_copied rows) }
    requires row_limit { AreFew (option_copied rows) }
    requires column_limit { length cols.now ≤ LIMIT }
    requires order { first ≤ end }
    requires within { end ≤ length cols.now }
    ensures { IfOk result (λ part. part ≡ extracted_between S.arithmetic (listed_or_all (option_copied rows.entry) block.now.shape.rows) cols.now first end block.now) }
{
    match rows {
        Some(rows) => both_between(alloc, block, rows, cols, first, end),
        None => columns_between(alloc, block, cols, first, end),
    }
}

/// The same of listed rows.
fn both_between<S: Semiring>(
    alloc: Global,
    block: &Block<S>,
    rows: &[u32],
    cols: &[u32],
    first: usize,
    end: usize,
) -> Result<Block<S>, AllocError>
    requires rows { All (λ i. i < block.now.shape.rows) rows.now }
    requires row_limit { length rows.now ≤ LIMIT }
    requires column_limit { length cols.now ≤ LIMIT }
    requires order { first ≤ end }
    requires within { end ≤ length cols.now }
    ensures { IfOk result (λ part. part ≡ extracted_between S.arithmetic rows.now cols.now first end block.now) }
{
    if are_all(rows, block.shape().rows()) {
        return columns_between(alloc, block, cols, first, end);
    }
    let found = places_of_columns(alloc, block, &cols[first..end])?;
    if let Some(table) = table_of(alloc, block.shape().rows(), rows, found.entries)? {
        return listed_between(alloc, block, rows, &table, cols, &found, first, end);
    }
    let some = columns_between(alloc, block, cols, first, end)?;
    turned_rows(alloc, &some, rows)
}

/// Whether a table of all rows of a block costs no more than its listed rows or the entries that are looked up.
fn pays_table(height: u32, listed: usize, entries: usize) -> bool {
    height as usize / ROWS_PER_PLACE <= listed.max(entries)
}

/// Where the rows of a block are in a list of rows, of which none is listed twice.
#[derive(Drop)]
struct RowTable {
    places: Vec<u32>,
    ascending: bool,
}

/// The table of listed rows, if it costs no more than they do or the entries that are looked up, and no row is listed twice.
fn table_of(
    alloc: Global,
    height: u32,
    listed: &[u32],
    entries: usize,
) -> Result<Option<RowTable>, AllocError>
    requires rows { All (λ i. i < height) listed.now }
    requires limit { length listed.now ≤ LIMIT }
    ensures { IfOk result (λ table. IfSome table (IsRowTable height listed.now)) }
{
    if !pays_table(height, listed.len(), entries) {
        return Ok(None);
    }
    let places = places_of(alloc, height, listed)?;
    if ascends(listed) {
        return Ok(Some(RowTable {
            places,
            ascending: true,
        }));
    }
    if have_own(listed, &places) {
        return Ok(Some(RowTable {
            places,
            ascending: false,
        }));
    }
    Ok(None)
}

/// The same columns, of the listed rows, by their table.
fn listed_between<S: Semiring>(
    alloc: Global,
    block: &Block<S>,
    listed: &[u32],
    table: &RowTable,
    cols: &[u32],
    found: &ColumnPlaces,
    first: usize,
    end: usize,
) -> Result<Block<S>, AllocError>
    requires row_limit { length listed.now ≤ LIMIT }
    requires column_limit { length cols.now ≤ LIMIT }
    requires table { IsRowTable block.now.shape.rows listed.now table.now }
    requires order { first ≤ end }
    requires within { end ≤ length cols.now }
    requires places { length found.now.places.items ≡ end - first }
    ensures { IfOk result (λ part. part ≡ extracted_between S.arithmetic listed.now cols.now first end block.now) }
{
    let mut out = Block::empty(alloc, shape_of(listed.len() as u32, cols.len() as u32));
    let height = block.shape().rows() as usize;
    out.reserve(expected(found.entries, listed.len(), height))?;
    let mut kept = KeptColumn::new(alloc);
    push_both(
        &mut out, &mut kept, block, listed, table, cols, found, first, end,
    )?;
    Ok(out)
}

/// Stores the listed rows of these columns in an empty block.
fn push_both<S: Semiring>(
    out: &mut Block<S>,
    kept: &mut KeptColumn,
    block: &Block<S>,
    listed: &[u32],
    table: &RowTable,
    cols: &[u32],
    found: &ColumnPlaces,
    first: usize,
    end: usize,
) -> Result<(), AllocError>
    requires matrix { IsMatrix S.arithmetic block.now }
    requires out_matrix { IsMatrix S.arithmetic out.old }
    requires empty { out.old ≡ empty_matrix (record { rows = length listed.now; cols = length cols.now }) }
    requires table { IsRowTable block.now.shape.rows listed.now table.now }
    requires column_limit { length cols.now ≤ LIMIT }
    requires order { first ≤ end }
    requires within { end ≤ length cols.now }
    requires places { length found.now.places.items ≡ end - first }
    ensures { OnOk result (out.new ≡ extracted_between S.arithmetic listed.now cols.now first end block.now) }
{
    for n in first..end {
        let (rows, values) = column_at(block, cols[n], found.places[n - first]);
        let count = keep_listed(kept, rows, values, listed, table)?;
        out.push_column(n as u32, &kept.rows[..count], &kept.values[..count])?;
    }
    Ok(())
}

/// The rows of a block with the given numbers, in that order. A number may appear more than once.
///
/// If the numbers are those of all rows, in order, it costs a copy. If they ascend, it costs a few instructions for each
/// number and each entry of the block; in any other order also a sort of the kept entries of each column, if none is repeated.
/// Otherwise, or if the block has more than four rows for each entry and for each number, it costs a binary search for each
/// number, and two transposes.
pub fn extract_rows<S: Semiring>(
    alloc: Global,
    block: &Block<S>,
    rows: &[u32],
) -> Result<Block<S>, AllocError>
    requires rows { All (λ i. i < block.now.shape.rows) rows.now }
    requires limit { length rows.now ≤ LIMIT }
    ensures { IfOk result (λ part. part ≡ rows_by S.arithmetic rows.now block.now) }
{
    if are_all(rows, block.shape().rows()) {
        return block.try_clone();
    }
    some_rows(alloc, block, rows)
}

/// The rows with the given numbers, by a table or by transposes.
fn some_rows<S: Semiring>(
    alloc: Global,
    block: &Block<S>,
    rows: &[u32],
) -> Result<Block<S>, AllocError>
    requires rows { All (λ i. i < block.now.shape.rows) rows.now }
    requires limit { length rows.now ≤ LIMIT }
    ensures { IfOk result (λ part. part ≡ rows_by S.arithmetic rows.now block.now) }
{
    if let Some(table) = table_of(alloc, block.shape().rows(), rows, block.len())? {
        return listed_rows(alloc, block, rows, &table);
    }
    turned_rows(alloc, block, rows)
}

/// The rows with the given numbers, as columns of the transpose.
fn turned_rows<S: Semiring>(
    alloc: Global,
    block: &Block<S>,
    rows: &[u32],
) -> Result<Block<S>, AllocError>
    requires rows { All (λ i. i < block.now.shape.rows) rows.now }
    requires limit { length rows.now ≤ LIMIT }
    ensures { IfOk result (λ part. part ≡ rows_by S.arithmetic rows.now block.now) }
{
    let turned = transpose(alloc, block)?;
    let some_rows = extract_columns(alloc, &turned, rows)?;
    transpose(alloc, &some_rows)
}

/// Whether numbers are 0, 1, 2 and so on, up to a bound.
fn are_all(numbers: &[u32], bound: u32) -> bool
    ensures count { IsTrue result → length numbers.now ≡ bound }
    ensures order { IsTrue result → (i : ℕ) → i < length numbers.now → slice_index numbers.now i ≡ i }
{
    numbers.len() == bound as usize && count_in_place(numbers, bound) == bound
}

/// How many of this many numbers are those of their places. There is no early exit, so the processor compares several at once.
fn count_in_place(numbers: &[u32], len: u32) -> u32
    requires { length numbers.now ≡ len }
    ensures within { result ≤ len }
    ensures all { result ≡ len → (i : ℕ) → i < len → slice_index numbers.now i ≡ i }
{
    let mut count = 0;
    for n in 0..len {
        if numbers[n as usize] == n {
            count += 1;
        }
    }
    count
}

/// The rows with the given numbers, by their table.
fn listed_rows<S: Semiring>(
    alloc: Global,
    block: &Block<S>,
    listed: &[u32],
    table: &RowTable,
) -> Result<Block<S>, AllocError>
    requires limit { length listed.now ≤ LIMIT }
    requires table { IsRowTable block.now.shape.rows listed.now table.now }
    ensures { IfOk result (λ part. part ≡ rows_by S.arithmetic listed.now block.now) }
{
    let mut out = Block::empty(alloc, shape_of(listed.len() as u32, block.shape().cols()));
    let height = block.shape().rows() as usize;
    out.reserve(expected(block.len(), listed.len(), height))?;
    let mut kept = KeptColumn::new(alloc);
    push_listed(&mut out, &mut kept, block, listed, table)?;
    Ok(out)
}

/// A table with a place for each number below a bound: where that number is in the list, the last of its places if it is
/// repeated, or a number past the end of the list if it isn't listed.
fn places_of(alloc: Global, bound: u32, listed: &[u32]) -> Result<Vec<u32>, AllocError>
    requires inside { All (λ i. i < bound) listed.now }
    requires limit { length listed.now ≤ LIMIT }
    ensures held { IfOk result (λ v. HoldPlaces bound listed.now v.items) }
    ensures ascending { AllPairs (λ i j. i < j) listed.now → IfOk result (λ v. ArePlaces bound listed.now v.items) }
{
    let mut places = vec![in alloc; u32::MAX; bound as usize]?;
    for n in 0..listed.len() {
        places[listed[n] as usize] = n as u32;
    }
    Ok(places)
}

/// Whether the place of each listed number is its own, so none is repeated.
fn have_own(listed: &[u32], places: &[u32]) -> bool
    requires inside { All (λ i. i < length places.now) listed.now }
    ensures { IsTrue result → (i : ℕ) → i < length listed.now → slice_index places.now (slice_index listed.now i) ≡ i }
{
    for n in 0..listed.len() {
        if places[listed[n] as usize] as usize != n {
            return false;
        }
    }
    true
}

/// Stores the listed rows in an empty block.
fn push_listed<S: Semiring>(
    out: &mut Block<S>,
    kept: &mut KeptColumn,
    block: &Block<S>,
    listed: &[u32],
    table: &RowTable,
) -> Result<(), AllocError>
    requires matrix { IsMatrix S.arithmetic block.now }
    requires out_matrix { IsMatrix S.arithmetic out.old }
    requires empty { out.old ≡ empty_matrix (record { rows = length listed.now; cols = block.now.shape.cols }) }
    requires table { IsRowTable block.now.shape.rows listed.now table.now }
    ensures { OnOk result (out.new ≡ rows_by S.arithmetic listed.now block.now) }
{
    let columns = block.column_numbers();
    for n in 0..columns.len() {
        let (rows, values) = block.nth_column(n);
        let count = keep_listed(kept, rows, values, listed, table)?;
        out.push_column(columns[n], &kept.rows[..count], &kept.values[..count])?;
    }
    Ok(())
}

/// Writes the entries of a column that are in listed rows to the fronts of two lists, and returns how many they are. The row
/// of each is its place in the list of rows.
fn keep_listed(
    kept: &mut KeptColumn,
    rows: &[u32],
    values: &[u64],
    listed: &[u32],
    table: &RowTable,
) -> Result<usize, AllocError>
    requires count { length values.now ≡ length rows.now }
    requires rows { AllPairs (λ i j. i < j) rows.now }
    requires inside { All (λ i. i < length table.now.places.items) rows.now }
    requires table { IsRowTable (length table.now.places.items) listed.now table.now }
    ensures rows_room { IfOk result (λ n. n ≤ length kept.new.rows.items) }
    ensures values_room { IfOk result (λ n. n ≤ length kept.new.values.items) }
    ensures listed { IfOk result (λ n. IsListed listed.now rows.now values.now (take n kept.new.rows.items) (take n kept.new.values.items)) }
{
    make_room(&mut kept.rows, 0, rows.len())?;
    make_room(&mut kept.values, 0, rows.len())?;
    if table.ascending {
        return Ok(write_listed(
            &mut kept.rows,
            &mut kept.values,
            rows,
            values,
            listed,
            &table.places,
        ));
    }
    make_room(&mut kept.keys, 0, rows.len())?;
    Ok(write_sorted(
        &mut kept.rows,
        &mut kept.values,
        &mut kept.keys,
        rows,
        values,
        listed,
        &table.places,
    ))
}

/// Lengthens a list, if need be, to this many items.
fn make_room<T: Copy>(list: &mut Vec<T>, item: T, count: usize) -> Result<(), AllocError>
    ensures { OnOk result (count ≤ length list.new.items) }
{
    if list.len() < count {
        list.resize(count, item)?;
    }
    Ok(())
}

/// The same, with room in the two lists, of rows that ascend.
#[inline(always)]
fn write_listed(
    kept_rows: &mut Vec<u32>,
    kept_values: &mut Vec<u64>,
    rows: &[u32],
    values: &[u64],
    listed: &[u32],
    places: &[u32],
) -> usize
    requires count { length values.now ≡ length rows.now }
    requires rows { AllPairs (λ i j. i < j) rows.now }
    requires inside { All (λ i. i < length places.now) rows.now }
    requires ascending { AllPairs (λ i j. i < j) listed.now }
    requires places { ArePlaces (length places.now) listed.now places.now }
    requires rows_room { length rows.now ≤ length kept_rows.old.items }
    requires values_room { length rows.now ≤ length kept_values.old.items }
    ensures rows_room { result ≤ length kept_rows.new.items }
    ensures values_room { result ≤ length kept_values.new.items }
    ensures listed { IsListed listed.now rows.now values.now (take result kept_rows.new.items) (take result kept_values.new.items) }
{
    let mut count = 0usize;
    for n in 0..rows.len() {
        let place = places[rows[n] as usize];
        kept_rows[count] = place;
        kept_values[count] = values[n];
        count += usize::from((place as usize) < listed.len());
    }
    count
}

/// The columns of a block with the given numbers, in that order. A number may appear more than once.
///
/// Costs a copy of the entries of the result, a list of as many places as there are numbers, and at most one search for each: none
/// if as many smaller ones have no entries as for the number before it.
pub fn extract_columns<S: Semiring>(
    alloc: Global,
    block: &Block<S>,
    columns: &[u32],
) -> Result<Block<S>, AllocError>
    requires { length columns.now ≤ LIMIT }
    ensures { IfOk result (λ part. part ≡ columns_by S.arithmetic columns.now block.now) }
{
    columns_between(alloc, block, columns, 0, columns.len())
}

/// The same, of the columns at the places from `first` up to, but not including, `end` of their list. The others are empty.
fn columns_between<S: Semiring>(
    alloc: Global,
    block: &Block<S>,
    columns: &[u32],
    first: usize,
    end: usize,
) -> Result<Block<S>, AllocError>
    requires limit { length columns.now ≤ LIMIT }
    requires order { first ≤ end }
    requires within { end ≤ length columns.now }
    ensures { IfOk result (λ part. part ≡ columns_between S.arithmetic columns.now first end block.now) }
{
    let shape = shape_of(block.shape().rows(), columns.len() as u32);
    let mut out = Block::empty(alloc, shape);
    let found = places_of_columns(alloc, block, &columns[first..end])?;
    out.reserve(found.entries)?;
    push_columns(&mut out, block, columns, &found, first, end)?;
    Ok(out)
}

/// Stores these columns in an empty block.
fn push_columns<S: Semiring>(
    out: &mut Block<S>,
    block: &Block<S>,
    columns: &[u32],
    found: &ColumnPlaces,
    first: usize,
    end: usize,
) -> Result<(), AllocError>
    requires limit { length columns.now ≤ LIMIT }
    requires matrix { IsMatrix S.arithmetic block.now }
    requires out_matrix { IsMatrix S.arithmetic out.old }
    requires empty { out.old ≡ empty_matrix (record { rows = block.now.shape.rows; cols = length columns.now }) }
    requires order { first ≤ end }
    requires within { end ≤ length columns.now }
    requires places { length found.now.places.items ≡ end - first }
    ensures { OnOk result (out.new ≡ columns_between S.arithmetic columns.now first end block.now) }
{
    for n in first..end {
        let (rows, values) = column_at(block, columns[n], found.places[n - first]);
        out.push_column(n as u32, rows, values)?;
    }
    Ok(())
}
