//! Blocks in another shape: transposed, cut, or placed in a larger one; a list as a block of one column; and the sums of rows,
//! of columns and of all entries (`sums`).
//!
//! No value changes: each entry moves to another place or is left out. Cutting and placing keep the order of the entries,
//! by column and then by row, so both take the entries in some rows and columns and shift them (`parts`). Where whole columns
//! move, their lists are copied as slices. Otherwise one walk over the columns does it. It finds the rows and columns of the
//! part by binary search, so what is left out is not read. A column of which the part has all rows, or none, is not searched. The transpose needs the entries in another order: by a counting
//! sort (`counting`), or, if a list as long as a dimension would cost more than the block, by comparisons.
//!
//! The operations are those by which Buluç and Gilbert, The Combinatorial BLAS (Int. J. High Perform. Comput. Appl. 2011,
//! section 4), distribute a matrix over a grid of processes and put it together again.
#![tactic(auto)]

ghost use Rattle.std.specs.Prelude.{◌≡◌, ◌↔◌, ℕ, ◌≤◌, ◌+◌, ◌-◌, ◌/◌, IsTrue, length, map, slice_index_or, All, IfOk};
ghost use Rattle.cb_semirings.specs.Arithmetic.{IsValue};
ghost use Rattle.cb_matrix.specs.Values.{matrix_of};
ghost use Rattle.cb_matrix.specs.Operations.{transposed, cut, placed};
ghost use Rattle.cb_matrix.specs.Sparse.{IsMatrix};
ghost use Rattle.cb_reshape.specs.Exchange.{exchanged};
ghost use Rattle.cb_reshape.specs.Rows.{entries_within, is_row_of, rows_within};

mod counting;
mod parts;
mod sums;

use crate::counting::{is_within, transpose_by_counting};
use crate::parts::{Part, moved};
use cb_dcsc::Block;
use cb_matrix::{Entry, LIMIT, Shape, in_order};
use cb_semirings::Semiring;
use std::alloc::{AllocError, Global};
pub use sums::{column_sums, row_sums, total};

/// The most rows for each entry of a block that has few rows.
const ROWS_PER_ENTRY: usize = 4;

/// The most bands of rows in which the transpose places the entries: each costs a pass over the block.
const BANDS: usize = 8;

/// The fewest entries of a band, unless it is the last: the places of this many stay in the caches.
const ENTRIES_PER_BAND: usize = 1 << 19;

/// Whether a block has few rows: at most four for each entry. Only then does a list of all its rows cost no more than the
/// entries do.
pub fn has_few_rows<S: Semiring>(block: &Block<S>) -> bool
    ensures { IsTrue result ↔ (block.now.shape.rows / ROWS_PER_ENTRY ≤ length block.now.entries) }
{
    block.shape().rows() as usize / ROWS_PER_ENTRY <= block.len()
}

/// The block with rows and columns exchanged.
///
/// Costs a few instructions for each entry, in up to eight passes if there are more than 524,288 entries. If there are
/// more than four rows for each entry, it sorts the entries instead.
pub fn transpose<S: Semiring>(alloc: Global, block: &Block<S>) -> Result<Block<S>, AllocError>
    ensures { IfOk result (λ turned. turned ≡ transposed S.arithmetic block.now) }
{
    transpose_rows(alloc, block, (0, block.shape().rows()))
}

/// The rows of a block from one up to another, transposed: these columns of the transpose, in its whole shape.
///
/// Costs what the transpose does for the entries in these rows, a comparison for each of the others, and a list of one number
/// for each row of the shape.
pub fn transpose_rows<S: Semiring>(
    alloc: Global,
    block: &Block<S>,
    rows: (u32, u32),
) -> Result<Block<S>, AllocError>
    requires order { rows.0 ≤ rows.1 }
    requires inside { rows.1 ≤ block.now.shape.rows }
    ensures { IfOk result (λ turned. turned ≡ transposed S.arithmetic (rows_within rows block.now)) }
{
    let inner = block.shape();
    let shape = shape_of(inner.cols(), inner.rows());
    if has_few_rows(block) {
        let band = (block.len() / BANDS + 1).max(ENTRIES_PER_BAND);
        return transpose_by_counting(alloc, block, shape, rows, band);
    }
    transpose_by_sorting(alloc, block, shape, rows)
}

/// The transpose of what a block has in a range of rows, by a sort of these entries. `shape` is that of the transpose.
fn transpose_by_sorting<S: Semiring>(
    alloc: Global,
    block: &Block<S>,
    shape: Shape,
    rows: (u32, u32),
) -> Result<Block<S>, AllocError>
    requires matrix { IsMatrix S.arithmetic block.now }
    requires shape { shape ≡ record { rows = block.now.shape.cols; cols = block.now.shape.rows } }
    requires order { rows.0 ≤ rows.1 }
    ensures { IfOk result (λ turned. turned ≡ transposed S.arithmetic (rows_within rows block.now)) }
{
    let mut entries = entries_in_rows(block, rows)?;
    exchange(&mut entries);
    let entries = in_order(entries)?;
    Block::from_ordered(alloc, shape, &entries)
}

/// Whether an entry is in a range of rows.
fn is_entry_within(entry: &Entry, rows: (u32, u32)) -> bool
    requires { rows.0 ≤ rows.1 }
    ensures { result ≡ is_row_of rows entry.now.row }
{
    is_within(entry.row, rows)
}

/// The entries of a block in a range of rows.
fn entries_in_rows<S: Semiring>(
    block: &Block<S>,
    rows: (u32, u32),
) -> Result<Vec<Entry>, AllocError>
    requires { rows.0 ≤ rows.1 }
    ensures { IfOk result (λ entries. entries.items ≡ entries_within rows block.now.entries) }
{
    let mut entries = block.entries()?;
    entries.retain(|entry| is_entry_within(entry, rows));
    Ok(entries)
}

/// The part of a block in a range of rows and a range of columns, each given by its first number and the one after its
/// last. The first row and column of the part are row 0 and column 0 of the result.
///
/// Costs a few instructions for each entry of the part, two binary searches for each of its columns that has entries in its
/// rows and in others, and two more for the columns themselves. A part with all rows costs a copy of its entries' slices, and
/// nothing column by column. The result takes no more memory than its entries.
pub fn cut<S: Semiring>(
    alloc: Global,
    block: &Block<S>,
    rows: (u32, u32),
    cols: (u32, u32),
) -> Result<Block<S>, AllocError>
    requires rows { rows.0 ≤ rows.1 }
    requires cols { cols.0 ≤ cols.1 }
    requires rows_inside { rows.1 ≤ block.now.shape.rows }
    requires cols_inside { cols.1 ≤ block.now.shape.cols }
    ensures { IfOk result (λ part. part ≡ cut S.arithmetic rows cols block.now) }
{
    let shape = shape_within(block.shape(), rows.1 - rows.0, cols.1 - cols.0);
    let part = Part {
        rows,
        cols,
        corner: (0, 0),
    };
    moved(alloc, shape, block, part)
}

/// The block placed in a larger shape, with its row 0 and column 0 at `corner`, a row and a column. No entries are around
/// it.
///
/// Costs a copy of the entries' slices, and nothing column by column.
pub fn place<S: Semiring>(
    alloc: Global,
    block: &Block<S>,
    shape: Shape,
    corner: (u32, u32),
) -> Result<Block<S>, AllocError>
    requires rows { corner.0 + block.now.shape.rows ≤ shape.rows }
    requires cols { corner.1 + block.now.shape.cols ≤ shape.cols }
    ensures { IfOk result (λ whole. whole ≡ placed S.arithmetic shape corner block.now) }
{
    let inner = block.shape();
    let part = Part {
        rows: (0, inner.rows()),
        cols: (0, inner.cols()),
        corner,
    };
    moved(alloc, shape, block, part)
}

/// The block of one column that has the values of a list, each in the row of its place. Zeros aren't stored.
///
/// Costs a few instructions for each place of the list.
pub fn column_of_list<S: Semiring>(
    alloc: Global,
    shape: Shape,
    values: &[u64],
) -> Result<Block<S>, AllocError>
    requires column { shape.cols ≡ 1 }
    requires length { length values.now ≡ shape.rows }
    requires values { All (IsValue S.arithmetic) values.now }
    ensures { IfOk result (λ m. m ≡ matrix_of S.arithmetic shape (λ i _. slice_index_or values.now i S.arithmetic.zero)) }
{
    let mut rows = Vec::with_capacity(alloc, values.len())?;
    let mut stored = Vec::with_capacity(alloc, values.len())?;
    for row in 0..shape.rows() {
        let value = values[row as usize];
        if value != S::zero() {
            rows.push_reserved(row);
            stored.push_reserved(value);
        }
    }
    Block::from_csc(alloc, shape, &[0, rows.len()], rows, stored)
}

/// Exchanges the row and the column of each entry.
fn exchange(entries: &mut [Entry])
    ensures { entries.new ≡ map exchanged entries.old }
{
    for entry in entries.iter_mut() {
        *entry = Entry {
            row: entry.column,
            column: entry.row,
            value: entry.value,
        };
    }
}

/// The shape with this many rows and columns.
fn shape_of(rows: u32, cols: u32) -> Shape
    requires rows { rows ≤ LIMIT }
    requires cols { cols ≤ LIMIT }
    ensures { result ≡ record { rows = rows; cols = cols } }
{
    Shape::new(rows, cols).unwrap()
}

/// The shape with this many rows and columns, which are no more than those of `whole`.
fn shape_within(whole: Shape, rows: u32, cols: u32) -> Shape
    requires rows { rows ≤ whole.rows }
    requires cols { cols ≤ whole.cols }
    ensures { result ≡ record { rows = rows; cols = cols } }
{
    shape_of(rows.min(whole.rows()), cols.min(whole.cols()))
}
