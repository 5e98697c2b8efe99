//! Products of blocks, column by column.
//!
//! Column j of a product is a sum of terms: for each entry (k, j) of the right block, column k of the left block times
//! that entry. The accumulator's column j, if there is an accumulator, is added. Without terms that column is copied.
//! Otherwise the sum is computed in one of four ways, all with the same contract:
//!
//! - a single term is joined with the accumulator's column: O(entries of both);
//! - if the column has many entries for the number of rows, and more than a few products, terms are added up in a sparse
//!   accumulator, an array with a place for each row: O(products), plus a scan of the words that mark rows between its first
//!   and its last;
//! - a few terms are joined one after another: O(products * terms);
//! - many terms are merged by a heap: O(products * log terms).
//!
//! Sums of zero aren't stored. An index finds the left block's columns. The terms of several products can be added
//! to one accumulator in one pass.
//!
//! No list is longer than 16 times the products or entries that it serves, so a block of side 2,147,483,647 costs what
//! its entries cost. Of the left block, only the columns that the right block's entries name are read.
//!
//! The merge by a heap is that of Buluç and Gilbert, Parallel Sparse Matrix-Matrix Multiplication and Indexing (SIAM J.
//! Sci. Comput. 2012, section 4.2).
#![tactic(auto)]

ghost use Rattle.std.specs.Prelude.{◌≡◌, ◌<◌, All, AllPairs, IfOk, IfErr, OnOk};
ghost use Rattle.cb_matrix.specs.Sparse.{IsMatrix};
ghost use Rattle.cb_matrix.specs.Values.{product, product_shape, empty_matrix};
ghost use Rattle.cb_matrix.specs.Operations.{sum_of};
ghost use Rattle.cb_product.specs.ColumnStarts.{Tells};
ghost use Rattle.cb_dcsc.specs.Columns.{rows_of, values_of};
ghost use Rattle.cb_product.specs.Factors.{AreFactors};
ghost use Rattle.cb_product.specs.Gathered.{AreGathered};
ghost use Rattle.cb_product.specs.InColumns.{AreInColumns, only_columns};

pub use crate::column_index::ColumnIndex;
use crate::column_index::average_products;
pub use crate::counts::{LEAST_PRODUCTS, products_of_column, products_of_columns, total_products};
use crate::panel::Panel;
pub use crate::product_column::ProductColumn;
pub use crate::several::{
    Factors, columns_of_sum, estimated_products, first_columns, multiply_all_columns,
    multiply_all_into,
};
use crate::terms::products_of;
use crate::workspace::Workspace;
use cb_dcsc::Block;
use cb_semirings::Semiring;
use std::alloc::{AllocError, Global};

mod column_index;
mod columns;
mod counts;
mod heads;
mod joins;
mod marks;
mod panel;
mod product_column;
mod several;
mod sources;
mod sparse_accumulator;
mod terms;
mod workspace;

/// Returns the product of two blocks. The left block has as many columns as the right block has rows.
///
/// A block of one column is a sparse vector: the product reads the columns that the vector's entries name, so a vector
/// with one entry costs one column of the matrix. A search in a graph consists of such products: the edges times the
/// frontier are the next frontier, as in Buluç and Gilbert, The Combinatorial BLAS (IJHPCA 2011, section 3.2).
pub fn multiply<S: Semiring>(
    alloc: Global,
    left: &Block<S>,
    right: &Block<S>,
) -> Result<Block<S>, AllocError>
    requires { left.now.shape.cols ≡ right.now.shape.rows }
    ensures { IfOk result (λ m. m ≡ product S.arithmetic left.now right.now) }
{
    let nothing = Block::empty(alloc, left.shape().with_columns_of(right.shape()));
    accumulate(alloc, left, right, &nothing, right.column_numbers())
}

/// Returns the product of a block and the given columns of another, in a block with the shape of the whole product. Such
/// panels of a product can be computed by several threads, and appended to one another.
///
/// The index is that of the left block; several calls may share it. The columns ascend. Memory for `room` entries is
/// reserved at the start, unless it is refused. Costs the products of these columns.
pub fn multiply_columns<S: Semiring>(
    alloc: Global,
    left: &Block<S>,
    index: &ColumnIndex,
    right: &Block<S>,
    columns: &[u32],
    room: usize,
) -> Result<Block<S>, AllocError>
    requires { AreFactors index.now left.now right.now columns.now }
    ensures { IfOk result (λ m. m ≡ product S.arithmetic left.now (only_columns columns.now right.now)) }
{
    let nothing = Block::empty(alloc, left.shape().with_columns_of(right.shape()));
    accumulate_columns(alloc, left, index, right, &nothing, columns, room)
}

/// Returns an accumulator plus the product of two blocks. The left block has as many columns as the right block has rows,
/// and the accumulator has the product's shape. If memory is refused, the accumulator comes back as it was.
///
/// The accumulator's entries are copied, at their cost, unless one of the two blocks has no entries.
pub fn multiply_into<S: Semiring>(
    alloc: Global,
    left: &Block<S>,
    right: &Block<S>,
    accumulator: Block<S>,
) -> Result<Block<S>, (Block<S>, AllocError)>
    requires agree { left.now.shape.cols ≡ right.now.shape.rows }
    requires shape { accumulator.shape ≡ product_shape left.now right.now }
    ensures ok { IfOk result (λ m. m ≡ sum_of S.arithmetic accumulator (product S.arithmetic left.now right.now)) }
    ensures err { IfErr result (λ e. e.0 ≡ accumulator) }
{
    if left.len() == 0 || right.len() == 0 {
        prove_eq!(left.shape().cols(), right.shape().rows());
        prove_eq!(accumulator.shape().rows(), left.shape().rows());
        return Ok(accumulator);
    }
    match added(alloc, left, right, &accumulator) {
        Ok(sum) => Ok(sum),
        Err(error) => Err((accumulator, error)),
    }
}

/// Returns an accumulator plus the product of two blocks, as a new block.
fn added<S: Semiring>(
    alloc: Global,
    left: &Block<S>,
    right: &Block<S>,
    accumulator: &Block<S>,
) -> Result<Block<S>, AllocError>
    requires agree { left.now.shape.cols ≡ right.now.shape.rows }
    requires shape { accumulator.now.shape ≡ product_shape left.now right.now }
    ensures { IfOk result (λ m. m ≡ sum_of S.arithmetic accumulator.now (product S.arithmetic left.now right.now)) }
{
    let columns = columns::union(alloc, accumulator.column_numbers(), right.column_numbers())?;
    accumulate(alloc, left, right, accumulator, &columns)
}

/// Returns an accumulator plus the product of two blocks. All entries of the accumulator and of the right block are in the
/// given columns, which ascend.
fn accumulate<S: Semiring>(
    alloc: Global,
    left: &Block<S>,
    right: &Block<S>,
    accumulator: &Block<S>,
    columns: &[u32],
) -> Result<Block<S>, AllocError>
    requires agree { left.now.shape.cols ≡ right.now.shape.rows }
    requires shape { accumulator.now.shape ≡ product_shape left.now right.now }
    requires ascending { AllPairs (λ c d. c < d) columns.now }
    requires within { All (λ c. c < right.now.shape.cols) columns.now }
    requires accumulator_columns { AreInColumns columns.now accumulator.now.entries }
    requires right_columns { AreInColumns columns.now right.now.entries }
    ensures { IfOk result (λ m. m ≡ sum_of S.arithmetic accumulator.now (product S.arithmetic left.now right.now)) }
{
    let index = ColumnIndex::new(alloc, left, right.len())?;
    let room = most_entries(left, &index, right, columns.len());
    accumulate_columns(alloc, left, &index, right, accumulator, columns, room)
}

/// Returns an accumulator plus the product of a block and the given columns of another. All entries of the accumulator are
/// in these columns.
fn accumulate_columns<S: Semiring>(
    alloc: Global,
    left: &Block<S>,
    index: &ColumnIndex,
    right: &Block<S>,
    accumulator: &Block<S>,
    columns: &[u32],
    room: usize,
) -> Result<Block<S>, AllocError>
    requires factors { AreFactors index.now left.now right.now columns.now }
    requires shape { accumulator.now.shape ≡ product_shape left.now right.now }
    requires accumulator_columns { AreInColumns columns.now accumulator.now.entries }
    ensures { IfOk result (λ m. m ≡ sum_of S.arithmetic accumulator.now (product S.arithmetic left.now (only_columns columns.now right.now))) }
{
    let mut work = Workspace::new(alloc)?;
    let mut panel = Panel::new(alloc, 1);
    let room = room_for(left.len(), right.len(), accumulator.len(), room);
    let mut out = with_room(alloc, accumulator, room);
    make_columns(
        left,
        right,
        accumulator,
        columns,
        index,
        &mut work,
        &mut panel,
        &mut out,
    )?;
    Ok(out)
}

/// Computes the given columns of the sum one after another, and stores them in `out`, a block without entries. `panel` and
/// `work` are reused from column to column.
fn make_columns<S: Semiring>(
    left: &Block<S>,
    right: &Block<S>,
    accumulator: &Block<S>,
    columns: &[u32],
    index: &ColumnIndex,
    work: &mut Workspace<S>,
    panel: &mut Panel,
    out: &mut Block<S>,
) -> Result<(), AllocError>
    requires factors { AreFactors index.now left.now right.now columns.now }
    requires shape { accumulator.now.shape ≡ product_shape left.now right.now }
    requires accumulator_columns { AreInColumns columns.now accumulator.now.entries }
    requires zeros { All (λ x. x ≡ S.arithmetic.zero) work.old.sums }
    requires gathered { AreGathered S.arithmetic left.now (rows_of right.now.entries) (values_of right.now.entries) panel.old }
    requires empty { out.old ≡ empty_matrix accumulator.now.shape }
    requires matrix { IsMatrix S.arithmetic out.old }
    ensures { OnOk result (out.new ≡ sum_of S.arithmetic accumulator.now (product S.arithmetic left.now (only_columns columns.now right.now))) }
{
    let left_shape = left.shape();
    prove_eq!(right.shape().rows(), left_shape.cols());
    prove_eq!(accumulator.shape().rows(), left_shape.rows());
    let mut next = first_place(right.column_numbers(), columns);
    let mut own_next = 0;
    let mut seen = 0usize;
    for column in columns {
        let (from, until) = columns::range_of_next(right, &mut next, *column);
        let (rows, values) = (right.row_numbers(), right.values());
        let (begin, end) = panel.find(left, index, rows, values, from, until)?;
        let terms = &panel.terms()[begin..end];
        let (own_rows, own_values) = columns::of_next(accumulator, &mut own_next, *column);
        if terms.is_empty() {
            out.push_column(*column, own_rows, own_values)?;
            continue;
        }
        let entries = products_of(terms).saturating_add(own_rows.len());
        seen = seen.saturating_add(entries);
        let dense = is_dense(left_shape.rows(), entries, seen);
        work.make(left, terms, own_rows, own_values, dense)?;
        let (made_rows, made_values) = work.made.entries();
        out.push_column(*column, made_rows, made_values)?;
    }
    Ok(())
}

/// Returns the place among all columns at which the first of the given columns is, or would be.
fn first_place(all: &[u32], columns: &[u32]) -> usize {
    let Some(first) = columns.first() else {
        return 0;
    };
    match all.binary_search(first) {
        Ok(n) => n,
        Err(n) => n,
    }
}

/// Returns how many entries this many columns of the product can have: at most one for each product, and one for each place.
/// Where products can't be counted in a moment, their number is estimated.
fn most_entries<S: Semiring>(
    left: &Block<S>,
    index: &ColumnIndex,
    right: &Block<S>,
    columns: usize,
) -> usize
    requires agree { left.now.shape.cols ≡ right.now.shape.rows }
    requires told { Tells index.now left.now }
{
    prove_eq!(right.shape().rows(), left.shape().cols());
    let products = match index {
        ColumnIndex::Searched => average_products(left, right.len()),
        _ => index.products(left, right.row_numbers()),
    };
    products.min(columns.saturating_mul(left.shape().rows() as usize))
}

/// Returns a block without entries, of the accumulator's shape, with room for this many entries.
fn with_room<S: Semiring>(alloc: Global, accumulator: &Block<S>, room: usize) -> Block<S>
    ensures value { result ≡ empty_matrix accumulator.now.shape }
    ensures matrix { IsMatrix S.arithmetic result }
{
    let mut out = Block::empty(alloc, accumulator.shape());
    // A refusal isn't an error here: there can still be enough memory for the entries that are stored.
    let _ = out.reserve(room);
    out
}

/// Returns for how many entries room is taken at once: for the accumulator's entries and for all products, but for at most
/// 32 times the entries of the two blocks, since many products may add up to few entries.
fn room_for(left: usize, right: usize, accumulator: usize, products: usize) -> usize {
    let given = left.saturating_add(right);
    products
        .min(given.saturating_mul(32))
        .saturating_add(accumulator)
}

/// Whether the sparse accumulator pays for a column with this many entries. It does if the column has an entry for every
/// 16,384 rows, for which at most four words are scanned, and the columns so far, with this one, have an entry for every 16
/// rows. To clear so many sums takes less time than to merge an entry, and the accumulator is never longer than 16 times the
/// entries that it can serve.
fn is_dense(rows: u32, entries: usize, seen: usize) -> bool {
    let rows = rows as usize;
    rows / 16384 <= entries && rows / 16 <= seen
}
