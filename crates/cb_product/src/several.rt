//! Several products added to one accumulator, in one pass over the columns.
//!
//! Column j of the result is the accumulator's column plus the terms of all products. No block is built for a sum in between.
//! Several threads can each make some of the columns, as parts that are appended to one another.
ghost use Rattle.std.specs.Prelude.{◌≡◌, ◌⊎◌, ◌<◌, ◌≤◌, true, [], length, All, AllPairs, IfOk, IfErr, OnOk};
ghost use Rattle.cb_matrix.specs.Sparse.{IsMatrix};
ghost use Rattle.cb_matrix.specs.Values.{empty_matrix};
ghost use Rattle.cb_product.specs.SeveralProducts.{pairs_in, plus_products, AreMatrices, MakeShape, AreColumnsOf};
ghost use Rattle.cb_product.specs.InColumns.{only_columns};
ghost use Rattle.cb_product.specs.SparseColumn.{AreEntries};
ghost use Rattle.cb_product.specs.Sources.{IsSource, HasTerms, source_pairs, IsColumnWithAll};

use crate::column_index::average_products;
use crate::columns::{Column, of_next, union};
use crate::counts::products_of_column;
use crate::sources::{Source, gather_all, sources_of};
use crate::workspace::Workspace;
use crate::{first_place, is_dense, most_entries, room_for, with_room};
use cb_dcsc::Block;
use cb_semirings::Semiring;
use std::alloc::{AllocError, Global};
use std::mem::swap;

/// Two blocks to be multiplied: the left one has as many columns as the right one has rows.
#[derive(Drop)]
pub struct Factors<'a, S: Semiring> {
    pub left: &'a Block<S>,
    pub right: &'a Block<S>,
}

/// Returns an accumulator plus the products of pairs of blocks, each of which has the accumulator's shape. If memory is
/// refused, the accumulator comes back as it was.
///
/// It costs less than a call of [`multiply_into`](crate::multiply_into) for each: the accumulator's entries are copied once,
/// and no sum in between is stored. If each pair has a block without entries, nothing is copied.
pub fn multiply_all_into<S: Semiring>(
    alloc: Global,
    products: &[Factors<'_, S>],
    accumulator: Block<S>,
) -> Result<Block<S>, (Block<S>, AllocError)>
    requires { All (MakeShape accumulator.shape) (pairs_in products.now) }
    ensures ok { IfOk result (λ m. m ≡ plus_products S.arithmetic accumulator (pairs_in products.now)) }
    ensures err { IfErr result (λ e. e.0 ≡ accumulator) }
{
    if add_nothing(products, &accumulator) {
        return Ok(accumulator);
    }
    match all_added(alloc, products, &accumulator) {
        Ok(sum) => Ok(sum),
        Err(error) => Err((accumulator, error)),
    }
}

/// Whether no product has a term.
fn add_nothing<S: Semiring>(products: &[Factors<'_, S>], accumulator: &Block<S>) -> bool
    requires { All (MakeShape accumulator.now.shape) (pairs_in products.now) }
    ensures { result ≡ true → accumulator.now ≡ plus_products S.arithmetic accumulator.now (pairs_in products.now) }
{
    for factors in products {
        prove_eq!(accumulator.shape().rows(), factors.left.shape().rows());
        if !has_no_terms(factors) {
            return false;
        }
    }
    true
}

/// Whether a product has no terms, since one of its blocks has no entries.
fn has_no_terms<S: Semiring>(factors: &Factors<'_, S>) -> bool
    requires { factors.now.left.now.shape.cols ≡ factors.now.right.now.shape.rows }
    ensures left { IsMatrix S.arithmetic factors.now.left.now }
    ensures right { IsMatrix S.arithmetic factors.now.right.now }
    ensures none { result ≡ true → (factors.now.left.now.entries ≡ []) ⊎ (factors.now.right.now.entries ≡ []) }
{
    prove_eq!(factors.left.shape().cols(), factors.right.shape().rows());
    factors.left.len() == 0 || factors.right.len() == 0
}

/// Returns an accumulator plus the products of pairs of blocks, as a new block.
fn all_added<S: Semiring>(
    alloc: Global,
    products: &[Factors<'_, S>],
    accumulator: &Block<S>,
) -> Result<Block<S>, AllocError>
    requires { All (MakeShape accumulator.now.shape) (pairs_in products.now) }
    ensures { IfOk result (λ m. m ≡ plus_products S.arithmetic accumulator.now (pairs_in products.now)) }
{
    let columns = columns_of_sum(alloc, products, accumulator)?;
    let mut sources = sources_of(alloc, products)?;
    let mut out = room_of(alloc, &sources, accumulator, columns.len());
    make_all_columns(alloc, &mut sources, accumulator, &columns, &mut out)?;
    Ok(out)
}

/// Returns some columns of an accumulator plus the products of pairs of blocks, in a block with the shape of the whole sum. Such
/// parts can be computed by several threads, and appended to one another.
///
/// The columns ascend. Each call makes its own index of the left blocks' columns. Room is taken for as many entries as
/// `parts` parts like this one can have, unless it is refused. Costs the products of these columns, and copies the
/// accumulator's entries in them.
pub fn multiply_all_columns<S: Semiring>(
    alloc: Global,
    products: &[Factors<'_, S>],
    accumulator: &Block<S>,
    columns: &[u32],
    parts: u32,
) -> Result<Block<S>, AllocError>
    requires shapes { All (MakeShape accumulator.now.shape) (pairs_in products.now) }
    requires ascending { AllPairs (λ c d. c < d) columns.now }
    requires within { All (λ c. c < accumulator.now.shape.cols) columns.now }
    ensures columns { IfOk result (λ m. m ≡ only_columns columns.now (plus_products S.arithmetic accumulator.now (pairs_in products.now))) }
    ensures matrices { OnOk result (All (AreMatrices S.arithmetic) (pairs_in products.now)) }
{
    let mut sources = sources_of(alloc, products)?;
    let room = most_entries_in(&sources, accumulator, columns);
    let mut out = with_room(alloc, accumulator, room.saturating_mul(parts as usize));
    make_all_columns(alloc, &mut sources, accumulator, columns, &mut out)?;
    Ok(out)
}

/// Returns about how many products of two values these products have: as if each entry of a right block met an average column
/// of the left one.
pub fn estimated_products<S: Semiring>(products: &[Factors<'_, S>]) -> usize {
    let mut count = 0usize;
    for factors in products {
        let products = average_products(factors.left, factors.right.len());
        count = count.saturating_add(products);
    }
    count
}

/// Returns how many of these columns make up the first `low` of `count` parts: those with that share of the entries of the
/// accumulator and of the right blocks. The columns ascend.
pub fn first_columns<S: Semiring>(
    products: &[Factors<'_, S>],
    accumulator: &Block<S>,
    columns: &[u32],
    low: u32,
    count: u32,
) -> usize
    requires { 0 < count }
    ensures { result ≤ length columns.now }
{
    let (Some(first), Some(last)) = (columns.first(), columns.last()) else {
        return 0;
    };
    let begin = all_before(products, accumulator, *first);
    let each = all_before(products, accumulator, *last).saturating_sub(begin) / count as usize;
    let end = begin.saturating_add(each.saturating_mul(low as usize));
    columns.partition_point(|column| all_before(products, accumulator, *column) < end)
}

/// Returns how many entries the accumulator and the right blocks have before a column.
fn all_before<S: Semiring>(
    products: &[Factors<'_, S>],
    accumulator: &Block<S>,
    column: u32,
) -> usize {
    let mut entries = before(accumulator, column);
    for factors in products {
        entries = entries.saturating_add(before(factors.right, column));
    }
    entries
}

/// Returns how many entries a block has before a column.
fn before<S: Semiring>(block: &Block<S>, column: u32) -> usize {
    let place = first_place(block.column_numbers(), &[column]);
    if place < block.columns() {
        let (start, _) = block.nth_range(place);
        return start;
    }
    block.len()
}

/// Returns the columns in which the accumulator or a right block has entries, ascending.
pub fn columns_of_sum<S: Semiring>(
    alloc: Global,
    products: &[Factors<'_, S>],
    accumulator: &Block<S>,
) -> Result<Vec<u32>, AllocError>
    requires { All (MakeShape accumulator.now.shape) (pairs_in products.now) }
    ensures { IfOk result (λ v. AreColumnsOf v.items accumulator.now (pairs_in products.now)) }
{
    let mut columns = union(alloc, accumulator.column_numbers(), &[])?;
    for factors in products {
        columns = union(alloc, &columns, factors.right.column_numbers())?;
    }
    Ok(columns)
}

/// Returns a block without entries, of the accumulator's shape, with room for the entries of the sum, which are in this many
/// columns.
fn room_of<S: Semiring>(
    alloc: Global,
    sources: &[Source<'_, S>],
    accumulator: &Block<S>,
    columns: usize,
) -> Block<S>
    requires { All (IsSource S.arithmetic) sources.now }
    ensures value { result ≡ empty_matrix accumulator.now.shape }
    ensures accumulator { IsMatrix S.arithmetic accumulator.now }
    ensures matrix { IsMatrix S.arithmetic result }
{
    let (mut most, mut left, mut right) = (0usize, 0usize, 0usize);
    for source in sources {
        let products = most_entries(source.left, &source.index, source.right, columns);
        most = most.saturating_add(products);
        left = left.saturating_add(source.left.len());
        right = right.saturating_add(source.right.len());
    }
    let places = columns.saturating_mul(accumulator.shape().rows() as usize);
    let room = room_for(left, right, accumulator.len(), most.min(places));
    with_room(alloc, accumulator, room)
}

/// Returns how many entries the given columns of the sum can have.
fn most_entries_in<S: Semiring>(
    sources: &[Source<'_, S>],
    accumulator: &Block<S>,
    columns: &[u32],
) -> usize
    requires { All (IsSource S.arithmetic) sources.now }
{
    let (mut most, mut left, mut right) = (0usize, 0usize, 0usize);
    for source in sources {
        most = most.saturating_add(products_in(source, columns));
        left = left.saturating_add(source.left.len());
        right = right.saturating_add(source.right.len());
    }
    let places = columns
        .len()
        .saturating_mul(accumulator.shape().rows() as usize);
    room_for(left, right, accumulator.len(), most.min(places))
}

/// Returns how many products the columns from the first to the last of the given ones have.
fn products_in<S: Semiring>(source: &Source<'_, S>, columns: &[u32]) -> usize
    requires { IsSource S.arithmetic source.now }
{
    let Some(last) = columns.last() else {
        return 0;
    };
    let numbers = source.right.column_numbers();
    let begin = first_place(numbers, columns);
    let end = first_place(numbers, &[*last]).saturating_add(1);
    let mut count = 0usize;
    for n in begin..end.min(source.right.columns()) {
        let more = products_of_column(source.left, &source.index, source.right, n);
        count = count.saturating_add(more);
    }
    count
}

/// Computes the given columns of the sum one after another, and stores them in `out`, a block without entries.
fn make_all_columns<S: Semiring>(
    alloc: Global,
    sources: &mut [Source<'_, S>],
    accumulator: &Block<S>,
    columns: &[u32],
    out: &mut Block<S>,
) -> Result<(), AllocError>
    requires sources { All (IsSource S.arithmetic) sources.old }
    requires shapes { All (MakeShape accumulator.now.shape) (source_pairs sources.old) }
    requires ascending { AllPairs (λ c d. c < d) columns.now }
    requires within { All (λ c. c < accumulator.now.shape.cols) columns.now }
    requires empty { out.old ≡ empty_matrix accumulator.now.shape }
    requires matrix { IsMatrix S.arithmetic out.old }
    ensures { OnOk result (out.new ≡ only_columns columns.now (plus_products S.arithmetic accumulator.now (source_pairs sources.old))) }
{
    let rows = accumulator.shape().rows();
    let mut work = Workspace::new(alloc)?;
    let mut half = Column::new(alloc);
    let (mut own_next, mut seen) = (0, 0usize);
    for column in columns {
        let products = gather_all(sources, *column)?;
        let (own_rows, own_values) = of_next(accumulator, &mut own_next, *column);
        let entries = products.saturating_add(own_rows.len());
        seen = seen.saturating_add(entries);
        let dense = products > 1 && is_dense(rows, entries, seen);
        make_all(
            &mut work, &mut half, sources, rows, own_rows, own_values, dense,
        )?;
        let (made_rows, made_values) = work.made.entries();
        out.push_column(*column, made_rows, made_values)?;
    }
    Ok(())
}

/// Computes the sum of a column of the accumulator and of the terms of all products, whose columns have this many rows: in the
/// sparse accumulator if `dense`; otherwise the terms of one product after another are added.
fn make_all<S: Semiring>(
    work: &mut Workspace<S>,
    half: &mut Column<S>,
    sources: &[Source<'_, S>],
    rows: u32,
    own_rows: &[u32],
    own_values: &[u64],
    dense: bool,
) -> Result<(), AllocError>
    requires sources { All (IsSource S.arithmetic) sources.now }
    requires terms { All (HasTerms S.arithmetic) sources.now }
    requires rows { All (λ x. x.left.now.shape.rows ≡ rows) sources.now }
    requires own { AreEntries S.arithmetic rows own_rows.now own_values.now }
    requires zeros { All (λ x. x ≡ S.arithmetic.zero) work.old.sums }
    ensures zeros { OnOk result (All (λ x. x ≡ S.arithmetic.zero) work.new.sums) }
    ensures column { OnOk result (IsColumnWithAll S.arithmetic sources.now own_rows.now own_values.now work.new.made) }
{
    if dense {
        return work.make_all_dense(sources, rows, own_rows, own_values);
    }
    make_all_joined(work, half, sources, rows, own_rows, own_values)
}

/// Computes it by adding the terms of one product after another; `half` holds the sum so far.
fn make_all_joined<S: Semiring>(
    work: &mut Workspace<S>,
    half: &mut Column<S>,
    sources: &[Source<'_, S>],
    rows: u32,
    own_rows: &[u32],
    own_values: &[u64],
) -> Result<(), AllocError>
    requires sources { All (IsSource S.arithmetic) sources.now }
    requires terms { All (HasTerms S.arithmetic) sources.now }
    requires rows { All (λ x. x.left.now.shape.rows ≡ rows) sources.now }
    requires own { AreEntries S.arithmetic rows own_rows.now own_values.now }
    requires zeros { All (λ x. x ≡ S.arithmetic.zero) work.old.sums }
    ensures zeros { OnOk result (All (λ x. x ≡ S.arithmetic.zero) work.new.sums) }
    ensures column { OnOk result (IsColumnWithAll S.arithmetic sources.now own_rows.now own_values.now work.new.made) }
{
    work.made.clear();
    work.made.append(own_rows, own_values, None, 0)?;
    for source in sources {
        let terms = source.terms();
        if terms.is_empty() {
            continue;
        }
        swap(&mut work.made, half);
        let (half_rows, half_values) = half.entries();
        work.make(source.left, terms, half_rows, half_values, false)?;
    }
    Ok(())
}
