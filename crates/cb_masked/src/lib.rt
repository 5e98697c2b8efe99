//! Masked products of blocks: the product's entries at the places where a mask has an entry. No others are computed. For those
//! where it has none, see `outside`.
//!
//! Column j of a product is a sum of terms: for each entry (k, j) of the right block, column k of the left block times
//! that entry. Each entry of the mask's column j has a sum, in the order of rows, and terms are added to these sums only. So
//! only the mask's columns are computed, no sorting is needed, and rows outside the mask have no sum. Sums of zero aren't
//! stored.
//!
//! A term is added in the cheaper of two ways:
//!
//! - for each of its entries, the row is looked up among the mask's rows;
//! - if it is long for the mask's column, each of the mask's rows is searched for in the term.
//!
//! Rows and columns are looked up in a table with a slot for each row, or for each column of the left block. There is no
//! table of rows if it would have more than four slots for each entry of the mask, and none of columns if it would have
//! more than four for each lookup. Then lookups are binary searches. So no cost depends on a dimension.
//!
//! This is the masked product by columns of Milaković, Selvitopi, Nisa, Budimlić and Buluç, Parallel Algorithms for Masked
//! Sparse Matrix-Matrix Products (ICPP 2022), with its accumulator over the mask's entries.
#![tactic(auto)]

ghost use Rattle.std.specs.Prelude.{◌≡◌, ◌<◌, ◌≤◌, ℕ, All, AllPairs, IfOk, OnOk, length};
ghost use Rattle.cb_semirings.specs.Arithmetic.{IsValue};
ghost use Rattle.cb_matrix.specs.Sparse.{IsMatrix};
ghost use Rattle.cb_matrix.specs.Values.{product, product_shape, empty_matrix};
ghost use Rattle.cb_matrix.specs.Operations.{masked};
ghost use Rattle.cb_dcsc.specs.Columns.{columns_with_entries};
ghost use Rattle.cb_masked.specs.declared.places.TheConstants.{NONE};
ghost use Rattle.cb_masked.specs.PlaceTables.{AreNoted};
ghost use Rattle.cb_masked.specs.SomeColumns.{only_places};

mod outside;
mod places;
mod stored_sums;
mod sums;

pub use crate::outside::{multiply_outside, multiply_outside_columns};
use crate::places::{cleared, noted};
use crate::stored_sums::keep_nonzero;
use crate::sums::sum_column;
use cb_dcsc::Block;
use cb_semirings::Semiring;
use std::alloc::{AllocError, Global};

/// Returns the entries of a product of two blocks at the places where a mask has an entry. The mask's values are ignored.
///
/// The left block has as many columns as the right block has rows, and the mask has the product's shape.
///
/// Costs time for the mask's entries and, for each entry of the right block in one of the mask's columns, for the entries
/// of a column of the left block. If that column has more than 16 times the entries of the mask's column, the cost is one
/// binary search for each entry of the mask's column instead. Memory is that of the mask's longest column, and of at most
/// four slots for each entry of the mask and of the right block.
pub fn multiply_masked<S: Semiring>(
    alloc: Global,
    left: &Block<S>,
    right: &Block<S>,
    mask: &Block<S>,
) -> Result<Block<S>, AllocError>
    requires agree { left.now.shape.cols ≡ right.now.shape.rows }
    requires shape { mask.now.shape ≡ product_shape left.now right.now }
    ensures { IfOk result (λ m. m ≡ masked S.arithmetic (product S.arithmetic left.now right.now) mask.now) }
{
    let columns = mask.column_numbers();
    multiply_masked_columns(alloc, left, right, mask, 0, columns.len())
}

/// Returns the same in some of the mask's columns: of those that have entries, from one place up to, but not including,
/// another. The result has the shape of the whole product, so that threads can compute panels of it.
///
/// Costs what [`multiply_masked`] costs, for the entries of the mask and of the right block in these columns.
pub fn multiply_masked_columns<S: Semiring>(
    alloc: Global,
    left: &Block<S>,
    right: &Block<S>,
    mask: &Block<S>,
    low: usize,
    high: usize,
) -> Result<Block<S>, AllocError>
    requires agree { left.now.shape.cols ≡ right.now.shape.rows }
    requires shape { mask.now.shape ≡ product_shape left.now right.now }
    requires order { low ≤ high }
    requires within { high ≤ length (columns_with_entries mask.now.entries) }
    ensures { IfOk result (λ m. m ≡ masked S.arithmetic (product S.arithmetic left.now right.now) (only_places low high mask.now)) }
{
    let columns = mask.column_numbers();
    let places = noted(
        alloc,
        left.shape().cols(),
        asked(left, right, &columns[low..high]),
        left.column_numbers(),
    )?;
    let entries = entries_between(mask, low, high);
    let mut slots = cleared(alloc, mask.shape().rows(), entries)?;
    let mut out = Block::empty(alloc, mask.shape());
    make_columns(
        alloc, left, right, mask, low, high, &places, &mut slots, &mut out,
    )?;
    Ok(out)
}

/// Returns how many entries are in the columns from one place up to another among those that have entries.
pub fn entries_between<S: Semiring>(block: &Block<S>, low: usize, high: usize) -> usize
    requires { high ≤ length (columns_with_entries block.now.entries) }
{
    if low >= high {
        return 0;
    }
    let (start, _) = block.nth_range(low);
    let (_, end) = block.nth_range(high - 1);
    end.saturating_sub(start)
}

/// Returns how many lookups of a column of the left block there will be: one for each entry of the right block in one of
/// the given columns. Returns 0, without counting, if the right block has too few entries for a table of columns to pay.
fn asked<S: Semiring>(left: &Block<S>, right: &Block<S>, columns: &[u32]) -> usize {
    if left.shape().cols() as usize / 4 >= right.len() {
        return 0;
    }
    let mut count = 0usize;
    for column in columns {
        let (at, end) = right.range(*column);
        count = count.saturating_add(end - at);
    }
    count
}

/// Computes these of the mask's columns one after another, and stores them in `out`, a block without entries.
fn make_columns<S: Semiring>(
    alloc: Global,
    left: &Block<S>,
    right: &Block<S>,
    mask: &Block<S>,
    low: usize,
    high: usize,
    places: &[u32],
    slots: &mut [u32],
    out: &mut Block<S>,
) -> Result<(), AllocError>
    requires agree { left.now.shape.cols ≡ right.now.shape.rows }
    requires shape { mask.now.shape ≡ product_shape left.now right.now }
    requires order { low ≤ high }
    requires within { high ≤ length (columns_with_entries mask.now.entries) }
    requires places { AreNoted places.now (columns_with_entries left.now.entries) }
    requires cleared { All (λ x. x ≡ NONE) slots.old }
    requires empty { out.old ≡ empty_matrix mask.now.shape }
    requires matrix { IsMatrix S.arithmetic out.old }
    ensures { OnOk result (out.new ≡ masked S.arithmetic (product S.arithmetic left.now right.now) (only_places low high mask.now)) }
{
    prove_eq!(left.shape().cols(), right.shape().rows());
    prove_eq!(mask.shape().rows(), left.shape().rows());
    let all = mask.column_numbers();
    let columns = &all[low..high];
    let mut sums = Vec::new(alloc);
    let mut rows = Vec::new(alloc);
    let mut values = Vec::new(alloc);
    for n in 0..columns.len() {
        let (mask_rows, _values) = mask.nth_column(low + n);
        let (inner, factors) = right.column(columns[n]);
        sum_column(&mut sums, mask_rows, slots, left, places, inner, factors)?;
        keep_nonzero::<S>(mask_rows, &sums, &mut rows, &mut values)?;
        out.push_column(columns[n], &rows, &values)?;
    }
    Ok(())
}
