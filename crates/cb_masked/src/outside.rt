//! Products outside a mask: the product's entries at the places where the mask has none.
//!
//! Column j of the product is computed as without a mask, except for the rows in which column j of the mask has an entry. If
//! it is added up in the sparse accumulator, products in these rows are skipped. In the other three ways their sums are
//! computed too, and left out as the column is copied. Nothing is stored in the result, or removed later, for the mask's
//! places.
ghost use Rattle.std.specs.Prelude.{◌≡◌, ◌<◌, ◌≤◌, All, AllPairs, IfOk, OnOk, length};
ghost use Rattle.cb_matrix.specs.Sparse.{IsMatrix};
ghost use Rattle.cb_matrix.specs.Values.{product, product_shape, empty_matrix};
ghost use Rattle.cb_operations.specs.SelectionAnswers.{excluded};
ghost use Rattle.cb_product.specs.ColumnStarts.{Tells};
ghost use Rattle.cb_dcsc.specs.Columns.{columns_with_entries};
ghost use Rattle.cb_masked.specs.SomeColumns.{only_places};

use crate::entries_between;
use cb_dcsc::Block;
use cb_product::{ColumnIndex, ProductColumn};
use cb_semirings::Semiring;
use std::alloc::{AllocError, Global};

/// Returns the entries of a product of two blocks at the places where a mask has none: those that the complement of the mask
/// allows. The mask's values are ignored.
///
/// The left block has as many columns as the right block has rows, and the mask has the product's shape.
///
/// Costs what the product costs, and the mask's entries in the columns in which the right block has entries. Memory is that
/// of the result and of one column of the product.
pub fn multiply_outside<S: Semiring>(
    alloc: Global,
    left: &Block<S>,
    right: &Block<S>,
    mask: &Block<S>,
) -> Result<Block<S>, AllocError>
    requires agree { left.now.shape.cols ≡ right.now.shape.rows }
    requires shape { mask.now.shape ≡ product_shape left.now right.now }
    ensures { IfOk result (λ m. m ≡ excluded S.arithmetic (product S.arithmetic left.now right.now) mask.now) }
{
    let columns = right.column_numbers();
    multiply_outside_columns(alloc, left, right, mask, 0, columns.len())
}

/// Returns the same with some of the right block's columns: of those that have entries, from one place up to, but not
/// including, another. The result has the shape of the whole product, so that threads can compute panels of it.
///
/// Costs what [`multiply_outside`] costs, for the entries of the right block and of the mask in these columns.
pub fn multiply_outside_columns<S: Semiring>(
    alloc: Global,
    left: &Block<S>,
    right: &Block<S>,
    mask: &Block<S>,
    low: usize,
    high: usize,
) -> Result<Block<S>, AllocError>
    requires agree { left.now.shape.cols ≡ right.now.shape.rows }
    requires shape { mask.now.shape ≡ product_shape left.now right.now }
    requires order { low ≤ high }
    requires within { high ≤ length (columns_with_entries right.now.entries) }
    ensures { IfOk result (λ m. m ≡ excluded S.arithmetic (product S.arithmetic left.now (only_places low high right.now)) mask.now) }
{
    let index = ColumnIndex::new(alloc, left, entries_between(right, low, high))?;
    let mut column = ProductColumn::new(alloc)?;
    let mut out = Block::empty(alloc, mask.shape());
    make_outside(left, &index, right, mask, low, high, &mut column, &mut out)?;
    Ok(out)
}

/// Computes these of the product's columns one after another, each in `made`, and stores them in `out`, a block without entries.
fn make_outside<S: Semiring>(
    left: &Block<S>,
    index: &ColumnIndex,
    right: &Block<S>,
    mask: &Block<S>,
    low: usize,
    high: usize,
    made: &mut ProductColumn<S>,
    out: &mut Block<S>,
) -> Result<(), AllocError>
    requires agree { left.now.shape.cols ≡ right.now.shape.rows }
    requires told { Tells index.now left.now }
    requires shape { mask.now.shape ≡ product_shape left.now right.now }
    requires order { low ≤ high }
    requires within { high ≤ length (columns_with_entries right.now.entries) }
    requires empty { out.old ≡ empty_matrix mask.now.shape }
    requires matrix { IsMatrix S.arithmetic out.old }
    ensures { OnOk result (out.new ≡ excluded S.arithmetic (product S.arithmetic left.now (only_places low high right.now)) mask.now) }
{
    prove_eq!(left.shape().cols(), right.shape().rows());
    prove_eq!(mask.shape().rows(), left.shape().rows());
    let all = right.column_numbers();
    let columns = &all[low..high];
    for n in 0..columns.len() {
        let (inner, factors) = right.nth_column(low + n);
        let (mask_rows, _values) = mask.column(columns[n]);
        made.make_outside(left, index, inner, factors, mask_rows)?;
        let (rows, values) = made.entries();
        out.push_column(columns[n], rows, values)?;
    }
    Ok(())
}
