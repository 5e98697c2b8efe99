//! How many products of two values a product takes, column by column, to divide it among threads.
ghost use Rattle.std.specs.Prelude.{◌≡◌, ◌<◌, length};
ghost use Rattle.cb_dcsc.specs.Columns.{columns_with_entries};
ghost use Rattle.cb_product.specs.ColumnStarts.{Tells};

use crate::column_index::ColumnIndex;
use cb_dcsc::Block;
use cb_semirings::Semiring;
use std::alloc::{AllocError, Global};

/// The fewest products of two values in a share. For fewer, a thread takes longer to start than to multiply.
pub const LEAST_PRODUCTS: usize = 65_536;

/// How many products each column of the right block that has entries takes. Costs a pass over the right block's entries.
pub fn products_of_columns<S: Semiring>(
    alloc: Global,
    left: &Block<S>,
    index: &ColumnIndex,
    right: &Block<S>,
) -> Result<Vec<usize>, AllocError>
    requires agree { left.now.shape.cols ≡ right.now.shape.rows }
    requires told { Tells index.now left.now }
{
    let mut counts = Vec::new(alloc);
    counts.reserve(right.columns())?;
    for n in 0..right.columns() {
        counts.push(products_of_column(left, index, right, n))?;
    }
    Ok(counts)
}

/// How many products the nth column of the right block that has entries takes.
pub fn products_of_column<S: Semiring>(
    left: &Block<S>,
    index: &ColumnIndex,
    right: &Block<S>,
    n: usize,
) -> usize
    requires agree { left.now.shape.cols ≡ right.now.shape.rows }
    requires told { Tells index.now left.now }
    requires within { n < length (columns_with_entries right.now.entries) }
{
    let right_shape = right.shape();
    let (rows, _) = right.nth_column(n);
    index.products(left, rows)
}

/// The sum of these counts, saturating.
pub fn total_products(counts: &[usize]) -> usize {
    let mut sum = 0usize;
    for count in counts {
        sum = sum.saturating_add(*count);
    }
    sum
}
