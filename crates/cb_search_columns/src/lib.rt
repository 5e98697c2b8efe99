//! A search for the least weights of walks whose state is two columns: the numbers of the vertices so far, and those that fell in
//! the last round.
//!
//! At first only the source has a number, 0, and it fell ([`source_column`]). A round multiplies the transposed matrix by the
//! numbers that fell, in min-plus. The element-wise sum of the old numbers and of what is reached are the new numbers, and the
//! reached values below the old numbers are those that fell ([`lower_values`]). The search ends when none fell.
//!
//! Each step but the product goes place by place, so it can be made in the blocks of columns that are cut over a grid. Nothing has
//! a place for each vertex.
#![tactic(auto)]

ghost use Rattle.std.specs.Prelude.{◌≡◌, ℕ, ◌<◌, IfOk};
ghost use Rattle.cb_semirings.specs.Tables.{min_plus, or_and};
ghost use Rattle.cb_matrix.specs.Sparse.{Sparse, IsMatrix};
ghost use Rattle.cb_matrix.specs.Operations.{sum_of};
ghost use Rattle.cb_search_columns.specs.SearchColumns.{source_column, lower_values};

mod lower;

use crate::lower::Lower;
use cb_dcsc::Block;
use cb_elementwise::replaced;
use cb_matrix::{Entry, Shape};
use cb_searches::column_shape;
use cb_semirings::MinPlus;
use std::alloc::{AllocError, Global};

/// The column in which only the source has a number, 0, with as many rows as this shape.
pub fn source_column(alloc: Global, shape: Shape, source: u32) -> Result<Block<MinPlus>, AllocError>
    requires { source < shape.rows }
    ensures { IfOk result (λ column. column ≡ source_column shape.rows source) }
{
    let entry = Entry {
        row: source,
        column: 0,
        value: 0,
    };
    Block::from_ordered(alloc, column_shape(shape), &[entry])
}

/// The values of a block that are below those of another of its shape, place by place. Where the other has none, each is below.
///
/// Costs two binary searches in the other block for each entry.
pub fn lower_values(
    alloc: Global,
    known: &Block<MinPlus>,
    reached: &Block<MinPlus>,
) -> Result<Block<MinPlus>, AllocError>
    ensures { IfOk result (λ lower. lower ≡ lower_values known.now reached.now) }
{
    replaced(alloc, reached, &Lower { known }, reached.len())
}
