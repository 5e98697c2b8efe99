//! Selections of GraphBLAS from blocks: entries by their place, values replaced, the diagonal, a part assigned, the Kronecker
//! product, powers and complemented masks. [`selection_of_one`] and [`selection_of_two`] make any [`Selection`](cb_operations::Selection). Beside them rows
//! and columns extracted by their numbers, a block updated under a mask, and products of transposes.
//!
//! Each walks the columns that have entries, in order, so its cost is proportional to the entries, whatever the
//! dimensions. A rule gives an entry its new value: a region of places, or a function of the value and the place. One walk
//! (`replaced` of `cb_elementwise`) applies any rule; where all entries keep their places, or those of a column that stay follow
//! one another (`functions`, `regions`), lists are copied whole.
//!
//! The operations are `GrB_select`, `GrB_apply`, `GrB_Matrix_diag`, `GrB_extract`, `GrB_assign` and `GrB_kronecker` of The
//! GraphBLAS C API Specification, version 2.1, section 4.3, and the write-back under a mask that ends each of them.
#![tactic(auto)]

ghost use Rattle.std.specs.Prelude.{◌≡◌, ℕ, ◌<◌, ◌≤◌, true, IfOk, OnOk};
ghost use Rattle.cb_semirings.specs.Arithmetic.{IsValue};
ghost use Rattle.cb_matrix.specs.Sparse.{IsMatrix};
ghost use Rattle.cb_matrix.specs.Values.{empty_matrix};
ghost use Rattle.cb_operations.specs.Functions.{operand_of};
ghost use Rattle.cb_operations.specs.SelectionAnswers.{selected, applied};
ghost use Rattle.cb_selections.specs.KernelSteps.{is_one_range};

mod assignments;
mod column_places;
mod diagonals;
mod extracts;
mod functions;
mod kronecker_products;
mod powers;
mod regions;
mod selections;
mod sorted_rows;
mod turned_products;
mod updates;

use crate::functions::{depends_on_column, gives_zeros, results};
use crate::regions::{is_one_range, range};
pub use assignments::assign;
use cb_dcsc::Block;
use cb_elementwise::replaced;
use cb_matrix::{LIMIT, Shape};
use cb_operations::{Function, Region};
use cb_semirings::Semiring;
pub use diagonals::{diagonal, diagonal_matrix};
pub use extracts::{extract, extract_between, extract_columns, extract_rows};
pub use kronecker_products::kronecker;
pub use powers::power;
pub use selections::{selection_of_one, selection_of_two};
use std::alloc::{AllocError, Global};
pub use turned_products::multiply_turned;
pub use updates::{WriteBack, update};

/// How many columns are judged before room is taken for the entries in a region.
const JUDGED: usize = 64;

/// The entries of a block that are in a region.
///
/// Costs a binary search for each column that has entries, and a copy of the entries in the region; off a diagonal, a few
/// instructions for each entry. Room is taken for as many as some columns lead to expect, since few entries may be in the region.
pub fn select<S: Semiring>(
    alloc: Global,
    block: &Block<S>,
    region: Region,
) -> Result<Block<S>, AllocError>
    ensures { IfOk result (λ kept. kept ≡ selected S.arithmetic region block.now) }
{
    if !is_one_range(region) {
        return replaced(alloc, block, &region, 0);
    }
    let mut kept = Block::empty(alloc, block.shape());
    kept.reserve(expected_in(block, region))?;
    push_ranges(&mut kept, block, region)?;
    Ok(kept)
}

/// About how many entries of a block are in a region, or some more, judged by columns that are as far apart as one another.
fn expected_in<S: Semiring>(block: &Block<S>, region: Region) -> usize
    requires { is_one_range region ≡ true }
{
    let columns = block.column_numbers();
    let mut entries = 0usize;
    let mut inside = 0usize;
    let mut n = 0usize;
    while n < columns.len() {
        let (rows, _values) = block.nth_column(n);
        let (start, end) = range(region, columns[n], rows);
        entries = entries.saturating_add(rows.len());
        inside = inside.saturating_add(end - start);
        n = n.saturating_add(columns.len() / JUDGED + 1);
    }
    expected(block.len(), inside, entries)
}

/// About how many of these entries are in a part, which has so many of a whole: its share, and an eighth more, so that a little more
/// needs no other memory.
pub(crate) fn expected(entries: usize, part: usize, whole: usize) -> usize {
    let share = entries.saturating_mul(part) / whole.max(1);
    share.saturating_add(share / 8).min(entries)
}

/// Stores the entries in a region in an empty block, where they follow one another in each column.
fn push_ranges<S: Semiring>(
    kept: &mut Block<S>,
    block: &Block<S>,
    region: Region,
) -> Result<(), AllocError>
    requires matrix { IsMatrix S.arithmetic block.now }
    requires kept_matrix { IsMatrix S.arithmetic kept.old }
    requires empty { kept.old ≡ empty_matrix block.now.shape }
    requires one { is_one_range region ≡ true }
    ensures { OnOk result (kept.new ≡ selected S.arithmetic region block.now) }
{
    let columns = block.column_numbers();
    for n in 0..columns.len() {
        let (rows, values) = block.nth_column(n);
        let (start, end) = range(region, columns[n], rows);
        kept.push_column(columns[n], &rows[start..end], &values[start..end])?;
    }
    Ok(())
}

/// The block with a function applied to each entry. Results of zero aren't stored.
///
/// Costs a few instructions for each entry. Unless the function gives numbers of columns, or of rows of which one is the
/// semiring's zero, or a result is zero, the places of the entries are copied whole.
pub fn apply<S: Semiring>(
    alloc: Global,
    block: &Block<S>,
    function: Function,
) -> Result<Block<S>, AllocError>
    requires { (i j : ℕ) → i < block.now.shape.rows → j < block.now.shape.cols → IsValue S.arithmetic (operand_of function i j) }
    ensures { IfOk result (λ made. made ≡ applied S.arithmetic function block.now) }
{
    let gives_zeros = gives_zeros::<S>(function, block.shape());
    if !gives_zeros && !depends_on_column(function) {
        let (rows, values) = (block.row_numbers(), block.values());
        if let Some(made) = results::<S>(alloc, function, rows, values)? {
            return block.with_values(made);
        }
    }
    replaced(alloc, block, &function, block.len())
}

/// The shape with this many rows and columns.
fn shape_of(rows: u32, cols: u32) -> Shape
    requires rows { rows ≤ LIMIT }
    requires cols { cols ≤ LIMIT }
    ensures { result ≡ record { rows = rows; cols = cols } }
{
    Shape::new(rows, cols).unwrap()
}
