//! Some columns of the rows and columns of a matrix by their numbers.
ghost use Rattle.std.specs.Prelude.{◌≡◌, ◌<◌, ◌≤◌, None, Some, length, All, IfOk, option_copied};
ghost use Rattle.cb_selections.specs.Extracted.{AreBelow, AreFew, extracted_by};
ghost use Rattle.cb_shares.specs.Shares.{panel};

use crate::columns::columns_between;
use cb_dcsc::Block;
use cb_layout::PanelledMatrix;
use cb_matrix::LIMIT;
use cb_selections::{extract, extract_between};
use cb_semirings::Semiring;
use std::alloc::{AllocError, Global};

/// Returns the columns from `first` up to, but not including, `end` of the matrix of the rows and columns of a matrix with the
/// given numbers, in that order, or of all of them, in a block of the whole shape. A number may appear more than once.
///
/// Costs what these columns cost (`cb_selections::extract`). A matrix in several panels is copied if columns are listed.
pub fn extracted_columns<S: Semiring>(
    alloc: Global,
    matrix: &PanelledMatrix<S>,
    rows: Option<&[u32]>,
    cols: Option<&[u32]>,
    first: u32,
    end: u32,
) -> Result<Block<S>, AllocError>
    requires rows { AreBelow matrix.now.shape.rows (option_copied rows) }
    requires cols { AreBelow matrix.now.shape.cols (option_copied cols) }
    requires row_limit { AreFew (option_copied rows) }
    requires column_limit { AreFew (option_copied cols) }
    ensures { IfOk result (λ m. m ≡ panel (extracted_by S.arithmetic (option_copied rows.entry) (option_copied cols.entry) matrix.now) first end) }
{
    match cols {
        Some(cols) => listed_columns(alloc, matrix, rows, cols, first, end),
        None => all_columns(alloc, matrix, rows, first, end),
    }
}

/// The same of listed columns.
fn listed_columns<S: Semiring>(
    alloc: Global,
    matrix: &PanelledMatrix<S>,
    rows: Option<&[u32]>,
    cols: &[u32],
    first: u32,
    end: u32,
) -> Result<Block<S>, AllocError>
    requires rows { AreBelow matrix.now.shape.rows (option_copied rows) }
    requires row_limit { AreFew (option_copied rows) }
    requires column_limit { length cols.now ≤ LIMIT }
    ensures { IfOk result (λ m. m ≡ panel (extracted_by S.arithmetic (option_copied rows.entry) (Some cols.now) matrix.now) first end) }
{
    prove_eq!(matrix.shape(), matrix.shape());
    let whole = matrix.whole()?;
    let high = (end as usize).min(cols.len());
    let low = (first as usize).min(high);
    extract_between(alloc, whole.block(), rows, cols, low, high)
}

/// The same of all columns.
fn all_columns<'a, S: Semiring>(
    alloc: Global,
    matrix: &PanelledMatrix<S>,
    rows: Option<&'a [u32]>,
    first: u32,
    end: u32,
) -> Result<Block<S>, AllocError>
    requires rows { AreBelow matrix.now.shape.rows (option_copied rows) }
    requires row_limit { AreFew (option_copied rows) }
    ensures { IfOk result (λ m. m ≡ panel (extracted_by S.arithmetic (option_copied rows.entry) None matrix.now) first end) }
{
    let part = columns_between(alloc, matrix, first, end)?;
    let all: Option<&'a [u32]> = None;
    extract(alloc, part.block(), rows, all)
}
