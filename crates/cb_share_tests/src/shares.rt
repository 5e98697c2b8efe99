//! Columns of the result of an update of a matrix in several panels, of a Kronecker product, and of rows and columns by their
//! numbers: those before a column and those from it on, one after the other, are the result. Those of all else that is computed
//! are tested with the threads that make them (`panels`).
ghost use Rattle.std.specs.Prelude.{◌<◌, ◌≤◌, length, All, IsTrue, option_copied};
ghost use Rattle.cb_selections.specs.Extracted.{AreBelow, AreFew};

use crate::operands::{Matrix, are_halves, is_computed, product_in, random};
use cb_layout::PanelledMatrix;
use cb_matrix::LIMIT;
use cb_operations::{Computation, Selection};
use cb_samples::SampleFault;
use cb_selections::{WriteBack, extract, update};
use cb_semirings::PlusTimes;
use cb_shares::{ends_by_entries, extracted_columns, total, update_columns};
use std::alloc::{AllocError, Global};
use std::thread::Threads;

type Panelled = PanelledMatrix<PlusTimes>;

/// A product in three panels of random matrices with an entry at one in so many places.
fn product<R: Threads + Sync>(rt: &R, alloc: Global, one_in: u32) -> Result<Panelled, SampleFault> {
    let left = random(alloc, 60, 6, one_in, 7919)?;
    let right = random(alloc, 6, 9, one_in, 104729)?;
    product_in(rt, alloc, 3, left, right)
}

/// Whether an update under the matrix itself is.
fn is_updated(
    alloc: Global,
    matrix: &Panelled,
    whole: &Matrix,
    column: u32,
) -> Result<bool, AllocError> {
    let how = WriteBack {
        complement: false,
        accumulate: true,
        replace: false,
    };
    let wanted = update(alloc, how, whole, whole, Some(whole))?;
    let front = update_columns(alloc, how, matrix, matrix, Some(matrix), 0, column)?;
    let back = update_columns(alloc, how, matrix, matrix, Some(matrix), column, LIMIT)?;
    are_halves(&wanted, &front, &back)
}

/// Whether the numbers are below a bound, and few.
fn are_below(numbers: &[u32], bound: u32) -> bool
    ensures below { IsTrue result → All (λ n. n < bound) numbers.now }
    ensures few { IsTrue result → length numbers.now ≤ LIMIT }
{
    numbers.len() <= LIMIT as usize && numbers.iter().all(|number| *number < bound)
}

/// Whether all rows with these numbers, all columns with these, or these rows of these columns are.
fn are_extracted(
    alloc: Global,
    matrix: &Panelled,
    rows: &[u32],
    cols: &[u32],
    column: u32,
) -> Result<bool, AllocError> {
    if !are_below(rows, matrix.shape().rows()) || !are_below(cols, matrix.shape().cols()) {
        return Ok(false);
    }
    Ok(
        is_extracted(alloc, matrix, Some(rows), None, column)?
            && is_extracted(alloc, matrix, None, Some(cols), column)?
            && is_extracted(alloc, matrix, Some(rows), Some(cols), column)?,
    )
}

/// Whether it is so of some lists.
fn is_extracted(
    alloc: Global,
    matrix: &Panelled,
    rows: Option<&[u32]>,
    cols: Option<&[u32]>,
    column: u32,
) -> Result<bool, AllocError>
    requires rows { AreBelow matrix.now.shape.rows (option_copied rows) }
    requires cols { AreBelow matrix.now.shape.cols (option_copied cols) }
    requires row_limit { AreFew (option_copied rows) }
    requires column_limit { AreFew (option_copied cols) }
{
    let whole = matrix.whole()?;
    let wanted = extract(alloc, whole.block(), rows, cols)?;
    let front = extracted_columns(alloc, matrix, rows, cols, 0, column)?;
    let back = extracted_columns(alloc, matrix, rows, cols, column, LIMIT)?;
    are_halves(&wanted, &front, &back)
}

/// Whether it is so of a product of random matrices in three panels, which also has the sum of all its values.
fn are_shared<R: Threads + Sync>(rt: &R, alloc: Global, column: u32) -> Result<bool, SampleFault> {
    let matrix = product(rt, alloc, 2)?;
    let whole = matrix.to_block()?;
    let are_summed = total(&matrix) == cb_reshape::total(&whole);
    Ok(are_summed && are_columns(alloc, &matrix, &whole, column)?)
}

/// Numbers of rows, ascending and in any order, and of columns.
const ROWS: &[u32] = &[0, 1, 3, 4, 9, 17, 30, 31, 58, 59];

const MIXED: &[u32] = &[59, 2, 2, 0, 31, 4];

const COLS: &[u32] = &[8, 0, 1, 1, 7, 8, 3, 2, 5, 4, 6];

/// Whether the columns of ranges are those of what is made of a matrix, which is also given whole.
fn are_columns(
    alloc: Global,
    matrix: &Panelled,
    whole: &Matrix,
    column: u32,
) -> Result<bool, SampleFault> {
    let kronecker = Computation::Selection(Selection::Kronecker);
    let wide = column.saturating_mul(7);
    Ok(
        is_updated(alloc, matrix, whole, column)?
            && is_computed(alloc, kronecker, &[matrix, matrix], &[whole, whole], wide)?
            && are_extracted(alloc, matrix, ROWS, COLS, column)?
            && are_extracted(alloc, matrix, MIXED, COLS, column)?,
    )
}

#[test]
fn shares_are_columns_of_the_answer(rt: HostRuntime) {
    for column in 0..12 {
        assert!(&rt;
            are_shared(&rt, rt.alloc(), column) == Ok(true),
            "column {column}"
        );
    }
}

/// Whether three ranges of the columns of a product, whose columns all have about as many entries, end there.
fn are_ends<R: Threads + Sync>(
    rt: &R,
    alloc: Global,
    least: usize,
    wanted: &[u32],
) -> Result<bool, SampleFault> {
    let matrix = product(rt, alloc, 1)?;
    let ends = ends_by_entries(alloc, &[&matrix], 9, 3, least)?;
    Ok(ends.as_slice() == wanted)
}

#[test]
fn ranges_end_by_their_entries(rt: HostRuntime) {
    assert!(&rt; are_ends(&rt, rt.alloc(), 1, &[4, 7, 9]) == Ok(true));
    assert!(&rt;
        are_ends(&rt, rt.alloc(), 1_000, &[9, 9, 9]) == Ok(true),
        "least"
    );
}
