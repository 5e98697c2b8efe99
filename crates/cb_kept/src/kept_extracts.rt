//! Rows and columns of a kept matrix by their numbers, kept, whole or some columns of them.
ghost use Rattle.std.specs.Prelude.{◌↔◌, IsTrue, option_copied, IfOk, IfErr};
ghost use Rattle.cb_selections.specs.Extracted.{AreBelow, AreFew};
ghost use Rattle.cb_kept.specs.Answers.{NoFault};
ghost use Rattle.cb_kept.specs.KeptExtracts.{number_faults, IsExtractAnswer, IsExtractOf};

use crate::faults::Fault;
use crate::kept::{Keep, Kept, keep_block};
use crate::of_matrix;
use cb_layout::PanelledMatrix;
use cb_matrix::{LIMIT, Shape};
use cb_shares::extracted_columns;
use std::alloc::Global;

/// Whether a list, if there is one, has no more numbers than a matrix can have rows or columns.
fn are_few(numbers: Option<&[u32]>) -> bool
    ensures { IsTrue result ↔ AreFew (option_copied numbers.entry) }
{
    match numbers {
        Some(numbers) => numbers.len() <= LIMIT as usize,
        None => true,
    }
}

/// Whether a list, if there is one, has only numbers below a bound.
fn are_below(numbers: Option<&[u32]>, bound: u32) -> bool
    ensures { IsTrue result ↔ AreBelow bound (option_copied numbers.entry) }
{
    match numbers {
        Some(numbers) => numbers.iter().all(|number| *number < bound),
        None => true,
    }
}

/// Refuses more rows or columns than a matrix can have, and a row or column that the shape doesn't have.
fn check_numbers(shape: Shape, rows: Option<&[u32]>, cols: Option<&[u32]>) -> Result<(), Fault>
    ensures row_limit { IfOk result (λ _. AreFew (option_copied rows.entry)) }
    ensures column_limit { IfOk result (λ _. AreFew (option_copied cols.entry)) }
    ensures rows { IfOk result (λ _. AreBelow shape.rows (option_copied rows.entry)) }
    ensures cols { IfOk result (λ _. AreBelow shape.cols (option_copied cols.entry)) }
    ensures none { IfOk result (λ _. NoFault (number_faults (option_copied rows.entry) (option_copied cols.entry) shape)) }
    ensures fault { IfErr result (number_faults (option_copied rows.entry) (option_copied cols.entry) shape) }
{
    if !are_few(rows) || !are_few(cols) {
        return Err(Fault::TooLarge);
    }
    if !are_below(rows, shape.rows()) || !are_below(cols, shape.cols()) {
        return Err(Fault::Place);
    }
    Ok(())
}

/// Some columns of the rows and columns of a matrix by their numbers, kept.
fn extract_kept<S: Keep>(
    alloc: Global,
    matrix: &PanelledMatrix<S>,
    rows: Option<&[u32]>,
    cols: Option<&[u32]>,
    first: u32,
    end: u32,
) -> Result<Kept, Fault>
    ensures { IsExtractOf S.name S.arithmetic (option_copied rows.entry) (option_copied cols.entry) first end matrix.now result }
{
    check_numbers(matrix.shape(), rows, cols)?;
    let part = extracted_columns(alloc, matrix, rows, cols, first, end)?;
    Ok(keep_block::<S>(alloc, part))
}

/// Keeps the columns from `first` up to, but not including, `end` of the matrix of the rows and columns of a kept matrix by their
/// numbers, in any order, with repetitions, or of all of them, in its shape. The faults are those of the whole. Costs a binary search
/// for each column number, the row numbers, and the entries of these columns. If the row numbers don't ascend, it also costs a
/// sort of the entries of each column; if one is repeated, a binary search for each, and two transposes.
#[tactic(auto, unfolding(crate::specs::Kept::semiring_of, crate::specs::Kept::matrix_in))]
pub fn kept_extract(
    alloc: Global,
    kept: &Kept,
    rows: Option<&[u32]>,
    cols: Option<&[u32]>,
    first: u32,
    end: u32,
) -> Result<Kept, Fault>
    ensures { IsExtractAnswer (option_copied rows.entry) (option_copied cols.entry) first end kept.now result }
{
    of_matrix!(kept, matrix => extract_kept(alloc, matrix, rows, cols, first, end))
}
