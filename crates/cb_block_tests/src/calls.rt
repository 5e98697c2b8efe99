//! Calls on blocks as values, so that a table lists them with their operands and their results. All are over plus-times: the
//! kernels are proved for every semiring, and `bindings/c/check` compares them over each.
ghost use Rattle.std.specs.Prelude.{◌↔◌, ◌<◌, ◌≤◌, ◌+◌, All, IsTrue};

use crate::samples::{has_entries, is_right_or_refused};
use cb_dcsc::Block;
use cb_elementwise::{add, mask, prune, times};
use cb_masked::{multiply_masked, multiply_outside};
use cb_matrix::{Entry, LIMIT, Test};
use cb_operations::{Computation, ComputeFault, Function, Region, Selection};
use cb_product::multiply;
use cb_reshape::{column_sums, place, row_sums, transpose};
use cb_samples::{SampleFault, block, shape};
use cb_selections::{
    WriteBack, extract, extract_between, extract_columns, extract_rows, multiply_turned, update,
};
use cb_semirings::PlusTimes;
use cb_serial::compute;
use std::alloc::{AllocError, Global};
use std::num::NonZeroU32;

/// Two numbers, of rows and of columns.
type Pair = (u32, u32);

/// The sides and the entries of a block, by column and then by row.
pub(crate) type Given<'a> = (Pair, &'a [Entry]);

/// A call, its operands and its result.
pub(crate) type Case<'a> = (Call<'a>, &'a [Given<'a>], Given<'a>);

type Made = Result<Block<PlusTimes>, SampleFault>;

/// A call on one block, two or three.
#[derive(Clone, Copy)]
pub(crate) enum Call<'a> {
    Transpose,
    RowSums,
    ColumnSums,
    Prune(Test),
    /// The part of a range of rows and one of columns, each without its end.
    Cut(Pair, Pair),
    /// Places the block in a larger one of these sides, with its row 0 and column 0 at this corner.
    Place(Pair, Pair),
    Select(Region),
    Apply(Function),
    Diagonal,
    DiagonalMatrix,
    Extract(&'a [u32], &'a [u32]),
    ExtractBetween(&'a [u32], &'a [u32], usize, usize),
    ExtractRows(&'a [u32]),
    ExtractColumns(&'a [u32]),
    /// The product of this many equal factors.
    Power(u32),
    Add,
    Times,
    Mask,
    Exclude,
    Multiply,
    /// The product of the two, each transposed first or not.
    MultiplyTurned(bool, bool),
    Kronecker,
    /// Assigns the second block to the part of the first at this corner.
    Assign(Pair),
    /// Updates the first block by the second, under the third if there is one.
    Update(WriteBack),
    MultiplyMasked,
    MultiplyOutside,
}

/// The selection that a call asks for.
fn selection_of(call: &Call<'_>) -> Option<Selection> {
    match call {
        Call::Select(region) => Some(Selection::Select(*region)),
        Call::Apply(function) => Some(Selection::Apply(*function)),
        Call::Diagonal => Some(Selection::Diagonal),
        Call::DiagonalMatrix => Some(Selection::DiagonalMatrix),
        Call::Power(factors) => Some(Selection::Power(NonZeroU32::new(*factors)?)),
        Call::Cut(rows, cols) => Some(Selection::Part(*rows, *cols)),
        Call::Kronecker => Some(Selection::Kronecker),
        Call::Assign(corner) => Some(Selection::Assign(*corner)),
        Call::Exclude => Some(Selection::Exclude),
        _ => None,
    }
}

/// A selection from some blocks.
fn selected(alloc: Global, selection: Selection, operands: &[&Block<PlusTimes>]) -> Made {
    let computation = Computation::Selection(selection);
    if operands.len() != computation.operand_count() {
        return Err(SampleFault::Shape);
    }
    match compute(alloc, computation, operands) {
        Ok(block) => Ok(block),
        Err(ComputeFault::Refused(_)) => Err(SampleFault::Shape),
        Err(ComputeFault::Memory) => Err(AllocError.into()),
    }
}

/// Whether this many rows or columns from a number on are among so many.
fn fits(first: u32, count: u32, side: u32) -> bool
    ensures { IsTrue result ↔ (first + count ≤ side) }
{
    u64::from(first) + u64::from(count) <= u64::from(side)
}

/// A block in a larger one.
fn placed(alloc: Global, part: &Block<PlusTimes>, sides: Pair, corner: Pair) -> Made {
    let (outer, inner) = (shape(sides.0, sides.1)?, part.shape());
    if !fits(corner.0, inner.rows(), sides.0) || !fits(corner.1, inner.cols(), sides.1) {
        return Err(SampleFault::Shape);
    }
    Ok(place(alloc, part, outer, corner)?)
}

/// Whether all numbers are below a bound.
pub(crate) fn are_below(numbers: &[u32], bound: u32) -> bool
    ensures { IsTrue result ↔ All (λ n. n < bound) numbers.now }
{
    numbers.iter().all(|number| *number < bound)
}

/// The rows and columns with these numbers.
fn extracted(alloc: Global, whole: &Block<PlusTimes>, rows: &[u32], cols: &[u32]) -> Made {
    let shape = whole.shape();
    let limit = LIMIT as usize;
    if rows.len() > limit || cols.len() > limit {
        return Err(SampleFault::Shape);
    }
    if !are_below(rows, shape.rows()) || !are_below(cols, shape.cols()) {
        return Err(SampleFault::Shape);
    }
    Ok(extract(alloc, whole, Some(rows), Some(cols))?)
}

/// The columns at some places of the second list.
fn extracted_between(
    alloc: Global,
    whole: &Block<PlusTimes>,
    rows: &[u32],
    cols: &[u32],
    first: usize,
    end: usize,
) -> Made {
    let limit = LIMIT as usize;
    if rows.len() > limit || cols.len() > limit || !are_below(rows, whole.shape().rows()) {
        return Err(SampleFault::Shape);
    }
    if first > end || end > cols.len() {
        return Err(SampleFault::Shape);
    }
    Ok(extract_between(alloc, whole, Some(rows), cols, first, end)?)
}

/// The rows with these numbers.
fn some_rows(alloc: Global, whole: &Block<PlusTimes>, rows: &[u32]) -> Made {
    if rows.len() > LIMIT as usize || !are_below(rows, whole.shape().rows()) {
        return Err(SampleFault::Shape);
    }
    Ok(extract_rows(alloc, whole, rows)?)
}

/// The columns with these numbers.
fn some_columns(alloc: Global, whole: &Block<PlusTimes>, cols: &[u32]) -> Made {
    if cols.len() > LIMIT as usize {
        return Err(SampleFault::Shape);
    }
    Ok(extract_columns(alloc, whole, cols)?)
}

/// The rows or columns of a block with these numbers.
fn listed(alloc: Global, call: &Call<'_>, given: &Block<PlusTimes>) -> Made {
    match call {
        Call::Extract(rows, cols) => extracted(alloc, given, rows, cols),
        Call::ExtractBetween(rows, cols, first, end) => {
            extracted_between(alloc, given, rows, cols, *first, *end)
        }
        Call::ExtractRows(rows) => some_rows(alloc, given, rows),
        Call::ExtractColumns(cols) => some_columns(alloc, given, cols),
        _ => Err(SampleFault::Shape),
    }
}

/// The result of a call on a block.
fn made_of_one(alloc: Global, call: &Call<'_>, given: &Block<PlusTimes>) -> Made {
    match call {
        Call::Transpose => Ok(transpose(alloc, given)?),
        Call::RowSums => Ok(row_sums(alloc, given)?),
        Call::ColumnSums => Ok(column_sums(alloc, given)?),
        Call::Prune(test) => Ok(prune(alloc, given, *test)?),
        Call::Place(sides, corner) => placed(alloc, given, *sides, *corner),
        _ => listed(alloc, call, given),
    }
}

/// The result of a call on two blocks of one shape.
fn joined(
    alloc: Global,
    call: &Call<'_>,
    left: &Block<PlusTimes>,
    right: &Block<PlusTimes>,
) -> Made {
    if right.shape() != left.shape() {
        return Err(SampleFault::Shape);
    }
    match call {
        Call::Add => Ok(add(alloc, left, right)?),
        Call::Times => Ok(times(alloc, left, right)?),
        Call::Mask => Ok(mask(alloc, left, right)?),
        Call::Update(how) => Ok(update(alloc, *how, left, right, None)?),
        _ => Err(SampleFault::Shape),
    }
}

/// The product of two blocks.
fn multiplied(alloc: Global, left: &Block<PlusTimes>, right: &Block<PlusTimes>) -> Made {
    if left.shape().cols() != right.shape().rows() {
        return Err(SampleFault::Shape);
    }
    Ok(multiply(alloc, left, right)?)
}

/// The product of two blocks, each transposed first or not.
fn multiplied_turned(
    alloc: Global,
    left: &Block<PlusTimes>,
    turn_left: bool,
    right: &Block<PlusTimes>,
    turn_right: bool,
) -> Made {
    let (outer, inner) = (left.shape(), right.shape());
    let cols = if turn_left {
        outer.rows()
    } else {
        outer.cols()
    };
    let rows = if turn_right {
        inner.cols()
    } else {
        inner.rows()
    };
    if cols != rows {
        return Err(SampleFault::Shape);
    }
    Ok(multiply_turned(alloc, left, turn_left, right, turn_right)?)
}

/// The result of a call on two blocks.
fn made_of_two(
    alloc: Global,
    call: &Call<'_>,
    left: &Block<PlusTimes>,
    right: &Block<PlusTimes>,
) -> Made {
    match call {
        Call::Multiply => multiplied(alloc, left, right),
        Call::MultiplyTurned(turn_left, turn_right) => {
            multiplied_turned(alloc, left, *turn_left, right, *turn_right)
        }
        _ => joined(alloc, call, left, right),
    }
}

/// The first block updated by the second under a mask.
fn updated(
    alloc: Global,
    how: WriteBack,
    old: &Block<PlusTimes>,
    new: &Block<PlusTimes>,
    mask: &Block<PlusTimes>,
) -> Made {
    if new.shape() != old.shape() || mask.shape() != old.shape() {
        return Err(SampleFault::Shape);
    }
    Ok(update(alloc, how, old, new, Some(mask))?)
}

/// The result of a call on two blocks and a mask.
fn made_of_three(
    alloc: Global,
    call: &Call<'_>,
    left: &Block<PlusTimes>,
    right: &Block<PlusTimes>,
    mask: &Block<PlusTimes>,
) -> Made {
    if let Call::Update(how) = call {
        return updated(alloc, *how, left, right, mask);
    }
    let (outer, inner) = (left.shape(), right.shape());
    if outer.cols() != inner.rows() || mask.shape() != outer.with_columns_of(inner) {
        return Err(SampleFault::Shape);
    }
    match call {
        Call::MultiplyMasked => Ok(multiply_masked(alloc, left, right, mask)?),
        Call::MultiplyOutside => Ok(multiply_outside(alloc, left, right, mask)?),
        _ => Err(SampleFault::Shape),
    }
}

/// The result of a call on some blocks.
fn made_of(alloc: Global, call: &Call<'_>, operands: &[Block<PlusTimes>]) -> Made {
    match (selection_of(call), operands) {
        (Some(selection), [given]) => selected(alloc, selection, &[given]),
        (Some(selection), [left, right]) => selected(alloc, selection, &[left, right]),
        (None, _) => computed(alloc, call, operands),
        _ => Err(SampleFault::Shape),
    }
}

/// The result of a call that isn't a selection on some blocks.
fn computed(alloc: Global, call: &Call<'_>, operands: &[Block<PlusTimes>]) -> Made {
    match operands {
        [given] => made_of_one(alloc, call, given),
        [left, right] => made_of_two(alloc, call, left, right),
        [left, right, mask] => made_of_three(alloc, call, left, right, mask),
        _ => Err(SampleFault::Shape),
    }
}

/// Appends a block.
pub(crate) fn push(
    blocks: &mut Vec<Block<PlusTimes>>,
    block: Block<PlusTimes>,
) -> Result<(), AllocError> {
    blocks.push(block)?;
    Ok(())
}

/// Blocks with these sides and entries.
fn blocks(alloc: Global, given: &[Given<'_>]) -> Result<Vec<Block<PlusTimes>>, SampleFault> {
    let mut blocks = Vec::new(alloc);
    for (sides, entries) in given {
        push(&mut blocks, block(alloc, sides.0, sides.1, entries)?)?;
    }
    Ok(blocks)
}

/// Whether the result of a call on some blocks has these sides and entries.
fn makes(
    alloc: Global,
    call: &Call<'_>,
    operands: &[Block<PlusTimes>],
    wanted: &Given<'_>,
) -> Result<bool, SampleFault> {
    let made = made_of(alloc, call, operands)?;
    let shape = made.shape();
    Ok((shape.rows(), shape.cols()) == wanted.0 && has_entries(&made, wanted.1))
}

/// Whether a case is right.
pub(crate) fn is_right(alloc: Global, case: &Case<'_>) -> Result<bool, SampleFault> {
    let (call, given, wanted) = case;
    let operands = blocks(alloc, given)?;
    makes(alloc, call, &operands, wanted)
}

/// Whether a case was made and is right.
fn is_made(made: Result<bool, SampleFault>) -> bool {
    made == Ok(true)
}

/// Whether each case of some tables is right.
pub(crate) fn are_right(alloc: Global, tables: &[&[Case<'_>]]) -> bool {
    for table in tables {
        for case in *table {
            if !is_made(is_right(alloc, case)) {
                return false;
            }
        }
    }
    true
}

/// Whether each case of some tables is right, or its error is want of memory.
pub(crate) fn are_right_or_refused(alloc: Global, tables: &[&[Case<'_>]]) -> bool {
    for table in tables {
        for case in *table {
            if !is_right_or_refused(is_right(alloc, case)) {
                return false;
            }
        }
    }
    true
}
