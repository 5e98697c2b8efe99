//! Random operands, and how results are compared.
ghost use Rattle.std.specs.Prelude.{◌≡◌, IfOk};

use cb_dcsc::{Block, BlockFault};
use cb_layout::PanelledMatrix;
use cb_matrix::{Entry, LIMIT};
use cb_operations::{Computation, ComputeFault, Operation};
use cb_panels::Panels;
use cb_samples::{SampleFault, block, entry};
use cb_semirings::PlusTimes;
use cb_serial::compute;
use cb_shares::computed_columns;
use std::alloc::{AllocError, Global};
use std::thread::Threads;

pub(crate) type Matrix = Block<PlusTimes>;

/// The next pseudo-random number.
fn next(number: u32) -> u32 {
    let number = number ^ number.wrapping_shl(13);
    let number = number ^ (number >> 17);
    number ^ number.wrapping_shl(5)
}

/// Random entries at about one in this many of the places of the first rows and columns.
pub(crate) fn scattered(
    alloc: Global,
    rows: u32,
    cols: u32,
    one_in: u32,
    seed: u32,
) -> Result<Vec<Entry>, AllocError> {
    let mut entries = Vec::new(alloc);
    let mut number = seed;
    for column in 0..cols {
        for row in 0..rows {
            number = next(number);
            if number % one_in.max(1) == 0 {
                entries.push(entry(row, column, u64::from(number % 7) + 1))?;
            }
        }
    }
    Ok(entries)
}

/// A random matrix with an entry at about one in this many places.
pub(crate) fn random(
    alloc: Global,
    rows: u32,
    cols: u32,
    one_in: u32,
    seed: u32,
) -> Result<Matrix, SampleFault>
    ensures { IfOk result (λ m. m.shape ≡ record { rows = rows; cols = cols }) }
{
    let entries = scattered(alloc, rows, cols, one_in, seed)?;
    block(alloc, rows, cols, &entries)
}

/// However small, at most this many.
pub(crate) fn panels(most: u32) -> Panels {
    Panels { most, least: 1 }
}

/// Whether two matrices are the same.
pub(crate) fn are_same(left: &Matrix, right: &Matrix) -> bool {
    if left.shape() != right.shape() || left.len() != right.len() {
        return false;
    }
    for n in 0..left.len() {
        if n >= right.len() || left.entry_at(n) != right.entry_at(n) {
            return false;
        }
    }
    true
}

/// Whether a result is right, or its error is want of memory.
pub(crate) fn is_right_or_refused(made: Result<bool, SampleFault>) -> bool {
    match made {
        Ok(is_right) => is_right,
        Err(fault) => fault == SampleFault::Block(BlockFault::Memory),
    }
}

/// Whether the entries of a matrix are those of two others, one after the other.
pub(crate) fn are_halves(
    whole: &Matrix,
    front: &Matrix,
    back: &Matrix,
) -> Result<bool, AllocError> {
    let wanted = whole.entries()?;
    let mut found = front.entries()?;
    let rest = back.entries()?;
    found.extend_from_slice(&rest)?;
    Ok(found.as_slice() == wanted.as_slice())
}

/// A result that isn't refused.
fn made<M: Drop>(computed: Result<M, ComputeFault>) -> Result<M, SampleFault> {
    match computed {
        Ok(made) => Ok(made),
        Err(ComputeFault::Memory) => Err(SampleFault::Block(BlockFault::Memory)),
        Err(ComputeFault::Refused(_refusal)) => Err(SampleFault::Shape),
    }
}

/// The product of two matrices, in at most so many panels, each made by a thread.
pub(crate) fn product_in<R: Threads + Sync>(
    rt: &R,
    alloc: Global,
    most: u32,
    left: Matrix,
    right: Matrix,
) -> Result<PanelledMatrix<PlusTimes>, SampleFault> {
    let product = Computation::Operation(Operation::Multiply);
    let left = PanelledMatrix::from_block(alloc, left);
    let right = PanelledMatrix::from_block(alloc, right);
    made(cb_panels::compute(rt, alloc, panels(most), product, &[&left, &right]))
}

/// Whether two ranges of columns that meet at one, and the range of all, are what is computed of the same matrices as blocks.
pub(crate) fn is_computed(
    alloc: Global,
    computation: Computation,
    operands: &[&PanelledMatrix<PlusTimes>],
    blocks: &[&Matrix],
    column: u32,
) -> Result<bool, SampleFault> {
    let count = computation.operand_count();
    if operands.len() != count || blocks.len() != count {
        return Ok(false);
    }
    let wanted = made(compute(alloc, computation, blocks))?;
    let all = made(computed_columns(alloc, computation, operands, 0, LIMIT))?;
    let front = made(computed_columns(alloc, computation, operands, 0, column))?;
    let back = made(computed_columns(alloc, computation, operands, column, LIMIT))?;
    Ok(are_same(&all, &wanted) && are_halves(&wanted, &front, &back)?)
}
