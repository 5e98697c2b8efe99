//! What the tests work on: matrices, and the runs of operations on them, all of which give the same results.
use cb_dcsc::Block;
use cb_layout::Grid;
use cb_matrix::Matrix;
use cb_operations::{Computation, ComputeFault, Operands, Operation};
use cb_rank_engines::Engine;
use cb_rank_faults::RanksFault;
use cb_rank_operations::{OperationFault, run_matrices};
use cb_rank_world::Event;
use cb_samples::{are_values, entry, shape};
use cb_semirings::{MinPlus, Semiring};
use std::alloc::{AllocError, Global};
use std::sync::Wait;
use std::thread::Threads;

/// An engine and the side of its grid; without an engine, one thread.
pub type Run = (Option<Engine<'static>>, u32);

/// One thread, and every engine. A run of ranks on threads starts one thread per rank.
pub const RUNS: [Run; 18] = [
    (None, 1),
    (Some(Engine::InOrder(2, &[])), 1),
    (Some(Engine::InOrder(2, &[])), 2),
    (Some(Engine::InOrder(2, &[])), 3),
    (Some(Engine::InOrder(2, &[])), 4),
    (Some(Engine::InOrder(2, &[])), 5),
    (Some(Engine::InOrder(2, &[])), 6),
    (Some(Engine::InOrder(2, &[])), 8),
    (Some(Engine::Traced(2)), 2),
    (Some(Engine::Threads(0)), 2),
    (Some(Engine::Threads(1)), 1),
    (Some(Engine::Threads(1)), 2),
    (Some(Engine::Threads(1)), 3),
    (Some(Engine::Threads(1)), 6),
    (Some(Engine::Threads(2)), 2),
    (Some(Engine::Threads(2)), 3),
    (Some(Engine::Threads(64)), 2),
    (Some(Engine::Threads(64)), 3),
];

/// Events of two of four ranks, one of which doesn't exist.
const FEW: [Event; 3] = [Event::Step(3), Event::Starve(9), Event::Step(0)];

/// One run for each way of handling refused memory, and one with events.
pub const REFUSING: [Run; 5] = [
    (None, 1),
    (Some(Engine::InOrder(1, &[])), 2),
    (Some(Engine::InOrder(1, &FEW)), 2),
    (Some(Engine::Threads(1)), 2),
    (Some(Engine::Traced(1)), 2),
];

/// A row, a column and the value there.
pub type Place = (u32, u32, u64);

/// The rows and the columns of a matrix, and its entries.
pub type Sample = (u32, u32, &'static [Place]);

pub const FIRST: Sample = (2, 2, &[(0, 0, 1), (0, 1, 2), (1, 1, 3)]);

pub const SECOND: Sample = (2, 2, &[(1, 0, 4), (0, 1, 1)]);

pub const COLUMN: Sample = (2, 1, &[(0, 0, 5), (1, 0, 7)]);

/// Operands for which every operation has a result. The mask is the first matrix.
pub const AGREEING: [Sample; 4] = [FIRST, SECOND, FIRST, COLUMN];

/// The product of the first two of them.
pub const PRODUCT: [Place; 3] = [(0, 0, 6), (1, 0, 7), (0, 1, 2)];

/// Two matrices, a mask of their product, and a column.
#[derive(Drop)]
pub struct Given {
    left: Matrix<MinPlus>,
    right: Matrix<MinPlus>,
    mask: Matrix<MinPlus>,
    column: Matrix<MinPlus>,
}

impl Given {
    /// The second operand of an operation.
    fn second(&self, operation: Operation) -> &Matrix<MinPlus> {
        match operation {
            Operation::MultiplyVector => &self.column,
            _ => &self.right,
        }
    }
}

/// The grid of this side.
pub fn grid(side: u32) -> Option<Grid> {
    Grid::new(side).ok()
}

/// The matrix of a sample, if its entries make one and there is memory.
pub fn matrix<S: Semiring>(alloc: Global, sample: &Sample) -> Option<Matrix<S>> {
    let (rows, cols, places) = *sample;
    let shape = shape(rows, cols).ok()?;
    let mut entries = Vec::new(alloc);
    for (row, column, value) in places {
        entries.push(entry(*row, *column, *value)).ok()?;
    }
    if !are_values::<S>(&entries) {
        return None;
    }
    Matrix::from_entries(alloc, shape, &entries).ok()
}

/// The first matrix, the second, the mask and the column.
pub fn matrices(alloc: Global, samples: &[Sample; 4]) -> Option<Given> {
    let [left, right, mask, column] = samples;
    let left = matrix(alloc, left)?;
    let right = matrix(alloc, right)?;
    let mask = matrix(alloc, mask)?;
    let column = matrix(alloc, column)?;
    Some(Given {
        left,
        right,
        mask,
        column,
    })
}

/// Whether a matrix has exactly these entries.
pub fn has(matrix: &Matrix<MinPlus>, wanted: &[Place]) -> bool {
    let entries = matrix.entries();
    if entries.len() != wanted.len() {
        return false;
    }
    for (found, (row, column, value)) in entries.iter().zip(wanted.iter()) {
        if *found != entry(*row, *column, *value) {
            return false;
        }
    }
    true
}

/// The result of an operation with an engine.
pub fn made<R: Threads + Wait + Sync>(
    rt: &R,
    alloc: Global,
    engine: Engine,
    grid: &Grid,
    given: &Given,
    operation: Operation,
) -> Result<Matrix<MinPlus>, OperationFault> {
    let (a, b, mask) = (&given.left, given.second(operation), &given.mask);
    match operation.operand_count() {
        1 => run_matrices(rt, alloc, engine, grid, operation, Operands::One(a)),
        2 => run_matrices(rt, alloc, engine, grid, operation, Operands::Two(a, b)),
        _ => {
            let operands = Operands::Three(a, b, mask);
            run_matrices(rt, alloc, engine, grid, operation, operands)
        }
    }
}

/// A matrix as one block.
fn block(alloc: Global, matrix: &Matrix<MinPlus>) -> Result<Block<MinPlus>, AllocError> {
    Block::from_ordered(alloc, matrix.shape(), matrix.entries())
}

/// A block as a matrix.
fn whole(block: &Block<MinPlus>) -> Result<Matrix<MinPlus>, AllocError> {
    Ok(Matrix::from_ordered(block.shape(), block.entries()?))
}

/// The result of an operation on one thread, as a block.
fn computed(
    alloc: Global,
    given: &Given,
    operation: Operation,
) -> Result<Block<MinPlus>, ComputeFault> {
    let a = block(alloc, &given.left)?;
    let b = block(alloc, given.second(operation))?;
    let mask = block(alloc, &given.mask)?;
    let computation = Computation::Operation(operation);
    match computation.operand_count() {
        1 => cb_serial::compute(alloc, computation, &[&a]),
        2 => cb_serial::compute(alloc, computation, &[&a, &b]),
        _ => cb_serial::compute(alloc, computation, &[&a, &b, &mask]),
    }
}

/// The result of an operation on one thread.
pub fn made_alone(
    alloc: Global,
    given: &Given,
    operation: Operation,
) -> Result<Matrix<MinPlus>, OperationFault> {
    match computed(alloc, given, operation) {
        Ok(block) => Ok(whole(&block)?),
        Err(ComputeFault::Refused(refusal)) => Err(OperationFault::Refused(refusal)),
        Err(ComputeFault::Memory) => Err(OperationFault::Failed(RanksFault::Memory)),
    }
}

/// Whether this engine, or one thread, can return this fault for want of memory.
pub fn is_refusal(engine: Option<Engine>, fault: OperationFault) -> bool {
    match fault {
        OperationFault::Failed(RanksFault::Memory) => true,
        OperationFault::Failed(RanksFault::Lost { .. }) => engine.is_some(),
        OperationFault::Failed(RanksFault::NotStarted(_)) => {
            matches!(engine, Some(Engine::Threads(_)) | Some(Engine::Traced(_)))
        }
        _ => false,
    }
}
