//! Operations run by an engine.
ghost use Rattle.std.specs.Prelude.{◌≡◌, ◌≢◌, length, All, IfOk, IfErr};
ghost use Rattle.cb_matrix.specs.Sparse.{IsMatrix};
ghost use Rattle.cb_operations.specs.Operands.{lent_in, list_of};
ghost use Rattle.cb_operations.specs.OperationAnswers.{operand_count_of, Agree, answer_of, shape_of, shapes_in};
ghost use Rattle.cb_planner.specs.ScatteredOperands.{LieOver, wholes};
ghost use Rattle.cb_rank_operations.specs.Outcomes.{IsLossFor, IsMadeInOrder, IsOutcome, IsRefusal};

use crate::OperationFault;
use crate::spread_vectors::run_vector;
use cb_layout::{DistributedMatrix, Grid};
use cb_matrix::{Matrix, Shape};
use cb_operations::{Operands, Operation, Refusal};
use cb_planner::{empty_product, ready, scattered, shape_in, whole_shape_in};
use cb_rank_engines::{Engine, Outcome, compute};
use cb_semirings::Semiring;
use std::alloc::Global;
use std::sync::Wait;
use std::thread::Threads;

/// Does an operation on matrices over a grid, by an engine. The answer lies over the same grid.
///
/// Shapes that don't agree are refused before memory is requested. The blocks of the operands are moved to the ranks; only
/// blocks that are sent are copied. `Engine::Threads` makes no plan for a product with a factor without entries: this
/// costs an empty block for each rank.
pub fn run<S: Semiring + Send + Sync, R: Threads + Wait + Sync>(
    rt: &R,
    alloc: Global,
    engine: Engine,
    grid: &Grid,
    operation: Operation,
    operands: Operands<DistributedMatrix<S>>,
) -> Result<Outcome<S>, OperationFault>
    requires count { operand_count_of operation ≡ length (list_of operands) }
    requires sides { LieOver grid.now.side operands }
    ensures ok { IfOk result (IsOutcome S.arithmetic engine.entry operation grid.now.side (wholes (list_of operands))) }
    ensures fault { IfErr result (IsRefusal engine.entry operation grid.now.side (wholes (list_of operands))) }
    ensures lost { IfErr result (IsLossFor S.arithmetic engine.entry operation grid.now.side (wholes (list_of operands))) }
{
    let Some(shape) = shape_in(operation, &operands) else {
        return Err(OperationFault::Refused(Refusal::Shapes));
    };
    if let Engine::Threads(_letters) = engine {
        if let Some(answer) = empty_product(alloc, grid, operation, &operands)? {
            free(rt, alloc, operands);
            return Ok(Outcome {
                answer,
                refusals: Vec::new(alloc),
                trace: None,
            });
        }
    }
    match operation {
        Operation::MultiplyVector => Ok(run_vector(rt, alloc, engine, grid, operands)?),
        _ => run_plan(rt, alloc, engine, grid, operation, operands, shape),
    }
}

/// Frees the operands of an operation that needs no plan.
fn free<S: Semiring + Send + Sync, R: Threads + Sync>(
    rt: &R,
    alloc: Global,
    operands: Operands<DistributedMatrix<S>>,
) {
    match operands {
        Operands::One(matrix) => matrix.free(rt, alloc),
        Operands::Two(left, right) => {
            left.free(rt, alloc);
            right.free(rt, alloc);
        }
        Operands::Three(left, right, mask) => {
            left.free(rt, alloc);
            right.free(rt, alloc);
            mask.free(rt, alloc);
        }
    }
}

/// Does any operation but a product by a vector, on matrices whose shapes agree.
fn run_plan<S: Semiring + Send + Sync, R: Threads + Wait + Sync>(
    rt: &R,
    alloc: Global,
    engine: Engine,
    grid: &Grid,
    operation: Operation,
    operands: Operands<DistributedMatrix<S>>,
    shape: Shape,
) -> Result<Outcome<S>, OperationFault>
    requires other { operation ≢ Operation.MultiplyVector }
    requires count { operand_count_of operation ≡ length (list_of operands) }
    requires sides { LieOver grid.now.side operands }
    requires agree { Agree operation (shapes_in (wholes (list_of operands))) }
    requires shape { shape ≡ shape_of operation (shapes_in (wholes (list_of operands))) }
    requires matrices { All (IsMatrix S.arithmetic) (wholes (list_of operands)) }
    ensures ok { IfOk result (IsOutcome S.arithmetic engine.entry operation grid.now.side (wholes (list_of operands))) }
    ensures fault { IfErr result (IsRefusal engine.entry operation grid.now.side (wholes (list_of operands))) }
    ensures lost { IfErr result (IsLossFor S.arithmetic engine.entry operation grid.now.side (wholes (list_of operands))) }
{
    let (planned, operands) = ready(alloc, grid, operation, operands)?;
    Ok(compute(rt, alloc, engine, grid, planned, operands, shape)?)
}

/// Does an operation on whole matrices, by an engine over a grid.
///
/// Shapes that don't agree are refused before memory is requested. Besides what [`run`] costs, each entry of the operands
/// is copied to its block, and each entry of the answer to the whole matrix.
pub fn run_matrices<S: Semiring + Send + Sync, R: Threads + Wait + Sync>(
    rt: &R,
    alloc: Global,
    engine: Engine,
    grid: &Grid,
    operation: Operation,
    operands: Operands<&Matrix<S>>,
) -> Result<Matrix<S>, OperationFault>
    requires { operand_count_of operation ≡ length (list_of operands) }
    ensures ok { IfOk result (λ m. m ≡ answer_of operation S.arithmetic (lent_in (list_of operands.entry))) }
    ensures agree { IfOk result (λ m. Agree operation (shapes_in (lent_in (list_of operands.entry)))) }
    ensures order { IfOk result (IsMadeInOrder S.arithmetic engine.entry operation grid.now.side (lent_in (list_of operands.entry))) }
    ensures fault { IfErr result (IsRefusal engine.entry operation grid.now.side (lent_in (list_of operands.entry))) }
    ensures lost { IfErr result (IsLossFor S.arithmetic engine.entry operation grid.now.side (lent_in (list_of operands.entry))) }
{
    let Some(_shape) = whole_shape_in(operation, &operands) else {
        return Err(OperationFault::Refused(Refusal::Shapes));
    };
    let operands = scattered(alloc, grid, operands)?;
    let outcome = run(rt, alloc, engine, grid, operation, operands)?;
    Ok(outcome.answer.gather(alloc)?)
}
