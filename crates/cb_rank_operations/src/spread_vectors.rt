//! The product of a matrix by a vector over the same grid.
ghost use Rattle.std.specs.Prelude.{◌≡◌, ◌*◌, length, IfOk, IfErr};
ghost use Rattle.cb_operations.specs.Operands.{list_of};
ghost use Rattle.cb_operations.specs.OperationAnswers.{Agree, shapes_in};
ghost use Rattle.cb_plan_slots.specs.Answers.{over_grid};
ghost use Rattle.cb_rank_engines.specs.EngineRuns.{IsEngineFault};
ghost use Rattle.cb_planner.specs.ScatteredOperands.{LieOver, wholes};
ghost use Rattle.cb_plan_vectors.specs.SpreadVectors.{MultipliesVectors};
ghost use Rattle.cb_rank_operations.specs.Outcomes.{IsLossFor, IsOutcome};
ghost use Rattle.cb_rank_operations.specs.declared.operation_faults.OperationFault.TheVariants.{Failed};

use crate::{Multiplied, multiply_vector};
use cb_layout::{DistributedMatrix, Grid};
use cb_matrix::{Matrix, Shape};
use cb_operations::{Operands, Operation};
use cb_plan::CheckedPlan;
use cb_plan_vectors::vector_plan;
use cb_rank_engines::{Engine, Outcome};
use cb_rank_faults::RanksFault;
use cb_semirings::Semiring;
use std::alloc::{AllocError, Global};
use std::sync::Wait;
use std::thread::Threads;

/// Multiplies a matrix by a vector. The vector and the product are spread over all ranks: besides the run, their entries
/// are copied.
pub fn run_vector<S: Semiring + Send + Sync, R: Threads + Wait + Sync>(
    rt: &R,
    alloc: Global,
    engine: Engine,
    grid: &Grid,
    operands: Operands<DistributedMatrix<S>>,
) -> Result<Outcome<S>, RanksFault>
    requires two { length (list_of operands) ≡ 2 }
    requires sides { LieOver grid.now.side operands }
    requires agree { Agree Operation.MultiplyVector (shapes_in (wholes (list_of operands))) }
    ensures ok { IfOk result (IsOutcome S.arithmetic engine.entry Operation.MultiplyVector grid.now.side (wholes (list_of operands))) }
    ensures fault { IfErr result (IsEngineFault engine.entry (grid.now.side * grid.now.side)) }
    ensures lost { IfErr result (λ e. IsLossFor S.arithmetic engine.entry Operation.MultiplyVector grid.now.side (wholes (list_of operands)) (Failed e)) }
{
    let Operands::Two(matrix, vector) = operands else {
        unreachable!()
    };
    let (plan, column) = prepared(alloc, grid, matrix.shape(), vector)?;
    let done = multiply_vector(rt, alloc, engine, grid, &plan, matrix, &column)?;
    Ok(laid_out(alloc, grid, done)?)
}

/// Returns a plan by which matrices of this shape are multiplied by vectors, and the whole vector.
fn prepared<S: Semiring>(
    alloc: Global,
    grid: &Grid,
    shape: Shape,
    vector: DistributedMatrix<S>,
) -> Result<(CheckedPlan, Matrix<S>), AllocError>
    ensures plan { IfOk result (λ p. MultipliesVectors grid.now.side shape p.0) }
    ensures vector { IfOk result (λ p. p.1 ≡ vector.matrix) }
{
    let plan = vector_plan(alloc, grid, shape)?;
    let column = vector.gather(alloc)?;
    Ok((plan, column))
}

/// Lays out the product over the grid.
fn laid_out<S: Semiring>(
    alloc: Global,
    grid: &Grid,
    done: Multiplied<S>,
) -> Result<Outcome<S>, AllocError>
    ensures answer { IfOk result (λ o. o.answer ≡ over_grid grid.now.side done.product) }
    ensures rest { IfOk result (λ o. (o.refusals.items ≡ done.refusals.items) × (o.trace ≡ done.trace)) }
{
    let answer = DistributedMatrix::scatter(alloc, *grid, &done.product)?;
    Ok(Outcome {
        answer,
        refusals: done.refusals,
        trace: done.trace,
    })
}
