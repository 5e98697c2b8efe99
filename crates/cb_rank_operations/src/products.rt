//! Products of a matrix over a grid and a vector that is spread over its ranks.
ghost use Rattle.std.specs.Prelude.{◌≡◌, ◌⊎◌, ◌*◌, IfOk, IfErr, OnOk, OnErr};
ghost use Rattle.cb_matrix.specs.Sparse.{Sparse};
ghost use Rattle.cb_matrix.specs.Values.{product};
ghost use Rattle.cb_plan_operations.specs.VectorPlans.{column};
ghost use Rattle.cb_plan_slots.specs.Answers.{over_grid};
ghost use Rattle.cb_rank_crews.specs.Crews.{workers_of};
ghost use Rattle.cb_rank_engines.specs.EngineRuns.{IsEngineFault, IsTraceOf, LostWhereRefused};
ghost use Rattle.cb_plan_vectors.specs.SpreadVectors.{HasBoth, MultipliesVectors};
ghost use Rattle.cb_rank_operations.specs.VectorOrders.{IsOrderedProduct, IsOrderedProductLoss, IsProductLoss};

use cb_layout::{DistributedMatrix, Grid};
use cb_matrix::{Matrix, Shape};
use cb_plan::{CheckedPlan, RankStore};
use cb_plan_slots::DrainFault;
use cb_plan_vectors::{collect, spread};
use cb_rank_crews::{Crew, Naming};
use cb_rank_engines::{Engine, Left};
use cb_rank_faults::RanksFault;
use cb_semirings::Semiring;
use cb_trace::Trace;
use std::alloc::Global;
use std::marker::Brand;
use std::sync::Wait;
use std::thread::Threads;

/// What [`multiply_vector`] returns.
#[derive(Drop)]
pub struct Multiplied<S: Semiring> {
    /// The matrix, unchanged.
    pub matrix: DistributedMatrix<S>,
    /// The product, a matrix of one column.
    pub product: Matrix<S>,
    /// How often memory was refused to each rank.
    pub refusals: Vec<u64>,
    /// The trace, if the engine keeps one.
    pub trace: Option<Trace>,
}

/// Multiplies a matrix by a vector, by a plan of [`vector_plan`](cb_plan_vectors::vector_plan) for its shape.
///
/// The blocks of the matrix are moved to the ranks and back. The entries of the vector and of the product are copied
/// twice. Otherwise the cost is that of the plan's acts.
pub fn multiply_vector<S: Semiring + Send + Sync, R: Threads + Wait + Sync>(
    rt: &R,
    alloc: Global,
    engine: Engine,
    grid: &Grid,
    plan: &CheckedPlan,
    matrix: DistributedMatrix<S>,
    vector: &Matrix<S>,
) -> Result<Multiplied<S>, RanksFault>
    requires side { matrix.side ≡ grid.now.side }
    requires plan { MultipliesVectors grid.now.side matrix.matrix.shape plan.now }
    requires vector { vector.now.shape ≡ column matrix.matrix.shape.cols }
    ensures product { IfOk result (λ m. m.product ≡ product S.arithmetic matrix.matrix vector.now) }
    ensures same { IfOk result (λ m. m.matrix ≡ matrix) }
    ensures order { IfOk result (λ m. IsOrderedProduct S.arithmetic engine.entry grid.now.side plan.now matrix.matrix vector.now m.product m.refusals.items) }
    ensures trace { IfOk result (λ m. IsTraceOf engine.entry plan.now m.trace) }
    ensures fault { IfErr result (IsEngineFault engine.entry (grid.now.side * grid.now.side)) }
    ensures lost { IfErr result (IsOrderedProductLoss S.arithmetic engine.entry grid.now.side plan.now matrix.matrix vector.now) }
{
    let mut no_crew: Option<Crew<S, Brand>> = None;
    multiply_vector_by(rt, alloc, engine, &mut no_crew, grid, plan, matrix, vector)
}

/// Does the same by a crew, if there is one with a worker for each rank and the engine is one of threads without a trace. The
/// crew keeps its workers, or loses all of them if a rank is gone.
pub(crate) fn multiply_vector_by<S: Semiring + Send + Sync, J: Naming, R: Threads + Wait + Sync>(
    rt: &R,
    alloc: Global,
    engine: Engine,
    crew: &mut Option<Crew<S, J>>,
    grid: &Grid,
    plan: &CheckedPlan,
    matrix: DistributedMatrix<S>,
    vector: &Matrix<S>,
) -> Result<Multiplied<S>, RanksFault>
    requires side { matrix.side ≡ grid.now.side }
    requires plan { MultipliesVectors grid.now.side matrix.matrix.shape plan.now }
    requires vector { vector.now.shape ≡ column matrix.matrix.shape.cols }
    ensures product { IfOk result (λ m. m.product ≡ product S.arithmetic matrix.matrix vector.now) }
    ensures same { IfOk result (λ m. m.matrix ≡ matrix) }
    ensures order { IfOk result (λ m. IsOrderedProduct S.arithmetic engine.entry grid.now.side plan.now matrix.matrix vector.now m.product m.refusals.items) }
    ensures trace { IfOk result (λ m. IsTraceOf engine.entry plan.now m.trace) }
    ensures workers { OnOk result (workers_of crew.new ≡ workers_of crew.old) }
    ensures spent { OnErr result ((workers_of crew.new ≡ workers_of crew.old) ⊎ (workers_of crew.new ≡ 0)) }
    ensures fault { IfErr result (IsEngineFault engine.entry (grid.now.side * grid.now.side)) }
    ensures lost { IfErr result (IsOrderedProductLoss S.arithmetic engine.entry grid.now.side plan.now matrix.matrix vector.now) }
{
    let (a, x) = (matrix.shape(), vector.shape());
    let stores = spread(alloc, grid, matrix, vector)?;
    let Left {
        stores,
        refusals,
        trace,
    } = engine.run_by(rt, alloc, crew, plan, stores)?;
    let (matrix, product) = collected(alloc, grid, stores, &refusals, a, a.with_columns_of(x))?;
    Ok(Multiplied {
        matrix,
        product,
        refusals,
        trace,
    })
}

/// Takes the matrix, of shape `shape`, and the product, of shape `made`, out of the slots of the ranks. `refusals` says how
/// often memory was refused to each rank.
fn collected<S: Semiring>(
    alloc: Global,
    grid: &Grid,
    stores: Vec<RankStore<S>>,
    refusals: &[u64],
    shape: Shape,
    made: Shape,
) -> Result<(DistributedMatrix<S>, Matrix<S>), RanksFault>
    requires column { made.cols ≡ 1 }
    requires lost { LostWhereRefused stores.items refusals.now }
    requires left { (a : Sparse) × (y : Sparse) × HasBoth S.arithmetic grid.now.side shape made a y stores.items }
    ensures product { IfOk result (λ p. (a y : Sparse) → HasBoth S.arithmetic grid.now.side shape made a y stores.items → p.1 ≡ y) }
    ensures same { IfOk result (λ p. (a y : Sparse) → HasBoth S.arithmetic grid.now.side shape made a y stores.items → p.0 ≡ over_grid grid.now.side a) }
    ensures fault { IfErr result (IsProductLoss stores.items refusals.now) }
{
    match collect(alloc, grid, stores, shape, made) {
        Ok(both) => Ok(both),
        Err(DrainFault::Memory) => Err(RanksFault::Memory),
        Err(DrainFault::Lost(rank)) => Err(RanksFault::lost(rank, refusals)),
    }
}
