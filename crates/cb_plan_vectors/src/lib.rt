//! A matrix over a grid and a vector that is spread over its ranks: the plan of their product, the slots of the ranks
//! before it, and what is taken out of the slots after it.
//!
//! Each rank starts with its block of the matrix and a piece of the vector, and ends with the block and a piece of the
//! product ([`vector_plan`]). [`spread`] fills the slots; after the run [`collect`] takes the matrix, unchanged, and the
//! product out of them. Nothing here runs a plan.
#![tactic(auto)]

ghost use Rattle.std.specs.Prelude.{◌≡◌, IfOk, IfErr};
ghost use Rattle.cb_matrix.specs.Sparse.{Sparse};
ghost use Rattle.cb_plan_slots.specs.Answers.{over_grid};
ghost use Rattle.cb_plan_vectors.specs.SpreadVectors.{HasBoth, HasSpread, IsSpreadLoss, MultipliesVectors};

mod pieces;

use cb_layout::{DistributedMatrix, Grid};
use cb_matrix::{Matrix, Shape};
use cb_plan::{CheckedPlan, RankStore};
use cb_plan_operations::grid_vector;
use cb_plan_parts::{LEFT, RESULT, RIGHT};
use cb_plan_slots::{DrainFault, blank, drain, fill};
use cb_semirings::Semiring;
pub use pieces::{gather_result, scatter_input};
use std::alloc::{AllocError, Global};

/// Returns a plan by which matrices of this shape are multiplied by vectors.
pub fn vector_plan(alloc: Global, grid: &Grid, shape: Shape) -> Result<CheckedPlan, AllocError>
    ensures { IfOk result (MultipliesVectors grid.now.side shape) }
{
    let Ok(planned) = grid_vector(alloc, grid, shape) else {
        return Err(AllocError);
    };
    let (plan, _slot) = planned.into_checked();
    Ok(plan)
}

/// Lays out a matrix and a vector in the stores of the ranks: the blocks of the matrix in slot 0, and the pieces of the
/// vector in slot 1.
pub fn spread<S: Semiring>(
    alloc: Global,
    grid: &Grid,
    matrix: DistributedMatrix<S>,
    vector: &Matrix<S>,
) -> Result<Vec<RankStore<S>>, AllocError>
    requires side { matrix.side ≡ grid.now.side }
    requires vector { vector.now.shape.cols ≡ 1 }
    ensures { IfOk result (λ v. HasSpread S.arithmetic grid.now.side matrix.matrix vector.now v.items) }
{
    let pieces = scatter_input(alloc, grid, vector)?;
    let mut stores = blank(alloc, grid.ranks())?;
    fill(&mut stores, LEFT, matrix.into_blocks());
    fill(&mut stores, RIGHT, pieces);
    Ok(stores)
}

/// Takes the blocks of the matrix and the pieces of the product out of the slots of the ranks. Returns the matrix, of
/// shape `shape`, and the product, of shape `made`.
///
/// If a block is lost, `Lost` names the origin of the loss at the least rank; if none is, the same of the pieces.
pub fn collect<S: Semiring>(
    alloc: Global,
    grid: &Grid,
    stores: Vec<RankStore<S>>,
    shape: Shape,
    made: Shape,
) -> Result<(DistributedMatrix<S>, Matrix<S>), DrainFault>
    requires column { made.cols ≡ 1 }
    requires left { (a : Sparse) × (y : Sparse) × HasBoth S.arithmetic grid.now.side shape made a y stores.items }
    ensures product { IfOk result (λ p. (a y : Sparse) → HasBoth S.arithmetic grid.now.side shape made a y stores.items → p.1 ≡ y) }
    ensures same { IfOk result (λ p. (a y : Sparse) → HasBoth S.arithmetic grid.now.side shape made a y stores.items → p.0 ≡ over_grid grid.now.side a) }
    ensures fault { IfErr result (IsSpreadLoss stores.items) }
{
    let mut stores = stores;
    let blocks = drain(alloc, &mut stores, LEFT)?;
    let pieces = drain(alloc, &mut stores, RESULT)?;
    let product = gather_result(alloc, grid, &pieces, made)?;
    Ok((
        DistributedMatrix::from_blocks(*grid, shape, blocks),
        product,
    ))
}
