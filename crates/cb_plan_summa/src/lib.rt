//! Sparse SUMMA: the plan of a matrix product over a square grid of ranks.
//!
//! Rank (i, j) keeps the block of the first matrix in row part i and column part j in its slot 0, that of the second
//! in slot 1, and that of the product in slot 2. In stage k the blocks of column k of the first matrix go along their
//! rows of ranks, and those of row k of the second along their columns. Each stage has a pair of slots for them: 3
//! and 4, 5 and 6, and then, beyond the mask's slot 7, 8 and 9 and so on. Once the blocks of all stages have come,
//! each rank adds the products of its pairs to slot 2, one directly after another. So it can make them in one pass
//! over its columns.
//!
//! On a grid of side q each rank gets 2(q-1) blocks, and keeps 2q + 3 in the end, one more with a mask, whatever the
//! matrices are: its own of the two matrices and of the product, and a pair per stage. Those of the stages share the
//! memory of the operands' blocks if these are lent. A plan for the largest grid has 17,563,648 acts,
//! 17,567,744 with a mask, far below a plan's limit.
//!
//! SUMMA is by van de Geijn and Watts (Concurrency: Practice and Experience, 1997); over sparse blocks it is in
//! Buluç and Gilbert, Parallel sparse matrix-matrix multiplication and indexing (SIAM Journal on Scientific
//! Computing, 2012).
#![tactic(auto)]

ghost use Rattle.std.specs.Prelude.{◌≡◌, ◌*◌, IfOk, IfErr};
ghost use Rattle.cb_plan.specs.Runnable.{IsRunnable};
ghost use Rattle.cb_plan_parts.specs.declared.TheConstants.{RESULT};
ghost use Rattle.cb_plan_parts.specs.PlanParts.{operand_starts};
ghost use Rattle.cb_plan_parts.specs.Growth.{no_memory};
ghost use Rattle.cb_plan_summa.specs.Summa.{summa_acts, factors, IsProductPlan};

mod masked;
mod products;

use cb_grid::{Grid, LARGEST_SIDE};
use cb_matrix::Shape;
use cb_plan::{Plan, PlanFault, Planned};
use cb_plan_parts::{LEFT, Operand, RESULT, RIGHT, finish, operand_starts};
pub use masked::summa_masked;
use products::multiply;
use std::alloc::{AllocError, Global};

/// The slot of each rank that has its block of the mask.
pub const MASK: u16 = 7;

/// The plan of the product of a matrix of shape `a` and one of shape `b`.
pub fn summa(alloc: Global, grid: &Grid, a: Shape, b: Shape) -> Result<Planned, PlanFault>
    requires { a.cols ≡ b.rows }
    ensures ranks { IfOk result (λ p. p.plan.ranks ≡ grid.now.side * grid.now.side) }
    ensures starts { IfOk result (λ p. p.starts.items ≡ operand_starts grid.now.side (factors a b)) }
    ensures acts { IfOk result (λ p. p.plan.acts ≡ summa_acts grid.now.side a b) }
    ensures slot { IfOk result (λ p. p.result ≡ RESULT) }
    ensures runnable { IfOk result (λ p. IsRunnable p) }
    ensures product { IfOk result (λ p. IsProductPlan p.plan.acts grid.now.side a b) }
    ensures fault { IfErr result (λ e. e ≡ no_memory) }
{
    prove!(grid.side() <= LARGEST_SIDE);
    let mut plan = Plan::new(alloc, grid.ranks());
    multiply(&mut plan, alloc, grid, a, b)?;
    let operands = [
        Operand {
            slot: LEFT,
            shape: a,
        },
        Operand {
            slot: RIGHT,
            shape: b,
        },
    ];
    let Ok(starts) = operand_starts(alloc, grid, &operands) else {
        return Err(PlanFault::from(AllocError));
    };
    finish(grid, plan, starts, RESULT)
}
