//! The plan of a product under a mask.
ghost use Rattle.std.specs.Prelude.{◌≡◌, ◌*◌, IfOk, IfErr};
ghost use Rattle.cb_plan.specs.Runnable.{IsRunnable};
ghost use Rattle.cb_plan_parts.specs.declared.TheConstants.{RESULT};
ghost use Rattle.cb_plan_parts.specs.PlanParts.{operand_starts};
ghost use Rattle.cb_plan_parts.specs.Growth.{no_memory};
ghost use Rattle.cb_plan_summa.specs.Summa.{summa_masked_acts, masked_factors, IsMaskedPlan};

use crate::MASK;
use crate::products::multiply;
use cb_grid::{Grid, LARGEST_SIDE};
use cb_matrix::Shape;
use cb_plan::{Op, Plan, PlanFault, Planned};
use cb_plan_parts::{LEFT, Operand, RESULT, RIGHT, finish, operand_starts, work_everywhere};
use std::alloc::{AllocError, Global};

/// The plan of the product of a matrix of shape `a` and one of shape `b`, under a mask of the product's shape whose
/// blocks are in slot 7. The product is kept only at the places of the mask's entries.
pub fn summa_masked(alloc: Global, grid: &Grid, a: Shape, b: Shape) -> Result<Planned, PlanFault>
    requires { a.cols ≡ b.rows }
    ensures ranks { IfOk result (λ p. p.plan.ranks ≡ grid.now.side * grid.now.side) }
    ensures starts { IfOk result (λ p. p.starts.items ≡ operand_starts grid.now.side (masked_factors a b)) }
    ensures acts { IfOk result (λ p. p.plan.acts ≡ summa_masked_acts grid.now.side a b) }
    ensures slot { IfOk result (λ p. p.result ≡ RESULT) }
    ensures runnable { IfOk result (λ p. IsRunnable p) }
    ensures product { IfOk result (λ p. IsMaskedPlan p.plan.acts grid.now.side a b) }
    ensures fault { IfErr result (λ e. e ≡ no_memory) }
{
    prove!(grid.side() <= LARGEST_SIDE);
    let mut plan = Plan::new(alloc, grid.ranks());
    multiply(&mut plan, alloc, grid, a, b)?;
    let mask = Op::Mask {
        a: RESULT,
        m: MASK,
        into: RESULT,
    };
    work_everywhere(&mut plan, grid, &mask)?;
    let operands = [
        Operand {
            slot: LEFT,
            shape: a,
        },
        Operand {
            slot: RIGHT,
            shape: b,
        },
        Operand {
            slot: MASK,
            shape: a.with_columns_of(b),
        },
    ];
    let Ok(starts) = operand_starts(alloc, grid, &operands) else {
        return Err(PlanFault::from(AllocError));
    };
    finish(grid, plan, starts, RESULT)
}
