//! The transpose: each rank transposes its block, and the blocks cross the diagonal.
ghost use Rattle.std.specs.Prelude.{◌≡◌, ◌<◌, ◌*◌, IfOk, IfErr, OnOk};
ghost use Rattle.cb_plan.specs.Runnable.{IsRunnable};
ghost use Rattle.cb_plan_parts.specs.declared.TheConstants.{RESULT};
ghost use Rattle.cb_plan_parts.specs.PlanParts.{operand_starts};
ghost use Rattle.cb_plan_parts.specs.Growth.{IsWithinLimit, Grew, no_memory};
ghost use Rattle.cb_plan_operations.specs.GridPlans.{one_operand, mirrored, mirror_acts, transpose_acts, IsTransposePlan};

use crate::placewise::one_operand;
use cb_grid::Grid;
use cb_letters::Tag;
use cb_matrix::Shape;
use cb_plan::{Op, Plan, PlanFault, Planned};
use cb_plan_parts::{LEFT, RESULT, finish, operand_starts, send, work_everywhere};
use std::alloc::{AllocError, Global};

/// The slot of each rank that has its own block transposed.
const TRANSPOSED: u16 = 1;

/// The plan of the transpose of a matrix of this shape. On a grid of side q, all but q of the blocks are sent.
pub fn grid_transpose(alloc: Global, grid: &Grid, a: Shape) -> Result<Planned, PlanFault>
    ensures ranks { IfOk result (λ p. p.plan.ranks ≡ grid.now.side * grid.now.side) }
    ensures starts { IfOk result (λ p. p.starts.items ≡ operand_starts grid.now.side (one_operand a)) }
    ensures acts { IfOk result (λ p. p.plan.acts ≡ transpose_acts grid.now.side) }
    ensures slot { IfOk result (λ p. p.result ≡ RESULT) }
    ensures runnable { IfOk result (λ p. IsRunnable p) }
    ensures transpose { IfOk result (λ p. IsTransposePlan p.plan.acts grid.now.side a) }
    ensures fault { IfErr result (λ e. e ≡ no_memory) }
{
    let mut plan = Plan::new(alloc, grid.ranks());
    let transpose = Op::Transpose {
        a: LEFT,
        into: TRANSPOSED,
    };
    work_everywhere(&mut plan, grid, &transpose)?;
    send_across(&mut plan, grid)?;
    let Ok(starts) = operand_starts(alloc, grid, &one_operand(a)) else {
        return Err(PlanFault::from(AllocError));
    };
    finish(grid, plan, starts, RESULT)
}

/// Sends the transposed blocks across the diagonal.
pub(crate) fn send_across(plan: &mut Plan, grid: &Grid) -> Result<(), PlanFault>
    requires { IsWithinLimit plan.now (mirror_acts grid.now.side) }
    ensures acts { OnOk result (Grew (mirror_acts grid.now.side) plan.old plan.new) }
    ensures fault { IfErr result (λ e. e ≡ no_memory) }
{
    plan.make_room(usize::from(grid.ranks()))?;
    for rank in 0..grid.ranks() {
        send(plan, rank, mirrored(grid, rank), Tag(0), TRANSPOSED, RESULT)?;
    }
    Ok(())
}

/// The rank on the other side of the diagonal.
fn mirrored(grid: &Grid, rank: u16) -> u16
    requires { rank < grid.now.side * grid.now.side }
    ensures { result ≡ mirrored grid.now.side rank }
{
    let side = grid.side();
    grid.rank(u32::from(rank) % side, u32::from(rank) / side)
}
