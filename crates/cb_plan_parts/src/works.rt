//! Operations that every rank does on its own slots.
ghost use Rattle.std.specs.Prelude.{◌≡◌, OnOk, OnErr, IfErr};
ghost use Rattle.cb_plan_parts.specs.PlanParts.{each_rank, zero_op};
ghost use Rattle.cb_plan_parts.specs.Growth.{IsWithinLimit, Grew, no_memory};

use cb_grid::Grid;
use cb_matrix::Shape;
use cb_plan::{Act, Op, Plan, PlanFault};

/// Every rank does an operation. If memory is refused, the plan is as before.
pub fn work_everywhere(plan: &mut Plan, grid: &Grid, op: &Op) -> Result<(), PlanFault>
    requires { IsWithinLimit plan.now (each_rank grid.now.side (λ _. op.now)) }
    ensures acts { OnOk result (Grew (each_rank grid.now.side (λ _. op.now)) plan.old plan.new) }
    ensures fault { IfErr result (λ e. e ≡ no_memory) }
    ensures unchanged { OnErr result ((plan.new.ranks ≡ plan.old.ranks) × (plan.new.acts ≡ plan.old.acts)) }
{
    plan.make_room(usize::from(grid.ranks()))?;
    for rank in 0..grid.ranks() {
        plan.push(Act::Work { rank, op: *op })?;
    }
    Ok(())
}

/// A slot of every rank becomes its part of a matrix of this shape without entries. If memory is refused, the plan is
/// as before.
pub fn zero_everywhere(
    plan: &mut Plan,
    grid: &Grid,
    slot: u16,
    shape: Shape,
) -> Result<(), PlanFault>
    requires { IsWithinLimit plan.now (each_rank grid.now.side (zero_op grid.now.side slot shape)) }
    ensures acts { OnOk result (Grew (each_rank grid.now.side (zero_op grid.now.side slot shape)) plan.old plan.new) }
    ensures fault { IfErr result (λ e. e ≡ no_memory) }
    ensures unchanged { OnErr result ((plan.new.ranks ≡ plan.old.ranks) × (plan.new.acts ≡ plan.old.acts)) }
{
    plan.make_room(usize::from(grid.ranks()))?;
    for rank in 0..grid.ranks() {
        let op = Op::Zero {
            into: slot,
            shape: grid.block_shape(shape, rank),
        };
        plan.push(Act::Work { rank, op })?;
    }
    Ok(())
}
