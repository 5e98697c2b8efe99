//! Element-wise operations: each rank works on its own blocks.
ghost use Rattle.std.specs.Prelude.{◌≡◌, ◌<◌, ◌*◌, IfOk, IfErr};
ghost use Rattle.cb_plan.specs.Runnable.{IsRunnable};
ghost use Rattle.cb_plan_parts.specs.declared.TheConstants.{LEFT, RESULT, RIGHT};
ghost use Rattle.cb_plan_parts.specs.PlanParts.{each_rank, operand_starts, NamesSlots};
ghost use Rattle.cb_plan_parts.specs.Flows.{FlowsFrom};
ghost use Rattle.cb_plan_parts.specs.Growth.{no_memory};
ghost use Rattle.cb_plan_operations.specs.GridPlans.{one_operand, two_operands, placewise_acts, IsSumPlan, IsTimesPlan, IsPrunePlan};

use cb_grid::Grid;
use cb_matrix::{Shape, Test};
use cb_plan::{Op, Plan, PlanFault, Planned};
use cb_plan_parts::{LEFT, Operand, RESULT, RIGHT, finish, operand_starts, work_everywhere};
use std::alloc::{AllocError, Global};

/// The plan of the sum of two matrices of this shape.
pub fn grid_add(alloc: Global, grid: &Grid, a: Shape) -> Result<Planned, PlanFault>
    ensures ranks { IfOk result (λ p. p.plan.ranks ≡ grid.now.side * grid.now.side) }
    ensures starts { IfOk result (λ p. p.starts.items ≡ operand_starts grid.now.side (two_operands a)) }
    ensures acts { IfOk result (λ p. p.plan.acts ≡ placewise_acts grid.now.side (Op.Add LEFT RIGHT RESULT)) }
    ensures slot { IfOk result (λ p. p.result ≡ RESULT) }
    ensures runnable { IfOk result (λ p. IsRunnable p) }
    ensures sum { IfOk result (λ p. IsSumPlan p.plan.acts grid.now.side a) }
    ensures fault { IfErr result (λ e. e ≡ no_memory) }
{
    let op = Op::Add {
        a: LEFT,
        b: RIGHT,
        into: RESULT,
    };
    placewise(alloc, grid, &op, &two_operands(a))
}

/// The plan of the element-wise product of two matrices of this shape.
pub fn grid_times(alloc: Global, grid: &Grid, a: Shape) -> Result<Planned, PlanFault>
    ensures ranks { IfOk result (λ p. p.plan.ranks ≡ grid.now.side * grid.now.side) }
    ensures starts { IfOk result (λ p. p.starts.items ≡ operand_starts grid.now.side (two_operands a)) }
    ensures acts { IfOk result (λ p. p.plan.acts ≡ placewise_acts grid.now.side (Op.Times LEFT RIGHT RESULT)) }
    ensures slot { IfOk result (λ p. p.result ≡ RESULT) }
    ensures runnable { IfOk result (λ p. IsRunnable p) }
    ensures product { IfOk result (λ p. IsTimesPlan p.plan.acts grid.now.side a) }
    ensures fault { IfErr result (λ e. e ≡ no_memory) }
{
    let op = Op::Times {
        a: LEFT,
        b: RIGHT,
        into: RESULT,
    };
    placewise(alloc, grid, &op, &two_operands(a))
}

/// The plan that drops the entries of a matrix of this shape that pass a test.
pub fn grid_prune(alloc: Global, grid: &Grid, a: Shape, test: Test) -> Result<Planned, PlanFault>
    ensures ranks { IfOk result (λ p. p.plan.ranks ≡ grid.now.side * grid.now.side) }
    ensures starts { IfOk result (λ p. p.starts.items ≡ operand_starts grid.now.side (one_operand a)) }
    ensures acts { IfOk result (λ p. p.plan.acts ≡ placewise_acts grid.now.side (Op.Prune LEFT test RESULT)) }
    ensures slot { IfOk result (λ p. p.result ≡ RESULT) }
    ensures runnable { IfOk result (λ p. IsRunnable p) }
    ensures rest { IfOk result (λ p. IsPrunePlan p.plan.acts grid.now.side a test) }
    ensures fault { IfErr result (λ e. e ≡ no_memory) }
{
    let op = Op::Prune {
        a: LEFT,
        test,
        into: RESULT,
    };
    placewise(alloc, grid, &op, &one_operand(a))
}

/// One matrix in slot 0.
pub fn one_operand(shape: Shape) -> [Operand; 1]
    ensures { result ≡ one_operand shape }
{
    [Operand { slot: LEFT, shape }]
}

/// Two matrices of one shape in slots 0 and 1.
fn two_operands(shape: Shape) -> [Operand; 2]
    ensures { result ≡ two_operands shape }
{
    [
        Operand { slot: LEFT, shape },
        Operand { slot: RIGHT, shape },
    ]
}

/// The plan in which each rank does one operation, whose operands it has.
fn placewise(
    alloc: Global,
    grid: &Grid,
    op: &Op,
    operands: &[Operand],
) -> Result<Planned, PlanFault>
    requires slots { NamesSlots operands.now }
    requires flows { 0 < grid.now.side → FlowsFrom grid.now.side operands.now (each_rank grid.now.side (λ _. op.now)) }
    ensures ranks { IfOk result (λ p. p.plan.ranks ≡ grid.now.side * grid.now.side) }
    ensures starts { IfOk result (λ p. p.starts.items ≡ operand_starts grid.now.side operands.now) }
    ensures acts { IfOk result (λ p. p.plan.acts ≡ placewise_acts grid.now.side op.now) }
    ensures slot { IfOk result (λ p. p.result ≡ RESULT) }
    ensures runnable { IfOk result (λ p. IsRunnable p) }
    ensures fault { IfErr result (λ e. e ≡ no_memory) }
{
    let mut plan = Plan::new(alloc, grid.ranks());
    work_everywhere(&mut plan, grid, op)?;
    let Ok(starts) = operand_starts(alloc, grid, operands) else {
        return Err(PlanFault::from(AllocError));
    };
    finish(grid, plan, starts, RESULT)
}
