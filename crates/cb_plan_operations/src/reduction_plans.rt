//! The sums of the columns, and of the rows, of a matrix.
//!
//! Each rank sums the columns of its block, and sends these sums to all ranks of its column of the grid. There each rank
//! adds up its part of the answer, which has one row: the first row of ranks has all of it, the others nothing. The rows
//! of a matrix are the columns of its transpose. So for row sums each rank sums the columns of its transposed block and
//! sends the sums across the diagonal; the result there comes back, transposed.
ghost use Rattle.std.specs.Prelude.{◌≡◌, ◌<◌, ◌*◌, ◌/◌, ◌%◌, ◌++◌, ℕ, List, map, IfOk, IfErr, OnOk};
ghost use Rattle.std.specs.List.{range_with_len};
ghost use Rattle.cb_plan.specs.Runnable.{IsRunnable};
ghost use Rattle.cb_grid.specs.Parts.{part, part_length};
ghost use Rattle.cb_plan_parts.specs.declared.TheConstants.{RESULT};
ghost use Rattle.cb_plan_parts.specs.Collectives.{shut_acts};
ghost use Rattle.cb_plan_parts.specs.PlanParts.{each_rank, operand_starts};
ghost use Rattle.cb_plan_parts.specs.Flows.{FlowsFrom};
ghost use Rattle.cb_plan_parts.specs.Growth.{IsWithinLimit, Grew, no_memory};
ghost use Rattle.cb_plan_operations.specs.GridPlans.{one_operand, mirror_acts};
ghost use Rattle.cb_plan_operations.specs.VectorPlans.{works, each_works, piece_broadcasts, sum_ops};
ghost use Rattle.cb_plan_operations.specs.ReductionPlans.{own_cut, own_cuts, own_ops, own_sums, gathered_sums, column_sums_acts, IsColumnSumsPlan};
ghost use Rattle.cb_plan_operations.specs.ReductionPlans.{turned, turned_sums_acts, turn_back_acts, row_sums_acts, IsRowSumsPlan};

use crate::placewise::one_operand;
use crate::transposes::send_across;
use crate::vector_plans::{PIECES, SUMMANDS, add_up, broadcast_pieces, work};
use cb_grid::Grid;
use cb_matrix::Shape;
use cb_plan::{Op, Plan, PlanFault, Planned};
use cb_plan_parts::{LEFT, RESULT, RIGHT, finish, operand_starts, work_everywhere};
use std::alloc::{AllocError, Global};

/// The slot of the column sums of a rank's block.
const SUMS: u16 = RIGHT;

/// The plan of the sums of the columns of a matrix of this shape.
///
/// On a grid of side q each rank receives q - 1 blocks of one row.
pub fn grid_column_sums(alloc: Global, grid: &Grid, a: Shape) -> Result<Planned, PlanFault>
    ensures ranks { IfOk result (λ p. p.plan.ranks ≡ grid.now.side * grid.now.side) }
    ensures starts { IfOk result (λ p. p.starts.items ≡ operand_starts grid.now.side (one_operand a)) }
    ensures slot { IfOk result (λ p. p.result ≡ RESULT) }
    ensures runnable { IfOk result (λ p. IsRunnable p) }
    ensures sums { IfOk result (λ p. IsColumnSumsPlan p.plan.acts grid.now.side a) }
    ensures fault { IfErr result (λ e. e ≡ no_memory) }
{
    let mut plan = Plan::new(alloc, grid.ranks());
    sum_columns(&mut plan, alloc, grid, a)?;
    finish_one(alloc, grid, plan, a)
}

/// The plan of the sums of the rows of a matrix of this shape.
///
/// On a grid of side q each rank receives at most q + 1 blocks of one row or one column.
pub fn grid_row_sums(alloc: Global, grid: &Grid, a: Shape) -> Result<Planned, PlanFault>
    ensures ranks { IfOk result (λ p. p.plan.ranks ≡ grid.now.side * grid.now.side) }
    ensures starts { IfOk result (λ p. p.starts.items ≡ operand_starts grid.now.side (one_operand a)) }
    ensures slot { IfOk result (λ p. p.result ≡ RESULT) }
    ensures runnable { IfOk result (λ p. IsRunnable p) }
    ensures sums { IfOk result (λ p. IsRowSumsPlan p.plan.acts grid.now.side a) }
    ensures fault { IfErr result (λ e. e ≡ no_memory) }
{
    let mut plan = Plan::new(alloc, grid.ranks());
    sum_rows(&mut plan, alloc, grid, a)?;
    finish_one(alloc, grid, plan, a)
}

/// Ends a plan that starts from a matrix of this shape: all lanes are shut after its acts.
fn finish_one(alloc: Global, grid: &Grid, plan: Plan, a: Shape) -> Result<Planned, PlanFault>
    requires ranks { plan.ranks ≡ grid.now.side * grid.now.side }
    requires limit { IsWithinLimit plan (shut_acts (grid.now.side * grid.now.side)) }
    requires flows { FlowsFrom grid.now.side (one_operand a) plan.acts }
    ensures ranks { IfOk result (λ p. p.plan.ranks ≡ grid.now.side * grid.now.side) }
    ensures starts { IfOk result (λ p. p.starts.items ≡ operand_starts grid.now.side (one_operand a)) }
    ensures acts { IfOk result (λ p. p.plan.acts ≡ plan.acts ++ shut_acts (grid.now.side * grid.now.side)) }
    ensures slot { IfOk result (λ p. p.result ≡ RESULT) }
    ensures runnable { IfOk result (λ p. IsRunnable p) }
    ensures fault { IfErr result (λ e. e ≡ no_memory) }
{
    let Ok(starts) = operand_starts(alloc, grid, &one_operand(a)) else {
        return Err(PlanFault::from(AllocError));
    };
    finish(grid, plan, starts, RESULT)
}

/// Leaves in slot 2 of each rank its part of the sums of the columns.
fn sum_columns(plan: &mut Plan, alloc: Global, grid: &Grid, a: Shape) -> Result<(), PlanFault>
    requires { IsWithinLimit plan.now (column_sums_acts grid.now.side a) }
    ensures acts { OnOk result (Grew (column_sums_acts grid.now.side a) plan.old plan.new) }
    ensures fault { IfErr result (λ e. e ≡ no_memory) }
{
    let sums = Op::ColumnSums {
        a: LEFT,
        into: SUMS,
    };
    work_everywhere(plan, grid, &sums)?;
    gather_sums(plan, alloc, grid, a)
}

/// Leaves in slot 2 of each rank its part of the sums of the rows.
fn sum_rows(plan: &mut Plan, alloc: Global, grid: &Grid, a: Shape) -> Result<(), PlanFault>
    requires { IsWithinLimit plan.now (row_sums_acts grid.now.side a) }
    ensures acts { OnOk result (Grew (row_sums_acts grid.now.side a) plan.old plan.new) }
    ensures fault { IfErr result (λ e. e ≡ no_memory) }
{
    sum_turned(plan, grid)?;
    gather_sums(plan, alloc, grid, turned(a))?;
    turn_back(plan, grid)
}

/// Leaves in slot 1 of each rank the column sums of the transposed block across the diagonal.
fn sum_turned(plan: &mut Plan, grid: &Grid) -> Result<(), PlanFault>
    requires { IsWithinLimit plan.now (turned_sums_acts grid.now.side) }
    ensures acts { OnOk result (Grew (turned_sums_acts grid.now.side) plan.old plan.new) }
    ensures fault { IfErr result (λ e. e ≡ no_memory) }
{
    let transpose = Op::Transpose {
        a: LEFT,
        into: SUMS,
    };
    work_everywhere(plan, grid, &transpose)?;
    let sums = Op::ColumnSums {
        a: SUMS,
        into: SUMS,
    };
    work_everywhere(plan, grid, &sums)?;
    send_across(plan, grid)?;
    let copy = Op::Copy {
        a: RESULT,
        into: SUMS,
    };
    work_everywhere(plan, grid, &copy)
}

/// Sends slot 2 of each rank across the diagonal, transposed.
fn turn_back(plan: &mut Plan, grid: &Grid) -> Result<(), PlanFault>
    requires { IsWithinLimit plan.now (turn_back_acts grid.now.side) }
    ensures acts { OnOk result (Grew (turn_back_acts grid.now.side) plan.old plan.new) }
    ensures fault { IfErr result (λ e. e ≡ no_memory) }
{
    let transpose = Op::Transpose {
        a: RESULT,
        into: SUMS,
    };
    work_everywhere(plan, grid, &transpose)?;
    send_across(plan, grid)
}

/// The shape with rows and columns exchanged.
fn turned(shape: Shape) -> Shape
    ensures { result ≡ turned shape }
{
    Shape::new(shape.cols(), shape.rows()).unwrap()
}

/// Adds up the sums of the blocks in each column of ranks; each rank keeps its own rows.
fn gather_sums(plan: &mut Plan, alloc: Global, grid: &Grid, a: Shape) -> Result<(), PlanFault>
    requires { IsWithinLimit plan.now (gathered_sums grid.now.side a) }
    ensures acts { OnOk result (Grew (gathered_sums grid.now.side a) plan.old plan.new) }
    ensures fault { IfErr result (λ e. e ≡ no_memory) }
{
    broadcast_pieces(plan, alloc, grid)?;
    keep_own_sums(plan, grid, a)
}

/// Each rank cuts its rows out of the sums that it received, and adds them up.
fn keep_own_sums(plan: &mut Plan, grid: &Grid, a: Shape) -> Result<(), PlanFault>
    requires { IsWithinLimit plan.now (each_works grid.now.side (own_sums grid.now.side a)) }
    ensures acts { OnOk result (Grew (each_works grid.now.side (own_sums grid.now.side a)) plan.old plan.new) }
    ensures fault { IfErr result (λ e. e ≡ no_memory) }
{
    let side = grid.side();
    for rank in 0..grid.ranks() {
        let number = u32::from(rank);
        let rows = grid.range(1, number / side);
        let width = grid.part_length(a.cols(), number % side);
        keep_own(plan, grid, rank, rows, width)?;
    }
    Ok(())
}

/// A rank cuts these rows out of the sums that it received, of this width, and adds them up.
fn keep_own(
    plan: &mut Plan,
    grid: &Grid,
    rank: u16,
    rows: (u32, u32),
    width: u32,
) -> Result<(), PlanFault>
    requires { IsWithinLimit plan.now (works rank (own_ops grid.now.side rows width)) }
    ensures acts { OnOk result (Grew (works rank (own_ops grid.now.side rows width)) plan.old plan.new) }
    ensures fault { IfErr result (λ e. e ≡ no_memory) }
{
    cut_own(plan, grid, rank, rows, width)?;
    add_up(plan, grid, rank)
}

/// A rank cuts these rows out of the sums that it received, of this width.
fn cut_own(
    plan: &mut Plan,
    grid: &Grid,
    rank: u16,
    rows: (u32, u32),
    width: u32,
) -> Result<(), PlanFault>
    requires { IsWithinLimit plan.now (works rank (own_cuts grid.now.side rows width)) }
    ensures acts { OnOk result (Grew (works rank (own_cuts grid.now.side rows width)) plan.old plan.new) }
    ensures fault { IfErr result (λ e. e ≡ no_memory) }
{
    for t in 0..grid.side() {
        let cut = Op::Cut {
            a: PIECES + t as u16,
            rows,
            cols: (0, width),
            into: SUMMANDS + t as u16,
        };
        work(plan, rank, &[cut])?;
    }
    Ok(())
}
