//! From the blocks of a matrix to panels of whole columns.
ghost use Rattle.std.specs.Prelude.{◌≡◌, ◌<◌, ◌+◌, ◌*◌, ◌/◌, ◌%◌, [], ◌∷◌, IfOk, OnOk};
ghost use Rattle.cb_grid.specs.Pieces.{piece_start};
ghost use Rattle.cb_plan_parts.specs.Growth.{Grew};
ghost use Rattle.cb_plan_parts.specs.PlanParts.{operand_starts};
ghost use Rattle.cb_plan_operations.specs.VectorPlans.{works, each_works};
ghost use Rattle.cb_plan_transfers.specs.Panels.{IsPanelsPlan, cuts_at, joined_parts, joined_at, panels_acts};

use crate::rounds::exchange_in_columns;
use crate::starts::checked;
use crate::works::{add_up, forget_sent, give_away, work};
use cb_grid::Grid;
use cb_letters::Tag;
use cb_matrix::Shape;
use cb_plan::{CheckedPlan, Op, Plan, PlanFault, SLOTS};
use cb_plan_parts::{Operand, operand_starts, shut_all};
use std::alloc::Global;

/// The tag of the parts of blocks.
const PARTS: Tag = Tag(1);

/// Each rank cuts its block of a matrix of this shape by columns, a part for each rank of its column of the grid. The block isn't
/// kept.
fn cut_blocks(plan: &mut Plan, grid: &Grid, shape: Shape) -> Result<(), PlanFault>
    ensures acts { OnOk result (Grew (each_works grid.now.side (cuts_at grid.now.side shape)) plan.old plan.new) }
{
    for rank in 0..grid.ranks() {
        let block = grid.block_shape(shape, rank);
        give_away(plan, grid, block, rank)?;
    }
    Ok(())
}

/// A rank places the parts that it has in the whole shape, their columns from this one on, and adds them up.
fn join_parts(
    plan: &mut Plan,
    grid: &Grid,
    shape: Shape,
    left: u32,
    rank: u16,
) -> Result<(), PlanFault>
    ensures acts { OnOk result (Grew (works rank (joined_parts grid.now.side shape left)) plan.old plan.new) }
{
    let side = grid.side();
    let first = 1 + side as u16;
    for i in 0..side {
        let (top, _end) = grid.range(shape.rows(), i);
        let slot = first + i as u16;
        let op = Op::Place {
            a: slot,
            shape,
            at: (top, left),
            into: slot,
        };
        work(plan, rank, op)?;
    }
    add_up(plan, rank, first, side as u16)?;
    Ok(())
}

/// The first column of a rank's panel of a matrix with this many columns.
fn first_column(grid: &Grid, cols: u32, rank: u16) -> u32
    requires { rank < grid.now.side * grid.now.side }
    ensures { result ≡ piece_start grid.now.side cols (rank % grid.now.side) (rank / grid.now.side) }
{
    let side = grid.side();
    let number = u32::from(rank);
    let (start, _end) = grid.range(cols, number % side);
    let width = grid.part_length(cols, number % side);
    let (within, _end) = grid.range(width, number / side);
    start + within
}

/// Each rank puts together what it received, and keeps nothing that it sent.
fn join_all(plan: &mut Plan, grid: &Grid, shape: Shape) -> Result<(), PlanFault>
    ensures acts { OnOk result (Grew (each_works grid.now.side (joined_at grid.now.side shape)) plan.old plan.new) }
{
    for rank in 0..grid.ranks() {
        forget_sent(plan, rank, grid.side() as u16)?;
        let left = first_column(grid, shape.cols(), rank);
        join_parts(plan, grid, shape, left, rank)?;
    }
    Ok(())
}

/// The plan by which the ranks, which have the blocks of a matrix of this shape in slot 0, get panels of it, and the slot in
/// which the panel is: some whole columns, in the matrix's shape. Rank (i, j) gets part i of the columns of part j, so by column
/// of the grid, and in it by row, the panels are the matrix from left to right.
///
/// With n ranks on a grid of side q it has some 5 n q acts, of which n (q - 1) are moves, before those that shut the lanes.
pub fn panels_plan(
    alloc: Global,
    grid: &Grid,
    shape: Shape,
) -> Result<(CheckedPlan, u16), PlanFault>
    ensures ranks { IfOk result (λ planned. planned.0.ranks ≡ grid.now.side * grid.now.side) }
    ensures starts { IfOk result (λ planned. planned.0.starts ≡ operand_starts grid.now.side (record { slot = 0; shape = shape } ∷ [])) }
    ensures acts { IfOk result (λ planned. planned.0.acts ≡ panels_acts grid.now.side shape) }
    ensures slot { IfOk result (λ planned. (planned.1 ≡ 1 + grid.now.side) × (planned.1 < SLOTS)) }
    ensures panels { IfOk result (λ planned. IsPanelsPlan planned.0.acts grid.now.side shape planned.1) }
{
    let starts = operand_starts(alloc, grid, &[Operand { slot: 0, shape }])?;
    let mut plan = Plan::new(alloc, grid.ranks());
    cut_blocks(&mut plan, grid, shape)?;
    exchange_in_columns(&mut plan, alloc, grid, PARTS)?;
    join_all(&mut plan, grid, shape)?;
    shut_all(&mut plan)?;
    let plan = checked(alloc, grid, plan, &starts)?;
    Ok((plan, 1 + grid.side() as u16))
}
