//! From the pieces of a text to the blocks of a matrix.
ghost use Rattle.std.specs.Prelude.{◌≡◌, ◌<◌, ◌+◌, ◌*◌, IfOk, OnOk};
ghost use Rattle.cb_plan_parts.specs.Growth.{Grew};
ghost use Rattle.cb_plan_operations.specs.VectorPlans.{works, each_works};
ghost use Rattle.cb_plan_transfers.specs.Pieces.{IsPiecesPlan, pieces_acts, received_sums, sum_cuts};
ghost use Rattle.cb_plan_transfers.specs.Rounds.{given_away};
ghost use Rattle.cb_plan_transfers.specs.WholeStarts.{all_whole};

use crate::rounds::{exchange_in_columns, exchange_in_rows};
use crate::starts::{checked, whole_starts};
use crate::works::{add_up, give_away, work};
use cb_grid::Grid;
use cb_letters::Tag;
use cb_matrix::Shape;
use cb_plan::{CheckedPlan, Op, Plan, PlanFault, SLOTS};
use cb_plan_parts::shut_all;
use std::alloc::Global;

/// The tag of the parts of pieces.
const PARTS: Tag = Tag(0);

/// Each rank cuts what it read by columns, a part for each rank of its row of the grid. What it read isn't kept.
fn cut_pieces(plan: &mut Plan, grid: &Grid, shape: Shape) -> Result<(), PlanFault>
    ensures acts { OnOk result (Grew (each_works grid.now.side (λ _. given_away grid.now.side shape)) plan.old plan.new) }
{
    for rank in 0..grid.ranks() {
        give_away(plan, grid, shape, rank)?;
    }
    Ok(())
}

/// Each rank adds up what it received, from slot `1 + side` on.
fn add_parts(plan: &mut Plan, grid: &Grid) -> Result<(), PlanFault>
    ensures acts { OnOk result (Grew (received_sums grid.now.side) plan.old plan.new) }
{
    let side = grid.side() as u16;
    for rank in 0..grid.ranks() {
        add_up(plan, rank, 1 + side, side)?;
    }
    Ok(())
}

/// A rank cuts the sum that it made by rows, a part for each rank of its column of the grid: that of row k goes to slot `1 + k`.
fn cut_sum(plan: &mut Plan, grid: &Grid, shape: Shape, rank: u16) -> Result<(), PlanFault>
    ensures acts { OnOk result (Grew (works rank (sum_cuts grid.now.side shape rank)) plan.old plan.new) }
{
    let side = grid.side();
    let width = grid.part_length(shape.cols(), u32::from(rank) % side);
    for k in 0..side {
        let op = Op::Cut {
            a: 1 + side as u16,
            rows: grid.range(shape.rows(), k),
            cols: (0, width),
            into: 1 + k as u16,
        };
        work(plan, rank, op)?;
    }
    Ok(())
}

/// Each rank cuts the sum that it made.
fn cut_sums(plan: &mut Plan, grid: &Grid, shape: Shape) -> Result<(), PlanFault>
    ensures acts { OnOk result (Grew (each_works grid.now.side (sum_cuts grid.now.side shape)) plan.old plan.new) }
{
    for rank in 0..grid.ranks() {
        cut_sum(plan, grid, shape, rank)?;
    }
    Ok(())
}

/// The plan by which each rank gets its block of a matrix whose text the ranks have read in pieces, and the slot in which the
/// block is. Slot 0 of each rank has what it read, as a matrix of the whole shape. The matrix is the sum of these.
///
/// The ranks of each row of the grid exchange parts of the columns first, and add them up; those of each column then exchange
/// parts of the rows. So a rank needs two slots for each rank of a row, and not for each rank of the grid.
///
/// With n ranks on a grid of side q it has some 6 n q acts, of which 2 n (q - 1) are moves, before those that shut the lanes.
pub fn pieces_plan(
    alloc: Global,
    grid: &Grid,
    shape: Shape,
) -> Result<(CheckedPlan, u16), PlanFault>
    ensures ranks { IfOk result (λ planned. planned.0.ranks ≡ grid.now.side * grid.now.side) }
    ensures starts { IfOk result (λ planned. planned.0.starts ≡ all_whole grid.now.side shape) }
    ensures acts { IfOk result (λ planned. planned.0.acts ≡ pieces_acts grid.now.side shape) }
    ensures slot { IfOk result (λ planned. (planned.1 ≡ 1 + grid.now.side) × (planned.1 < SLOTS)) }
    ensures parts { IfOk result (λ planned. IsPiecesPlan planned.0.acts grid.now.side shape planned.1) }
{
    let starts = whole_starts(alloc, grid, shape)?;
    let mut plan = Plan::new(alloc, grid.ranks());
    cut_pieces(&mut plan, grid, shape)?;
    exchange_in_rows(&mut plan, alloc, grid, PARTS)?;
    add_parts(&mut plan, grid)?;
    cut_sums(&mut plan, grid, shape)?;
    exchange_in_columns(&mut plan, alloc, grid, PARTS)?;
    add_parts(&mut plan, grid)?;
    shut_all(&mut plan)?;
    let plan = checked(alloc, grid, plan, &starts)?;
    Ok((plan, 1 + grid.side() as u16))
}
