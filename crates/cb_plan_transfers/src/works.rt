//! Operations of one rank.
ghost use Rattle.std.specs.Prelude.{◌≡◌, ◌<◌, ◌≤◌, ◌+◌, [], ◌∷◌, OnOk};
ghost use Rattle.cb_plan_parts.specs.Growth.{Grew};
ghost use Rattle.cb_plan_operations.specs.VectorPlans.{works};
ghost use Rattle.cb_plan_transfers.specs.Rounds.{column_cuts, given_away, sent_away, sums};

use cb_grid::Grid;
use cb_matrix::Shape;
use cb_plan::{Act, Op, Plan, PlanFault, SLOTS};

/// A rank does an operation.
pub(crate) fn work(plan: &mut Plan, rank: u16, op: Op) -> Result<(), PlanFault>
    ensures acts { OnOk result (Grew (works rank (op ∷ [])) plan.old plan.new) }
{
    plan.push(Act::Work { rank, op })?;
    Ok(())
}

/// A rank cuts what is in slot 0, a block of this shape, by columns: part k goes to slot `1 + k`.
fn cut_columns(plan: &mut Plan, grid: &Grid, block: Shape, rank: u16) -> Result<(), PlanFault>
    ensures acts { OnOk result (Grew (works rank (column_cuts grid.now.side block)) plan.old plan.new) }
{
    for k in 0..grid.side() {
        let op = Op::Cut {
            a: 0,
            rows: (0, block.rows()),
            cols: grid.range(block.cols(), k),
            into: 1 + k as u16,
        };
        work(plan, rank, op)?;
    }
    Ok(())
}

/// A rank does so, and doesn't keep what is in slot 0.
pub(crate) fn give_away(
    plan: &mut Plan,
    grid: &Grid,
    block: Shape,
    rank: u16,
) -> Result<(), PlanFault>
    ensures acts { OnOk result (Grew (works rank (given_away grid.now.side block)) plan.old plan.new) }
{
    cut_columns(plan, grid, block, rank)?;
    work(plan, rank, Op::Clear { slot: 0 })?;
    Ok(())
}

/// A rank doesn't keep what it has sent from its slots from 1 on, one for each of `side` ranks.
pub(crate) fn forget_sent(plan: &mut Plan, rank: u16, side: u16) -> Result<(), PlanFault>
    requires exist { 1 + side ≤ SLOTS }
    ensures acts { OnOk result (Grew (works rank (sent_away side)) plan.old plan.new) }
{
    for k in 0..side {
        work(plan, rank, Op::Clear { slot: 1 + k })?;
    }
    Ok(())
}

/// A rank adds up the blocks in this many slots, from `first` on, into the first of them.
pub(crate) fn add_up(plan: &mut Plan, rank: u16, first: u16, count: u16) -> Result<(), PlanFault>
    requires some { 0 < count }
    requires exist { first + count ≤ SLOTS }
    ensures acts { OnOk result (Grew (works rank (sums first count)) plan.old plan.new) }
{
    for k in 0..count - 1 {
        let op = Op::Add {
            a: first,
            b: first + 1 + k,
            into: first,
        };
        work(plan, rank, op)?;
    }
    Ok(())
}
