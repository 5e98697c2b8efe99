//! The slots with which these plans begin, and their check.
ghost use Rattle.std.specs.Prelude.{◌≡◌, ◌<◌, ◌*◌, All, AllPairs, IfOk};
ghost use Rattle.cb_plan.specs.Plans.{IsElsewhere};
ghost use Rattle.cb_plan_transfers.specs.WholeStarts.{all_whole};

use cb_grid::Grid;
use cb_matrix::Shape;
use cb_plan::{CheckedPlan, Plan, PlanFault, SLOTS, Start};
use std::alloc::{AllocError, Global};

/// The starts by which each rank has a block of this shape in slot 0.
pub(crate) fn whole_starts(
    alloc: Global,
    grid: &Grid,
    shape: Shape,
) -> Result<Vec<Start>, AllocError>
    ensures starts { IfOk result (λ v. v.items ≡ all_whole grid.now.side shape) }
    ensures exist { IfOk result (λ v. All (λ s. (s.rank < grid.now.side * grid.now.side) × (s.slot < SLOTS)) v.items) }
    ensures once { IfOk result (λ v. AllPairs IsElsewhere v.items) }
{
    let mut starts = Vec::new(alloc);
    for rank in 0..grid.ranks() {
        starts.push(Start {
            rank,
            slot: 0,
            shape,
        })?;
    }
    Ok(starts)
}

/// A plan of a grid with these starts, if it has no fault.
pub(crate) fn checked(
    alloc: Global,
    grid: &Grid,
    plan: Plan,
    starts: &[Start],
) -> Result<CheckedPlan, PlanFault>
    requires ranks { plan.ranks ≡ grid.now.side * grid.now.side }
    requires exist { All (λ s. (s.rank < grid.now.side * grid.now.side) × (s.slot < SLOTS)) starts.now }
    requires once { AllPairs IsElsewhere starts.now }
    ensures ranks { IfOk result (λ checked. checked.ranks ≡ grid.now.side * grid.now.side) }
    ensures starts { IfOk result (λ checked. checked.starts ≡ starts.now) }
    ensures acts { IfOk result (λ checked. checked.acts ≡ plan.acts) }
{
    let _ranks = grid.ranks();
    match CheckedPlan::check(alloc, plan, starts) {
        Ok(plan) => Ok(plan),
        Err((_plan, fault)) => Err(fault),
    }
}
