//! The acts and starts that plans over a grid are made of. With ample memory the calls succeed.
ghost use Rattle.std.specs.Prelude.{◌≡◌, OnOk, OnErr};
ghost use Rattle.cb_plan_parts.specs.Growth.{IsWithinLimit, Grew};
ghost use Rattle.cb_plan_parts.specs.PlanParts.{each_rank, zero_op};

use crate::samples::grid_of;
use cb_layout::Grid;
use cb_matrix::Shape;
use cb_plan::{Act, Op, Plan, PlanFault, Start};
use cb_plan_parts::{Operand, finish, operand_starts, work_everywhere, zero_everywhere};
use cb_samples::{SampleFault, shape};
use std::alloc::Global;
use std::test::Fail;

/// The starts of a 3 by 5 matrix in slot 0 and a 1 by 2 matrix in slot 7 on the grid of side 2.
fn starts(alloc: Global) -> Result<Vec<Start>, SampleFault> {
    let grid = grid_of(2)?;
    let large = shape(3, 5)?;
    let small = shape(1, 2)?;
    let operands = [
        Operand {
            slot: 0,
            shape: large,
        },
        Operand {
            slot: 7,
            shape: small,
        },
    ];
    Ok(operand_starts(alloc, &grid, &operands)?)
}

/// Whether a start has this rank and slot, and this many rows and columns.
fn is_start(start: &Start, (rank, slot, rows, cols): (u16, u16, u32, u32)) -> bool {
    let is_there = start.rank == rank && start.slot == slot;
    is_there && start.shape.rows() == rows && start.shape.cols() == cols
}

/// Whether these are all the starts.
fn are_starts(starts: &[Start], wanted: &[(u16, u16, u32, u32)]) -> bool {
    for (start, row) in starts.iter().zip(wanted) {
        if !is_start(start, *row) {
            return false;
        }
    }
    starts.len() == wanted.len()
}

const STARTS: &[(u16, u16, u32, u32)] = &[
    (0, 0, 2, 3),
    (0, 7, 1, 1),
    (1, 0, 2, 2),
    (1, 7, 1, 1),
    (2, 0, 1, 3),
    (2, 7, 0, 1),
    (3, 0, 1, 2),
    (3, 7, 0, 1),
];

#[test]
fn starts_by_ranks(rt: HostRuntime) -> Result<(), Fail> {
    let starts = starts(rt.alloc())?;
    assert!(rt; are_starts(&starts, STARTS));
    Ok(())
}

/// Every rank does an operation. That the plan is as it was if memory is refused is proved.
fn works_everywhere(plan: &mut Plan, grid: &Grid, op: &Op) -> Result<(), PlanFault>
    requires { IsWithinLimit plan.now (each_rank grid.now.side (λ _. op.now)) }
    ensures acts { OnOk result (Grew (each_rank grid.now.side (λ _. op.now)) plan.old plan.new) }
    ensures unchanged { OnErr result ((plan.new.ranks ≡ plan.old.ranks) × (plan.new.acts ≡ plan.old.acts)) }
{
    work_everywhere(plan, grid, op)
}

/// The same for a slot of every rank that becomes its part of a matrix without entries.
fn zeros_everywhere(plan: &mut Plan, grid: &Grid, slot: u16, shape: Shape) -> Result<(), PlanFault>
    requires { IsWithinLimit plan.now (each_rank grid.now.side (zero_op grid.now.side slot shape)) }
    ensures { OnErr result ((plan.new.ranks ≡ plan.old.ranks) × (plan.new.acts ≡ plan.old.acts)) }
{
    zero_everywhere(plan, grid, slot, shape)
}

/// A plan in which each rank in turn copies slot 0 to slot 1 and then puts an empty 3 by 3 block into slot 2.
fn works(alloc: Global) -> Result<Plan, SampleFault> {
    let grid = grid_of(2)?;
    let mut plan = Plan::new(alloc, grid.ranks());
    let shape = shape(3, 3)?;
    let copies = works_everywhere(&mut plan, &grid, &Op::Copy { a: 0, into: 1 }).is_ok();
    if !copies || zeros_everywhere(&mut plan, &grid, 2, shape).is_err() {
        return Err(SampleFault::Shape);
    }
    Ok(plan)
}

/// Whether each of four ranks copies and then makes its empty block, and there are no other acts.
fn each_copies_and_clears(acts: &[Act]) -> bool {
    let mut copies = 0u16;
    let mut zeros = 0u16;
    for act in acts {
        match act {
            Act::Work {
                rank,
                op: Op::Copy { a: 0, into: 1 },
            } if *rank == copies => copies = copies.saturating_add(1),
            Act::Work {
                rank,
                op: Op::Zero { into: 2, .. },
            } if *rank == zeros => zeros = zeros.saturating_add(1),
            _ => return false,
        }
    }
    (copies, zeros) == (4, 4)
}

#[test]
fn each_rank_works(rt: HostRuntime) -> Result<(), Fail> {
    let plan = works(rt.alloc())?;
    assert!(rt; each_copies_and_clears(plan.stored().0));
    Ok(())
}

/// The numbers of acts and starts of a plan that starts with a 3 by 3 matrix on four ranks and does nothing, and the slot
/// of its result.
fn starts_alone(alloc: Global) -> Result<(usize, usize, u16), SampleFault> {
    let grid = grid_of(2)?;
    let operands = [Operand {
        slot: 2,
        shape: shape(3, 3)?,
    }];
    let starts = operand_starts(alloc, &grid, &operands)?;
    let plan = Plan::new(alloc, grid.ranks());
    match finish(&grid, plan, starts, 2) {
        Ok(planned) => Ok((planned.plan.len(), planned.starts.len(), planned.result)),
        Err(_) => Err(SampleFault::Shape),
    }
}

#[test]
fn a_plan_of_starts_alone(rt: HostRuntime) {
    assert!(rt; starts_alone(rt.alloc()) == Ok((12, 4, 2)));
}
