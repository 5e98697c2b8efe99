//! The slots that are filled before the first act of a plan.
ghost use Rattle.std.specs.Prelude.{◌≡◌, ◌<◌, ◌≤◌, ◌+◌, ◌*◌, List, ◌++◌, All, AllPairs, IfOk, OnOk};
ghost use Rattle.cb_plan.specs.Plans.{IsElsewhere};
ghost use Rattle.cb_plan_parts.specs.PlanParts.{part_start_at, starts_at, operand_starts, NamesSlots};

use cb_grid::Grid;
use cb_matrix::Shape;
use cb_plan::{SLOTS, Start};
use std::alloc::{AllocError, Global};

/// A matrix of this shape. Each rank has its part of it in this slot.
#[derive(Clone, Copy, Debug)]
pub struct Operand {
    pub slot: u16,
    pub shape: Shape,
}

/// The starts of a plan: rank by rank, its part of each operand. The operands' slots must exist and differ.
pub fn operand_starts(
    alloc: Global,
    grid: &Grid,
    operands: &[Operand],
) -> Result<Vec<Start>, AllocError>
    requires { NamesSlots operands.now }
    ensures starts { IfOk result (λ v. v.items ≡ operand_starts grid.now.side operands.now) }
    ensures exist { IfOk result (λ v. All (λ s. (s.rank < grid.now.side * grid.now.side) × (s.slot < SLOTS)) v.items) }
    ensures once { IfOk result (λ v. AllPairs IsElsewhere v.items) }
{
    let mut starts = Vec::new(alloc);
    for rank in 0..grid.ranks() {
        push_starts(&mut starts, grid, operands, rank)?;
    }
    Ok(starts)
}

/// Appends the starts of one rank.
fn push_starts(
    starts: &mut Vec<Start>,
    grid: &Grid,
    operands: &[Operand],
    rank: u16,
) -> Result<(), AllocError>
    requires { rank < grid.now.side * grid.now.side }
    ensures { OnOk result (starts.new.items ≡ starts.old.items ++ starts_at grid.now.side operands.now rank) }
{
    for operand in operands {
        starts.push(part_start(grid, operand.slot, rank, operand.shape))?;
    }
    Ok(())
}

/// The start by which a slot of a rank has its part of a matrix of this shape.
fn part_start(grid: &Grid, slot: u16, rank: u16, shape: Shape) -> Start
    requires { rank < grid.now.side * grid.now.side }
    ensures { result ≡ part_start_at grid.now.side slot rank shape }
{
    Start {
        rank,
        slot,
        shape: grid.block_shape(shape, rank),
    }
}
