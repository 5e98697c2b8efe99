//! The acts that make the product: blocks are broadcast, and each rank adds the products of those that it gets.
ghost use Rattle.std.specs.Prelude.{◌≡◌, ◌<◌, ◌≤◌, ◌+◌, ◌*◌, ◌/◌, ◌%◌, ◌==◌, ℕ, List, [], ◌++◌, map, flat_map, if◌then◌else◌, OnOk, IfErr};
ghost use Rattle.std.specs.List.{range_with_len};
ghost use Rattle.cb_plan_parts.specs.Growth.{IsWithinLimit, Grew, no_memory};
ghost use Rattle.cb_grid.specs.declared.TheConstants.{LARGEST_SIDE};
ghost use Rattle.cb_plan_summa.specs.Summa.{left_slot, right_slot, row_broadcast, column_broadcast, broadcasts, all_broadcasts, all_products, product_acts};

use cb_grid::Grid;
use cb_letters::Tag;
use cb_matrix::Shape;
use cb_plan::{Op, Plan, PlanFault};
use cb_plan_parts::{LEFT, RESULT, RIGHT, broadcast, work_everywhere, zero_everywhere};
use std::alloc::Global;

/// Slot 2 of each rank gets its block of the product. The blocks of all stages come before the first product.
pub fn multiply(
    plan: &mut Plan,
    alloc: Global,
    grid: &Grid,
    a: Shape,
    b: Shape,
) -> Result<(), PlanFault>
    requires { IsWithinLimit plan.now (product_acts grid.now.side a b) }
    ensures acts { OnOk result (Grew (product_acts grid.now.side a b) plan.old plan.new) }
    ensures fault { IfErr result (λ e. e ≡ no_memory) }
{
    zero_everywhere(plan, grid, RESULT, a.with_columns_of(b))?;
    broadcast_all(plan, alloc, grid)?;
    multiply_all(plan, grid)
}

/// The blocks of all stages come to all ranks, one stage after another.
fn broadcast_all(plan: &mut Plan, alloc: Global, grid: &Grid) -> Result<(), PlanFault>
    requires { IsWithinLimit plan.now (all_broadcasts grid.now.side) }
    ensures acts { OnOk result (Grew (all_broadcasts grid.now.side) plan.old plan.new) }
    ensures fault { IfErr result (λ e. e ≡ no_memory) }
{
    for k in 0..grid.side() {
        broadcast_blocks(plan, alloc, grid, k)?;
    }
    Ok(())
}

/// Each rank adds the products of all stages, one stage after another.
fn multiply_all(plan: &mut Plan, grid: &Grid) -> Result<(), PlanFault>
    requires { IsWithinLimit plan.now (all_products grid.now.side) }
    ensures acts { OnOk result (Grew (all_products grid.now.side) plan.old plan.new) }
    ensures fault { IfErr result (λ e. e ≡ no_memory) }
{
    for k in 0..grid.side() {
        let product = Op::MulAdd {
            a: left_slot(k),
            b: right_slot(k),
            acc: RESULT,
        };
        work_everywhere(plan, grid, &product)?;
    }
    Ok(())
}

/// The blocks of stage k come to all ranks.
fn broadcast_blocks(plan: &mut Plan, alloc: Global, grid: &Grid, k: u32) -> Result<(), PlanFault>
    requires stage { k < grid.now.side }
    requires limit { IsWithinLimit plan.now (broadcasts grid.now.side k) }
    ensures acts { OnOk result (Grew (broadcasts grid.now.side k) plan.old plan.new) }
    ensures fault { IfErr result (λ e. e ≡ no_memory) }
{
    broadcast_rows(plan, alloc, grid, k)?;
    broadcast_columns(plan, alloc, grid, k)
}

/// The blocks of the first matrix in column k go along their rows.
fn broadcast_rows(plan: &mut Plan, alloc: Global, grid: &Grid, k: u32) -> Result<(), PlanFault>
    requires stage { k < grid.now.side }
    requires limit { IsWithinLimit plan.now (flat_map (row_broadcast grid.now.side k) (range_with_len 0 grid.now.side)) }
    ensures acts { OnOk result (Grew (flat_map (row_broadcast grid.now.side k) (range_with_len 0 grid.now.side)) plan.old plan.new) }
    ensures fault { IfErr result (λ e. e ≡ no_memory) }
{
    for i in 0..grid.side() {
        let group = grid.row_group(alloc, i);
        let root = grid.rank(i, k);
        broadcast(plan, group.as_slice(), root, Tag(2 * k), LEFT, left_slot(k))?;
    }
    Ok(())
}

/// The blocks of the second matrix in row k go along their columns.
fn broadcast_columns(plan: &mut Plan, alloc: Global, grid: &Grid, k: u32) -> Result<(), PlanFault>
    requires stage { k < grid.now.side }
    requires limit { IsWithinLimit plan.now (flat_map (column_broadcast grid.now.side k) (range_with_len 0 grid.now.side)) }
    ensures acts { OnOk result (Grew (flat_map (column_broadcast grid.now.side k) (range_with_len 0 grid.now.side)) plan.old plan.new) }
    ensures fault { IfErr result (λ e. e ≡ no_memory) }
{
    for j in 0..grid.side() {
        let group = grid.column_group(alloc, j);
        let root = grid.rank(k, j);
        broadcast(
            plan,
            group.as_slice(),
            root,
            Tag(2 * k + 1),
            RIGHT,
            right_slot(k),
        )?;
    }
    Ok(())
}

/// The slot for a block of the first matrix in stage k: 3, 5, and then, beyond the mask's, 8, 10 and so on.
fn left_slot(k: u32) -> u16
    requires { k < LARGEST_SIDE }
    ensures { result ≡ left_slot k }
{
    let slot = if k < 2 { 3 + 2 * k } else { 4 + 2 * k };
    slot as u16
}

/// The slot for a block of the second matrix in stage k: the next one.
fn right_slot(k: u32) -> u16
    requires { k < LARGEST_SIDE }
    ensures { result ≡ right_slot k }
{
    left_slot(k) + 1
}
