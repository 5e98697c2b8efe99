//! Plans over a grid, the stores of their ranks, and the blocks that they have to leave.
ghost use Rattle.std.specs.Prelude.{◌<◌, IfSome};
ghost use Rattle.cb_plan.specs.Runnable.{IsRunnable};

use cb_dcsc::Block;
use cb_grid::Grid;
use cb_matrix::{Matrix, Shape};
use cb_plan::{CheckedPlan, Planned, RankStore, SLOTS};
use cb_plan_operations::grid_transpose;
use cb_plan_parts::{LEFT, RIGHT};
use cb_plan_slots::blank;
use cb_plan_summa::summa;
use cb_rank_driven::DrivenRank;
use cb_samples::{are_values, entry, shape};
use cb_semirings::PlusTimes;
use std::alloc::Global;

/// What the ranks compute.
#[derive(Clone, Copy)]
pub(crate) enum Task {
    Product,
    Transpose,
}

/// A plan, the stores with which its ranks begin, the slot of the answer, and the blocks of the answer.
#[derive(Drop)]
pub(crate) struct Example {
    pub(crate) plan: CheckedPlan,
    pub(crate) stores: Vec<RankStore<PlusTimes>>,
    pub(crate) slot: u16,
    pub(crate) wanted: Vec<Block<PlusTimes>>,
}

/// The grid of this side, if there is one.
fn grid(side: u32) -> Option<Grid> {
    Grid::new(side).ok()
}

/// A matrix of this shape with an entry at about every fourth place.
fn matrix(alloc: Global, rows: u32, cols: u32) -> Option<Matrix<PlusTimes>> {
    let mut entries = Vec::new(alloc);
    for column in 0..cols {
        for row in 0..rows {
            let place = u64::from(row) * 3 + u64::from(column) * 5;
            if place % 4 == 0 {
                entries.push(entry(row, column, place + 1)).ok()?;
            }
        }
    }
    if !are_values::<PlusTimes>(&entries) {
        return None;
    }
    Matrix::from_entries(alloc, shape(rows, cols).ok()?, &entries).ok()
}

/// Puts the blocks of a matrix into a slot of the ranks.
fn lay_out(
    alloc: Global,
    grid: &Grid,
    stores: &mut [RankStore<PlusTimes>],
    slot: u16,
    matrix: &Matrix<PlusTimes>,
) -> Option<()>
    requires { slot < SLOTS }
{
    let blocks = grid.scatter(alloc, matrix).ok()?;
    for (store, block) in stores.iter_mut().zip(blocks) {
        store.put(slot, block);
    }
    Some(())
}

/// A rank for each store.
pub(crate) fn driven(
    alloc: Global,
    plan: &CheckedPlan,
    stores: Vec<RankStore<PlusTimes>>,
) -> Option<Vec<DrivenRank<PlusTimes>>> {
    let mut ranks = Vec::new(alloc);
    for (store, me) in stores.into_iter().zip(0u16..u16::MAX) {
        let rank = DrivenRank::start(alloc, plan, me, store).ok()?;
        ranks.push(rank).ok()?;
    }
    Some(ranks)
}

/// A runnable plan, with these stores and blocks.
fn of_plan(
    planned: Planned,
    stores: Vec<RankStore<PlusTimes>>,
    wanted: Vec<Block<PlusTimes>>,
) -> Example
    requires { IsRunnable planned }
{
    let (plan, slot) = planned.into_checked();
    Example {
        plan,
        stores,
        slot,
        wanted,
    }
}

/// The plan of a product.
fn product_plan(alloc: Global, grid: &Grid, a: Shape, b: Shape) -> Option<Planned>
    ensures { IfSome result (λ p. IsRunnable p) }
{
    if a.cols() != b.rows() {
        return None;
    }
    summa(alloc, grid, a, b).ok()
}

/// The plan of a transpose.
fn transpose_plan(alloc: Global, grid: &Grid, a: Shape) -> Option<Planned>
    ensures { IfSome result (λ p. IsRunnable p) }
{
    grid_transpose(alloc, grid, a).ok()
}

/// The product of a matrix of 7 by 5 and one of 5 by 8 over a grid.
fn product(alloc: Global, grid: &Grid) -> Option<Example> {
    let a = matrix(alloc, 7, 5)?;
    let b = matrix(alloc, 5, 8)?;
    let answer = Matrix::plain_product(alloc, &a, &b).ok()?;
    let mut stores = blank(alloc, grid.ranks()).ok()?;
    lay_out(alloc, grid, &mut stores, LEFT, &a)?;
    lay_out(alloc, grid, &mut stores, RIGHT, &b)?;
    let planned = product_plan(alloc, grid, a.shape(), b.shape())?;
    let wanted = grid.scatter(alloc, &answer).ok()?;
    Some(of_plan(planned, stores, wanted))
}

/// The transpose of a matrix of 7 by 5 over a grid.
fn transpose(alloc: Global, grid: &Grid) -> Option<Example> {
    let a = matrix(alloc, 7, 5)?;
    let mut entries = Vec::new(alloc);
    for found in a.entries() {
        entries
            .push(entry(found.column, found.row, found.value))
            .ok()?;
    }
    if !are_values::<PlusTimes>(&entries) {
        return None;
    }
    let answer = Matrix::from_entries(alloc, shape(5, 7).ok()?, &entries).ok()?;
    let mut stores = blank(alloc, grid.ranks()).ok()?;
    lay_out(alloc, grid, &mut stores, LEFT, &a)?;
    let planned = transpose_plan(alloc, grid, a.shape())?;
    let wanted = grid.scatter(alloc, &answer).ok()?;
    Some(of_plan(planned, stores, wanted))
}

impl Example {
    /// The example of a task over the grid of this side.
    pub(crate) fn of(alloc: Global, task: Task, side: u32) -> Option<Example> {
        let grid = grid(side)?;
        match task {
            Task::Product => product(alloc, &grid),
            Task::Transpose => transpose(alloc, &grid),
        }
    }
}

/// Whether two blocks are the same.
pub(crate) fn are_same(found: &Block<PlusTimes>, wanted: &Block<PlusTimes>) -> bool {
    if found.shape() != wanted.shape() || found.len() != wanted.len() {
        return false;
    }
    for n in 0..found.len() {
        if found.entry_at(n) != wanted.entry_at(n) {
            return false;
        }
    }
    true
}
