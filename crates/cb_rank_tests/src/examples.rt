//! What the tests work on: matrices, plans over a grid with stores that fit them, and what ranks leave.
ghost use Rattle.std.specs.Prelude.{◌≡◌, ◌<◌, ◌*◌, IfSome};
ghost use Rattle.cb_plan.specs.Runnable.{IsRunnable};
ghost use Rattle.cb_plan.specs.Stores.{Fits};

use cb_dcsc::Block;
use cb_grid::Grid;
use cb_matrix::{Entry, Matrix};
use cb_plan::{CheckedPlan, Planned, RankStore, SLOTS, SharedBlock, Slot};
use cb_plan_parts::{LEFT, RESULT, RIGHT};
use cb_plan_summa::summa;
use cb_samples::{are_values, shape};
use cb_semirings::PlusTimes;
use std::alloc::Global;

/// The entry with this value in a row of a column.
macro_rules! value {
    ($row:literal, $column:literal, $value:literal) => {
        Entry {
            row: $row,
            column: $column,
            value: $value,
        }
    };
}

/// The grid of this side, if there is one.
pub(crate) fn grid(side: u32) -> Option<Grid>
    ensures { IfSome result (λ grid. grid.side ≡ side) }
{
    Grid::new(side).ok()
}

/// The entries of two 2 by 2 matrices, and of their product.
const FIRST: [Entry; 3] = [value!(0, 0, 1), value!(0, 1, 2), value!(1, 1, 3)];

const SECOND: [Entry; 2] = [value!(1, 0, 4), value!(0, 1, 1)];

const PRODUCT: [Entry; 3] = [value!(0, 0, 8), value!(1, 0, 12), value!(0, 1, 1)];

/// The 2 by 2 matrix with these entries.
fn matrix(alloc: Global, entries: &[Entry]) -> Option<Matrix<PlusTimes>> {
    if !are_values::<PlusTimes>(entries) {
        return None;
    }
    Matrix::from_entries(alloc, shape(2, 2).ok()?, entries).ok()
}

/// Puts a block into a slot of each rank.
fn fill(stores: &mut [RankStore<PlusTimes>], slot: u16, blocks: Vec<Block<PlusTimes>>)
    requires { slot < SLOTS }
{
    for (store, block) in stores.iter_mut().zip(blocks) {
        store.put(slot, block);
    }
}

/// Empty stores for this many ranks.
fn empty_stores(alloc: Global, ranks: u16) -> Option<Vec<RankStore<PlusTimes>>> {
    let mut stores = Vec::new(alloc);
    for _ in 0..ranks {
        let store = RankStore::new(alloc).ok()?;
        stores.push(store).ok()?;
    }
    Some(stores)
}

/// Puts the blocks of the 2 by 2 matrix with these entries into a slot of each rank.
fn lay_out(
    alloc: Global,
    grid: &Grid,
    stores: &mut [RankStore<PlusTimes>],
    slot: u16,
    entries: &[Entry],
) -> Option<()>
    requires { slot < SLOTS }
{
    let matrix = matrix(alloc, entries)?;
    let blocks = grid.scatter(alloc, &matrix).ok()?;
    fill(stores, slot, blocks);
    Some(())
}

/// A store for each rank, with the blocks of the two factors in their slots, and nothing else.
fn factors_on(alloc: Global, grid: &Grid) -> Option<Vec<RankStore<PlusTimes>>> {
    let mut stores = empty_stores(alloc, grid.ranks())?;
    lay_out(alloc, grid, &mut stores, LEFT, &FIRST)?;
    lay_out(alloc, grid, &mut stores, RIGHT, &SECOND)?;
    Some(stores)
}

/// A plan, and the store that each of its ranks begins with.
type Example = (CheckedPlan, Vec<RankStore<PlusTimes>>);

/// A runnable plan with stores, if they fit it.
fn fitted(planned: Planned, stores: Vec<RankStore<PlusTimes>>) -> Option<Example>
    requires { IsRunnable planned }
    ensures fits { IfSome result (λ p. Fits p.0.ranks p.0.starts p.1.items) }
    ensures ranks { IfSome result (λ p. p.0.ranks ≡ planned.plan.ranks) }
{
    let (plan, slot) = planned.into_checked();
    if slot != RESULT || !plan.fits(&stores) {
        return None;
    }
    Some((plan, stores))
}

/// The plan of the product of two 2 by 2 matrices.
fn product_plan(alloc: Global, grid: &Grid) -> Option<Planned>
    ensures runnable { IfSome result (λ p. IsRunnable p) }
    ensures ranks { IfSome result (λ p. p.plan.ranks ≡ grid.now.side * grid.now.side) }
{
    let shape = shape(2, 2).ok()?;
    summa(alloc, grid, shape, shape).ok()
}

/// The plan of the product of the two 2 by 2 matrices over the grid of this side, with the factors in their slots.
pub(crate) fn two_by_two(alloc: Global, side: u32) -> Option<Example>
    ensures fits { IfSome result (λ p. Fits p.0.ranks p.0.starts p.1.items) }
    ensures ranks { IfSome result (λ p. p.0.ranks ≡ side * side) }
{
    let grid = grid(side)?;
    let stores = factors_on(alloc, &grid)?;
    let planned = product_plan(alloc, &grid)?;
    fitted(planned, stores)
}

/// What a rank leaves of the result.
#[derive(Clone, Copy, PartialEq, Drop)]
pub(crate) enum Held {
    /// Nothing, or more than one entry.
    Other,
    /// A block without entries.
    NoEntry,
    /// A block with one entry.
    One(Entry),
    /// Lost, at this rank.
    LostAt(u16),
}

/// A block with this value at its first place, and no other entry.
const fn one(value: u64) -> Held {
    Held::One(Entry {
        row: 0,
        column: 0,
        value,
    })
}

/// The blocks of the product of the two 2 by 2 matrices over the grid of side 2.
pub(crate) const fn product_blocks() -> [Held; 4] {
    [one(8), one(1), one(12), Held::NoEntry]
}

/// What a rank leaves of the result.
fn result_of(stores: &[RankStore<PlusTimes>], rank: usize) -> Held {
    let Some(store) = stores.get(rank) else {
        return Held::Other;
    };
    match store.slot(RESULT) {
        Slot::Empty => Held::Other,
        Slot::Sheet(block) => match block.len() {
            0 => Held::NoEntry,
            1 => Held::One(block.entry_at(0)),
            _ => Held::Other,
        },
        Slot::Lost(origin) => Held::LostAt(*origin),
    }
}

/// What four ranks leave of the result.
pub(crate) fn results(stores: &[RankStore<PlusTimes>]) -> [Held; 4] {
    [
        result_of(stores, 0),
        result_of(stores, 1),
        result_of(stores, 2),
        result_of(stores, 3),
    ]
}

/// Whether two blocks are the same.
fn are_same(found: &Block<PlusTimes>, wanted: &Block<PlusTimes>) -> bool {
    if found.shape() != wanted.shape() || found.len() != wanted.len() {
        return false;
    }
    for n in 0..found.len() {
        if found.entry_at(n) != wanted.entry_at(n) {
            return false;
        }
    }
    true
}

/// Whether two slots hold the same and neither is lost.
fn hold_same(found: &Slot<SharedBlock<PlusTimes>>, wanted: &Slot<SharedBlock<PlusTimes>>) -> bool {
    match (found, wanted) {
        (Slot::Empty, Slot::Empty) => true,
        (Slot::Sheet(found), Slot::Sheet(wanted)) => are_same(found, wanted),
        _ => false,
    }
}

/// Whether each slot that isn't lost holds the same as in the other stores, and how many slots are lost.
pub(crate) fn kept(found: &[RankStore<PlusTimes>], wanted: &[RankStore<PlusTimes>]) -> (bool, u32) {
    let mut lost = 0u32;
    for (found, wanted) in found.iter().zip(wanted.iter()) {
        for n in 0..SLOTS {
            if matches!(found.slot(n), Slot::Lost(_)) {
                lost = lost.saturating_add(1);
            } else if !hold_same(found.slot(n), wanted.slot(n)) {
                return (false, lost);
            }
        }
    }
    (found.len() == wanted.len(), lost)
}

/// Whether the ranks of a grid leave the blocks of a matrix as their results.
fn leave(
    alloc: Global,
    grid: &Grid,
    stores: &[RankStore<PlusTimes>],
    wanted: &Matrix<PlusTimes>,
) -> Option<bool> {
    let blocks = grid.scatter(alloc, wanted).ok()?;
    if blocks.len() != stores.len() {
        return Some(false);
    }
    for (store, block) in stores.iter().zip(blocks.iter()) {
        let Slot::Sheet(found) = store.slot(RESULT) else {
            return Some(false);
        };
        if !are_same(found, block) {
            return Some(false);
        }
    }
    Some(true)
}

/// Whether the ranks of the grid of this side leave the blocks of the product of the two 2 by 2 matrices.
pub(crate) fn leave_product(
    alloc: Global,
    side: u32,
    stores: &[RankStore<PlusTimes>],
) -> Option<bool> {
    let grid = grid(side)?;
    let wanted = matrix(alloc, &PRODUCT)?;
    leave(alloc, &grid, stores, &wanted)
}
