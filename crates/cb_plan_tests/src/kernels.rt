//! The plans of operations over grids, run act by act.
ghost use Rattle.std.specs.Prelude.{◌<◌, IfOk};
ghost use Rattle.cb_plan.specs.Runnable.{IsRunnable};

use crate::samples::{Given, grid_of, matrix};
use cb_dcsc::Block;
use cb_layout::Grid;
use cb_matrix::{Shape, Test};
use cb_plan::{CheckedPlan, PlanFault, PlanFaultKind, Planned, RankStore, SLOTS, Slot};
use cb_plan_operations::{
    grid_add, grid_column_sums, grid_prune, grid_row_sums, grid_times, grid_transpose, grid_vector,
};
use cb_plan_parts::{LEFT, RESULT, RIGHT};
use cb_plan_vectors::scatter_input;
use cb_rank_work::run_plain;
use cb_samples::{SampleFault, entries, shape};
use cb_semirings::PlusTimes;
use std::alloc::{AllocError, Global};
use std::test::Fail;

/// An operation over a grid.
#[derive(Clone, Copy)]
enum Kernel {
    Transpose,
    RowSums,
    ColumnSums,
    Add,
    Times,
    Prune(Test),
    Vector,
}

/// The plan of an operation whose first operand has this shape.
fn plan_of(kernel: Kernel, alloc: Global, grid: &Grid, shape: Shape) -> Result<Planned, PlanFault>
    ensures { IfOk result (λ p. IsRunnable p) }
{
    match kernel {
        Kernel::Transpose => grid_transpose(alloc, grid, shape),
        Kernel::RowSums => grid_row_sums(alloc, grid, shape),
        Kernel::ColumnSums => grid_column_sums(alloc, grid, shape),
        Kernel::Add => grid_add(alloc, grid, shape),
        Kernel::Times => grid_times(alloc, grid, shape),
        Kernel::Prune(test) => grid_prune(alloc, grid, shape, test),
        Kernel::Vector => grid_vector(alloc, grid, shape),
    }
}

type Stores = Vec<RankStore<PlusTimes>>;

/// Appends an empty store.
fn push(alloc: Global, stores: &mut Stores) -> Result<(), AllocError> {
    let store = RankStore::new(alloc)?;
    stores.push(store)?;
    Ok(())
}

/// An empty store for each rank.
fn no_blocks(alloc: Global, grid: &Grid) -> Result<Stores, AllocError> {
    let mut stores = Vec::new(alloc);
    for _ in 0..grid.ranks() {
        push(alloc, &mut stores)?;
    }
    Ok(stores)
}

/// Puts a block into a slot of each rank.
fn fill(stores: &mut [RankStore<PlusTimes>], slot: u16, blocks: Vec<Block<PlusTimes>>)
    requires { slot < SLOTS }
{
    for (store, block) in stores.iter_mut().zip(blocks) {
        store.put(slot, block);
    }
}

/// Puts the blocks of a matrix into a slot of the ranks.
fn lay(
    alloc: Global,
    grid: &Grid,
    stores: &mut [RankStore<PlusTimes>],
    slot: u16,
    given: &Given<'_>,
) -> Result<(), SampleFault>
    requires { slot < SLOTS }
{
    let operand = matrix(alloc, given)?;
    fill(stores, slot, grid.scatter(alloc, &operand)?);
    Ok(())
}

/// Puts the pieces of an input vector into a slot of the ranks.
fn lay_vector(
    alloc: Global,
    grid: &Grid,
    stores: &mut [RankStore<PlusTimes>],
    slot: u16,
    given: &Given<'_>,
) -> Result<(), SampleFault>
    requires { slot < SLOTS }
{
    let operand = matrix(alloc, given)?;
    if operand.cols() != 1 {
        return Err(SampleFault::Shape);
    }
    fill(stores, slot, scatter_input(alloc, grid, &operand)?);
    Ok(())
}

/// An operation, its operands (perhaps one), and its result.
struct Example {
    kernel: Kernel,
    left: Given<'static>,
    right: Option<Given<'static>>,
    wanted: Given<'static>,
}

/// Puts the operands of an example into the slots of the ranks.
fn lay_operands(
    alloc: Global,
    grid: &Grid,
    stores: &mut [RankStore<PlusTimes>],
    example: &Example,
) -> Result<(), SampleFault> {
    lay(alloc, grid, stores, LEFT, &example.left)?;
    match (&example.right, example.kernel) {
        (None, _) => Ok(()),
        (Some(right), Kernel::Vector) => lay_vector(alloc, grid, stores, RIGHT, right),
        (Some(right), _) => lay(alloc, grid, stores, RIGHT, right),
    }
}

/// The stores after a plan that they fit.
fn run(alloc: Global, plan: &CheckedPlan, stores: Stores) -> Result<Stores, SampleFault> {
    if !plan.fits(&stores) {
        return Err(SampleFault::Shape);
    }
    Ok(run_plain(alloc, plan, stores)?)
}

/// The stores after a plan that leaves its result in its slot.
fn after(alloc: Global, planned: Planned, stores: Stores) -> Result<Stores, SampleFault>
    requires { IsRunnable planned }
{
    let (plan, slot) = planned.into_checked();
    if slot != RESULT {
        return Err(SampleFault::Shape);
    }
    run(alloc, &plan, stores)
}

/// The stores of the ranks of a grid after the plan of an example.
fn worked(alloc: Global, grid: &Grid, example: &Example) -> Result<Stores, SampleFault> {
    let shape = shape(example.left.0, example.left.1)?;
    let mut stores = no_blocks(alloc, grid)?;
    lay_operands(alloc, grid, &mut stores, example)?;
    match plan_of(example.kernel, alloc, grid, shape) {
        Ok(planned) => after(alloc, planned, stores),
        Err(_) => Err(SampleFault::Shape),
    }
}

/// Whether two blocks are the same.
fn are_same(found: &Block<PlusTimes>, wanted: &Block<PlusTimes>) -> bool {
    found.shape() == wanted.shape()
        && found.column_numbers() == wanted.column_numbers()
        && found.row_numbers() == wanted.row_numbers()
        && found.values() == wanted.values()
}

/// Whether the ranks of a grid have these blocks as their results.
fn have(stores: &[RankStore<PlusTimes>], blocks: &[Block<PlusTimes>]) -> bool {
    for (store, block) in stores.iter().zip(blocks.iter()) {
        let Slot::Sheet(found) = store.slot(RESULT) else {
            return false;
        };
        if !are_same(found, block) {
            return false;
        }
    }
    stores.len() == blocks.len()
}

/// Whether the ranks of a grid have the blocks of a matrix as their results.
fn leave(
    alloc: Global,
    grid: &Grid,
    stores: &[RankStore<PlusTimes>],
    wanted: &Given<'_>,
) -> Result<bool, SampleFault> {
    let wanted = matrix(alloc, wanted)?;
    let blocks = grid.scatter(alloc, &wanted)?;
    Ok(have(stores, &blocks))
}

/// Whether an example is right on the grid of this side.
fn makes(alloc: Global, side: u32, example: &Example) -> Result<bool, SampleFault> {
    let grid = grid_of(side)?;
    let stores = worked(alloc, &grid, example)?;
    leave(alloc, &grid, &stores, &example.wanted)
}

/// Whether it is right on grids of sides from 1 on.
fn makes_on_each(alloc: Global, example: &Example) -> bool {
    for side in 1..=7 {
        if makes(alloc, side, example) != Ok(true) {
            return false;
        }
    }
    true
}

const MANY: Given<'static> = (3, 5, entries![(2, 0, 6), (1, 1, 5), (0, 4, 7), (2, 4, 3)]);

/// The transpose, the sums of rows and of columns, the element-wise sum and product, and pruned entries.
const EXAMPLES: &[Example] = &[
    Example {
        kernel: Kernel::Transpose,
        left: (3, 5, entries![(2, 0, 6), (1, 1, 5), (0, 4, 7)]),
        right: None,
        wanted: (5, 3, entries![(4, 0, 7), (1, 1, 5), (0, 2, 6)]),
    },
    Example {
        kernel: Kernel::RowSums,
        left: MANY,
        right: None,
        wanted: (3, 1, entries![(0, 0, 7), (1, 0, 5), (2, 0, 9)]),
    },
    Example {
        kernel: Kernel::ColumnSums,
        left: MANY,
        right: None,
        wanted: (1, 5, entries![(0, 0, 6), (0, 1, 5), (0, 4, 10)]),
    },
    Example {
        kernel: Kernel::Add,
        left: (4, 3, entries![(0, 0, 7), (3, 2, 5)]),
        right: Some((4, 3, entries![(0, 0, 1), (2, 1, 9)])),
        wanted: (4, 3, entries![(0, 0, 8), (2, 1, 9), (3, 2, 5)]),
    },
    Example {
        kernel: Kernel::Times,
        left: (4, 3, entries![(0, 0, 7), (3, 2, 5)]),
        right: Some((4, 3, entries![(0, 0, 2), (2, 1, 9)])),
        wanted: (4, 3, entries![(0, 0, 14)]),
    },
    Example {
        kernel: Kernel::Prune(Test::Below(6)),
        left: (2, 7, entries![(0, 0, 7), (1, 2, 5), (1, 6, 9)]),
        right: None,
        wanted: (2, 7, entries![(0, 0, 7), (1, 6, 9)]),
    },
];

#[test]
fn each_kernel_makes_its_result_on_each_grid(rt: HostRuntime) {
    for example in EXAMPLES {
        assert!(rt; makes_on_each(rt.alloc(), example));
    }
}

/// A matrix times a vector, and the product.
const VECTOR: Example = Example {
    kernel: Kernel::Vector,
    left: (
        6,
        5,
        entries![(0, 0, 1), (2, 1, 4), (0, 3, 2), (1, 3, 3), (4, 4, 5)],
    ),
    right: Some((5, 1, entries![(0, 0, 7), (1, 0, 6), (3, 0, 5)])),
    wanted: (6, 1, entries![(0, 0, 17), (1, 0, 15), (2, 0, 24)]),
};

/// Two by two, of which each of the two parts of the result has one row, in its first piece.
const SMALL_VECTOR: Example = Example {
    kernel: Kernel::Vector,
    left: (2, 2, entries![(0, 0, 1), (0, 1, 2), (1, 1, 3)]),
    right: Some((2, 1, entries![(0, 0, 5), (1, 0, 7)])),
    wanted: (2, 1, entries![(0, 0, 19), (1, 0, 21)]),
};

/// Whether the pieces of the ranks hold the values of these entries, in their order.
fn hold(stores: &[RankStore<PlusTimes>], wanted: &Given<'_>) -> bool {
    let mut count = 0usize;
    for store in stores {
        let Slot::Sheet(piece) = store.slot(RESULT) else {
            return false;
        };
        for value in piece.values() {
            match wanted.2.get(count) {
                Some(entry) if entry.value == *value => count = count.saturating_add(1),
                _ => return false,
            }
        }
    }
    count == wanted.2.len()
}

/// Whether the product with a vector is right on the grid of this side.
fn makes_vector(alloc: Global, side: u32, example: &Example) -> Result<bool, SampleFault> {
    let grid = grid_of(side)?;
    let stores = worked(alloc, &grid, example)?;
    Ok(hold(&stores, &example.wanted))
}

#[test]
fn multiplies_a_vector(rt: HostRuntime) {
    for side in 1..=7 {
        assert!(rt; makes_vector(rt.alloc(), side, &VECTOR) == Ok(true));
    }
}

/// Whether the pieces of the ranks have these numbers of entries.
fn have_counts(stores: &[RankStore<PlusTimes>], wanted: &[usize]) -> bool {
    for (store, count) in stores.iter().zip(wanted) {
        let Slot::Sheet(piece) = store.slot(RESULT) else {
            return false;
        };
        if piece.len() != *count {
            return false;
        }
    }
    stores.len() == wanted.len()
}

/// Whether the product of two by two is right, in the first piece of each part.
fn is_in_first_pieces(alloc: Global) -> Result<bool, SampleFault> {
    let grid = grid_of(2)?;
    let stores = worked(alloc, &grid, &SMALL_VECTOR)?;
    Ok(hold(&stores, &SMALL_VECTOR.wanted) && have_counts(&stores, &[1, 0, 1, 0]))
}

#[test]
fn multiplies_by_pieces(rt: HostRuntime) {
    assert!(rt; is_in_first_pieces(rt.alloc()) == Ok(true));
}

/// Whether a plan has this many acts, or memory was refused.
pub(crate) fn has_acts_or_no_memory(planned: Result<Planned, PlanFault>, acts: usize) -> bool {
    match planned {
        Ok(planned) => planned.plan.len() == acts,
        Err(fault) => fault.act == 0 && fault.kind == PlanFaultKind::Memory,
    }
}

/// Operations, and how many acts their plans have on the grid of side 2.
const ACTS: &[(Kernel, usize)] = &[
    (Kernel::Transpose, 20),
    (Kernel::RowSums, 60),
    (Kernel::ColumnSums, 40),
    (Kernel::Add, 16),
    (Kernel::Times, 16),
    (Kernel::Prune(Test::Above(3)), 16),
    (Kernel::Vector, 68),
];

/// Passes whichever single allocation is refused (`rt try --test --fail-alloc N`, for each N in turn): the call reports it,
/// or its plan is right.
#[test]
fn refused_memory_is_reported(rt: HostRuntime) -> Result<(), Fail> {
    let grid = grid_of(2)?;
    let shape = shape(3, 5)?;
    for (kernel, acts) in ACTS {
        let planned = plan_of(*kernel, rt.alloc(), &grid, shape);
        assert!(rt; has_acts_or_no_memory(planned, *acts));
    }
    Ok(())
}
