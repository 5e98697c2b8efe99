//! The slots of the ranks: filled with blocks before a plan, and drained after it.
ghost use Rattle.std.specs.Prelude.{◌≡◌, ◌≢◌, ◌<◌, ◌*◌, ℕ, length, replicate, Some, All, IfOk, IfErr, OnOk, OnErr};
ghost use Rattle.cb_grid.specs.Blocks.{block_at};
ghost use Rattle.cb_plan.specs.declared.stores.Slot.TheVariants.{Empty};
ghost use Rattle.cb_matrix.specs.Sparse.{Sparse};
ghost use Rattle.cb_plan.specs.Meaning.{State};
ghost use Rattle.cb_plan.specs.Stores.{state_of};
ghost use Rattle.cb_plan.specs.PlanTables.{IsTable, cell};
ghost use Rattle.cb_plan_slots.specs.Answers.{HasShapes, IsGathered, IsGatheredOf};
ghost use Rattle.cb_plan_slots.specs.Losses.{AreFilled, IsDrainRefusal, IsPartlyDrained, LostOrMeans};
ghost use Rattle.cb_plan_slots.specs.Slots.{Filled, HasOperands, HaveSlots, block_of_rank, whole_operands};

use crate::DrainFault;
use cb_dcsc::Block;
use cb_layout::{DistributedMatrix, Grid};
use cb_matrix::Shape;
use cb_plan::{RankStore, SLOTS, Slot};
use cb_semirings::Semiring;
use std::alloc::{AllocError, Global};

/// A store of empty slots for each rank.
pub fn blank<S: Semiring>(alloc: Global, ranks: u16) -> Result<Vec<RankStore<S>>, AllocError>
    ensures { IfOk result (λ v. v.items ≡ replicate ranks (replicate SLOTS Empty)) }
{
    let mut stores = Vec::new(alloc);
    for _ in 0..ranks {
        stores.push(RankStore::new(alloc)?)?;
    }
    Ok(stores)
}

/// The stores of the ranks of a grid, with the blocks of each matrix in its slot, and nothing else. The blocks are moved,
/// not copied, and lent: a rank that is sent one shares it.
pub fn laid_out<S: Semiring>(
    alloc: Global,
    grid: &Grid,
    operands: Vec<(u16, DistributedMatrix<S>)>,
) -> Result<Vec<RankStore<S>>, AllocError>
    requires slots { HaveSlots (whole_operands operands.items) }
    requires sides { All (λ o. o.1.side ≡ grid.now.side) operands.items }
    ensures { IfOk result (λ v. HasOperands S.arithmetic grid.now.side (whole_operands operands.items) v.items) }
{
    let mut stores = blank(alloc, grid.ranks())?;
    for (slot, matrix) in operands {
        distribute(&mut stores, slot, matrix);
        lend_slot(alloc, &mut stores, slot)?;
    }
    Ok(stores)
}

/// Moves the blocks of a matrix into a slot of their ranks.
fn distribute<S: Semiring>(stores: &mut Vec<RankStore<S>>, slot: u16, matrix: DistributedMatrix<S>)
    requires slot { slot < SLOTS }
    requires table { IsTable (matrix.side * matrix.side) SLOTS stores.old.items }
    ensures { Filled (matrix.side * matrix.side) slot (block_of_rank S.arithmetic matrix.side matrix.matrix) stores.old.items stores.new.items }
{
    fill(stores, slot, matrix.into_blocks());
}

/// Lends the block in a slot of each rank: copies of it are shared from now on. Takes memory for a few words per rank.
fn lend_slot<S: Semiring>(
    alloc: Global,
    stores: &mut Vec<RankStore<S>>,
    slot: u16,
) -> Result<(), AllocError>
    requires { slot < SLOTS }
    ensures { stores.new.items ≡ stores.old.items }
{
    for rank in 0..stores.len() {
        stores[rank].lend(alloc, slot)?;
    }
    Ok(())
}

/// Moves one of the blocks into a slot of each rank.
pub fn fill<S: Semiring>(stores: &mut Vec<RankStore<S>>, slot: u16, blocks: Vec<Block<S>>)
    requires slot { slot < SLOTS }
    requires count { length blocks.items ≡ length stores.old.items }
    requires table { IsTable (length stores.old.items) SLOTS stores.old.items }
    ensures { Filled (length stores.old.items) slot (block_at blocks.items) stores.old.items stores.new.items }
{
    let mut blocks = blocks;
    while let Some(block) = blocks.pop() {
        let rank = blocks.len();
        stores[rank].put(slot, block);
    }
}

/// Moves the blocks out of a slot of the ranks. Other slots don't change.
///
/// `Lost` names the origin of the loss at the least rank whose slot is lost. `Memory` is reported before any block is moved,
/// or where a block is lent to other slots, so that it has to be copied. The blocks of the ranks before are then dropped:
/// after a fault the slot is empty at some ranks, and as it was at the others.
#[tactic(auto, using(crate::proofs::DrainedSlots::taken, crate::proofs::DrainedSlots::never_empty, crate::proofs::DrainedSlots::first_loss))]
pub fn drain<S: Semiring>(
    alloc: Global,
    stores: &mut Vec<RankStore<S>>,
    slot: u16,
) -> Result<Vec<Block<S>>, DrainFault>
    requires slot { slot < SLOTS }
    requires table { IsTable (length stores.old.items) SLOTS stores.old.items }
    requires filled { AreFilled slot stores.old.items }
    ensures count { IfOk result (λ v. length v.items ≡ length stores.old.items) }
    ensures blocks { IfOk result (λ v. (r : ℕ) → r < length stores.old.items → state_of stores.old.items r slot ≡ Some (block_at v.items r)) }
    ensures table { OnOk result (IsTable (length stores.old.items) SLOTS stores.new.items) }
    ensures others { OnOk result ((r n : ℕ) → slot ≢ n → cell Empty stores.new.items r n ≡ cell Empty stores.old.items r n) }
    ensures left { OnErr result (IsPartlyDrained slot stores.old.items stores.new.items) }
    ensures fault { IfErr result (IsDrainRefusal slot stores.old.items) }
{
    let mut blocks = Vec::with_capacity(alloc, stores.len())?;
    for rank in 0..stores.len() {
        match stores[rank].take(slot) {
            Slot::Sheet(block) => match block.into_block() {
                Ok(block) => blocks.push_reserved(block),
                Err(_) => return Err(DrainFault::Memory),
            },
            Slot::Lost(origin) => return Err(DrainFault::Lost(origin)),
            Slot::Empty => unreachable!(),
        }
    }
    Ok(blocks)
}

/// Takes the blocks out of a slot of the ranks, and returns the matrix of this shape that has these blocks. The faults are
/// those of [`drain`].
pub fn gather_slot<S: Semiring>(
    alloc: Global,
    grid: &Grid,
    stores: Vec<RankStore<S>>,
    slot: u16,
    shape: Shape,
) -> Result<DistributedMatrix<S>, DrainFault>
    requires slot { slot < SLOTS }
    requires table { IsTable (grid.now.side * grid.now.side) SLOTS stores.items }
    requires meant { (meant : State Sparse) × LostOrMeans meant stores.items × HasShapes grid.now.side shape slot meant }
    ensures ok { IfOk result (IsGatheredOf S.arithmetic grid.now.side shape slot stores.items) }
    ensures held { IfOk result (IsGathered S.arithmetic grid.now.side shape slot (state_of stores.items)) }
    ensures fault { IfErr result (IsDrainRefusal slot stores.items) }
{
    let mut stores = stores;
    let blocks = drain(alloc, &mut stores, slot)?;
    Ok(DistributedMatrix::from_blocks(*grid, shape, blocks))
}
