//! The slots with which a rank begins.
ghost use Rattle.std.specs.Prelude.{◌≡◌, ◌↔◌, ◌==◌, ◌&&◌, IsTrue};
ghost use Rattle.cb_plan.specs.Checks.{started};
ghost use Rattle.cb_rank.specs.Ranks.{FitsAt};
ghost use Rattle.cb_rank_driven.specs.FirstStores.{HoldsShape};

use cb_matrix::Shape;
use cb_plan::{CheckedPlan, RankStore, SLOTS, SharedBlock, Slot, Start};
use cb_semirings::Semiring;

/// Whether the slots of a rank are those with which a plan begins there. Costs a step for each slot and each start.
pub(crate) fn fits_at<S: Semiring>(plan: &CheckedPlan, me: u16, store: &RankStore<S>) -> bool
    ensures { IsTrue result ↔ FitsAt plan.now.starts me store.now }
{
    let starts = plan.starts();
    for n in 0..SLOTS {
        if !holds(store.slot(n), shape_at(starts, me, n)) {
            return false;
        }
    }
    true
}

/// The shape of the block with which a slot of a rank begins, if there is one.
fn shape_at(starts: &[Start], rank: u16, slot: u16) -> Option<Shape>
    ensures { result ≡ started starts.now rank slot }
{
    let mut found = None;
    for start in starts {
        if is_of(start, rank, slot) {
            found = Some(start.shape);
        }
    }
    found
}

/// Whether a start is of this slot of a rank.
fn is_of(start: &Start, rank: u16, slot: u16) -> bool
    ensures { result ≡ (start.now.rank == rank && start.now.slot == slot) }
{
    start.rank == rank && start.slot == slot
}

/// Whether a slot holds a block of this shape, or nothing if there is none.
fn holds<S: Semiring>(slot: &Slot<SharedBlock<S>>, shape: Option<Shape>) -> bool
    ensures { IsTrue result ↔ HoldsShape shape slot.now }
{
    match slot {
        Slot::Empty => shape.is_none(),
        Slot::Sheet(block) => shape == Some(block.shape()),
        Slot::Lost(_) => false,
    }
}
