//! Operations on the slots of a rank, of which some may be lost.
ghost use Rattle.std.specs.Prelude.{◌≡◌, ◌<◌, true, false, ◌∷◌, None, All, slice_set, length, map};
ghost use Rattle.cb_plan.specs.Checks.{all_below, operands_of};
ghost use Rattle.cb_plan.specs.Meaning.{needs_memory, target_of};
ghost use Rattle.cb_plan.specs.declared.stores.Slot.TheVariants.{Lost};
ghost use Rattle.cb_rank_work.specs.Slots.{adding};
ghost use Rattle.cb_rank.specs.AddedProducts.{FitProduct, HasNoneLost};
ghost use Rattle.cb_rank.specs.Halves.{first_lost, reads_of, work_result, worked_all};
ghost use Rattle.cb_rank.specs.Ranks.{FitOperation};

use crate::wants::Supply;
use cb_dcsc::Block;
use cb_plan::{Op, RankStore, SLOTS, Slot};
use cb_rank_work::{accumulate_all, work};
use cb_semirings::Semiring;
use std::alloc::Global;
use std::thread;
use std::thread::Threads;

/// More processors than this aren't counted.
const MOST_PROCESSORS: usize = 4096;

/// Does an operation on the slots of a rank, and returns whether memory was refused. The slots must have the shapes that
/// the operation requires.
pub(crate) fn operate<S: Semiring>(
    alloc: Global,
    store: &mut RankStore<S>,
    me: u16,
    op: &Op,
    supply: Supply,
) -> bool
    requires slots { all_below SLOTS (target_of op.now ∷ operands_of op.now) ≡ true }
    requires shapes { FitOperation op.now store.old }
    ensures done { result ≡ false → store.new ≡ slice_set store.old (target_of op.now) (work_result S.arithmetic op.now store.old) }
    ensures lost { result ≡ true → store.new ≡ slice_set store.old (target_of op.now) (Lost me) }
    ensures cause { result ≡ true → (needs_memory op.now ≡ true) × (first_lost store.old (reads_of op.now) ≡ None) }
    ensures starved { supply ≡ Supply.Refused → needs_memory op.now ≡ true → first_lost store.old (reads_of op.now) ≡ None → result ≡ true }
{
    match *op {
        Op::Clear { slot } => {
            store.clear(slot);
            return false;
        }
        Op::Zero { into, shape } => {
            store.put(into, Block::empty(alloc, shape));
            return false;
        }
        _ => {}
    }
    if let Some(origin) = first_lost(store, op.operands().as_slice()) {
        store.put_lost(op.target(), origin);
        return false;
    }
    if supply == Supply::Refused || work(alloc, store, op).is_err() {
        store.put_lost(op.target(), me);
        return true;
    }
    false
}

/// Adds products to a slot, one after the other, from factors in other slots, if no operand is lost. Returns whether it did:
/// also not if memory is refused. Then nothing changes. There are processors for `threads` threads of each rank; more may do the
/// work if most products are of few pairs of blocks.
pub(crate) fn operate_all<S: Semiring + Send + Sync, R: Threads + Sync>(
    rt: &R,
    alloc: Global,
    threads: u32,
    store: &mut RankStore<S>,
    products: &[(u16, u16)],
    acc: u16,
) -> bool
    requires size { length store.old ≡ SLOTS }
    requires some { 0 < length products.now }
    requires each { All (FitProduct store.old acc) products.now }
    ensures done { result ≡ true → store.new ≡ worked_all S.arithmetic (map (adding acc) products.now) store.old }
    ensures none { result ≡ false → store.new ≡ store.old }
{
    if is_any_lost(store, products, acc) {
        return false;
    }
    let most = (threads as usize).saturating_mul(products.len());
    let most = most.min(MOST_PROCESSORS) as u32;
    accumulate_all(rt, alloc, most, store, products, acc).is_ok()
}

/// For how many threads of each of this many ranks there are processors: none if there are fewer than ranks, or if the system
/// doesn't report them.
pub(crate) fn threads_each<R: Threads>(rt: &R, ranks: u16) -> u32 {
    match thread::available_parallelism(rt) {
        Ok(processors) => (processors.get().min(MOST_PROCESSORS) / ranks.max(1) as usize) as u32,
        Err(_) => 0,
    }
}

/// Whether a factor of these products is lost, or the slot that they are added to.
fn is_any_lost<S: Semiring>(store: &RankStore<S>, products: &[(u16, u16)], acc: u16) -> bool
    requires { All (FitProduct store.now acc) products.now }
    ensures { result ≡ false → All (HasNoneLost store.now acc) products.now }
{
    for pair in products {
        if first_lost(store, &[pair.0, pair.1, acc]).is_some() {
            return true;
        }
    }
    false
}

/// The origin of the first of these slots that is lost, if any.
fn first_lost<S: Semiring>(store: &RankStore<S>, slots: &[u16]) -> Option<u16>
    requires { all_below SLOTS slots.now ≡ true }
    ensures { result ≡ first_lost store.now slots.now }
{
    for slot in slots {
        if let Slot::Lost(origin) = store.slot(*slot) {
            return Some(*origin);
        }
    }
    None
}
