//! Memory that was reserved, and memory that is refused.
ghost use Rattle.std.specs.Prelude.{◌≡◌, ◌<◌, None};
ghost use Rattle.cb_plan.specs.declared.stores.TheConstants.{SLOTS};
ghost use Rattle.cb_plan.specs.Stores.{sheets_in};

use crate::plan::{checked, plan_of, row_at_0, small, two_stores};
use cb_dcsc::Block;
use cb_matrix::{Entry, Shape};
use cb_plan::{Act, CheckedPlan, Op, Plan, PlanFaultKind, RankStore, SharedBlock, Slot, Start};
use cb_rank_work::{run_plain, work};
use cb_samples::{entry, shape};
use cb_semirings::PlusTimes;
use std::alloc::{AllocError, Global};
use std::test::Fail;

/// Whether there is memory for this many acts. That room for no act, or room that is there, isn't refused is proved.
fn reserves(plan: &mut Plan, count: usize) -> bool {
    if plan.reserve(0).is_err() {
        unreachable!()
    }
    if plan.reserve(count).is_err() {
        return false;
    }
    if plan.reserve(count).is_err() {
        unreachable!()
    }
    true
}

/// The same for the call that also refuses too many acts.
fn makes_room(plan: &mut Plan, count: usize) -> bool {
    if plan.make_room(0).is_err() {
        unreachable!()
    }
    if plan.make_room(count).is_err() {
        return false;
    }
    if plan.make_room(count).is_err() {
        unreachable!()
    }
    true
}

/// Whether the small plan grows after room for it is reserved.
fn grows(alloc: Global) -> bool {
    let mut plan = Plan::new(alloc, 2);
    let has_room = reserves(&mut plan, 2) && makes_room(&mut plan, 3);
    for act in small() {
        if plan.push(act).is_err() {
            return false;
        }
    }
    has_room && plan.len() == 3
}

/// How many halves rank 1 of the small plan has.
fn halves(alloc: Global) -> Option<usize> {
    let plan = checked(alloc)?;
    Some(plan.project(alloc, 1).ok()?.len())
}

/// With ample memory no call is refused.
#[test]
fn a_plan_grows_with_ample_memory(rt: HostRuntime) {
    assert!(rt; grows(rt.alloc()));
    assert!(rt; halves(rt.alloc()) == Some(3));
}

/// The entries of the block that a slot holds.
fn entries_in(slot: &Slot<SharedBlock<PlusTimes>>) -> Option<Vec<Entry>> {
    match slot {
        Slot::Sheet(block) => block.entries().ok(),
        _ => None,
    }
}

/// Whether a slot holds the block that rank 0 starts with.
fn is_block(slot: &Slot<SharedBlock<PlusTimes>>) -> bool {
    match entries_in(slot) {
        Some(entries) => entries.as_slice() == [entry(0, 1, 6)].as_slice(),
        None => false,
    }
}

/// Whether the block of rank 0 is copied.
fn is_copied(alloc: Global) -> Option<bool> {
    let stores = two_stores(alloc)?;
    let copy = stores[0].try_copy(0).ok()?;
    Some(is_block(&copy))
}

/// Whether it is sent to slot 3 of rank 1.
fn is_sent(alloc: Global) -> Option<bool> {
    let plan = checked(alloc)?;
    let stores = two_stores(alloc)?;
    if !plan.fits(&stores) {
        return None;
    }
    let after = run_plain(alloc, &plan, stores).ok()?;
    Some(is_block(after[1].slot(3)))
}

/// Whether the block of rank 0 is lent, and a copy too, and each of the two is handed out alone.
fn is_lent(alloc: Global) -> Option<bool> {
    let mut stores = two_stores(alloc)?;
    stores[0].lend(alloc, 0).ok()?;
    stores[0].lend(alloc, 0).ok()?;
    let copy = stores[0].try_copy(0).ok()?;
    let are_blocks = is_block(&copy) && is_block(stores[0].slot(0));
    let is_shared = is_block(&Slot::Sheet(SharedBlock::new(alone(copy)?)));
    let lent = alone(stores[0].take(0))?;
    Some(are_blocks && is_shared && is_block(&Slot::Sheet(SharedBlock::new(lent))))
}

/// The block of a slot alone. It is copied if it has other owners.
fn alone(slot: Slot<SharedBlock<PlusTimes>>) -> Option<Block<PlusTimes>> {
    match slot {
        Slot::Sheet(block) => block.into_block().ok(),
        _ => None,
    }
}

/// The same for the calls on stores.
#[test]
fn a_block_is_copied_lent_and_sent_with_ample_memory(rt: HostRuntime) {
    assert!(rt; is_copied(rt.alloc()) == Some(true));
    assert!(rt; is_lent(rt.alloc()) == Some(true));
    assert!(rt; is_sent(rt.alloc()) == Some(true));
}

/// Makes a block without entries in slot 0. That it isn't refused, whatever memory there is, is proved.
fn blank(alloc: Global, store: &mut RankStore<PlusTimes>, shape: Shape) {
    let zero = Op::Zero { into: 0, shape };
    match work(alloc, store, &zero) {
        Ok(()) => {}
        Err(AllocError) => unreachable!(),
    }
}

/// A copy of a slot without a block. That it isn't refused, whatever memory there is, is proved.
fn copied(store: &RankStore<PlusTimes>, n: u16) -> Slot<SharedBlock<PlusTimes>>
    requires slot { n < SLOTS }
    requires none { sheets_in store.now n ≡ None }
{
    match store.try_copy(n) {
        Ok(slot) => slot,
        Err(AllocError) => unreachable!(),
    }
}

/// Whether an empty and a lost slot are copied as such.
fn copies_without_blocks(store: &mut RankStore<PlusTimes>) -> bool {
    store.put_lost(3, 1);
    let is_lost = matches!(copied(store, 3), Slot::Lost(1));
    store.clear(3);
    is_lost & matches!(copied(store, 3), Slot::Empty)
}

#[test]
fn what_has_no_entries_takes_no_memory(rt: HostRuntime) -> Result<(), Fail> {
    let mut store = RankStore::new(rt.alloc())?;
    blank(rt.alloc(), &mut store, shape(2, 2)?);
    assert!(rt; store.filled() == 1);
    assert!(rt; copies_without_blocks(&mut store));
    Ok(())
}

/// Whether the check of the small plan hands the plan back if memory is refused; or else whether rank 1 has three halves,
/// or is refused memory for them.
fn is_checked_or_refused(alloc: Global, plan: Plan, start: Start) -> bool
    requires ranks { plan.ranks ≡ 2 }
    requires place { start ≡ record { rank = 0; slot = 0; shape = record { rows = 1; cols = 2 } } }
{
    match CheckedPlan::check(alloc, plan, &[start]) {
        Ok(plan) => match plan.project(alloc, 1) {
            Ok(halves) => halves.len() == 3,
            Err(AllocError) => true,
        },
        Err((same, wanting)) => {
            same.len() == 3 && wanting.act == 0 && wanting.kind == PlanFaultKind::Memory
        }
    }
}

/// Passes whichever single allocation is refused (`rt try --test --fail-alloc N`, for each N in turn): each result is
/// right, or the error is want of memory.
#[test]
fn refused_memory_is_answered(rt: HostRuntime) -> Result<(), Fail> {
    let start = row_at_0()?;
    if let Ok(plan) = plan_of(rt.alloc(), &small()) {
        assert!(rt; is_checked_or_refused(rt.alloc(), plan, start));
    }
    Ok(())
}

/// Whether an act that comes after the end of a plan is appended, or memory is refused and the plan is as it was.
fn grows_past_its_end(plan: &mut Plan, act: Act) -> bool {
    if plan.shut_all().is_err() {
        return false;
    }
    let count = plan.len();
    match plan.push(act) {
        Ok(()) => plan.len() == count.saturating_add(1) && !plan.stored().1,
        Err(fault) => {
            plan.len() == count && plan.stored().1 && fault.kind == PlanFaultKind::Memory
        }
    }
}

/// The same for a plan that is at its end.
#[test]
fn refused_memory_leaves_the_end_of_a_plan(rt: HostRuntime) {
    let mut plan = Plan::new(rt.alloc(), 3);
    assert!(rt; grows_past_its_end(&mut plan, Act::Shut { from: 0, to: 1 }));
}

/// Whether the small plan runs on its stores and fills one slot of rank 1, or there is no memory.
fn runs_or_is_refused(alloc: Global) -> bool {
    let Some(plan) = checked(alloc) else {
        return true;
    };
    let Some(stores) = two_stores(alloc) else {
        return true;
    };
    if !plan.fits(&stores) {
        return false;
    }
    match run_plain(alloc, &plan, stores) {
        Ok(after) => after[1].filled() == 1,
        Err(_) => true,
    }
}

/// The same for a plan that is run.
#[test]
fn a_run_is_refused_for_want_of_memory(rt: HostRuntime) {
    assert!(rt; runs_or_is_refused(rt.alloc()));
}
