//! Calls that come at the wrong time, or ask for what isn't there.
use crate::carriers::{Carrier, Ranked, Sent};
use crate::operands::{Example, Task, driven};
use crate::runs::{Order, Probe, go};
use cb_letters::{Body, Letter, Tag};
use cb_plan::SLOTS;
use cb_rank::Want;
use cb_rank_driven::{DrivenRank, NoBlock, StartFault, StepRefusal};
use std::alloc::Global;

/// The first close mark of the lane from rank 0 to rank 1.
fn mark() -> Sent {
    Letter {
        from: 0,
        to: 1,
        number: 0,
        tag: Tag(0),
        body: Body::Close,
    }
}

/// Whether a rank that wants no Post or Shut refuses to post.
fn keeps_from_posting(rank: &mut Ranked) -> bool {
    match rank.want() {
        Want::Post(_) => true,
        Want::Shut(_) => true,
        _ => matches!(rank.post(), Err(StepRefusal::NotNow)),
    }
}

/// Whether a rank that wants no Take or End refuses a letter.
fn keeps_from_taking(rank: &mut Ranked) -> bool {
    match rank.want() {
        Want::Take(_) => true,
        Want::End(_) => true,
        _ => matches!(rank.take(mark()), Err(StepRefusal::NotNow)),
    }
}

/// Whether a rank that wants no Work refuses to work.
fn keeps_from_working(rank: &mut Ranked) -> bool {
    match rank.want() {
        Want::Work => true,
        _ => matches!(rank.work(), Err(StepRefusal::NotNow)),
    }
}

/// Whether a rank refuses every call but that of its next half.
pub(crate) fn refuses_other_calls(rank: &mut Ranked) -> bool {
    let wanted = rank.want();
    keeps_from_posting(rank)
        && keeps_from_taking(rank)
        && keeps_from_working(rank)
        && rank.want() == wanted
}

/// The ranks, once each was asked too early for the block in a slot. None if one doesn't come back.
fn handed_back(alloc: Global, ranks: Vec<Ranked>, slot: u16) -> Option<Vec<Ranked>> {
    let mut back = Vec::new(alloc);
    for rank in ranks {
        let Err(NoBlock::NotDone(rank)) = rank.finish(slot) else {
            return None;
        };
        back.push(rank).ok()?;
    }
    Some(back)
}

/// The ranks of a product on the grid of side 2, asked too early and then done.
fn finished(alloc: Global) -> Option<Vec<Ranked>> {
    let Example {
        plan,
        stores,
        slot,
        ..
    } = Example::of(alloc, Task::Product, 2)?;
    let ranks = driven(alloc, &plan, stores)?;
    let mut ranks = handed_back(alloc, ranks, slot)?;
    let mut carrier = Carrier::new(alloc, 1);
    if !go(alloc, &mut carrier, &mut ranks, Order::Up, Probe::Nothing)? {
        return None;
    }
    Some(ranks)
}

/// Whether each of these ranks, which are done, has nothing in a slot.
fn have_nothing(ranks: Vec<Ranked>, slot: u16) -> bool {
    for rank in ranks {
        let Err(NoBlock::Empty) = rank.finish(slot) else {
            return false;
        };
    }
    true
}

#[test]
fn a_rank_that_is_not_done_comes_back(rt: HostRuntime) {
    assert!(rt; finished(rt.alloc()).is_some());
}

/// Whether the ranks of a product have nothing in this slot in the end.
fn leaves_nothing(alloc: Global, slot: u16) -> bool {
    match finished(alloc) {
        Some(ranks) => have_nothing(ranks, slot),
        None => false,
    }
}

/// Whether rank `me` of a product isn't begun with the slots of rank 3.
fn is_unfit(alloc: Global, me: u16) -> Option<bool> {
    let Example {
        plan,
        mut stores,
        ..
    } = Example::of(alloc, Task::Product, 2)?;
    let begun = DrivenRank::start(alloc, &plan, me, stores.pop()?);
    Some(matches!(begun, Err(StartFault::Unfit)))
}

#[test]
fn a_rank_has_its_own_slots(rt: HostRuntime) {
    assert!(rt; is_unfit(rt.alloc(), 3) == Some(false));
    assert!(rt; is_unfit(rt.alloc(), 0) == Some(true));
    assert!(rt; is_unfit(rt.alloc(), 4) == Some(true));
}

#[test]
fn an_empty_slot_has_no_block(rt: HostRuntime) {
    assert!(rt; leaves_nothing(rt.alloc(), SLOTS - 1));
    assert!(rt; leaves_nothing(rt.alloc(), SLOTS));
}
