//! Products that are added to one slot at once.
use super::{Held, contents_of};
use crate::plans::plan_of;
use cb_dcsc::Block;
use cb_matrix::Shape;
use cb_plan::{Act, Op, RankStore, Slot, Start};
use cb_rank::Rank;
use cb_samples::{block, entry, shape};
use cb_semirings::PlusTimes;
use std::alloc::Global;
use std::thread::Threads;

/// Slots 0, 1 and 2 with the numbers 2, 3 and 5.
fn numbers(alloc: Global) -> Option<RankStore<PlusTimes>> {
    let mut store = RankStore::new(alloc).ok()?;
    store.put(0, block(alloc, 1, 1, &[entry(0, 0, 2)]).ok()?);
    store.put(1, block(alloc, 1, 1, &[entry(0, 0, 3)]).ok()?);
    store.put(2, block(alloc, 1, 1, &[entry(0, 0, 5)]).ok()?);
    Some(store)
}

/// A rank that has these blocks, all of this shape, in slots 0, 1 and 2, and does these operations.
fn rank_of(
    alloc: Global,
    shape: Shape,
    store: RankStore<PlusTimes>,
    ops: &[Op],
) -> Option<Rank<PlusTimes>> {
    let starts = [
        Start {
            rank: 0,
            slot: 0,
            shape,
        },
        Start {
            rank: 0,
            slot: 1,
            shape,
        },
        Start {
            rank: 0,
            slot: 2,
            shape,
        },
    ];
    let mut acts = Vec::new(alloc);
    for op in ops {
        acts.push(Act::Work { rank: 0, op: *op }).ok()?;
    }
    acts.push(Act::Shut { from: 0, to: 1 }).ok()?;
    acts.push(Act::Shut { from: 1, to: 0 }).ok()?;
    let plan = plan_of(alloc, &starts, &acts)?;
    let other = RankStore::new(alloc).ok()?;
    let mut stores = vec![in alloc; store, other].ok()?;
    if plan.ranks() == 0 || !plan.fits(&stores) {
        return None;
    }
    let store = stores.swap_remove(0);
    Rank::start(alloc, &plan, 0, store).ok()
}

/// Whether a rank does the first of these operations at once, how many halves it does, and what slot 2 then holds.
fn does_all<R: Threads + Sync>(rt: &R, alloc: Global, ops: &[Op]) -> Option<(bool, u64, Held)> {
    let mut rank = rank_of(alloc, shape(1, 1).ok()?, numbers(alloc)?, ops)?;
    let all = rank.remaining();
    let does = rank.work_all(rt);
    let done = all.saturating_sub(rank.remaining());
    Some((does, done, contents_of(&rank.into_store(), 2)))
}

/// Adds slot 0 times slot 1 to slot 2: 2 * 3.
const SIX: Op = Op::MulAdd { a: 0, b: 1, acc: 2 };

/// Adds 3 * 3 to slot 2.
const NINE: Op = Op::MulAdd { a: 1, b: 1, acc: 2 };

/// What is found where nothing is done.
const NOTHING: (bool, u64, Held) = (false, 0, Held::Entries(1, 5));

/// 2 + 3 in slot 2.
const SUM: Op = Op::Add {
    a: 0,
    b: 1,
    into: 2,
};

/// Adds 3 * 3 to slot 0.
const ELSEWHERE: Op = Op::MulAdd { a: 1, b: 1, acc: 0 };

/// Adds 3 times slot 2 to slot 2.
const ONTO_A_FACTOR: Op = Op::MulAdd { a: 1, b: 2, acc: 2 };

/// As many are as follow one another.
#[test]
fn several_products_are_added_at_once(rt: HostRuntime) {
    assert!(rt; does_all(&rt, rt.alloc(), &[SIX, NINE]) == Some((true, 2, Held::Entries(1, 20))));
    assert!(rt;
        does_all(&rt, rt.alloc(), &[SIX, NINE, SIX]) == Some((true, 3, Held::Entries(1, 26)))
    );
    assert!(rt;
        does_all(&rt, rt.alloc(), &[SIX, NINE, SUM, SIX]) == Some((true, 2, Held::Entries(1, 20)))
    );
    assert!(rt;
        does_all(&rt, rt.alloc(), &[SIX, NINE, ELSEWHERE]) == Some((true, 2, Held::Entries(1, 20)))
    );
}

/// One operation isn't a product, or they add to two slots, or to a factor, or there is only one.
#[test]
fn other_operations_are_done_by_themselves(rt: HostRuntime) {
    assert!(rt; does_all(&rt, rt.alloc(), &[SIX, SUM]) == Some(NOTHING));
    assert!(rt; does_all(&rt, rt.alloc(), &[SUM, SIX]) == Some(NOTHING));
    assert!(rt; does_all(&rt, rt.alloc(), &[SIX, ELSEWHERE]) == Some(NOTHING));
    assert!(rt; does_all(&rt, rt.alloc(), &[SIX, ONTO_A_FACTOR]) == Some(NOTHING));
    assert!(rt; does_all(&rt, rt.alloc(), &[ONTO_A_FACTOR, SIX]) == Some(NOTHING));
    assert!(rt; does_all(&rt, rt.alloc(), &[SIX]) == Some(NOTHING));
}

/// A block of 64 rows and columns without zeros: each value is `first`, and `step` more for each column before it.
fn full(alloc: Global, first: u64, step: u64) -> Option<Block<PlusTimes>> {
    let mut entries = Vec::new(alloc);
    for column in 0..64u32 {
        let value = first.wrapping_add(step.wrapping_mul(u64::from(column)));
        for row in 0..64u32 {
            entries.push(entry(row, column, value)).ok()?;
        }
    }
    block(alloc, 64, 64, &entries).ok()
}

/// Slots 0, 1 and 2 with such blocks: of ones, of the columns' numbers, counted from 1, and of fives.
fn full_blocks(alloc: Global) -> Option<RankStore<PlusTimes>> {
    let mut store = RankStore::new(alloc).ok()?;
    store.put(0, full(alloc, 1, 0)?);
    store.put(1, full(alloc, 1, 1)?);
    store.put(2, full(alloc, 5, 0)?);
    Some(store)
}

/// Whether each value of a block is 5, and 128 more for each column up to its own.
fn is_sum(block: &Block<PlusTimes>) -> bool {
    let values = block.values();
    for n in 0..values.len() {
        let columns = (n as u64 / 64).wrapping_add(1);
        if values[n] != columns.wrapping_mul(128).wrapping_add(5) {
            return false;
        }
    }
    values.len() == 4096
}

/// Whether the sum is right of which several threads make some columns each, as far as there are processors.
fn adds_full_blocks<R: Threads + Sync>(rt: &R, alloc: Global) -> Option<bool> {
    let store = full_blocks(alloc)?;
    let mut rank = rank_of(alloc, shape(64, 64).ok()?, store, &[SIX, SIX])?;
    if !rank.work_all(rt) {
        return None;
    }
    match rank.into_store().slot(2) {
        Slot::Sheet(sum) => Some(is_sum(sum)),
        _ => None,
    }
}

/// Each product of the two takes 262,144 products of two values.
#[test]
fn many_products_are_added_by_several_threads(rt: HostRuntime) {
    assert!(rt; adds_full_blocks(&rt, rt.alloc()) == Some(true));
}
