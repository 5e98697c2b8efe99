//! The results of operations, on the rank that does them and on the one that they are sent to.
ghost use Rattle.std.specs.Prelude.{◌≡◌, ◌<◌, ℕ, All, AllPairs, IfOk, length};
ghost use Rattle.cb_plan.specs.Plans.{IsElsewhere};

use crate::plan::{grown, send, shut};
use cb_matrix::{Entry, Test};
use cb_plan::{Act, CheckedPlan, Op, RankStore, SLOTS, Slot, Start};
use cb_rank_work::run_plain;
use cb_samples::{SampleFault, block, entries, shape};
use cb_semirings::PlusTimes;
use std::alloc::Global;
use std::test::Fail;

/// Puts a block of two rows into a slot.
fn put(
    alloc: Global,
    store: &mut RankStore<PlusTimes>,
    slot: u16,
    cols: u32,
    entries: &[Entry],
) -> Result<(), SampleFault>
    requires { slot < SLOTS }
{
    let block = block(alloc, 2, cols, entries)?;
    store.put(slot, block);
    Ok(())
}

/// Puts a matrix A, a matrix B, a vector and an accumulator into the first slots.
fn fill(alloc: Global, store: &mut RankStore<PlusTimes>) -> Result<(), SampleFault> {
    put(
        alloc,
        store,
        0,
        2,
        entries![(0, 0, 1), (0, 1, 2), (1, 1, 3)],
    )?;
    put(alloc, store, 1, 2, entries![(1, 0, 4), (0, 1, 1)])?;
    put(alloc, store, 2, 1, entries![(0, 0, 5), (1, 0, 7)])?;
    put(alloc, store, 3, 2, entries![(0, 1, u64::MAX), (1, 1, 5)])?;
    Ok(())
}

/// Two stores. Rank 0 has those blocks.
fn stores(alloc: Global) -> Result<Vec<RankStore<PlusTimes>>, SampleFault>
    ensures { IfOk result (λ v. length v.items ≡ 2) }
{
    let mut first = RankStore::new(alloc)?;
    fill(alloc, &mut first)?;
    let second = RankStore::new(alloc)?;
    match vec![in alloc; first, second] {
        Ok(stores) => Ok(stores),
        Err(_) => Err(SampleFault::Shape),
    }
}

/// The starts of these stores.
fn starts() -> Result<[Start; 4], SampleFault>
    ensures exist { IfOk result (λ v. All (λ s. (s.rank < 2) × (s.slot < SLOTS)) v) }
    ensures once { IfOk result (λ v. AllPairs IsElsewhere v) }
{
    let start = |slot, shape| Start {
        rank: 0,
        slot,
        shape,
    };
    let square = shape(2, 2)?;
    Ok([
        start(0, square),
        start(1, square),
        start(2, shape(2, 1)?),
        start(3, square),
    ])
}

/// The stores after these acts.
fn after(alloc: Global, acts: &[Act]) -> Result<Vec<RankStore<PlusTimes>>, SampleFault>
    ensures { IfOk result (λ v. length v.items ≡ 2) }
{
    let starts = starts()?;
    let Ok(plan) = CheckedPlan::check(alloc, grown(alloc, acts)?, &starts) else {
        return Err(SampleFault::Shape);
    };
    let stores = stores(alloc)?;
    if !plan.fits(&stores) {
        return Err(SampleFault::Shape);
    }
    Ok(run_plain(alloc, &plan, stores)?)
}

/// Whether a slot has exactly these entries.
fn has(store: &RankStore<PlusTimes>, n: u16, wanted: &[Entry]) -> Result<bool, SampleFault>
    requires { n < SLOTS }
{
    match store.slot(n) {
        Slot::Sheet(block) => Ok(block.entries()?.as_slice() == wanted),
        _ => Err(SampleFault::Shape),
    }
}

/// Whether rank 1 receives these entries from a slot of rank 0 after an operation there.
fn is_sent(alloc: Global, op: Op, slot: u16, wanted: &[Entry]) -> Result<bool, SampleFault> {
    let work = Act::Work { rank: 0, op };
    let acts = [work, send(0, 1, slot, 9), shut(0, 1), shut(1, 0)];
    let stores = after(alloc, &acts)?;
    has(&stores[1], 9, wanted)
}

/// Whether an operation on slots 0 and 1 or 2 makes these entries in slot 8, or over the accumulator.
fn makes(alloc: Global, op: Op, slot: u16, wanted: &[Entry]) -> bool {
    is_sent(alloc, op, slot, wanted) == Ok(true)
}

/// Whether products are right. The accumulator can be one of the factors.
fn are_products(alloc: Global) -> bool {
    let sum = entries![(0, 0, 8), (1, 0, 12), (1, 1, 5)];
    let own = entries![(0, 0, 9), (1, 0, 12), (0, 1, 3), (1, 1, 3)];
    let other = entries![(0, 0, 8), (1, 0, 16), (0, 1, 2)];
    let column = entries![(0, 0, 19), (1, 0, 21)];
    makes(alloc, Op::MulAdd { a: 0, b: 1, acc: 3 }, 3, sum)
        && makes(alloc, Op::MulAdd { a: 0, b: 1, acc: 0 }, 0, own)
        && makes(alloc, Op::MulAdd { a: 0, b: 1, acc: 1 }, 1, other)
        && makes(
            alloc,
            Op::MulVec {
                a: 0,
                x: 2,
                into: 8,
            },
            8,
            column,
        )
}

/// Whether what is done place by place is right.
fn are_placewise(alloc: Global) -> bool {
    let (a, b, m, into, test) = (0, 1, 1, 8, Test::Above(1));
    let sum = entries![(0, 0, 1), (1, 0, 4), (0, 1, 3), (1, 1, 3)];
    let common = entries![(0, 1, 2)];
    makes(alloc, Op::Add { a, b, into }, 8, sum)
        && makes(alloc, Op::Times { a, b, into }, 8, common)
        && makes(alloc, Op::Mask { a, m, into }, 8, common)
        && makes(alloc, Op::Prune { a, test, into }, 8, entries![(0, 0, 1)])
}

/// Whether what is moved or added up is right.
fn are_moved(alloc: Global) -> bool {
    let (a, into) = (0, 8);
    let cut = Op::Cut {
        a,
        rows: (0, 1),
        cols: (1, 2),
        into,
    };
    let turned = entries![(0, 0, 1), (1, 0, 2), (1, 1, 3)];
    let copied = entries![(1, 0, 4), (0, 1, 1)];
    makes(alloc, Op::Transpose { a, into }, 8, turned)
        && makes(
            alloc,
            Op::ColumnSums { a, into },
            8,
            entries![(0, 0, 1), (0, 1, 5)],
        )
        && makes(alloc, cut, 8, entries![(0, 0, 2)])
        && makes(alloc, Op::Copy { a: 1, into }, 8, copied)
}

/// Whether a block is placed in a larger one, and a slot is overwritten by a block without entries.
fn are_shaped(alloc: Global) -> Result<bool, SampleFault> {
    let shape = shape(3, 3)?;
    let place = Op::Place {
        a: 1,
        shape,
        at: (1, 1),
        into: 8,
    };
    let is_placed = makes(alloc, place, 8, entries![(2, 1, 4), (1, 2, 1)]);
    Ok(is_placed && makes(alloc, Op::Zero { into: 1, shape }, 1, &[]))
}

#[test]
fn operations_make_their_results(rt: HostRuntime) {
    assert!(rt; are_products(rt.alloc()));
    assert!(rt; are_placewise(rt.alloc()));
    assert!(rt; are_moved(rt.alloc()));
    assert!(rt; are_shaped(rt.alloc()) == Ok(true));
}

/// Whether slot 1 of rank 0 is empty after it was cleared, and how many others are filled.
fn cleared(alloc: Global) -> Result<(bool, usize), SampleFault> {
    let clear = Act::Work {
        rank: 0,
        op: Op::Clear { slot: 1 },
    };
    let stores = after(alloc, &[clear, shut(0, 1), shut(1, 0)])?;
    Ok((stores[0].slot(1).is_empty(), stores[0].filled()))
}

#[test]
fn slots_are_cleared(rt: HostRuntime) {
    assert!(rt; cleared(rt.alloc()) == Ok((true, 3)));
}
