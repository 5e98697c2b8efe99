//! The halves of one rank, with ample memory and with memory refused.
ghost use Rattle.std.specs.Prelude.{◌<◌};

use crate::plans::{plan_of, send};
use cb_dcsc::Block;
use cb_letters::{Body, Letter, Tag};
use cb_plan::{Act, CheckedPlan, Op, RankStore, SLOTS, SharedBlock, Slot};
use cb_rank::{Arrival, Rank, Supply, Want};
use cb_samples::{block, entry, shape};
use cb_semirings::PlusTimes;
use std::alloc::Global;

mod at_once;
mod letters;
mod operations;

/// A letter from rank 1 to rank 0.
fn letter(
    number: u64,
    tag: u32,
    body: Body<SharedBlock<PlusTimes>>,
) -> Arrival<SharedBlock<PlusTimes>> {
    Arrival::Letter(Letter {
        from: 1,
        to: 0,
        number,
        tag: Tag(tag),
        body,
    })
}

/// A plan: rank 1 sends its block to slots 0, 1 and 2 of rank 0, which does an operation and posts a slot back.
fn plan(alloc: Global, op: Op, slot: u16) -> Option<CheckedPlan> {
    let zero = Op::Zero {
        into: 0,
        shape: shape(1, 1).ok()?,
    };
    let acts = [
        Act::Work { rank: 1, op: zero },
        send(1, 0, 5, 0, 0),
        send(1, 0, 6, 0, 1),
        send(1, 0, 7, 0, 2),
        Act::Work { rank: 0, op },
        send(0, 1, 9, slot, 1),
        Act::Shut { from: 0, to: 1 },
        Act::Shut { from: 1, to: 0 },
    ];
    plan_of(alloc, &[], &acts)
}

/// Empty stores of two ranks.
fn empty_stores(alloc: Global) -> Option<Vec<RankStore<PlusTimes>>> {
    let first = RankStore::new(alloc).ok()?;
    let second = RankStore::new(alloc).ok()?;
    vec![in alloc; first, second].ok()
}

/// Rank 0 of that plan, with empty slots.
fn rank_0(alloc: Global, op: Op, slot: u16) -> Option<Rank<PlusTimes>> {
    let plan = plan(alloc, op, slot)?;
    let mut stores = empty_stores(alloc)?;
    if plan.ranks() == 0 || !plan.fits(&stores) {
        return None;
    }
    let store = stores.swap_remove(0);
    Rank::start(alloc, &plan, 0, store).ok()
}

/// Whether a Take or an End accepts this arrival.
fn accepts(rank: &mut Rank<PlusTimes>, arrival: Arrival<SharedBlock<PlusTimes>>) -> bool {
    match rank.want() {
        Want::Take(_) => rank.accept(arrival).is_ok(),
        Want::End(_) => rank.accept(arrival).is_ok(),
        _ => false,
    }
}

/// The letter for slot 0, 1 or 2: the number 2, 3 or 5, or the mark that it was lost at rank 10, 11 or 12.
fn operand(alloc: Global, slot: u16, lost: bool) -> Option<Body<SharedBlock<PlusTimes>>>
    requires { slot < 3 }
{
    if lost {
        return Some(Body::Lost(10 + slot));
    }
    let number = [2, 3, 5][slot as usize];
    let sheet = block(alloc, 1, 1, &[entry(0, 0, number)]).ok()?;
    Some(Body::Sheet(SharedBlock::new(sheet)))
}

/// Whether a rank takes its operands, some of them lost.
fn takes_operands(alloc: Global, rank: &mut Rank<PlusTimes>, lost: [bool; 3]) -> bool {
    for slot in 0..3u16 {
        let Some(body) = operand(alloc, slot, lost[slot as usize]) else {
            return false;
        };
        if !accepts(rank, letter(u64::from(slot), 5 + u32::from(slot), body)) {
            return false;
        }
    }
    true
}

/// Whether a rank does its operation.
fn works(rank: &mut Rank<PlusTimes>, supply: Supply) -> bool {
    match rank.want() {
        Want::Work => {
            rank.work(supply);
            true
        }
        _ => false,
    }
}

/// Rank 0 after its operation on 2, 3 and 5, some of them lost.
fn worked(
    alloc: Global,
    op: Op,
    slot: u16,
    lost: [bool; 3],
    supply: Supply,
) -> Option<Rank<PlusTimes>> {
    let mut rank = rank_0(alloc, op, slot)?;
    if takes_operands(alloc, &mut rank, lost) && works(&mut rank, supply) {
        Some(rank)
    } else {
        None
    }
}

/// What a slot holds after all halves so far.
#[derive(Clone, Copy, PartialEq, Drop)]
enum Held {
    Nothing,
    /// A block: the number of its entries, and the sum of their values.
    Entries(usize, u64),
    LostAt(u16),
}

/// The number of entries of a block, and the sum of their values.
fn sum_of(block: &Block<PlusTimes>) -> (usize, u64) {
    let mut sum = 0u64;
    for value in block.values() {
        sum = sum.wrapping_add(*value);
    }
    (block.len(), sum)
}

/// What a slot holds.
fn contents_of(store: &RankStore<PlusTimes>, n: u16) -> Held
    requires { n < SLOTS }
{
    match store.slot(n) {
        Slot::Empty => Held::Nothing,
        Slot::Lost(origin) => Held::LostAt(*origin),
        Slot::Sheet(block) => {
            let (count, sum) = sum_of(block);
            Held::Entries(count, sum)
        }
    }
}
