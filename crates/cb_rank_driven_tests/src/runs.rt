//! All ranks of a plan, stepped in several orders: they leave the blocks of the answer, or name a rank at which one was lost.
use crate::calls::refuses_other_calls;
use crate::carriers::{Carrier, Ranked};
use crate::letters::refuses_spoilt_messages;
use crate::operands::{Example, Task, are_same, driven};
use cb_dcsc::Block;
use cb_rank::Want;
use cb_rank_driven::NoBlock;
use cb_semirings::PlusTimes;
use std::alloc::Global;

/// The order in which ranks get their turns.
#[derive(Clone, Copy)]
pub(crate) enum Order {
    /// From the least to the greatest, over and over.
    Up,
    /// From the greatest to the least.
    Down,
    /// By a sequence of numbers that begins with this one.
    Mixed(u32),
}

/// What is tried with a rank before its half, and has to be refused and change nothing.
#[derive(Clone, Copy)]
pub(crate) enum Probe {
    Nothing,
    /// Every other call.
    Calls,
    /// Every message for another lane, and spoilt ones for its own.
    Letters,
}

impl Probe {
    /// Whether all that is tried is refused, and changes nothing.
    fn passes(self, alloc: Global, carrier: &Carrier, rank: &mut Ranked, me: u16) -> bool {
        match self {
            Probe::Nothing => true,
            Probe::Calls => refuses_other_calls(rank),
            Probe::Letters => refuses_spoilt_messages(alloc, carrier, rank, me),
        }
    }
}

/// How many turns a run may take.
const TURNS: u32 = 40_000;

/// The next number of a sequence.
fn mixed(number: u32) -> u32 {
    number.wrapping_mul(1_103_515_245).wrapping_add(12_345)
}

impl Order {
    /// The rank of a turn, and the order of the turns after it.
    fn turn(self, turn: u32, ranks: u32) -> (u32, Order) {
        let at = if ranks == 0 { 0 } else { turn % ranks };
        match self {
            Order::Up => (at, self),
            Order::Down => (ranks.saturating_sub(at).saturating_sub(1), self),
            Order::Mixed(number) => {
                let high = number / 65_536;
                let at = if ranks == 0 { 0 } else { high % ranks };
                (at, Order::Mixed(mixed(number)))
            }
        }
    }
}

/// Whether every half of every rank is done.
fn are_done(ranks: &[Ranked]) -> bool {
    for rank in ranks {
        if rank.want() != Want::Done {
            return false;
        }
    }
    true
}

/// Gives ranks their turns until all are done, and probes each before its half. Returns whether they come to an end, and each
/// probe is passed. None if a call is refused.
pub(crate) fn go(
    alloc: Global,
    carrier: &mut Carrier,
    ranks: &mut [Ranked],
    order: Order,
    probe: Probe,
) -> Option<bool> {
    let count = u32::try_from(ranks.len()).ok()?;
    let mut order = order;
    for turn in 0..TURNS {
        if are_done(ranks) {
            return Some(true);
        }
        let (me, next) = order.turn(turn, count);
        order = next;
        let me = u16::try_from(me).ok()?;
        let rank = ranks.get_mut(me as usize)?;
        if !probe.passes(alloc, carrier, rank, me) {
            return Some(false);
        }
        carrier.step(alloc, rank, me)?;
    }
    Some(false)
}

/// Whether a rank hands over this block, or, if it may be refused memory, names one of so many ranks.
fn is_share(
    rank: Ranked,
    slot: u16,
    block: &Block<PlusTimes>,
    ranks: usize,
    may_be_refused: bool,
) -> bool {
    match rank.finish(slot) {
        Ok(found) => are_same(&found, block),
        Err(NoBlock::NotDone(_rank)) => false,
        Err(NoBlock::Empty) => false,
        Err(NoBlock::Lost(origin)) => may_be_refused && (origin as usize) < ranks,
        Err(NoBlock::Memory) => may_be_refused,
    }
}

/// Whether each rank hands over its block.
fn leave(ranks: Vec<Ranked>, slot: u16, wanted: &[Block<PlusTimes>], may_be_refused: bool) -> bool {
    if ranks.len() != wanted.len() {
        return false;
    }
    for (rank, block) in ranks.into_iter().zip(wanted.iter()) {
        if !is_share(rank, slot, block, wanted.len(), may_be_refused) {
            return false;
        }
    }
    true
}

/// Whether the ranks of a task over the grid of this side leave its answer. None if memory is refused before.
fn makes(alloc: Global, row: &Row, may_be_refused: bool) -> Option<bool> {
    let (task, side, room, order, probe) = *row;
    let Example {
        plan,
        stores,
        slot,
        wanted,
    } = Example::of(alloc, task, side)?;
    let mut ranks = driven(alloc, &plan, stores)?;
    let mut carrier = Carrier::new(alloc, room);
    if !go(alloc, &mut carrier, &mut ranks, order, probe)? {
        return Some(false);
    }
    Some(leave(ranks, slot, &wanted, may_be_refused) && carrier.messages.is_empty())
}

/// A task, the side of a grid, the room on each lane, an order, and what is tried before each half.
type Row = (Task, u32, usize, Order, Probe);

const ORDERS: [Row; 14] = [
    (Task::Product, 1, 1, Order::Up, Probe::Nothing),
    (Task::Product, 2, 1, Order::Up, Probe::Nothing),
    (Task::Product, 2, 1, Order::Down, Probe::Nothing),
    (Task::Product, 2, 1000, Order::Mixed(7), Probe::Nothing),
    (Task::Product, 3, 1, Order::Up, Probe::Nothing),
    (Task::Product, 3, 1, Order::Down, Probe::Nothing),
    (Task::Product, 3, 1, Order::Mixed(1), Probe::Nothing),
    (Task::Product, 3, 2, Order::Mixed(2), Probe::Nothing),
    (Task::Product, 3, 1000, Order::Mixed(3), Probe::Nothing),
    (Task::Transpose, 1, 1, Order::Down, Probe::Nothing),
    (Task::Transpose, 2, 1, Order::Mixed(4), Probe::Nothing),
    (Task::Transpose, 3, 1, Order::Up, Probe::Nothing),
    (Task::Transpose, 3, 1, Order::Mixed(5), Probe::Nothing),
    (Task::Transpose, 3, 1000, Order::Down, Probe::Nothing),
];

/// Whether each of these runs leaves its answer.
fn make_all(alloc: Global, rows: &[Row]) -> bool {
    for row in rows {
        if makes(alloc, row, false) != Some(true) {
            return false;
        }
    }
    true
}

#[test]
fn ranks_in_any_order_leave_the_answer(rt: HostRuntime) {
    assert!(rt; make_all(rt.alloc(), &ORDERS));
}

const CALLS: [Row; 3] = [
    (Task::Product, 2, 1, Order::Up, Probe::Calls),
    (Task::Product, 3, 2, Order::Mixed(8), Probe::Calls),
    (Task::Transpose, 2, 1, Order::Down, Probe::Calls),
];

#[test]
fn calls_at_the_wrong_time_change_nothing(rt: HostRuntime) {
    assert!(rt; make_all(rt.alloc(), &CALLS));
}

const LETTERS: [Row; 3] = [
    (Task::Product, 2, 1, Order::Up, Probe::Letters),
    (Task::Product, 3, 1000, Order::Mixed(9), Probe::Letters),
    (Task::Transpose, 3, 2, Order::Down, Probe::Letters),
];

#[test]
fn stray_and_broken_letters_change_nothing(rt: HostRuntime) {
    assert!(rt; make_all(rt.alloc(), &LETTERS));
}

/// What each rank of a product on the grid of side 2 names, if the sheets of rank 0 are lost.
fn named(alloc: Global) -> Option<[Option<u16>; 4]> {
    let Example {
        plan,
        stores,
        slot,
        ..
    } = Example::of(alloc, Task::Product, 2)?;
    let mut ranks = driven(alloc, &plan, stores)?;
    let mut carrier = Carrier::new(alloc, 1);
    carrier.loses = true;
    if !go(alloc, &mut carrier, &mut ranks, Order::Up, Probe::Nothing)? {
        return None;
    }
    let mut ranks = ranks.into_iter();
    Some([
        origin(ranks.next()?, slot),
        origin(ranks.next()?, slot),
        origin(ranks.next()?, slot),
        origin(ranks.next()?, slot),
    ])
}

/// The rank at which a rank's block was lost, if it was.
fn origin(rank: Ranked, slot: u16) -> Option<u16> {
    match rank.finish(slot) {
        Ok(_block) => None,
        Err(NoBlock::NotDone(_rank)) => None,
        Err(NoBlock::Empty) => None,
        Err(NoBlock::Lost(origin)) => Some(origin),
        Err(NoBlock::Memory) => None,
    }
}

/// Ranks 1 and 2 are sent blocks of rank 0, and rank 3 isn't.
#[test]
fn a_lost_sheet_is_named_in_the_end(rt: HostRuntime) {
    assert!(rt; named(rt.alloc()) == Some([None, Some(0), Some(0), None]));
}

const REFUSED: Row = (Task::Product, 2, 1, Order::Up, Probe::Nothing);

/// Passes whichever single allocation is refused (`rt try --test --fail-alloc N`, for each N in turn): a rank hands over its
/// block, or names a rank.
#[test]
fn refused_memory_names_a_rank(rt: HostRuntime) {
    assert!(rt; makes(rt.alloc(), &REFUSED, true) != Some(false));
}
