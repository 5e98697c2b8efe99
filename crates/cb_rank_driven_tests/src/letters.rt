//! Letters for which a rank doesn't wait, and messages that are broken.
use crate::carriers::{Carrier, Ranked};
use cb_lists::Columns;
use cb_messages::{Head, MessageFault, letter_of};
use cb_rank::Want;
use cb_rank_driven::StepRefusal;
use cb_semirings::PlusTimes;
use std::alloc::Global;

/// How many ways there are to spoil a message.
const WAYS: u32 = 15;

/// A head with one field spoilt.
fn spoilt_head(way: u32, head: &Head) -> Head {
    let mut head = *head;
    match way {
        0 => head.number = head.number.wrapping_add(1),
        1 => head.from = head.from.wrapping_add(1),
        2 => head.from = head.from.wrapping_add(65_536),
        3 => head.to = head.to.wrapping_add(1),
        4 => head.to = head.to.wrapping_add(65_536),
        5 => head.tag = head.tag.wrapping_add(1),
        6 => head.kind = 3,
        7 => head.kind = if head.kind == 2 { 1 } else { 2 },
        8 => head.origin = 65_536,
        9 => head.reserved = 1,
        _ => {}
    }
    head
}

/// Lists with one of them spoilt.
fn spoilt_lists<'a>(way: u32, lists: &Columns<'a>) -> Columns<'a> {
    let mut lists = *lists;
    match way {
        10 => lists.kind = 2,
        11 => lists.wide = 2,
        12 => lists.nrows = lists.nrows.wrapping_add(1),
        13 => lists.rows = &[77, 77, 77],
        14 => lists.starts64 = &[1],
        _ => {}
    }
    lists
}

/// Whether a rank refuses a head and lists.
fn refuses(alloc: Global, rank: &mut Ranked, head: &Head, lists: &Columns) -> bool {
    match letter_of::<PlusTimes>(alloc, head, lists) {
        Ok(letter) => matches!(rank.take(letter), Err(StepRefusal::Stray)),
        Err(fault) => matches!(fault, MessageFault::Broken),
    }
}

/// Whether a rank refuses a head and lists, in whatever way they are spoilt. A close mark has no lists that could be.
fn refuses_spoilt(alloc: Global, rank: &mut Ranked, head: &Head, lists: &Columns) -> bool {
    for way in 0..WAYS {
        if way >= 10 && head.kind != 0 {
            return true;
        }
        if !refuses(
            alloc,
            rank,
            &spoilt_head(way, head),
            &spoilt_lists(way, lists),
        ) {
            return false;
        }
    }
    true
}

/// Whether a rank refuses each message but the oldest of the lane for which it waits, and that one if it is spoilt.
fn refuses_all_but(
    alloc: Global,
    carrier: &Carrier,
    rank: &mut Ranked,
    awaited: Option<usize>,
) -> bool {
    for n in 0..carrier.messages.len() {
        let message = &carrier.messages[n];
        let (head, lists) = (message.head(), message.lists());
        let is_refused = if awaited == Some(n) {
            refuses_spoilt(alloc, rank, &head, &lists)
        } else {
            refuses(alloc, rank, &head, &lists)
        };
        if !is_refused {
            return false;
        }
    }
    true
}

/// Whether rank `me` refuses every message but the one for which it waits, that one if it is spoilt, and wants the same
/// afterwards.
pub(crate) fn refuses_spoilt_messages(
    alloc: Global,
    carrier: &Carrier,
    rank: &mut Ranked,
    me: u16,
) -> bool {
    let wanted = rank.want();
    let from = match wanted {
        Want::Take(from) => from,
        Want::End(from) => from,
        _ => return true,
    };
    refuses_all_but(alloc, carrier, rank, carrier.oldest(from, me)) && rank.want() == wanted
}
