//! Every operation through a rank, with each operand lost in turn, and with memory refused.
ghost use Rattle.std.specs.Prelude.{◌<◌};

use super::{Held, contents_of, worked};
use cb_matrix::Test;
use cb_plan::Op;
use cb_rank::Supply;
use cb_samples::shape;
use std::alloc::Global;
use std::test::Fail;

/// An operation, the slot that it sets, how many of slots 0, 1 and 2 it reads, starting with 0, and its result for 2, 3
/// and 5 in them.
#[derive(Clone, Copy, Drop)]
struct Case {
    op: Op,
    target: u16,
    reads: u16,
    makes: Held,
}

/// An operation that sets slot 3 to a block with one entry.
macro_rules! one_entry {
    ($op:expr, $reads:literal, $value:literal) => {
        Case {
            op: $op,
            target: 3,
            reads: $reads,
            makes: Held::Entries(1, $value),
        }
    };
}

/// Each operation that needs memory, except Place.
const CASES: [Case; 10] = [
    Case {
        op: Op::MulAdd { a: 0, b: 1, acc: 2 },
        target: 2,
        reads: 3,
        makes: Held::Entries(1, 11),
    },
    one_entry!(
        Op::Add {
            a: 0,
            b: 1,
            into: 3
        },
        2,
        5
    ),
    one_entry!(
        Op::Times {
            a: 0,
            b: 1,
            into: 3
        },
        2,
        6
    ),
    one_entry!(Op::Transpose { a: 0, into: 3 }, 1, 2),
    one_entry!(Op::ColumnSums { a: 0, into: 3 }, 1, 2),
    one_entry!(
        Op::Cut {
            a: 0,
            rows: (0, 1),
            cols: (0, 1),
            into: 3
        },
        1,
        2
    ),
    one_entry!(
        Op::MulVec {
            a: 0,
            x: 1,
            into: 3
        },
        2,
        6
    ),
    one_entry!(Op::Copy { a: 0, into: 3 }, 1, 2),
    one_entry!(
        Op::Mask {
            a: 0,
            m: 1,
            into: 3
        },
        2,
        2
    ),
    Case {
        op: Op::Prune {
            a: 0,
            test: Test::Below(3),
            into: 3,
        },
        target: 3,
        reads: 1,
        makes: Held::Entries(0, 0),
    },
];

/// The case of Place.
fn place() -> Result<Case, Fail> {
    let op = Op::Place {
        a: 0,
        shape: shape(2, 2)?,
        at: (1, 1),
        into: 3,
    };
    Ok(one_entry!(op, 1, 2))
}

/// What the target of an operation holds after it, and the count of refusals, if some of slots 0, 1 and 2 are lost.
fn after(
    alloc: Global,
    op: Op,
    target: u16,
    lost: [bool; 3],
    supply: Supply,
) -> Option<(Held, u64)> {
    let rank = worked(alloc, op, 0, lost, supply)?;
    let refusals = rank.refusals();
    if target >= 256 {
        return None;
    }
    Some((contents_of(&rank.into_store(), target), refusals))
}

/// Whether an operation gives its result, which is lost at this rank if memory is refused.
fn is_made(alloc: Global, case: &Case) -> bool {
    let none = [false, false, false];
    let made = after(alloc, case.op, case.target, none, Supply::Granted);
    let lost = after(alloc, case.op, case.target, none, Supply::Refused);
    made == Some((case.makes, 0)) && lost == Some((Held::LostAt(0), 1))
}

#[test]
fn an_operation_makes_its_result_or_is_lost_at_this_rank(rt: HostRuntime) -> Result<(), Fail> {
    for case in &CASES {
        assert!(rt; is_made(rt.alloc(), case));
    }
    assert!(rt; is_made(rt.alloc(), &place()?));
    Ok(())
}

/// Whether the result of an operation is lost if this slot is, provided that it reads the slot. If an operand is lost, no
/// memory is asked for, and the first lost operand names the origin.
fn is_lost_with(alloc: Global, case: &Case, slot: u16) -> bool
    requires { slot < 3 }
{
    let alone = [slot == 0, slot == 1, slot == 2];
    if slot >= case.reads {
        let answer = after(alloc, case.op, case.target, alone, Supply::Granted);
        return answer == Some((case.makes, 0));
    }
    let and_later = [slot == 0, slot <= 1, true];
    let first = after(alloc, case.op, case.target, alone, Supply::Refused);
    let second = after(alloc, case.op, case.target, and_later, Supply::Refused);
    let lost = Some((Held::LostAt(10 + slot), 0));
    first == lost && second == lost
}

/// Whether the result is lost with each slot that the operation reads, and with no other.
fn is_lost_with_each(alloc: Global, case: &Case) -> bool {
    for slot in 0..3 {
        if !is_lost_with(alloc, case, slot) {
            return false;
        }
    }
    true
}

#[test]
fn a_lost_operand_loses_the_result(rt: HostRuntime) -> Result<(), Fail> {
    for case in &CASES {
        assert!(rt; is_lost_with_each(rt.alloc(), case));
    }
    assert!(rt; is_lost_with_each(rt.alloc(), &place()?));
    Ok(())
}

#[test]
fn zero_and_clear_need_no_memory(rt: HostRuntime) -> Result<(), Fail> {
    let zero = Op::Zero {
        into: 0,
        shape: shape(2, 3)?,
    };
    let lost = [true, true, true];
    let made = after(rt.alloc(), zero, 0, lost, Supply::Refused);
    assert!(rt; made == Some((Held::Entries(0, 0), 0)));
    let cleared = after(rt.alloc(), Op::Clear { slot: 1 }, 1, lost, Supply::Refused);
    assert!(rt; cleared == Some((Held::Nothing, 0)));
    Ok(())
}
