//! All-to-all in rounds, among the ranks of each row or column of a grid.
ghost use Rattle.std.specs.Prelude.{◌≡◌, ◌<◌, ◌≤◌, ◌+◌, ◌%◌, length, OnOk};
ghost use Rattle.cb_plan_parts.specs.Collectives.{member, sent};
ghost use Rattle.cb_plan_parts.specs.Growth.{Grew};
ghost use Rattle.cb_plan_transfers.specs.Rounds.{column_exchanges, round, rounds, row_exchanges, sent_ahead};

use cb_grid::Grid;
use cb_letters::Tag;
use cb_plan::{Act, Op, Plan, PlanFault, SLOTS};
use std::alloc::Global;

/// The ranks of each row of the grid exchange what is in their slots from 1 on: slot `1 + k` of rank (i, j) goes to slot
/// `1 + side + j` of rank (i, k).
pub(crate) fn exchange_in_rows(
    plan: &mut Plan,
    alloc: Global,
    grid: &Grid,
    tag: Tag,
) -> Result<(), PlanFault>
    ensures acts { OnOk result (Grew (row_exchanges grid.now.side tag) plan.old plan.new) }
{
    let side = grid.side();
    for i in 0..side {
        let group = grid.row_group(alloc, i);
        exchange_in_rounds(plan, group.as_slice(), tag, 1, 1 + side as u16)?;
    }
    Ok(())
}

/// The ranks of each column of the grid do so: slot `1 + k` of rank (i, j) goes to slot `1 + side + i` of rank (k, j).
pub(crate) fn exchange_in_columns(
    plan: &mut Plan,
    alloc: Global,
    grid: &Grid,
    tag: Tag,
) -> Result<(), PlanFault>
    ensures acts { OnOk result (Grew (column_exchanges grid.now.side tag) plan.old plan.new) }
{
    let side = grid.side();
    for j in 0..side {
        let group = grid.column_group(alloc, j);
        exchange_in_rounds(plan, group.as_slice(), tag, 1, 1 + side as u16)?;
    }
    Ok(())
}

/// Each member sends a slot to each member, and to itself: slot `slot + t` of member s goes to slot `into + s` of member t. In
/// one round each sends to the member that is so far ahead of it in the list, so no member gets all letters at once.
///
/// For n members it appends n² acts, of which n² - n are moves.
fn exchange_in_rounds(
    plan: &mut Plan,
    members: &[u16],
    tag: Tag,
    slot: u16,
    into: u16,
) -> Result<(), PlanFault>
    requires read { slot + length members.now ≤ SLOTS }
    requires set { into + length members.now ≤ SLOTS }
    ensures acts { OnOk result (Grew (rounds members.now tag slot into) plan.old plan.new) }
{
    for distance in 0..members.len() {
        send_ahead(plan, members, distance, tag, slot, into)?;
    }
    Ok(())
}

/// One round: each member sends to the one that is so far ahead of it.
fn send_ahead(
    plan: &mut Plan,
    members: &[u16],
    distance: usize,
    tag: Tag,
    slot: u16,
    into: u16,
) -> Result<(), PlanFault>
    requires distance { distance < length members.now }
    requires read { slot + length members.now ≤ SLOTS }
    requires set { into + length members.now ≤ SLOTS }
    ensures acts { OnOk result (Grew (round members.now tag slot into distance) plan.old plan.new) }
{
    let count = members.len();
    for s in 0..count {
        let t = (s + distance) % count;
        let act = sent(
            members[s],
            members[t],
            tag,
            slot + t as u16,
            into + s as u16,
        );
        plan.push(act)?;
    }
    Ok(())
}

/// A slot of one rank goes to a slot of another, or of the same rank.
fn sent(from: u16, to: u16, tag: Tag, slot: u16, into: u16) -> Act
    ensures { result ≡ sent from to tag slot into }
{
    if from == to {
        return Act::Work {
            rank: to,
            op: Op::Copy { a: slot, into },
        };
    }
    Act::Move {
        from,
        to,
        tag,
        slot,
        into,
    }
}
