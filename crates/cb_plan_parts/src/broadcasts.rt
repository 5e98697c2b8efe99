//! Broadcast: from one member to all, along a tree.
ghost use Rattle.std.specs.Prelude.{◌≡◌, ◌==◌, ◌<◌, ◌≤◌, ◌+◌, ◌-◌, ℕ, true, List, ◌++◌, length, take, drop, map, if◌then◌else◌, is_ok, IsOk, IfErr, Err};
ghost use Rattle.std.specs.List.{range_with_len};
ghost use Rattle.cb_plan_parts.specs.Appends.{IsTooLong, IsRefusal, too_long, HasRoom, Appended};
ghost use Rattle.cb_plan_parts.specs.Collectives.{is_member, member, turned_at, tree_moves, broadcast_acts, spread_from, Means};

use crate::steps::{append, copy_at, place_in};
use cb_letters::Tag;
use cb_plan::{Act, Plan, PlanFault};

/// Copies the root's `slot` to slot `into` of every member.
///
/// The members are rotated so that the root comes first and the others follow cyclically. Member p of the rotated list
/// gets the block from member (p - 1) / 2, so the block reaches the last of n members after about log n Moves. Appends at
/// most n acts.
#[tactic(auto, using(crate::proofs::Spread::broadcast_spreads, crate::proofs::Counts::count_broadcast))]
pub fn broadcast(
    plan: &mut Plan,
    members: &[u16],
    root: u16,
    tag: Tag,
    slot: u16,
    into: u16,
) -> Result<(), PlanFault>
    requires root { is_member members.now root ≡ true }
    ensures ranks { plan.new.ranks ≡ plan.old.ranks }
    ensures acts { plan.new.acts ≡ (if is_ok result then plan.old.acts ++ broadcast_acts members.now root tag slot into else plan.old.acts) }
    ensures long { IsTooLong plan.old (broadcast_acts members.now root tag slot into) → result ≡ Err (too_long plan.old) }
    ensures faults { IfErr result (IsRefusal plan.old (broadcast_acts members.now root tag slot into)) }
    ensures means { Means (broadcast_acts members.now root tag slot into) (spread_from members.now root slot into) }
{
    plan.make_room(acts_among(members, slot, into))?;
    copy_at(plan, root, slot, into)?;
    send_down(plan, members, place_in(members, root), tag, slot, into)
}

/// The number of acts: a Move to each member but the root, and a Copy if the slots differ.
fn acts_among(members: &[u16], slot: u16, into: u16) -> usize
    requires { 0 < length members.now }
    ensures { result ≡ length members.now - (if slot == into then 1 else 0) }
{
    if slot == into {
        members.len() - 1
    } else {
        members.len()
    }
}

/// Appends the Moves of the tree whose root has this place in the list. There is room for them.
fn send_down(
    plan: &mut Plan,
    members: &[u16],
    place: usize,
    tag: Tag,
    slot: u16,
    into: u16,
) -> Result<(), PlanFault>
    requires place { place < length members.now }
    requires room { HasRoom plan.now (tree_moves (turned_at place members.now) tag slot into) }
    ensures granted { IsOk result }
    ensures appended { Appended (tree_moves (turned_at place members.now) tag slot into) plan.old plan.new }
{
    for p in 1..members.len() {
        let parent = (p - 1) / 2;
        let held = if parent == 0 { slot } else { into };
        let act = Act::Move {
            from: member_after(members, place, parent),
            to: member_after(members, place, p),
            tag,
            slot: held,
            into,
        };
        append(plan, act)?;
    }
    Ok(())
}

/// The member `steps` places after the one at `place`, cyclically.
fn member_after(members: &[u16], place: usize, steps: usize) -> u16
    requires place { place < length members.now }
    requires steps { steps < length members.now }
    ensures { result ≡ member (turned_at place members.now) steps }
{
    let (before, from) = members.split_at(place);
    if steps < from.len() {
        from[steps]
    } else {
        before[steps - from.len()]
    }
}
