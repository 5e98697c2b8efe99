//! Reduce: the sum of what all members have, at one of them.
ghost use Rattle.std.specs.Prelude.{◌≡◌, ◌≢◌, ◌<◌, ◌≤◌, ◌+◌, ℕ, true, List, [], ◌∷◌, ◌++◌, length, if◌then◌else◌, is_ok, IsOk, IfErr, Err};
ghost use Rattle.std.specs.List.{flat_map};
ghost use Rattle.cb_plan_parts.specs.Appends.{IsTooLong, IsRefusal, too_long, HasRoom, Appended};
ghost use Rattle.cb_plan_parts.specs.Collectives.{is_member, AreDistinct, added_from, reduce_acts, Reduces, MembersAddUp};

use crate::steps::{append, work};
use cb_letters::Tag;
use cb_plan::{Act, Op, Plan, PlanFault};

/// Sums the `slot` of all members into slot `into` of the root: the root's own first, and then the others in list order.
/// Slot `scratch` of the root may be left with anything. Over a semiring, each place of the sum has the sum of the
/// members' values there. Appends 2n - 1 acts for n members.
#[tactic(auto, using(crate::proofs::ReduceMeaning::reduce_sums, crate::proofs::MemberTotals::members_add_up, crate::proofs::Counts::count_reduce))]
pub fn reduce(
    plan: &mut Plan,
    members: &[u16],
    root: u16,
    tag: Tag,
    slot: u16,
    into: u16,
    scratch: u16,
) -> Result<(), PlanFault>
    requires root { is_member members.now root ≡ true }
    requires distinct { AreDistinct members.now }
    requires slot_into { slot ≢ into }
    requires slot_scratch { slot ≢ scratch }
    requires into_scratch { into ≢ scratch }
    ensures ranks { plan.new.ranks ≡ plan.old.ranks }
    ensures acts { plan.new.acts ≡ (if is_ok result then plan.old.acts ++ reduce_acts members.now root tag slot into scratch else plan.old.acts) }
    ensures long { IsTooLong plan.old (reduce_acts members.now root tag slot into scratch) → result ≡ Err (too_long plan.old) }
    ensures faults { IfErr result (IsRefusal plan.old (reduce_acts members.now root tag slot into scratch)) }
    ensures means { Reduces (reduce_acts members.now root tag slot into scratch) members.now root slot into scratch }
    ensures sums { MembersAddUp members.now root slot }
{
    plan.make_room(members.len() + (members.len() - 1))?;
    work(plan, root, Op::Copy { a: slot, into })?;
    add_members(plan, members, root, tag, slot, into, scratch)
}

/// Adds the slots of the members other than the root to the root's. There is room for these acts.
fn add_members(
    plan: &mut Plan,
    members: &[u16],
    root: u16,
    tag: Tag,
    slot: u16,
    into: u16,
    scratch: u16,
) -> Result<(), PlanFault>
    requires room { HasRoom plan.now (flat_map (added_from root tag slot into scratch) members.now) }
    ensures granted { IsOk result }
    ensures appended { Appended (flat_map (added_from root tag slot into scratch) members.now) plan.old plan.new }
{
    for member in members {
        add_member(plan, *member, root, tag, slot, into, scratch)?;
    }
    Ok(())
}

/// Sends the slot of a member other than the root to `scratch` of the root, which adds it to `into`. There is room for
/// these acts.
fn add_member(
    plan: &mut Plan,
    member: u16,
    root: u16,
    tag: Tag,
    slot: u16,
    into: u16,
    scratch: u16,
) -> Result<(), PlanFault>
    requires room { HasRoom plan.now (added_from root tag slot into scratch member) }
    ensures granted { IsOk result }
    ensures appended { Appended (added_from root tag slot into scratch member) plan.old plan.new }
{
    if member == root {
        return Ok(());
    }
    let sent = Act::Move {
        from: member,
        to: root,
        tag,
        slot,
        into: scratch,
    };
    append(plan, sent)?;
    let sum = Op::Add {
        a: into,
        b: scratch,
        into,
    };
    work(plan, root, sum)
}
