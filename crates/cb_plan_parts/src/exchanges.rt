//! All-to-all: from each member to each.
ghost use Rattle.std.specs.Prelude.{◌≡◌, ◌<◌, ◌≤◌, ◌+◌, ◌*◌, ◌⊎◌, List, ◌++◌, length, if◌then◌else◌, is_ok, IsOk, IfErr, Err};
ghost use Rattle.cb_plan_parts.specs.Appends.{IsTooLong, IsRefusal, too_long, HasRoom, Appended};
ghost use Rattle.cb_plan_parts.specs.Collectives.{AreDistinct, sent_from, all_to_all_acts, exchanged, Means};

use crate::steps::send;
use cb_letters::Tag;
use cb_plan::{Plan, PlanFault, SLOTS};

/// Each member sends a slot to each member: slot `slot + t` of member s goes to slot `into + s` of member t.
///
/// The slots must exist, and those read must not overlap those set. Appends n * n acts for n members.
#[tactic(auto, using(crate::proofs::SendMeaning::all_to_all_exchanges, crate::proofs::Counts::count_all_to_all))]
pub fn all_to_all(
    plan: &mut Plan,
    members: &[u16],
    tag: Tag,
    slot: u16,
    into: u16,
) -> Result<(), PlanFault>
    requires distinct { AreDistinct members.now }
    requires read { slot + length members.now ≤ SLOTS }
    requires set { into + length members.now ≤ SLOTS }
    requires apart { (slot + length members.now ≤ into) ⊎ (into + length members.now ≤ slot) }
    ensures ranks { plan.new.ranks ≡ plan.old.ranks }
    ensures acts { plan.new.acts ≡ (if is_ok result then plan.old.acts ++ all_to_all_acts members.now tag slot into else plan.old.acts) }
    ensures long { IsTooLong plan.old (all_to_all_acts members.now tag slot into) → result ≡ Err (too_long plan.old) }
    ensures faults { IfErr result (IsRefusal plan.old (all_to_all_acts members.now tag slot into)) }
    ensures means { Means (all_to_all_acts members.now tag slot into) (exchanged members.now slot into) }
{
    plan.make_room(members.len() * members.len())?;
    exchange(plan, members, tag, slot, into)
}

/// Appends the acts of all members. There is room for them.
fn exchange(
    plan: &mut Plan,
    members: &[u16],
    tag: Tag,
    slot: u16,
    into: u16,
) -> Result<(), PlanFault>
    requires read { slot + length members.now ≤ SLOTS }
    requires set { into + length members.now ≤ SLOTS }
    requires room { HasRoom plan.now (all_to_all_acts members.now tag slot into) }
    ensures granted { IsOk result }
    ensures appended { Appended (all_to_all_acts members.now tag slot into) plan.old plan.new }
{
    for s in 0..members.len() {
        send_from(plan, members, s, tag, slot, into + s as u16)?;
    }
    Ok(())
}

/// Sends the slots of member s, from `slot` on, to slot `into` of each member. There is room for these acts.
fn send_from(
    plan: &mut Plan,
    members: &[u16],
    s: usize,
    tag: Tag,
    slot: u16,
    into: u16,
) -> Result<(), PlanFault>
    requires member { s < length members.now }
    requires read { slot + length members.now ≤ SLOTS }
    requires room { HasRoom plan.now (sent_from members.now tag slot into s) }
    ensures granted { IsOk result }
    ensures appended { Appended (sent_from members.now tag slot into s) plan.old plan.new }
{
    for t in 0..members.len() {
        send(plan, members[s], members[t], tag, slot + t as u16, into)?;
    }
    Ok(())
}
