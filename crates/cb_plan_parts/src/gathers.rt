//! Gather: from all members to one.
ghost use Rattle.std.specs.Prelude.{◌≡◌, ◌<◌, ◌≤◌, ◌+◌, ◌⊎◌, List, ◌++◌, length, if◌then◌else◌, is_ok, IsOk, IfErr, Err};
ghost use Rattle.cb_plan_parts.specs.Appends.{IsTooLong, IsRefusal, too_long, HasRoom, Appended};
ghost use Rattle.cb_plan_parts.specs.Collectives.{gather_acts, gathered, Means};

use crate::steps::send;
use cb_letters::Tag;
use cb_plan::{Plan, PlanFault, SLOTS};

/// Sends the `slot` of each member to the root: the first member's to slot `into`, the next one's to the slot after it,
/// and so on.
///
/// The slots that are set must exist, and `slot` must not be one of them. Appends an act for each member.
#[tactic(auto, using(crate::proofs::SendMeaning::gather_gathers, crate::proofs::Counts::count_gather))]
pub fn gather(
    plan: &mut Plan,
    members: &[u16],
    root: u16,
    tag: Tag,
    slot: u16,
    into: u16,
) -> Result<(), PlanFault>
    requires exist { into + length members.now ≤ SLOTS }
    requires apart { (slot < into) ⊎ (into + length members.now ≤ slot) }
    ensures ranks { plan.new.ranks ≡ plan.old.ranks }
    ensures acts { plan.new.acts ≡ (if is_ok result then plan.old.acts ++ gather_acts members.now root tag slot into else plan.old.acts) }
    ensures long { IsTooLong plan.old (gather_acts members.now root tag slot into) → result ≡ Err (too_long plan.old) }
    ensures faults { IfErr result (IsRefusal plan.old (gather_acts members.now root tag slot into)) }
    ensures means { Means (gather_acts members.now root tag slot into) (gathered members.now root slot into) }
{
    plan.make_room(members.len())?;
    send_to_root(plan, members, root, tag, slot, into)
}

/// Appends the members' acts, one each. There is room for them.
fn send_to_root(
    plan: &mut Plan,
    members: &[u16],
    root: u16,
    tag: Tag,
    slot: u16,
    into: u16,
) -> Result<(), PlanFault>
    requires exist { into + length members.now ≤ SLOTS }
    requires room { HasRoom plan.now (gather_acts members.now root tag slot into) }
    ensures granted { IsOk result }
    ensures appended { Appended (gather_acts members.now root tag slot into) plan.old plan.new }
{
    for t in 0..members.len() {
        send(plan, members[t], root, tag, slot, into + t as u16)?;
    }
    Ok(())
}
