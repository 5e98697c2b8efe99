//! Appending acts for which there is room, and finding members in the list.
ghost use Rattle.std.specs.Prelude.{◌≡◌, ◌==◌, true, List, [], ◌∷◌, IsOk};
ghost use Rattle.std.specs.List.{position};
ghost use Rattle.cb_plan_parts.specs.Appends.{HasRoom, Appended};
ghost use Rattle.cb_plan_parts.specs.Collectives.{is_member, place_of, copied_at, sent};

use cb_letters::Tag;
use cb_plan::{Act, Op, Plan, PlanFault};

/// Appends an act for which there is room.
pub fn append(plan: &mut Plan, act: Act) -> Result<(), PlanFault>
    requires { HasRoom plan.now (act ∷ []) }
    ensures granted { IsOk result }
    ensures appended { Appended (act ∷ []) plan.old plan.new }
{
    plan.push(act)
}

/// Appends an operation of a rank, for which there is room.
pub fn work(plan: &mut Plan, rank: u16, op: Op) -> Result<(), PlanFault>
    requires { HasRoom plan.now (Act.Work rank op ∷ []) }
    ensures granted { IsOk result }
    ensures appended { Appended (Act.Work rank op ∷ []) plan.old plan.new }
{
    append(plan, Act::Work { rank, op })
}

/// Copies a slot of a rank to another slot of the same rank. Does nothing if they are the same slot.
pub fn copy_at(plan: &mut Plan, rank: u16, slot: u16, into: u16) -> Result<(), PlanFault>
    requires { HasRoom plan.now (copied_at rank slot into) }
    ensures granted { IsOk result }
    ensures appended { Appended (copied_at rank slot into) plan.old plan.new }
{
    if slot == into {
        return Ok(());
    }
    work(plan, rank, Op::Copy { a: slot, into })
}

/// Sends a slot of one rank to a slot of another, or of the same rank. There is room for the act.
pub fn send(
    plan: &mut Plan,
    from: u16,
    to: u16,
    tag: Tag,
    slot: u16,
    into: u16,
) -> Result<(), PlanFault>
    requires { HasRoom plan.now (sent from to tag slot into ∷ []) }
    ensures granted { IsOk result }
    ensures appended { Appended (sent from to tag slot into ∷ []) plan.old plan.new }
{
    if from == to {
        return work(plan, to, Op::Copy { a: slot, into });
    }
    let act = Act::Move {
        from,
        to,
        tag,
        slot,
        into,
    };
    append(plan, act)
}

/// The place of a member in the list: the first one that it has.
pub fn place_in(members: &[u16], rank: u16) -> usize
    requires { is_member members.now rank ≡ true }
    ensures { result ≡ place_of members.now rank }
{
    match first_place(members, rank) {
        Some(place) => place,
        None => 0,
    }
}

fn first_place(members: &[u16], rank: u16) -> Option<usize>
    ensures { result ≡ position (λ m. m == rank) members.now }
{
    members.iter().position(|member| *member == rank)
}
