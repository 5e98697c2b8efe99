//! The acts that collectives append. What these acts do to the slots is proved, and that a refused call appends none.
ghost use Rattle.std.specs.Prelude.{◌≡◌, ◌≤◌, ◌+◌, length, true, OnErr};
ghost use Rattle.cb_plan_parts.specs.Collectives.{is_member, AreDistinct, Means, Reduces, MembersAddUp};
ghost use Rattle.cb_plan_parts.specs.Collectives.{broadcast_acts, spread_from, gather_acts, gathered, reduce_acts, all_to_all_acts, exchanged, shut_acts};
ghost use Rattle.cb_plan.specs.declared.stores.TheConstants.{SLOTS};
ghost use Rattle.cb_plan_tests.specs.declared.collectives.TheConstants.{TAG};

use cb_letters::Tag;
use cb_plan::{Act, Op, Plan, PlanFault};
use cb_plan_parts::{all_to_all, broadcast, gather, reduce, shut_all};

const TAG: Tag = Tag(4);

/// The sender, the addressee and the two slots of a Move.
type Moved = (u16, u16, u16, u16);

/// The rank and the two slots of a Copy.
type Copied = (u16, u16, u16);

/// Whether the Moves among these acts are exactly these, in this order.
fn are_moves(acts: &[Act], wanted: &[Moved]) -> bool {
    let mut count = 0usize;
    for act in acts {
        if let Act::Move {
            from,
            to,
            slot,
            into,
            ..
        } = act
        {
            if wanted.get(count) != Some(&(*from, *to, *slot, *into)) {
                return false;
            }
            count = count.saturating_add(1);
        }
    }
    count == wanted.len()
}

/// Whether the Copies among these acts are exactly these, in this order.
fn are_copies(acts: &[Act], wanted: &[Copied]) -> bool {
    let mut count = 0usize;
    for act in acts {
        if let Act::Work {
            rank,
            op: Op::Copy { a, into },
        } = act
        {
            if wanted.get(count) != Some(&(*rank, *a, *into)) {
                return false;
            }
            count = count.saturating_add(1);
        }
    }
    count == wanted.len()
}

/// Whether these acts shut exactly these lanes, each given by its two ranks, in this order.
fn are_closed(acts: &[Act], wanted: &[(u16, u16)]) -> bool {
    let mut count = 0usize;
    for act in acts {
        if let Act::Shut { from, to } = act {
            if wanted.get(count) != Some(&(*from, *to)) {
                return false;
            }
            count = count.saturating_add(1);
        }
    }
    count == wanted.len()
}

/// Whether a plan has exactly these Copies and Moves.
fn has(plan: &Plan, copied: &[Copied], moved: &[Moved]) -> bool {
    let (acts, closes) = plan.stored();
    are_copies(acts, copied) && are_moves(acts, moved) && !closes
}

/// Appends a broadcast. What its acts do is proved, and that the plan is as it was if they are refused.
fn broadcasts(
    plan: &mut Plan,
    members: &[u16],
    root: u16,
    slot: u16,
    into: u16,
) -> Result<(), PlanFault>
    requires { is_member members.now root ≡ true }
    ensures unchanged { OnErr result ((plan.new.ranks ≡ plan.old.ranks) × (plan.new.acts ≡ plan.old.acts)) }
    ensures means { Means (broadcast_acts members.now root TAG slot into) (spread_from members.now root slot into) }
{
    broadcast(plan, members, root, TAG, slot, into)
}

#[test]
fn broadcasts_by_a_tree(rt: HostRuntime) {
    let mut plan = Plan::new(rt.alloc(), 4);
    let is_appended = broadcasts(&mut plan, &[0, 1, 2, 3], 2, 0, 1).is_ok();
    let moved: &[Moved] = &[(2, 3, 0, 1), (2, 0, 0, 1), (3, 1, 1, 1)];
    assert!(rt; is_appended && has(&plan, &[(2, 0, 1)], moved));
}

#[test]
fn broadcasts_to_six(rt: HostRuntime) {
    let mut plan = Plan::new(rt.alloc(), 6);
    let is_appended = broadcasts(&mut plan, &[0, 1, 2, 3, 4, 5], 0, 1, 1).is_ok();
    let moved: &[Moved] = &[
        (0, 1, 1, 1),
        (0, 2, 1, 1),
        (1, 3, 1, 1),
        (1, 4, 1, 1),
        (2, 5, 1, 1),
    ];
    assert!(rt; is_appended && has(&plan, &[], moved));
}

/// The same for a gather of slot 0 into slot 10 and those after it.
fn gathers(plan: &mut Plan, members: &[u16], root: u16) -> Result<(), PlanFault>
    requires { 10 + length members.now ≤ SLOTS }
    ensures unchanged { OnErr result ((plan.new.ranks ≡ plan.old.ranks) × (plan.new.acts ≡ plan.old.acts)) }
    ensures means { Means (gather_acts members.now root TAG 0 10) (gathered members.now root 0 10) }
{
    gather(plan, members, root, TAG, 0, 10)
}

#[test]
fn gathers_in_list_order(rt: HostRuntime) {
    let mut plan = Plan::new(rt.alloc(), 3);
    let is_appended = gathers(&mut plan, &[0, 1, 2], 0).is_ok();
    let moved: &[Moved] = &[(1, 0, 0, 11), (2, 0, 0, 12)];
    assert!(rt; is_appended && has(&plan, &[(0, 0, 10)], moved));
}

/// The same for a reduce of slot 0 into slot 2, with slot 3 as scratch.
fn reduces(plan: &mut Plan, members: &[u16], root: u16) -> Result<(), PlanFault>
    requires root { is_member members.now root ≡ true }
    requires distinct { AreDistinct members.now }
    ensures unchanged { OnErr result ((plan.new.ranks ≡ plan.old.ranks) × (plan.new.acts ≡ plan.old.acts)) }
    ensures means { Reduces (reduce_acts members.now root TAG 0 2 3) members.now root 0 2 3 }
    ensures sums { MembersAddUp members.now root 0 }
{
    reduce(plan, members, root, TAG, 0, 2, 3)
}

#[test]
fn reduces_by_two_sums(rt: HostRuntime) {
    let mut plan = Plan::new(rt.alloc(), 3);
    let is_appended = reduces(&mut plan, &[0, 1, 2], 2).is_ok();
    let moved: &[Moved] = &[(0, 2, 0, 3), (1, 2, 0, 3)];
    assert!(rt; is_appended && plan.len() == 5 && has(&plan, &[(2, 0, 2)], moved));
}

/// The same for an all-to-all from slot 20 on into slot 30 and those after it.
fn exchanges(plan: &mut Plan, members: &[u16]) -> Result<(), PlanFault>
    requires distinct { AreDistinct members.now }
    requires count { length members.now ≤ 10 }
    ensures unchanged { OnErr result ((plan.new.ranks ≡ plan.old.ranks) × (plan.new.acts ≡ plan.old.acts)) }
    ensures means { Means (all_to_all_acts members.now TAG 20 30) (exchanged members.now 20 30) }
{
    all_to_all(plan, members, TAG, 20, 30)
}

#[test]
fn exchanges_among_three(rt: HostRuntime) {
    let mut plan = Plan::new(rt.alloc(), 3);
    let is_appended = exchanges(&mut plan, &[0, 1, 2]).is_ok();
    let copied: &[Copied] = &[(0, 20, 30), (1, 21, 31), (2, 22, 32)];
    let moved: &[Moved] = &[
        (0, 1, 21, 30),
        (0, 2, 22, 30),
        (1, 0, 20, 31),
        (1, 2, 22, 31),
        (2, 0, 20, 32),
        (2, 1, 21, 32),
    ];
    assert!(rt; is_appended && has(&plan, copied, moved));
}

/// The same for shutting all lanes, which changes no slot.
fn shuts(plan: &mut Plan) -> Result<(), PlanFault>
    ensures unchanged { OnErr result ((plan.new.ranks ≡ plan.old.ranks) × (plan.new.acts ≡ plan.old.acts)) }
    ensures means { Means (shut_acts plan.old.ranks) (λ state. state) }
{
    shut_all(plan)
}

/// Whether a plan that is at its end has shut exactly these lanes, in this order: it stores no act for them, until
/// another act follows.
fn ends_with(plan: &mut Plan, lanes: &[(u16, u16)]) -> bool {
    let is_short = matches!(plan.stored(), ([], true)) && plan.len() == lanes.len();
    let follows = plan.push(Act::Shut { from: 2, to: 0 }).is_ok();
    let (acts, closes) = plan.stored();
    match acts {
        [first @ .., Act::Shut { from: 2, to: 0 }] => {
            is_short && follows && !closes && are_closed(first, lanes)
        }
        _ => false,
    }
}

#[test]
fn shuts_each_lane_once(rt: HostRuntime) {
    let mut plan = Plan::new(rt.alloc(), 3);
    let is_appended = shuts(&mut plan).is_ok();
    let lanes: &[(u16, u16)] = &[(0, 1), (0, 2), (1, 0), (1, 2), (2, 0), (2, 1)];
    assert!(rt; is_appended && ends_with(&mut plan, lanes));
}
