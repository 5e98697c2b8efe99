//! Plans of two ranks, their stores, and what the stores hold in the end.
ghost use Rattle.std.specs.Prelude.{◌≡◌, ◌<◌, All, AllPairs, IfSome};
ghost use Rattle.cb_plan.specs.Plans.{IsElsewhere};
ghost use Rattle.cb_plan.specs.Stores.{Fits};

use cb_letters::Tag;
use cb_plan::{Act, CheckedPlan, Op, Plan, RankStore, SLOTS, Slot, Start};
use cb_samples::{block, entry, shape};
use cb_semirings::PlusTimes;
use std::alloc::Global;

/// A letter from one rank to another.
pub(crate) const fn send(from: u16, to: u16, tag: u32, slot: u16, into: u16) -> Act {
    Act::Move {
        from,
        to,
        tag: Tag(tag),
        slot,
        into,
    }
}

/// The plan of these acts of two ranks, if there is memory for it.
pub(crate) fn plan_of(alloc: Global, starts: &[Start], acts: &[Act]) -> Option<CheckedPlan>
    requires exist { All (λ s. (s.rank < 2) × (s.slot < SLOTS)) starts.now }
    requires once { AllPairs IsElsewhere starts.now }
{
    let mut plan = Plan::new(alloc, 2);
    for act in acts {
        plan.push(*act).ok()?;
    }
    CheckedPlan::check(alloc, plan, starts).ok()
}

/// The plan of these acts of two ranks, the first of which has a 1 by 1 block in slot 0.
pub(crate) fn plan_from_0(alloc: Global, acts: &[Act]) -> Option<CheckedPlan> {
    let single = Start {
        rank: 0,
        slot: 0,
        shape: shape(1, 1).ok()?,
    };
    plan_of(alloc, &[single], acts)
}

/// Stores for such a plan, with this number in slot 0 of rank 0.
pub(crate) fn stores_from_0(alloc: Global, number: u64) -> Option<Vec<RankStore<PlusTimes>>> {
    let mut first = RankStore::new(alloc).ok()?;
    first.put(0, block(alloc, 1, 1, &[entry(0, 0, number)]).ok()?);
    let second = RankStore::new(alloc).ok()?;
    vec![in alloc; first, second].ok()
}

/// A plan whose first rank starts with a number, and stores that fit it.
fn fitted(
    alloc: Global,
    plan: CheckedPlan,
    number: u64,
) -> Option<(CheckedPlan, Vec<RankStore<PlusTimes>>)>
    ensures { IfSome result (λ p. Fits p.0.ranks p.0.starts p.1.items) }
{
    let stores = stores_from_0(alloc, number)?;
    if plan.fits(&stores) {
        Some((plan, stores))
    } else {
        None
    }
}

/// A plan and stores that fit it: rank 0 sends its number to rank 1, which doubles it in slot 1 and sends the result back
/// to slot 2. It has nine halves.
pub(crate) fn doubling(
    alloc: Global,
    number: u64,
) -> Option<(CheckedPlan, Vec<RankStore<PlusTimes>>)>
    ensures { IfSome result (λ p. Fits p.0.ranks p.0.starts p.1.items) }
{
    let add = Op::Add {
        a: 0,
        b: 0,
        into: 1,
    };
    let acts = [
        send(0, 1, 5, 0, 0),
        Act::Work { rank: 1, op: add },
        send(1, 0, 6, 1, 2),
        Act::Shut { from: 0, to: 1 },
        Act::Shut { from: 1, to: 0 },
    ];
    let plan = plan_from_0(alloc, &acts)?;
    fitted(alloc, plan, number)
}

/// A plan and stores that fit it: rank 0 sends its number to rank 1, which sends it back, this many times.
pub(crate) fn rally(alloc: Global, rounds: u32) -> Option<(CheckedPlan, Vec<RankStore<PlusTimes>>)>
    ensures { IfSome result (λ p. Fits p.0.ranks p.0.starts p.1.items) }
{
    let mut acts = Vec::new(alloc);
    for tag in 0..rounds {
        acts.push(send(0, 1, tag, 0, 0)).ok()?;
        acts.push(send(1, 0, tag, 0, 0)).ok()?;
    }
    acts.push(Act::Shut { from: 0, to: 1 }).ok()?;
    acts.push(Act::Shut { from: 1, to: 0 }).ok()?;
    let plan = plan_from_0(alloc, &acts)?;
    fitted(alloc, plan, 3)
}

/// What a slot holds.
#[derive(Clone, Copy, PartialEq, Drop)]
pub(crate) enum Held {
    Nothing,
    /// A block with this number in row 0 of column 0.
    Number(u64),
    LostAt(u16),
}

/// What a slot of a rank holds.
pub(crate) fn contents_of(store: &RankStore<PlusTimes>, slot: u16) -> Held
    requires { slot < SLOTS }
{
    match store.slot(slot) {
        Slot::Empty => Held::Nothing,
        Slot::Sheet(block) => Held::Number(block.get(0, 0)),
        Slot::Lost(origin) => Held::LostAt(*origin),
    }
}

/// What a slot of one of two ranks holds.
pub(crate) fn contents_at(stores: &[RankStore<PlusTimes>], rank: usize, slot: u16) -> Option<Held>
    requires { slot < SLOTS }
{
    Some(contents_of(stores.get(rank)?, slot))
}
