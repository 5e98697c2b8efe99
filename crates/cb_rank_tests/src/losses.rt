//! Worlds of a product over four ranks, where one half is refused memory.
ghost use Rattle.std.specs.Prelude.{◌≡◌, IfErr};
ghost use Rattle.cb_plan.specs.Stores.{Fits};

use crate::events::{answers, product_world, stores_of};
use crate::examples::{Held, kept, product_blocks, results, two_by_two};
use cb_letters::Capacity;
use cb_plan::{CheckedPlan, RankStore};
use cb_rank::Moved;
use cb_rank_world::{Event, World};
use cb_semirings::PlusTimes;
use std::alloc::{AllocError, Global};

/// Rank 0 posts its block of the first factor, and rank 1 takes it.
const FIRST_LETTER: [(Event, Moved); 5] = [
    (Event::Step(0), Moved::Worked),
    (Event::Step(0), Moved::Worked),
    (Event::Step(0), Moved::Posted),
    (Event::Step(1), Moved::Worked),
    (Event::Step(1), Moved::Took),
];

/// What the ranks leave of the product if these events, with these answers, follow the first letter, memory is refused
/// once, and the world then runs to its end.
fn results_after(alloc: Global, events: &[(Event, Moved)]) -> Option<[Held; 4]> {
    let mut world = product_world(alloc)?;
    let as_expected = answers(&mut world, &FIRST_LETTER) && answers(&mut world, events);
    world.finish();
    if !as_expected || world.refusals() != 1 {
        return None;
    }
    Some(results(&stores_of(world)?))
}

#[test]
fn an_operation_without_memory_loses_the_product_of_its_rank(rt: HostRuntime) {
    let events = [(Event::Starve(1), Moved::Worked)];
    let [first, _, third, fourth] = product_blocks();
    let wanted = [first, Held::LostAt(1), third, fourth];
    assert!(rt; results_after(rt.alloc(), &events) == Some(wanted));
}

#[test]
fn a_post_without_memory_loses_the_product_of_its_addressee(rt: HostRuntime) {
    let events = [
        (Event::Step(1), Moved::Worked),
        (Event::Starve(1), Moved::Posted),
    ];
    let [first, second, third, _] = product_blocks();
    let wanted = [first, second, third, Held::LostAt(1)];
    assert!(rt; results_after(rt.alloc(), &events) == Some(wanted));
}

/// Steps the least rank that can act, this many times; then refuses memory to the next half, and finishes.
fn starve_after(world: &mut World<PlusTimes>, halves: u32) {
    for _ in 0..halves {
        if let Some(rank) = world.ready() {
            let _moved = world.step(Event::Step(rank));
        }
    }
    if let Some(rank) = world.ready() {
        let _moved = world.step(Event::Starve(rank));
    }
    world.finish();
}

/// The stores that the ranks leave with ample memory.
fn whole(alloc: Global) -> Option<Vec<RankStore<PlusTimes>>> {
    let mut world = product_world(alloc)?;
    world.finish();
    stores_of(world)
}

/// How often memory is refused if the half after this many others is refused it: at most once, and then something is lost.
/// Everything else is as with ample memory.
fn refusals_after(alloc: Global, halves: u32, wanted: &[RankStore<PlusTimes>]) -> Option<u64> {
    let mut world = product_world(alloc)?;
    starve_after(&mut world, halves);
    let refusals = world.refusals();
    let stores = stores_of(world)?;
    let (agrees, lost) = kept(&stores, wanted);
    if agrees && ((refusals, lost) == (0, 0) || (refusals == 1 && lost > 0)) {
        Some(refusals)
    } else {
        None
    }
}

/// How many of sixty halves can be refused memory.
fn starved_halves(alloc: Global, wanted: &[RankStore<PlusTimes>]) -> Option<u64> {
    let mut starved = 0u64;
    for halves in 0..60 {
        starved = starved.saturating_add(refusals_after(alloc, halves, wanted)?);
    }
    Some(starved)
}

/// The same, compared with the stores that the product leaves with ample memory.
fn starved_halves_of_product(alloc: Global) -> Option<u64> {
    let wanted = whole(alloc)?;
    if results(&wanted) == product_blocks() {
        starved_halves(alloc, &wanted)
    } else {
        None
    }
}

#[test]
fn whichever_half_lacks_memory_all_else_is_kept(rt: HostRuntime) {
    assert!(rt; starved_halves_of_product(rt.alloc()) == Some(24));
}

/// Whether four ranks leave the product, or parts of it are lost because of one refusal.
fn is_product_or_lost(found: [Held; 4], refusals: u64) -> bool {
    for (found, wanted) in found.iter().zip(product_blocks()) {
        let is_lost = refusals == 1 && matches!(found, Held::LostAt(_));
        if !is_lost && *found != wanted {
            return false;
        }
    }
    true
}

/// Starts a world. That a refused start hands back the stores as they were is proved.
fn started(
    alloc: Global,
    plan: &CheckedPlan,
    stores: Vec<RankStore<PlusTimes>>,
) -> Result<World<PlusTimes>, Vec<RankStore<PlusTimes>>>
    requires { Fits plan.now.ranks plan.now.starts stores.items }
    ensures { IfErr result (λ back. back.items ≡ stores.items) }
{
    match World::start(alloc, plan, stores, Capacity::nearest(1)) {
        Ok(world) => Ok(world),
        Err((back, AllocError)) => Err(back),
    }
}

/// Whether a world of the product runs to its end and counts each refusal that loses something; or, if its start is
/// refused, whether it hands back the stores unchanged.
fn ends_or_is_refused(
    alloc: Global,
    plan: &CheckedPlan,
    stores: Vec<RankStore<PlusTimes>>,
    given: &[RankStore<PlusTimes>],
) -> bool
    requires { Fits plan.now.ranks plan.now.starts stores.items }
{
    match started(alloc, plan, stores) {
        Ok(mut world) => {
            world.finish();
            let refusals = world.refusals();
            match stores_of(world) {
                Some(stores) => is_product_or_lost(results(&stores), refusals),
                None => false,
            }
        }
        Err(stores) => kept(&stores, given) == (true, 0),
    }
}

/// The same, if there is memory for the plan and the stores.
fn product_ends_or_is_refused(alloc: Global) -> Option<bool> {
    let (_, given) = two_by_two(alloc, 2)?;
    let (plan, stores) = two_by_two(alloc, 2)?;
    Some(ends_or_is_refused(alloc, &plan, stores, &given))
}

/// Passes whichever single growth is refused (`rt try --test --fail-alloc N`, for each N in turn): a refused start hands
/// back the stores that it was given, and a world that has started runs to its end and counts each refusal that loses
/// something.
#[test]
fn a_world_needs_memory_to_start_and_none_to_end(rt: HostRuntime) {
    assert!(rt; product_ends_or_is_refused(rt.alloc()) != Some(false));
}
