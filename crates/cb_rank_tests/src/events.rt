//! Worlds of a product over four ranks.
ghost use Rattle.std.specs.Prelude.{◌≡◌, ◌≤◌, IfSome};
ghost use Rattle.cb_plan.specs.Stores.{Fits};

use crate::examples::{product_blocks, results, two_by_two};
use cb_letters::Capacity;
use cb_plan::{CheckedPlan, RankStore};
use cb_rank::Moved;
use cb_rank_world::{Event, World};
use cb_semirings::PlusTimes;
use std::alloc::Global;

/// The world of a plan and its stores, with lanes for one letter.
pub(crate) fn world(
    alloc: Global,
    plan: &CheckedPlan,
    stores: Vec<RankStore<PlusTimes>>,
) -> Option<World<PlusTimes>>
    requires { Fits plan.now.ranks plan.now.starts stores.items }
    ensures { IfSome result (λ w. w.plan ≡ plan.now) }
{
    World::start(alloc, plan, stores, Capacity::nearest(1)).ok()
}

/// The world of the product of two matrices of 2 by 2 over four ranks.
pub(crate) fn product_world(alloc: Global) -> Option<World<PlusTimes>>
    ensures { IfSome result (λ w. w.plan.ranks ≡ 4) }
{
    let (plan, stores) = two_by_two(alloc, 2)?;
    world(alloc, &plan, stores)
}

/// The stores that the ranks leave, if all are done.
pub(crate) fn stores_of(world: World<PlusTimes>) -> Option<Vec<RankStore<PlusTimes>>> {
    if !world.all_done() {
        return None;
    }
    let (stores, _refusals) = world.into_parts();
    Some(stores)
}

/// Whether each of these events is answered as expected.
pub(crate) fn answers(world: &mut World<PlusTimes>, events: &[(Event, Moved)]) -> bool
    ensures { world.new.plan ≡ world.old.plan }
{
    let mut as_expected = true;
    for (event, moved) in events {
        as_expected &= world.step(*event) == *moved;
    }
    as_expected
}

/// How many letters, close marks included, were posted and taken on all lanes of this many ranks.
pub(crate) fn letters(world: &World<PlusTimes>, ranks: u16) -> (u64, u64)
    requires { ranks ≤ world.now.plan.ranks }
{
    let mut posted = 0u64;
    let mut taken = 0u64;
    for from in 0..ranks {
        for to in 0..ranks {
            if from != to {
                posted = posted.saturating_add(world.posted(from, to));
                taken = taken.saturating_add(world.taken(from, to));
            }
        }
    }
    (posted, taken)
}

/// Whether this many halves are left, and are done when the world is run to its end.
pub(crate) fn ends(world: &mut World<PlusTimes>, halves: u64) -> bool
    ensures { world.new.plan ≡ world.old.plan }
{
    let as_expected = world.remaining() == halves;
    world.finish();
    as_expected
}

/// Whether the ranks of a world leave the product.
fn leaves_product(world: World<PlusTimes>) -> bool {
    match stores_of(world) {
        Some(stores) => results(&stores) == product_blocks(),
        None => false,
    }
}

/// Whether rank 3 works and then waits, however often it is stepped, and all ranks are done in the end.
fn waits_and_ends(world: &mut World<PlusTimes>) -> bool
    requires { world.old.plan.ranks ≡ 4 }
{
    let mut as_expected = world.remaining() == 60;
    as_expected &= answers(world, &[(Event::Step(3), Moved::Worked)]);
    as_expected &= answers(world, &[(Event::Step(3), Moved::Waiting); 99]);
    world.finish();
    let posted = (world.posted(1, 3), world.posted(0, 3));
    as_expected &= (world.remaining(), world.refusals()) == (0, 0) && posted == (2, 1);
    as_expected & (letters(world, 4) == (20, 20))
}

/// The same for the world of the product, and whether its ranks leave the product.
fn waits_and_leaves_product(alloc: Global) -> Option<bool> {
    let mut world = product_world(alloc)?;
    let as_expected = waits_and_ends(&mut world);
    Some(as_expected & leaves_product(world))
}

#[test]
fn a_rank_waits_until_the_others_step(rt: HostRuntime) {
    assert!(rt; waits_and_leaves_product(rt.alloc()) == Some(true));
}
