//! Worlds of a product over grids.
ghost use Rattle.std.specs.Prelude.{◌≤◌};

use crate::events::{ends, letters, stores_of, world};
use crate::examples::{grid, leave_product, two_by_two};
use cb_plan::RankStore;
use cb_rank_world::World;
use cb_semirings::PlusTimes;
use std::alloc::Global;

/// The side of a grid, and how many halves and letters the product of two matrices takes on it.
const SIDES: [(u32, u64, u64); 8] = [
    (1, 4, 0),
    (2, 60, 20),
    (3, 270, 108),
    (4, 784, 336),
    (5, 1800, 800),
    (6, 3564, 1620),
    (7, 6370, 2940),
    (8, 10560, 4928),
];

/// Whether a world takes this many halves and letters to its end.
fn takes(world: &mut World<PlusTimes>, ranks: u16, halves: u64, posted: u64) -> bool
    requires { ranks ≤ world.old.plan.ranks }
{
    ends(world, halves) && letters(world, ranks) == (posted, posted)
}

/// What the ranks leave of the product on the grid of this side, if it takes this many halves and letters.
fn finished(
    alloc: Global,
    side: u32,
    halves: u64,
    posted: u64,
) -> Option<Vec<RankStore<PlusTimes>>> {
    let grid = grid(side)?;
    let (plan, stores) = two_by_two(alloc, side)?;
    let mut world = world(alloc, &plan, stores)?;
    let as_expected = takes(&mut world, grid.ranks(), halves, posted);
    let stores = stores_of(world);
    if as_expected { stores } else { None }
}

/// Whether it takes this many and leaves the product.
fn finishes(alloc: Global, side: u32, halves: u64, posted: u64) -> Option<bool> {
    let stores = finished(alloc, side, halves, posted)?;
    leave_product(alloc, side, &stores)
}

#[test]
fn worlds_finish_on_grids(rt: HostRuntime) {
    for (side, halves, posted) in &SIDES {
        assert!(rt;
            finishes(rt.alloc(), *side, *halves, *posted) == Some(true),
            "side {side}"
        );
    }
}
