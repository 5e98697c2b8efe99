//! Worlds of two ranks with events in several orders, with ample memory, and with a post and an operation refused memory.
ghost use Rattle.std.specs.Prelude.{List};
ghost use Rattle.cb_rank_world.specs.LaneCalls.{Exchange, AreCallsOf, AreTakenOnce, AreForAddressee, AreInPostingOrder, NothingAcceptedAfterClose, HasGivenOutAll};

use crate::events::answers;
use crate::plans::{Held, contents_at, doubling, plan_from_0, send, stores_from_0};
use cb_letters::Capacity;
use cb_plan::{Act, CheckedPlan, RankStore};
use cb_rank::Moved;
use cb_rank_world::{Event, World};
use cb_semirings::{PlusTimes, Semiring};
use std::alloc::Global;

/// The world that doubles 6, with lanes for one letter.
fn world(alloc: Global) -> Option<World<PlusTimes>> {
    let (plan, stores) = doubling(alloc, 6)?;
    World::start(alloc, &plan, stores, Capacity::nearest(1)).ok()
}

/// The world of a plan whose first rank has 6 in slot 0.
fn world_of(alloc: Global, plan: &CheckedPlan) -> Option<World<PlusTimes>> {
    let stores = stores_from_0(alloc, 6)?;
    if !plan.fits(&stores) {
        return None;
    }
    World::start(alloc, plan, stores, Capacity::nearest(1)).ok()
}

/// The doubles that ranks 0 and 1 hold once all is done, and how often each was refused memory.
fn doubles(world: World<PlusTimes>) -> Option<[(Held, u64); 2]> {
    if !world.all_done() {
        return None;
    }
    let (stores, refusals) = world.into_parts();
    let [first, second] = refusals.as_slice() else {
        return None;
    };
    Some([
        (contents_at(&stores, 0, 2)?, *first),
        (contents_at(&stores, 1, 1)?, *second),
    ])
}

/// What they hold with ample memory.
const WHOLE: [(Held, u64); 2] = [(Held::Number(12), 0), (Held::Number(12), 0)];

/// Whether rank 1 of a new world waits, there is no rank 2, and all nine halves are done in the end.
fn waits_and_finishes(world: &mut World<PlusTimes>) -> bool {
    let rows = [
        (Event::Step(1), Moved::Waiting),
        (Event::Step(1), Moved::Waiting),
        (Event::Step(1), Moved::Waiting),
        (Event::Step(2), Moved::Idle),
    ];
    let mut as_expected = world.remaining() == 9 && world.ready() == Some(0);
    as_expected &= answers(world, &rows);
    world.finish();
    as_expected & (world.remaining() == 0 && world.ready().is_none() && world.refusals() == 0)
}

/// What the ranks hold then.
fn doubles_after_waiting(alloc: Global) -> Option<[(Held, u64); 2]> {
    let mut world = world(alloc)?;
    let as_expected = waits_and_finishes(&mut world);
    let doubles = doubles(world)?;
    if as_expected { Some(doubles) } else { None }
}

#[test]
fn a_rank_waits_for_its_letter(rt: HostRuntime) {
    assert!(rt; doubles_after_waiting(rt.alloc()) == Some(WHOLE));
}

/// Whether rank 0 waits to post its second letter until the first is taken, and is then refused memory for it.
fn waits_for_room(world: &mut World<PlusTimes>) -> bool {
    let full = [
        (Event::Step(0), Moved::Posted),
        (Event::Step(0), Moved::Waiting),
        (Event::Starve(0), Moved::Waiting),
    ];
    let free = [
        (Event::Step(1), Moved::Took),
        (Event::Starve(0), Moved::Posted),
    ];
    let mut as_expected = answers(world, &full);
    as_expected &= world.remaining() == 7 && world.refusals() == 0;
    as_expected &= answers(world, &free);
    as_expected & (world.remaining() == 5 && world.refusals() == 1)
}

/// The world in which rank 0 sends its block twice.
fn sending_twice(alloc: Global) -> Option<World<PlusTimes>> {
    let acts = [
        send(0, 1, 7, 0, 1),
        send(0, 1, 7, 0, 2),
        Act::Shut { from: 0, to: 1 },
        Act::Shut { from: 1, to: 0 },
    ];
    let plan = plan_from_0(alloc, &acts)?;
    world_of(alloc, &plan)
}

/// Whether rank 0 waits in that world.
fn sends_when_there_is_room(alloc: Global) -> Option<bool> {
    let mut world = sending_twice(alloc)?;
    Some(waits_for_room(&mut world))
}

/// Lanes hold one letter. A rank that has to wait asks for no memory.
#[test]
fn a_full_lane_holds_up_its_sender(rt: HostRuntime) {
    assert!(rt; sends_when_there_is_room(rt.alloc()) == Some(true));
}

/// Does these events. What becomes of the letters is proved, whatever the events are.
fn run<S: Semiring>(world: &mut World<S>, events: &[Event])
    ensures calls { (calls : List Exchange) × AreCallsOf S.arithmetic events.now calls world.old world.new }
    ensures once { (calls : List Exchange) → AreCallsOf S.arithmetic events.now calls world.old world.new → AreTakenOnce world.old world.new calls }
    ensures addressee { (calls : List Exchange) → AreCallsOf S.arithmetic events.now calls world.old world.new → AreForAddressee world.old calls }
    ensures order { (calls : List Exchange) → AreCallsOf S.arithmetic events.now calls world.old world.new → AreInPostingOrder world.old world.new calls }
    ensures closed { (calls : List Exchange) → AreCallsOf S.arithmetic events.now calls world.old world.new → NothingAcceptedAfterClose world.old calls }
    ensures drained { (calls : List Exchange) → AreCallsOf S.arithmetic events.now calls world.old world.new → HasGivenOutAll world.old world.new calls }
{
    world.run(events);
}

/// What the ranks hold if one of them is starved after these steps, moves as expected and is refused memory once.
fn starved_after(
    alloc: Global,
    steps: &[Event],
    rank: u16,
    moved: Moved,
) -> Option<[(Held, u64); 2]> {
    let mut world = world(alloc)?;
    run(&mut world, steps);
    let as_expected = world.step(Event::Starve(rank)) == moved;
    world.finish();
    if !as_expected || world.refusals() != 1 {
        return None;
    }
    doubles(world)
}

/// An operation of rank 1 is refused memory, and a post of rank 0.
#[test]
fn what_is_starved_is_lost_at_its_rank(rt: HostRuntime) {
    let steps = [Event::Step(0), Event::Step(1)];
    let operation = starved_after(rt.alloc(), &steps, 1, Moved::Worked);
    assert!(rt; operation == Some([(Held::LostAt(1), 0), (Held::LostAt(1), 1)]));
    let post = starved_after(rt.alloc(), &[], 0, Moved::Posted);
    assert!(rt; post == Some([(Held::LostAt(0), 1), (Held::LostAt(0), 0)]));
}
