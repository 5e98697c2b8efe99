//! Four ranks on threads of the test, one of which is never run. Each that waits for it, or for a rank that has given up,
//! gives up too and names it.
ghost use Rattle.std.specs.Prelude.{IfSome};
ghost use Rattle.std.specs.Thread.{IsSync};
ghost use Rattle.cb_plan.specs.Stores.{Fits};
ghost use Rattle.cb_rank_runs.specs.Crews.{AreNew};
ghost use Rattle.cb_rank_runs.specs.Runs.{IsNewRun};

use cb_letters::{Capacity, Tag};
use cb_plan::{Act, CheckedPlan, Op, Plan, PlanFault, RankStore};
use cb_rank_runs::{NoObserver, assemble, run_rank};
use cb_samples::shape;
use cb_semirings::MinPlus;
use std::alloc::Global;
use std::sync::Wait;
use std::thread;
use std::thread::Threads;

/// A rank with its desk.
type Member = cb_rank_runs::Member<MinPlus>;

/// The rank that each of three ranks finds gone, if it gives up.
type Gone = [Option<u16>; 3];

/// The letters between four ranks, each from one to another.
type Letters = [(u16, u16); 3];

/// Rank 0 sends its block to each other rank, or each rank sends it on to the next; and the ranks that ranks 1, 2 and 3
/// find gone if rank 0 isn't run.
const ROWS: [(Letters, Gone); 2] = [
    ([(0, 1), (0, 2), (0, 3)], [Some(0), Some(0), Some(0)]),
    ([(0, 1), (1, 2), (2, 3)], [Some(0), Some(1), Some(2)]),
];

/// Appends these letters.
fn send(plan: &mut Plan, letters: &Letters) -> Result<(), PlanFault> {
    for (from, to) in letters {
        let letter = Act::Move {
            from: *from,
            to: *to,
            tag: Tag(0),
            slot: 0,
            into: 0,
        };
        plan.push(letter)?;
    }
    Ok(())
}

/// Closes each lane between four ranks.
fn close(plan: &mut Plan) -> Result<(), PlanFault> {
    for from in 0..4 {
        for to in 0..4 {
            if from != to {
                plan.push(Act::Shut { from, to })?;
            }
        }
    }
    Ok(())
}

/// The plan of these letters, for which rank 0 makes the block.
fn plan_of(alloc: Global, letters: &Letters) -> Option<CheckedPlan> {
    let zero = Op::Zero {
        into: 0,
        shape: shape(1, 1).ok()?,
    };
    let mut plan = Plan::new(alloc, 4);
    plan.push(Act::Work { rank: 0, op: zero }).ok()?;
    send(&mut plan, letters).ok()?;
    close(&mut plan).ok()?;
    CheckedPlan::check(alloc, plan, &[]).ok()
}

/// Empty stores for four ranks.
fn stores(alloc: Global) -> Option<Vec<RankStore<MinPlus>>> {
    let mut stores = Vec::new(alloc);
    for _ in 0..4 {
        let store = RankStore::new(alloc).ok()?;
        stores.push(store).ok()?;
    }
    Some(stores)
}

/// New ranks for this plan, with new desks whose lanes hold one letter.
fn crew(alloc: Global, letters: &Letters) -> Option<Vec<Member>>
    ensures { IfSome result (λ c. AreNew c.items) }
{
    let plan = plan_of(alloc, letters)?;
    let stores = stores(alloc)?;
    if !plan.fits(&stores) {
        return None;
    }
    assemble(alloc, &plan, stores, Capacity::nearest(1)).ok()
}

/// The rank that a rank finds gone, if it gives up.
fn left_alone<R: Threads + Wait + Sync>(rt: &R, member: Member) -> Option<u16>
    requires { IsNewRun member.0 member.1 }
{
    let (rank, desk) = member;
    match run_rank(rt, rank, desk, &NoObserver) {
        Ok(_) => None,
        Err(gone) => Some(gone.0),
    }
}

/// The same for two ranks, each on a thread.
fn two_left_alone<R: Threads + Wait + Sync>(
    rt: &R,
    first: Member,
    second: Member,
) -> (Option<u16>, Option<u16>)
    requires first { IsNewRun first.0 first.1 }
    requires second { IsNewRun second.0 second.1 }
{
    thread::join(
        rt,
        move || -> Option<u16>
            requires { IsSync R.row × IsNewRun first.0 first.1 }
        { left_alone(rt, first) },
        move || -> Option<u16>
            requires { IsSync R.row × IsNewRun second.0 second.1 }
        { left_alone(rt, second) },
    )
}

/// The same for three ranks, the last of which is started first.
fn three_left_alone<R: Threads + Wait + Sync>(
    rt: &R,
    first: Member,
    second: Member,
    third: Member,
) -> Gone
    requires first { IsNewRun first.0 first.1 }
    requires second { IsNewRun second.0 second.1 }
    requires third { IsNewRun third.0 third.1 }
{
    let (third, (second, first)) = thread::join(
        rt,
        move || -> Option<u16>
            requires { IsSync R.row × IsNewRun third.0 third.1 }
        { left_alone(rt, third) },
        move || -> (Option<u16>, Option<u16>)
            requires sync { IsSync R.row }
            requires first { IsNewRun first.0 first.1 }
            requires second { IsNewRun second.0 second.1 }
        { two_left_alone(rt, second, first) },
    );
    [first, second, third]
}

/// The four members of a crew.
fn four_of(crew: Vec<Member>) -> Option<(Member, Member, Member, Member)>
    requires { AreNew crew.items }
    ensures second { IfSome result (λ p. IsNewRun p.1.0 p.1.1) }
    ensures third { IfSome result (λ p. IsNewRun p.2.0 p.2.1) }
    ensures fourth { IfSome result (λ p. IsNewRun p.3.0 p.3.1) }
{
    let mut crew = crew.into_iter();
    let (first, second) = (crew.next()?, crew.next()?);
    let (third, fourth) = (crew.next()?, crew.next()?);
    Some((first, second, third, fourth))
}

/// The ranks that ranks 1, 2 and 3 find gone if rank 0 isn't run.
fn without_0<R: Threads + Wait + Sync>(rt: &R, alloc: Global, letters: &Letters) -> Option<Gone> {
    let crew = crew(alloc, letters)?;
    let (first, second, third, fourth) = four_of(crew)?;
    drop(first);
    Some(three_left_alone(rt, second, third, fourth))
}

#[test]
fn a_rank_that_is_left_alone_names_the_one_that_is_gone(rt: HostRuntime) {
    for (letters, gone) in &ROWS {
        assert!(rt; without_0(&rt, rt.alloc(), letters) == Some(*gone));
    }
}
