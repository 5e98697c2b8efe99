//! Two ranks, stepped in turns and on their own threads: what they leave, what their trace records, and what is returned if
//! one of them is gone or memory is refused.
ghost use Rattle.std.specs.Prelude.{◌<◌, IfErr, IfOk, IfSome};
ghost use Rattle.std.specs.Thread.{IsSync};
ghost use Rattle.cb_semirings.specs.Tables.{plus_times};
ghost use Rattle.cb_lanes.specs.Desks.{standing};
ghost use Rattle.cb_plan.specs.Stores.{Fits};
ghost use Rattle.cb_rank.specs.Ranks.{ArePortsOf};
ghost use Rattle.cb_rank_runs.specs.Crews.{AreNew};
ghost use Rattle.cb_rank_runs.specs.Finished.{LanesHold};
ghost use Rattle.cb_rank_runs.specs.NamedRanks.{NamesLeast};
ghost use Rattle.cb_rank_runs.specs.Runs.{IsNewRun};
ghost use Rattle.cb_rank_runs.specs.Views.{finished_view};

use crate::plans::{Held, contents_at, contents_of, doubling, rally};
use cb_lanes::{Desk, Gone};
use cb_letters::Capacity;
use cb_plan::{CheckedPlan, RankStore, SLOTS, SharedBlock};
use cb_rank::{Moved, Rank, Supply};
use cb_rank_faults::RanksFault;
use cb_rank_runs::{Finished, Member, NoObserver, Observer, assemble, run_rank};
use cb_rank_threads::{run_threads, run_traced};
use cb_semirings::{PlusTimes, Semiring};
use cb_trace::{Trace, TraceEvent};
use std::alloc::Global;
use std::sync::Wait;
use std::sync::atomic::{AtomicU64, Ordering};
use std::thread::{Threads, join};

/// New ranks for the doubling of 3, with new desks whose lanes hold one letter.
fn crew(alloc: Global) -> Option<Vec<Member<PlusTimes>>>
    ensures { IfSome result (λ c. AreNew c.items) }
{
    let (plan, stores) = doubling(alloc, 3)?;
    assemble(alloc, &plan, stores, Capacity::nearest(1)).ok()
}

/// The two ranks.
fn pair(alloc: Global) -> Option<(Member<PlusTimes>, Member<PlusTimes>)>
    ensures first { IfSome result (λ p. IsNewRun p.0.0 p.0.1) }
    ensures second { IfSome result (λ p. IsNewRun p.1.0 p.1.1) }
{
    let mut crew = crew(alloc)?.into_iter();
    let first = crew.next()?;
    let second = crew.next()?;
    Some((first, second))
}

/// Whether a rank's step over its desk is answered as expected.
fn steps_as_expected(
    rank: &mut Rank<PlusTimes>,
    desk: &mut Desk<SharedBlock<PlusTimes>>,
    wanted: Moved,
) -> bool
    requires { ArePortsOf rank.old (standing desk.old) }
    ensures { ArePortsOf rank.new (standing desk.new) }
{
    match rank.step(desk, Supply::Granted) {
        Ok(moved) => moved == wanted,
        Err(_) => false,
    }
}

/// Whether the steps of two ranks, in turns, are answered as expected; and what each holds in this slot in the end.
fn take_turns(
    first: Member<PlusTimes>,
    second: Member<PlusTimes>,
    rows: &[(Moved, Moved)],
) -> (bool, Held, Held)
    requires first { IsNewRun first.0 first.1 }
    requires second { IsNewRun second.0 second.1 }
{
    let (mut first, mut desk_of_first) = first;
    let (mut second, mut desk_of_second) = second;
    let mut as_expected = true;
    for (one, other) in rows {
        as_expected &= steps_as_expected(&mut first, &mut desk_of_first, *one);
        as_expected &= steps_as_expected(&mut second, &mut desk_of_second, *other);
    }
    (
        as_expected,
        contents_of(&first.into_store(), 2),
        contents_of(&second.into_store(), 1),
    )
}

/// The same for two new ranks.
fn turns(alloc: Global, rows: &[(Moved, Moved)]) -> Option<(bool, Held, Held)> {
    let (first, second) = pair(alloc)?;
    Some(take_turns(first, second, rows))
}

#[test]
fn two_ranks_step_over_their_desks_in_turns(rt: HostRuntime) {
    let rows = [
        (Moved::Posted, Moved::Took),
        (Moved::Waiting, Moved::Worked),
        (Moved::Waiting, Moved::Posted),
        (Moved::Took, Moved::Waiting),
        (Moved::Closed, Moved::Drained),
        (Moved::Waiting, Moved::Closed),
        (Moved::Drained, Moved::Idle),
        (Moved::Idle, Moved::Idle),
    ];
    let wanted = (true, Held::Number(6), Held::Number(6));
    assert!(rt; turns(rt.alloc(), &rows) == Some(wanted));
}

/// What a slot of a rank holds once the rank has run over its desk, unless it gives up.
fn held_after<R: Threads + Wait + Sync>(
    rt: &R,
    member: Member<PlusTimes>,
    slot: u16,
) -> Option<Held>
    requires new { IsNewRun member.0 member.1 }
    requires slot { slot < SLOTS }
{
    let (rank, desk) = member;
    match run_rank(rt, rank, desk, &NoObserver) {
        Ok((rank, _desk)) => Some(contents_of(&rank.into_store(), slot)),
        Err(_) => None,
    }
}

/// The same for two ranks, each on a thread of the caller.
fn held_after_both<R: Threads + Wait + Sync>(
    rt: &R,
    first: Member<PlusTimes>,
    second: Member<PlusTimes>,
) -> (Option<Held>, Option<Held>)
    requires first { IsNewRun first.0 first.1 }
    requires second { IsNewRun second.0 second.1 }
{
    join(
        rt,
        move || -> Option<Held>
            requires { IsSync R.row × IsNewRun first.0 first.1 }
        { held_after(rt, first, 2) },
        move || -> Option<Held>
            requires { IsSync R.row × IsNewRun second.0 second.1 }
        { held_after(rt, second, 1) },
    )
}

/// The same for two new ranks.
fn doubles_on_threads<R: Threads + Wait + Sync>(
    rt: &R,
    alloc: Global,
) -> Option<(Option<Held>, Option<Held>)> {
    let (first, second) = pair(alloc)?;
    Some(held_after_both(rt, first, second))
}

#[test]
fn two_ranks_run_on_threads_of_the_test(rt: HostRuntime) {
    let double = Some(Held::Number(6));
    assert!(rt; doubles_on_threads(&rt, rt.alloc()) == Some((double, double)));
}

/// The rank that a rank finds gone, if it gives up.
fn given_up_by<R: Threads + Wait + Sync>(rt: &R, member: Member<PlusTimes>) -> Option<Gone>
    requires { IsNewRun member.0 member.1 }
{
    let (rank, desk) = member;
    run_rank(rt, rank, desk, &NoObserver).err()
}

/// The rank that the first of two finds gone if the second is.
fn given_up_by_first<R: Threads + Wait + Sync>(rt: &R, alloc: Global) -> Option<Gone> {
    let (first, second) = pair(alloc)?;
    drop(second);
    given_up_by(rt, first)
}

/// The rank that the second finds gone if the first is.
fn given_up_by_second<R: Threads + Wait + Sync>(rt: &R, alloc: Global) -> Option<Gone> {
    let (first, second) = pair(alloc)?;
    drop(first);
    given_up_by(rt, second)
}

#[test]
fn a_rank_whose_peer_is_gone_is_given_up(rt: HostRuntime) {
    assert!(rt; given_up_by_first(&rt, rt.alloc()) == Some(Gone(1)));
    assert!(rt; given_up_by_second(&rt, rt.alloc()) == Some(Gone(0)));
}

/// The double that rank 0 holds in the end, and how often each of the two was refused memory.
pub(crate) fn left_at_0(finished: Finished<PlusTimes>) -> Option<(Held, (u64, u64))> {
    let (stores, refusals) = finished.into_parts();
    let [first, second] = refusals.as_slice() else {
        return None;
    };
    Some((contents_at(&stores, 0, 2)?, (*first, *second)))
}

/// Whether the double is there and no memory was refused, or it is lost because of one refusal, at the rank that it names.
pub(crate) fn is_whole_or_lost(finished: Finished<PlusTimes>) -> bool {
    match left_at_0(finished) {
        Some((Held::Number(6), refusals)) => refusals == (0, 0),
        Some((Held::LostAt(0), refusals)) => refusals == (1, 0),
        Some((Held::LostAt(1), refusals)) => refusals == (0, 1),
        _ => false,
    }
}

/// Counts the passes of all ranks.
#[derive(Drop)]
struct Counter {
    passes: AtomicU64,
}

impl Counter {
    const fn new() -> Counter {
        Counter {
            passes: AtomicU64::new(0),
        }
    }

    /// Whether a rank has passed.
    fn has_any(&self) -> bool {
        self.passes.load(Ordering::SeqCst) > 0
    }
}

impl<S: Semiring> Observer<S> for Counter {
    fn observe(&self, _rank: u16, _state: &Rank<S>) {
        self.passes.fetch_add(1, Ordering::SeqCst);
    }
}

/// What the ranks of a plan leave on threads, with what is promised of the lanes, and of a fault.
fn run_plan<R: Threads + Wait + Sync>(
    rt: &R,
    alloc: Global,
    plan: &CheckedPlan,
    stores: Vec<RankStore<PlusTimes>>,
    capacity: Capacity,
    observer: &Counter,
) -> Result<Finished<PlusTimes>, RanksFault>
    requires { Fits plan.now.ranks plan.now.starts stores.items }
    ensures lanes { IfOk result (λ finished. LanesHold plan.now.ranks capacity (finished_view finished)) }
    ensures least { IfErr result (NamesLeast plus_times plan.now stores.items) }
{
    run_threads(rt, alloc, plan, stores, capacity, observer)
}

/// Whether a run failed since memory was refused: before any rank ran, or as a thread was started.
fn is_refusal(fault: RanksFault, counter: &Counter) -> bool {
    match fault {
        RanksFault::Memory => !counter.has_any(),
        RanksFault::NotStarted(_) => true,
        _ => false,
    }
}

/// What two ranks on threads leave, with lanes for this many letters, if there is memory for their plan.
fn ran<R: Threads + Wait + Sync>(
    rt: &R,
    alloc: Global,
    letters: usize,
    observer: &Counter,
) -> Option<Result<Finished<PlusTimes>, RanksFault>> {
    let (plan, stores) = doubling(alloc, 3)?;
    let capacity = Capacity::nearest(letters);
    Some(run_plan(rt, alloc, &plan, stores, capacity, observer))
}

#[test]
fn ranks_in_threads_leave_the_double(rt: HostRuntime) {
    let counter = Counter::new();
    let is_whole = match ran(&rt, rt.alloc(), 1, &counter) {
        Some(Ok(finished)) => left_at_0(finished) == Some((Held::Number(6), (0, 0))),
        _ => false,
    };
    assert!(rt; is_whole && counter.has_any());
}

/// Passes whichever allocation is refused. Either memory is refused before any rank runs; or a thread isn't started, which
/// takes memory too; or every rank runs its whole program, and what is lost is counted.
#[test]
fn refused_memory_is_answered_or_counted(rt: HostRuntime) {
    let counter = Counter::new();
    let is_right = match ran(&rt, rt.alloc(), 2, &counter) {
        Some(Ok(finished)) => is_whole_or_lost(finished),
        Some(Err(fault)) => is_refusal(fault, &counter),
        None => true,
    };
    assert!(rt; is_right);
}

/// Whether an event is neither a take nor an end, or comes after the post or the close of the same letter.
fn follows_its_post(event: &TraceEvent, past: &[TraceEvent]) -> bool {
    match event {
        TraceEvent::Took(envelope) => past.contains(&TraceEvent::Posted(*envelope)),
        TraceEvent::Ended(envelope) => past.contains(&TraceEvent::Closed(*envelope)),
        _ => true,
    }
}

/// Whether a trace has each letter posted before it is taken.
fn takes_follow_posts(trace: &Trace) -> bool {
    let events = trace.events();
    events.iter().enumerate().all(|(place, event)| {
        follows_its_post(event, events.get(..place).unwrap_or(events))
    })
}

/// Whether takes follow posts in the trace of a run in which a number goes back and forth this many times.
fn rally_is_legal<R: Threads + Wait + Sync>(rt: &R, alloc: Global, rounds: u32) -> Option<bool> {
    let (plan, stores) = rally(alloc, rounds)?;
    let capacity = Capacity::nearest(1);
    match run_traced(rt, alloc, &plan, stores, capacity, &NoObserver) {
        Ok((_finished, trace)) => Some(takes_follow_posts(&trace)),
        Err(_) => None,
    }
}

/// Ten thousand letters, each awaited by a rank on its own thread. If posts were recorded too late, or takes too early,
/// some take would come before its post.
#[test]
fn takes_follow_posts_in_every_trace(rt: HostRuntime) {
    for run in 0..100 {
        assert!(rt;
            rally_is_legal(&rt, rt.alloc(), 50) == Some(true),
            "run {run}"
        );
    }
}

/// The same for a traced run, with its trace.
fn ran_traced<R: Threads + Wait + Sync>(
    rt: &R,
    alloc: Global,
    letters: usize,
    observer: &Counter,
) -> Option<Result<(Finished<PlusTimes>, Trace), RanksFault>> {
    let (plan, stores) = doubling(alloc, 3)?;
    let capacity = Capacity::nearest(letters);
    Some(run_traced(rt, alloc, &plan, stores, capacity, observer))
}

/// Passes whichever allocation is refused, like the test of a run without a trace.
#[test]
fn refused_memory_is_answered_or_counted_with_a_trace(rt: HostRuntime) {
    let counter = Counter::new();
    let is_right = match ran_traced(&rt, rt.alloc(), 2, &counter) {
        Some(Ok((finished, trace))) => trace.len() == 8 && is_whole_or_lost(finished),
        Some(Err(fault)) => is_refusal(fault, &counter),
        None => true,
    };
    assert!(rt; is_right);
}
