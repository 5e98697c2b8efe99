//! A thread for each rank, in one scope. The threads are started in order, and all are joined before the scope ends.
ghost use Rattle.std.specs.Prelude.{◌≡◌, ◌≤◌, length, map, IfOk, IfErr, OnOk, IfSome, IfNone, vec_len};
ghost use Rattle.std.specs.List.{AllZip};
ghost use Rattle.cb_rank_faults.specs.declared.RanksFault.TheVariants.{Memory};
ghost use Rattle.cb_plan.specs.Stores.{Fits};
ghost use Rattle.cb_rank_runs.specs.Crews.{AreNew, Ran};
ghost use Rattle.cb_rank_runs.specs.Finished.{FinishesPlan, LanesHold};
ghost use Rattle.cb_rank_runs.specs.NamedRanks.{IsFirstGone, IsOneOf, IsFaultOf, NamesLeast};
ghost use Rattle.cb_rank_runs.specs.Rooms.{HasRoomFor};
ghost use Rattle.cb_rank_runs.specs.Views.{finished_view};
ghost use Rattle.cb_rank_threads.specs.ThreadFaults.{ComesAfter, IsFaultIn};
ghost use Rattle.cb_rank_threads.specs.Started.{started, started_recorder};
ghost use Rattle.cb_rank_threads.specs.ThreadRooms.{IsRoomFor, HaveRoomFor};
ghost use Rattle.cb_rank_threads.specs.ToldCrews.{HaveTold, HaveToldPlan};
ghost use mathlib.Core.List.{IsPrefix};

use crate::crew_faults::CrewFault;
use crate::promises::Running;
use crate::rank_threads::{LeftAlone, NoThread, join, start};
use crate::rooms::Room;
use cb_letters::Capacity;
use cb_plan::{CheckedPlan, RankStore};
use cb_rank_faults::RanksFault;
use cb_rank_runs::{Finished, Member, Observer, Recorder, Remains, Silent, assemble};
use cb_semirings::Semiring;
use std::alloc::Global;
use std::sync::Wait;
use std::thread::{Scope, Threads};
use std::{mem, thread};

/// Runs each rank of a plan in a thread of its own, over lanes of `capacity` letters. If the result is `Ok`, every rank has
/// done its whole program, and the stores hold what the plan means. If a rank was refused memory for a block, the block
/// is lost, and counted as a refusal.
///
/// All memory is taken before the first thread is started, except for the ranks' own work and the threads. On a fault
/// the stores are dropped, once every thread has ended.
pub fn run_threads<S: Semiring + Send + Sync, R: Threads + Wait + Sync, O: Observer<S>>(
    rt: &R,
    alloc: Global,
    plan: &CheckedPlan,
    stores: Vec<RankStore<S>>,
    capacity: Capacity,
    observer: &O,
) -> Result<Finished<S>, RanksFault>
    requires { Fits plan.now.ranks plan.now.starts stores.items }
    ensures meaning { IfOk result (λ finished. FinishesPlan S.arithmetic plan.now stores.items (finished_view finished)) }
    ensures lanes { IfOk result (λ finished. LanesHold plan.now.ranks capacity (finished_view finished)) }
    ensures fault { IfErr result (IsFaultOf plan.now.ranks) }
    ensures least { IfErr result (NamesLeast S.arithmetic plan.now stores.items) }
{
    let mut recorders = vec![in alloc; Silent; plan.ranks() as usize]?;
    run_told(rt, alloc, plan, stores, capacity, observer, &mut recorders)
}

/// The same, with a recorder for each rank, which is told of the rank's events. If memory is refused, none was told of
/// anything.
pub(crate) fn run_told<
    S: Semiring + Send + Sync,
    R: Threads + Wait + Sync,
    O: Observer<S>,
    T: Recorder,
>(
    rt: &R,
    alloc: Global,
    plan: &CheckedPlan,
    stores: Vec<RankStore<S>>,
    capacity: Capacity,
    observer: &O,
    recorders: &mut Vec<T>,
) -> Result<Finished<S>, RanksFault>
    requires fits { Fits plan.now.ranks plan.now.starts stores.items }
    requires count { length recorders.old.items ≡ plan.now.ranks }
    ensures meaning { IfOk result (λ finished. FinishesPlan S.arithmetic plan.now stores.items (finished_view finished)) }
    ensures lanes { IfOk result (λ finished. LanesHold plan.now.ranks capacity (finished_view finished)) }
    ensures told { OnOk result (HaveToldPlan T.tells plan.now recorders.old.items recorders.new.items) }
    ensures unused { IfErr result (λ fault. fault ≡ Memory → recorders.new ≡ recorders.old) }
    ensures fault { IfErr result (IsFaultOf plan.now.ranks) }
    ensures least { IfErr result (NamesLeast S.arithmetic plan.now stores.items) }
{
    let ranks = plan.ranks() as usize;
    let crew = assemble(alloc, plan, stores, capacity)?;
    let room = Room::with_room(alloc, ranks)?;
    let remains = Remains::with_room(alloc, ranks)?;
    let unused = mem::replace(recorders, Vec::new(alloc));
    let (done, told) = run_crew(rt, crew, unused, room, observer)?;
    *recorders = told;
    Ok(remains.finish(done))
}

/// Starts a thread for each rank, in order. `room` has a place for each. If no thread can be started for a rank, that rank
/// is returned too. It and the later ones are dropped, so that a rank that waits for one of them finds it gone.
fn start_all<
    's,
    E,
    S: Semiring + Send + Sync + 's,
    R: Threads + Wait + Sync,
    O: Observer<S>,
    T: Recorder + 's,
>(
    scope: &Scope<'s, E>,
    rt: &'s R,
    crew: Vec<Member<S>>,
    recorders: Vec<T>,
    room: Vec<Running<S, T>>,
    observer: &'s O,
) -> (Vec<Running<S, T>>, Option<NoThread>)
    requires new { AreNew crew.items }
    requires recorders { length recorders.items ≡ length crew.items }
    requires room { HasRoomFor (vec_len crew) room }
    ensures all { IfNone result.1 (map started result.0.items ≡ crew.items) }
    ensures recorders { IfNone result.1 (map started_recorder result.0.items ≡ recorders.items) }
    ensures first { IsPrefix (map started result.0.items) crew.items }
    ensures few { vec_len result.0 ≤ vec_len crew }
    ensures missing { IfSome result.1 (λ none. IsOneOf crew.items none.rank) }
    ensures next { IfSome result.1 (λ none. ComesAfter crew.items (length result.0.items) none.rank) }
{
    let mut threads = room;
    for ((rank, desk), recorder) in crew.into_iter().zip(recorders) {
        match start(scope, rt, rank, desk, recorder, observer) {
            Ok(thread) => threads.push_reserved(thread),
            Err(none) => return (threads, Some(none)),
        }
    }
    (threads, None)
}

/// Joins all threads. `members` and `recorders` have a place for each. The error is the first rank that was left alone.
fn join_all<S: Semiring, R: Threads, T: Recorder>(
    rt: &R,
    threads: Vec<Running<S, T>>,
    members: Vec<Member<S>>,
    recorders: Vec<T>,
) -> Result<(Vec<Member<S>>, Vec<T>), LeftAlone>
    requires members { HasRoomFor (vec_len threads) members }
    requires recorders { HasRoomFor (vec_len threads) recorders }
    ensures ran { IfOk result (λ done. AllZip (Ran S.arithmetic) (map started threads.items) done.0.items) }
    ensures told { IfOk result (λ done. HaveTold T.tells (map started threads.items) (map started_recorder threads.items) done.1.items) }
    ensures gone { IfErr result (λ alone. IsFirstGone S.arithmetic (map started threads.items) alone.rank) }
{
    let mut members = members;
    let mut recorders = recorders;
    let mut gone = None;
    for running in threads {
        match join(rt, running) {
            Ok((member, recorder)) => {
                members.push_reserved(member);
                recorders.push_reserved(recorder);
            }
            Err(alone) => gone = gone.or(Some(alone)),
        }
    }
    match gone {
        None => Ok((members, recorders)),
        Some(alone) => Err(alone),
    }
}

/// Runs each rank over its desk in a thread of its own, and returns them with their recorders. It takes no memory, except
/// for the threads.
fn run_crew<S: Semiring + Send + Sync, R: Threads + Wait + Sync, O: Observer<S>, T: Recorder>(
    rt: &R,
    crew: Vec<Member<S>>,
    recorders: Vec<T>,
    room: Room<S, T>,
    observer: &O,
) -> Result<(Vec<Member<S>>, Vec<T>), CrewFault>
    requires new { AreNew crew.items }
    requires recorders { length recorders.items ≡ length crew.items }
    requires room { IsRoomFor (vec_len crew) room }
    ensures ran { IfOk result (λ done. AllZip (Ran S.arithmetic) crew.items done.0.items) }
    ensures told { IfOk result (λ done. HaveTold T.tells crew.items recorders.items done.1.items) }
    ensures fault { IfErr result (IsFaultIn S.arithmetic crew.items) }
{
    let Room {
        threads,
        members,
        told,
    } = room;
    thread::scope(
        thread::scope_env(),
        rt,
        move |scope| -> Result<(Vec<Member<S>>, Vec<T>), CrewFault>
            requires { AreNew crew.items × (length recorders.items ≡ length crew.items) × HaveRoomFor (vec_len crew) threads members told }
            ensures ran { IfOk result (λ done. AllZip (Ran S.arithmetic) crew.items done.0.items) }
            ensures told { IfOk result (λ done. HaveTold T.tells crew.items recorders.items done.1.items) }
            ensures fault { IfErr result (IsFaultIn S.arithmetic crew.items) }
        {
            let (threads, missing) = start_all(scope, rt, crew, recorders, threads, observer);
            // Even if one is missing, so that no thread outlives the call.
            let joined = join_all(rt, threads, members, told);
            match (missing, joined) {
                (Some(none), _) => Err(CrewFault::NotStarted(none)),
                (None, Err(alone)) => Err(CrewFault::Gone(alone)),
                (None, Ok(done)) => Ok(done),
            }
        },
    )
}
