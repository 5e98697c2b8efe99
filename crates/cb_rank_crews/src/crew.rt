//! All workers of a crew, and how they run a plan.
ghost use Rattle.std.specs.Prelude.{◌≡◌, ◌≤◌, length, map, IfOk, IfErr, IfNone, IfSome, vec_len};
ghost use Rattle.std.specs.List.{AllZip};
ghost use Rattle.cb_rank_runs.specs.Crews.{AreNew, Ran};
ghost use Rattle.cb_rank_runs.specs.NamedRanks.{IsFirstGone};
ghost use Rattle.cb_rank_runs.specs.Rooms.{HasRoomFor};
ghost use Rattle.cb_rank_crews.specs.Backs.{IsNext, was_given};
ghost use Rattle.cb_rank_crews.specs.Crews.{given, size};
ghost use Rattle.cb_rank_crews.specs.CrewRooms.{IsRoomFor};

use crate::messages::Naming;
use crate::rooms::Room;
use crate::workers::{Back, Busy, Idle};
use cb_letters::Capacity;
use cb_plan::{CheckedPlan, RankStore};
use cb_rank_faults::RanksFault;
use cb_rank_runs::{Finished, Member, Remains, assemble};
use cb_semirings::Semiring;
use std::alloc::Global;
use std::mem;
use std::sync::Wait;

/// The workers of a crew, each a thread that sleeps until it gets a rank to run. Once the crew is dropped, its threads
/// end.
#[derive(Drop)]
pub struct Crew<S: Semiring, J: Naming> {
    pub(crate) idle: Vec<Idle<S, J>>,
}

impl<S: Semiring, J: Naming> Crew<S, J> {
    ghost use Rattle.std.specs.Prelude.{◌≢◌, OnOk};
    ghost use Rattle.cb_rank_faults.specs.declared.RanksFault.TheVariants.{Memory};
    ghost use Rattle.cb_plan.specs.Stores.{Fits};
    ghost use Rattle.cb_rank_runs.specs.Finished.{FinishesPlan, LanesHold};
    ghost use Rattle.cb_rank_runs.specs.NamedRanks.{IsFaultOf, NamesLeast};
    ghost use Rattle.cb_rank_runs.specs.Views.{finished_view};

    /// How many workers there are.
    pub fn workers(&self) -> usize
        ensures { result ≡ size self.now }
    {
        self.idle.len()
    }

    /// Runs each rank of a plan by the worker of its number, over lanes of `capacity` letters, and waits for all. If
    /// the result is `Ok`, every rank has done its whole program, and the stores hold what the plan means. If a rank
    /// was refused memory for a block, the block is lost, and counted as a refusal.
    ///
    /// All memory is taken before the first rank is given away, except for the ranks' own work. No thread is started.
    /// If memory is refused, the crew is as it was. If a rank is gone, all others are waited for, and the crew is spent: it
    /// has no workers, and its threads end. On a fault the stores are dropped. `Gone` has the least rank of which nothing
    /// is left.
    pub fn run_plan<R: Wait>(
        &mut self,
        rt: &R,
        alloc: Global,
        plan: &CheckedPlan,
        stores: Vec<RankStore<S>>,
        capacity: Capacity,
    ) -> Result<Finished<S>, RanksFault>
        requires fits { Fits plan.now.ranks plan.now.starts stores.items }
        requires workers { size self.old ≡ plan.now.ranks }
        ensures meaning { IfOk result (λ finished. FinishesPlan S.arithmetic plan.now stores.items (finished_view finished)) }
        ensures lanes { IfOk result (λ finished. LanesHold plan.now.ranks capacity (finished_view finished)) }
        ensures size { OnOk result (size self.new ≡ size self.old) }
        ensures untouched { IfErr result (λ fault. fault ≡ Memory → self.new ≡ self.old) }
        ensures spent { IfErr result (λ fault. fault ≢ Memory → size self.new ≡ 0) }
        ensures fault { IfErr result (IsFaultOf plan.now.ranks) }
        ensures least { IfErr result (NamesLeast S.arithmetic plan.now stores.items) }
    {
        let ranks = plan.ranks() as usize;
        let crew = assemble(alloc, plan, stores, capacity)?;
        let room = Room::with_room(alloc, ranks)?;
        let remains = Remains::with_room(alloc, ranks)?;
        let idle = mem::replace(&mut self.idle, Vec::new(alloc));
        match run_all(rt, idle, crew, room) {
            Ok((idle, done)) => {
                self.idle = idle;
                Ok(remains.finish(done))
            }
            Err(number) => Err(RanksFault::Gone(number)),
        }
    }
}

/// Gives each worker a rank, and waits for all that have one. The error is the first rank of which nothing is left.
fn run_all<S: Semiring, J: Naming, R: Wait>(
    rt: &R,
    idle: Vec<Idle<S, J>>,
    crew: Vec<Member<S>>,
    room: Room<S, J>,
) -> Result<(Vec<Idle<S, J>>, Vec<Member<S>>), u16>
    requires new { AreNew crew.items }
    requires count { length idle.items ≡ length crew.items }
    requires room { IsRoomFor (vec_len crew) room }
    ensures ran { IfOk result (λ done. AllZip (Ran S.arithmetic) crew.items done.1.items) }
    ensures size { IfOk result (λ done. length done.0.items ≡ length crew.items) }
    ensures gone { IfErr result (IsFirstGone S.arithmetic crew.items) }
{
    let Room {
        busy,
        back,
        rested,
        members,
    } = room;
    let (busy, lost) = give_all(idle, crew, busy);
    // Even if one is lost, so that no rank is still run when the call returns.
    let done = gather(wait_all(rt, busy, back), rested, members)?;
    match lost {
        None => Ok(done),
        Some(number) => Err(number),
    }
}

/// Gives each worker a rank, into the room for so many. If a rank can't be given to its worker, its number is returned
/// too, and the later ones are dropped.
fn give_all<S: Semiring, J: Naming>(
    idle: Vec<Idle<S, J>>,
    crew: Vec<Member<S>>,
    room: Vec<Busy<S, J>>,
) -> (Vec<Busy<S, J>>, Option<u16>)
    requires new { AreNew crew.items }
    requires count { length idle.items ≡ length crew.items }
    requires room { HasRoomFor (vec_len crew) room }
    ensures all { IfNone result.1 (map given result.0.items ≡ crew.items) }
    ensures lost { IfSome result.1 (IsNext crew.items (map given result.0.items)) }
    ensures few { vec_len result.0 ≤ vec_len crew }
{
    let mut busy = room;
    for ((rank, desk), worker) in crew.into_iter().zip(idle) {
        match worker.give(rank, desk) {
            Ok(worker) => busy.push_reserved(worker),
            Err(number) => return (busy, Some(number)),
        }
    }
    (busy, None)
}

/// Waits for each worker, into the room for so many.
fn wait_all<S: Semiring, J: Naming, R: Wait>(
    rt: &R,
    busy: Vec<Busy<S, J>>,
    room: Vec<Back<S, J>>,
) -> Vec<Back<S, J>>
    requires { HasRoomFor (vec_len busy) room }
    ensures { map was_given result.items ≡ map given busy.items }
{
    let mut back = room;
    for worker in busy {
        back.push_reserved(worker.wait(rt));
    }
    back
}

/// The workers and what is left of their ranks, into the room for so many. The error is the first rank of which nothing is
/// left.
fn gather<S: Semiring, J: Naming>(
    back: Vec<Back<S, J>>,
    idle: Vec<Idle<S, J>>,
    members: Vec<Member<S>>,
) -> Result<(Vec<Idle<S, J>>, Vec<Member<S>>), u16>
    requires idle { HasRoomFor (vec_len back) idle }
    requires members { HasRoomFor (vec_len back) members }
    ensures ran { IfOk result (λ done. AllZip (Ran S.arithmetic) (map was_given back.items) done.1.items) }
    ensures size { IfOk result (λ done. length done.0.items ≡ length back.items) }
    ensures gone { IfErr result (IsFirstGone S.arithmetic (map was_given back.items)) }
{
    let mut idle = idle;
    let mut members = members;
    for one in back {
        match one.into_left() {
            Ok((worker, member)) => {
                idle.push_reserved(worker);
                members.push_reserved(member);
            }
            Err(number) => return Err(number),
        }
    }
    Ok((idle, members))
}
