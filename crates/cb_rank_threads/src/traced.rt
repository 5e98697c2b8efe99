//! A run in threads that keeps a trace.
ghost use Rattle.std.specs.Prelude.{map, IfOk, IfErr};
ghost use Rattle.cb_plan.specs.Stores.{Fits};
ghost use Rattle.cb_rank_runs.specs.Finished.{FinishesPlan, LanesHold};
ghost use Rattle.cb_rank_runs.specs.NamedRanks.{NamesLeast};
ghost use Rattle.cb_rank_runs.specs.Views.{finished_view};
ghost use Rattle.cb_rank_threads.specs.ThreadFaults.{IsTracedFaultOf};
ghost use Rattle.cb_rank_threads.specs.Traced.{AreOfProgram, HasProgram};

use crate::threads::run_told;
use cb_letters::Capacity;
use cb_plan::{CheckedPlan, RankStore};
use cb_rank_faults::RanksFault;
use cb_rank_runs::{Finished, Log, Observer, event_lists, events_of};
use cb_semirings::Semiring;
use cb_trace::{SharedTrace, Trace, TraceEvent};
use std::alloc::Global;
use std::sync::Wait;
use std::thread::Threads;

/// Runs each rank of a plan in a thread of its own, as [`run_threads`](crate::run_threads) does, and keeps a trace. Each
/// rank records its posts and closes just before it does them, and its takes and ends just after, each under the lock of
/// the trace, and also in a list of its own. The trace is returned only if each rank's events in it are that list, which
/// is what the rank's program does at its lanes.
///
/// Besides the memory that `run_threads` takes, the trace and the ranks' lists each have room for two events of each act,
/// except for work. It is taken before the first thread is started. At the end each rank's list is compared with the
/// trace, which looks at each event once for each rank.
pub fn run_traced<S: Semiring + Send + Sync, R: Threads + Wait + Sync, O: Observer<S>>(
    rt: &R,
    alloc: Global,
    plan: &CheckedPlan,
    stores: Vec<RankStore<S>>,
    capacity: Capacity,
    observer: &O,
) -> Result<(Finished<S>, Trace), RanksFault>
    requires { Fits plan.now.ranks plan.now.starts stores.items }
    ensures meaning { IfOk result (λ done. FinishesPlan S.arithmetic plan.now stores.items (finished_view done.0)) }
    ensures lanes { IfOk result (λ done. LanesHold plan.now.ranks capacity (finished_view done.0)) }
    ensures trace { IfOk result (λ done. HasProgram plan.now done.1) }
    ensures fault { IfErr result (IsTracedFaultOf plan.now.ranks) }
    ensures least { IfErr result (NamesLeast S.arithmetic plan.now stores.items) }
{
    let trace = SharedTrace::new(Trace::with_room(alloc, plan.ranks(), events_of(plan))?);
    let (finished, lists) = run_logged(rt, alloc, plan, stores, capacity, observer, &trace)?;
    let trace = trace.into_trace();
    if !trace.matches(&lists) {
        return Err(RanksFault::TraceTorn);
    }
    Ok((finished, trace))
}

/// The same with a given trace, which has room for all events. It returns the ranks' own lists of what they recorded.
fn run_logged<S: Semiring + Send + Sync, R: Threads + Wait + Sync, O: Observer<S>>(
    rt: &R,
    alloc: Global,
    plan: &CheckedPlan,
    stores: Vec<RankStore<S>>,
    capacity: Capacity,
    observer: &O,
    trace: &SharedTrace,
) -> Result<(Finished<S>, Vec<Vec<TraceEvent>>), RanksFault>
    requires { Fits plan.now.ranks plan.now.starts stores.items }
    ensures meaning { IfOk result (λ done. FinishesPlan S.arithmetic plan.now stores.items (finished_view done.0)) }
    ensures lanes { IfOk result (λ done. LanesHold plan.now.ranks capacity (finished_view done.0)) }
    ensures lists { IfOk result (λ done. AreOfProgram plan.now (map (λ list. list.items) done.1.items)) }
    ensures fault { IfErr result (IsTracedFaultOf plan.now.ranks) }
    ensures least { IfErr result (NamesLeast S.arithmetic plan.now stores.items) }
{
    let mut logs = Log::open(alloc, plan, trace, observer)?;
    let room = Vec::with_capacity(alloc, logs.len())?;
    let finished = run_told(rt, alloc, plan, stores, capacity, observer, &mut logs)?;
    let Some(lists) = event_lists(logs, room) else {
        return Err(RanksFault::TraceTorn);
    };
    Ok((finished, lists))
}
