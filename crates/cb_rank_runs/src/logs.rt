//! The list that each rank of a traced run keeps of its own events, beside the shared trace.
ghost use Rattle.std.specs.Prelude.{◌≡◌, length, map, IfOk, IfSome, vec_len};
ghost use Rattle.cb_rank_runs.specs.Logs.{Keeps, AreNewLogs, AreWhole, lists_in};
ghost use Rattle.cb_rank_runs.specs.Rooms.{HasRoomFor};

use crate::observers::Observer;
use crate::recorders::Recorder;
use cb_plan::{Act, CheckedPlan};
use cb_semirings::Semiring;
use cb_trace::{SharedTrace, TraceEvent};
use std::alloc::{AllocError, Global};
use std::marker::PhantomData;
use std::sync::Wait;

/// One rank's own list of its events. Each is also recorded in the shared trace. If an event isn't recorded in both, the
/// log is torn.
#[derive(Drop)]
pub struct Log<'a, S: Semiring, O: Observer<S>> {
    rank: u16,
    trace: &'a SharedTrace,
    observer: &'a O,
    events: Vec<TraceEvent>,
    is_torn: bool,
    of: PhantomData<S>,
}

impl<'a, S: Semiring + Send, O: Observer<S>> Recorder for Log<'a, S, O> {
    ghost tells = { Keeps };

    fn tell<R: Wait>(&mut self, rt: &R, event: TraceEvent) {
        let Ok(place) = self.trace.record(rt, event) else {
            self.is_torn = true;
            return;
        };
        if self.events.push(event).is_err() {
            self.is_torn = true;
        }
        self.observer.recorded(self.rank, place);
    }
}

impl<'a, S: Semiring, O: Observer<S>> Log<'a, S, O> {
    /// A new log for each rank of a plan, with exactly the room that its program needs.
    pub fn open(
        alloc: Global,
        plan: &CheckedPlan,
        trace: &'a SharedTrace,
        observer: &'a O,
    ) -> Result<Vec<Log<'a, S, O>>, AllocError>
        ensures { IfOk result (λ logs. (length logs.items ≡ plan.now.ranks) × AreNewLogs logs.items) }
    {
        let mut logs = Vec::with_capacity(alloc, plan.ranks() as usize)?;
        for rank in 0..plan.ranks() {
            logs.push_reserved(Log {
                rank,
                trace,
                observer,
                events: Vec::with_capacity(alloc, told(plan, rank))?,
                is_torn: false,
                of: PhantomData,
            });
        }
        Ok(logs)
    }
}

/// The number of events of a plan's ranks: two for each act, except for work, which has none.
pub fn events_of(plan: &CheckedPlan) -> usize {
    let (acts, _) = plan.stored();
    let works = acts
        .iter()
        .filter(|act| matches!(act, Act::Work { .. }))
        .count();
    2 * plan.len().saturating_sub(works)
}

/// The number of events of a rank. Where all lanes are shut at the end, it is at an end of two for each other rank.
fn told(plan: &CheckedPlan, rank: u16) -> usize {
    let (acts, closes) = plan.stored();
    let told = acts.iter().filter(|act| is_told(act, rank)).count();
    if closes {
        told.saturating_add(2 * usize::from(plan.ranks().saturating_sub(1)))
    } else {
        told
    }
}

/// Whether this act gives the rank an event: the rank is at an end of the act's lane.
fn is_told(act: &Act, rank: u16) -> bool {
    match *act {
        Act::Move { from, to, .. } => from == rank || to == rank,
        Act::Work { .. } => false,
        Act::Shut { from, to } => from == rank || to == rank,
    }
}

/// The lists of these logs, in the room for them. None if a log is torn.
pub fn event_lists<S: Semiring, O: Observer<S>>(
    logs: Vec<Log<'_, S, O>>,
    room: Vec<Vec<TraceEvent>>,
) -> Option<Vec<Vec<TraceEvent>>>
    requires room { HasRoomFor (vec_len logs) room }
    ensures lists { IfSome result (λ lists. map (λ list. list.items) lists.items ≡ lists_in logs.entry.items) }
    ensures whole { IfSome result (λ _. AreWhole logs.entry.items) }
{
    let mut lists = room;
    for log in logs {
        if log.is_torn {
            return None;
        }
        lists.push_reserved(log.events);
    }
    Some(lists)
}
