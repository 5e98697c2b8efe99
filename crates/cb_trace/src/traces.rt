//! A legal list of events.
ghost use Rattle.std.specs.Prelude.{◌≡◌, ◌<◌, ◌≤◌, ◌↔◌, true, [], ◌∷◌, ◌++◌, ◌+◌, ◌*◌, length, map, get_or, IfOk, OnErr, IsErrOf};
ghost use Rattle.cb_trace.specs.Traces.{AreLegalEvents, AreOnLanes, MayRecord, AreLogsOf, events_by};
ghost use Rattle.cb_trace.specs.declared.traces.TraceRefusal.TheVariants.{Illegal, Room};

use crate::ends::LaneEnds;
use crate::events::{Envelope, TraceEvent};
use std::alloc::{AllocError, Global};
use std::marker::Model;
use thiserror::Error;

/// Why an event isn't recorded, in the order in which the reasons are checked.
#[derive(Clone, Copy, Debug, PartialEq, Eq, Error)]
pub enum TraceRefusal {
    /// It may not follow the events that are there, or it isn't on a lane between two of the ranks.
    #[error("not legal here")]
    Illegal,
    /// The trace is full.
    #[error("no room")]
    Room,
}

/// A legal list of events of a number of ranks, with room for a number of events.
#[derive(Drop)]
pub struct Trace {
    ranks: u16,
    room: usize,
    events: Vec<TraceEvent>,
    /// At the place of a letter's post, the place at which the lane's next letter was posted.
    next: Vec<usize>,
    /// The lane from rank f to rank t has number f * ranks + t.
    lanes: Vec<LaneEnds>,
}

impl Model for Trace {
    ghost use Rattle.cb_trace.specs.Traces.{TraceView};

    ghost Value = { TraceView };

    ghost use Rattle.std.specs.Prelude.{◌≡◌, ◌≤◌, map, length, vec_capacity};
    ghost use Rattle.cb_trace.specs.Traces.{IsTrace, event_of};
    ghost use Rattle.cb_trace.specs.Ends.{AreLanes};

    ghost view = { λ t. record { ranks = t.ranks; room = t.room; events = t.events.items } };

    ghost invariant = { λ t. IsTrace (record { ranks = t.ranks; room = t.room; events = t.events.items })
        × (t.room ≤ vec_capacity t.events)
        × (length t.next.items ≡ t.room)
        × AreLanes t.ranks (map event_of t.events.items) t.next.items t.lanes.items };
}

impl Trace {
    /// An empty trace of this many ranks, with room for this many events. It takes all the memory that it will ever
    /// need: a few words for each event and for each two ranks.
    pub fn with_room(alloc: Global, ranks: u16, room: usize) -> Result<Trace, AllocError>
        ensures { IfOk result (λ trace. trace ≡ record { ranks = ranks; room = room; events = [] }) }
    {
        let lanes = ranks as usize * ranks as usize;
        Ok(Trace {
            ranks,
            room,
            events: Vec::with_capacity(alloc, room)?,
            next: vec![in alloc; 0; room]?,
            lanes: vec![in alloc; LaneEnds::NEW; lanes]?,
        })
    }

    /// The number of ranks.
    pub fn ranks(&self) -> u16
        ensures { result ≡ self.now.ranks }
    {
        self.ranks
    }

    /// The number of events recorded.
    pub fn len(&self) -> usize
        ensures length { result ≡ length self.now.events }
        ensures legal { AreLegalEvents self.now.events }
        ensures lanes { AreOnLanes self.now.ranks self.now.events }
        ensures room { length self.now.events ≤ self.now.room }
    {
        self.events.len()
    }

    /// Whether no event was recorded.
    pub fn is_empty(&self) -> bool
        ensures { result ≡ true ↔ self.now.events ≡ [] }
    {
        self.events.is_empty()
    }

    /// The event at a place, from 0.
    pub fn event_at(&self, place: usize) -> TraceEvent
        requires { place < length self.now.events }
        ensures { (d : TraceEvent) → result ≡ get_or self.now.events place d }
    {
        self.events[place]
    }

    /// All events, in order.
    pub fn events(&self) -> &[TraceEvent]
        ensures { result.now ≡ self.now.events }
    {
        &self.events
    }

    /// Records an event as the last. The cost doesn't depend on how many are there, and no memory is taken. A refusal
    /// changes nothing.
    pub fn record(&mut self, event: TraceEvent) -> Result<(), TraceRefusal>
        ensures ok { IfOk result (λ _. self.new ≡ record self.old { events = self.old.events ++ event ∷ [] }) }
        ensures err { OnErr result (self.new ≡ self.old) }
        ensures illegal { IsErrOf result Illegal ↔ (MayRecord self.old event → ⊥) }
        ensures room { IsErrOf result Room ↔ (MayRecord self.old event × (length self.old.events ≡ self.old.room)) }
    {
        if !self.may_record(&event) {
            return Err(TraceRefusal::Illegal);
        }
        let place = self.events.len();
        if place == self.room {
            return Err(TraceRefusal::Room);
        }
        let lane = self.lane_of(&event.envelope());
        self.lanes[lane].record(&event, place, &mut self.next);
        self.events.push_reserved(event);
        Ok(())
    }

    /// The number of the lane from one rank to another.
    fn lane_of(&self, envelope: &Envelope) -> usize
        ensures { result ≡ envelope.now.from * self.now.ranks + envelope.now.to }
    {
        envelope.from as usize * self.ranks as usize + envelope.to as usize
    }

    /// Whether this event may be recorded next, room aside.
    fn may_record(&self, event: &TraceEvent) -> bool
        ensures { result ≡ true ↔ MayRecord self.now event.now }
    {
        let envelope = event.envelope();
        let Envelope {
            from,
            to,
            number,
            tag,
        } = envelope;
        if from >= self.ranks || to >= self.ranks || from == to {
            return false;
        }
        let lane = &self.lanes[self.lane_of(&envelope)];
        match event {
            TraceEvent::Posted(_) => lane.may_post(number),
            TraceEvent::Closed(_) => lane.may_post(number) && tag.0 == 0,
            TraceEvent::Took(_) => {
                lane.taken < lane.posted && self.events[lane.oldest] == TraceEvent::Posted(envelope)
            }
            TraceEvent::Ended(_) => {
                lane.taken < lane.posted && self.events[lane.oldest] == TraceEvent::Closed(envelope)
            }
        }
    }

    /// Whether these are the ranks' own lists of what they did, one for each rank in order: each has exactly the events of
    /// its rank in the trace, in order. It looks at each event once for each rank.
    pub fn matches(&self, logs: &[Vec<TraceEvent>]) -> bool
        ensures { result ≡ true ↔ AreLogsOf self.now (map (λ log. log.items) logs.now) }
    {
        if logs.len() != self.ranks as usize {
            return false;
        }
        for rank in 0..self.ranks {
            if !self.is_log_of(rank, &logs[rank as usize]) {
                return false;
            }
        }
        true
    }

    /// Whether this is the list of what a rank did.
    fn is_log_of(&self, rank: u16, log: &[TraceEvent]) -> bool
        ensures { result ≡ true ↔ (log.now ≡ events_by rank self.now.events) }
    {
        let mut rest = log;
        for event in self.events() {
            if event.rank() == rank {
                let [first, others @ ..] = rest else {
                    return false;
                };
                if first != event {
                    return false;
                }
                rest = others;
            }
        }
        rest.is_empty()
    }
}
