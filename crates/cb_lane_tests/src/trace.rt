//! Worked examples of traces, with the events that they accept and refuse, and a trace that threads write to.
use cb_letters::Tag;
use cb_trace::{Envelope, SharedTrace, Trace, TraceEvent, TraceRefusal};
use std::alloc::{AllocError, Global};
use std::sync::Wait;
use std::thread;
use std::thread::Threads;

const LEGAL: Result<(), TraceRefusal> = Ok(());

const ILLEGAL: Result<(), TraceRefusal> = Err(TraceRefusal::Illegal);

const NO_ROOM: Result<(), TraceRefusal> = Err(TraceRefusal::Room);

/// An event, and how it is answered.
type Row = (TraceEvent, Result<(), TraceRefusal>);

/// The event of this kind on a lane, of the letter with this number and this tag.
macro_rules! event {
    ($kind:ident, $from:expr, $to:expr, $number:expr, $tag:expr) => {
        TraceEvent::$kind(Envelope {
            from: $from,
            to: $to,
            number: $number,
            tag: Tag($tag),
        })
    };
}

/// Whether each event is answered as expected.
fn records(trace: &mut Trace, rows: &[Row]) -> bool {
    let mut as_expected = true;
    for (event, answer) in rows {
        as_expected &= trace.record(*event) == *answer;
    }
    as_expected
}

/// A new trace of this many ranks, with room for this many events, after these events, if each is answered as expected.
fn recorded(alloc: Global, ranks: u16, room: usize, rows: &[Row]) -> Option<Trace> {
    let mut trace = Trace::with_room(alloc, ranks, room).ok()?;
    let is_new = trace.is_empty();
    if is_new & records(&mut trace, rows) {
        Some(trace)
    } else {
        None
    }
}

/// A letter is posted and taken, and its lane is closed.
const LETTER: &[Row] = &[
    (event!(Took, 0, 1, 0, 0), ILLEGAL),
    (event!(Posted, 0, 1, 0, 7), LEGAL),
    (event!(Posted, 0, 1, 0, 7), ILLEGAL),
    (event!(Took, 0, 1, 0, 7), LEGAL),
    (event!(Took, 0, 1, 0, 7), ILLEGAL),
    (event!(Closed, 0, 1, 1, 0), LEGAL),
    (event!(Ended, 0, 1, 1, 0), LEGAL),
];

/// The events of these that are legal.
const EVENTS: &[TraceEvent] = &[
    event!(Posted, 0, 1, 0, 7),
    event!(Took, 0, 1, 0, 7),
    event!(Closed, 0, 1, 1, 0),
    event!(Ended, 0, 1, 1, 0),
];

/// Whether a trace of two ranks has these events, and the last three read back one by one.
fn reads_back(trace: &Trace) -> bool {
    if trace.len() != 4 {
        return false;
    }
    let (letter, mark, end) = (trace.event_at(1), trace.event_at(2), trace.event_at(3));
    let mut as_expected = TraceEvent::Took(letter.envelope()) == event!(Took, 0, 1, 0, 7);
    as_expected &= mark == event!(Closed, 0, 1, 1, 0);
    as_expected &= mark.rank() == 0;
    as_expected &= end.rank() == 1;
    as_expected &= trace.ranks() == 2;
    as_expected & (!trace.is_empty() && trace.events() == EVENTS)
}

/// Whether the trace of the letter does.
fn letter_reads_back(alloc: Global) -> Option<bool> {
    let trace = recorded(alloc, 2, 4, LETTER)?;
    Some(reads_back(&trace))
}

#[test]
fn a_letter_is_posted_taken_and_the_lane_closed(rt: HostRuntime) {
    assert!(rt; letter_reads_back(rt.alloc()) == Some(true));
}

const INTERLEAVED: &[Row] = &[
    (event!(Posted, 0, 1, 0, 5), LEGAL),
    (event!(Posted, 2, 1, 0, 6), LEGAL),
    (event!(Posted, 0, 1, 1, 7), LEGAL),
    (event!(Posted, 1, 0, 0, 8), LEGAL),
    (event!(Posted, 2, 1, 1, 9), LEGAL),
    (event!(Took, 2, 1, 0, 6), LEGAL),
    (event!(Took, 0, 1, 1, 7), ILLEGAL),
    (event!(Took, 0, 1, 0, 5), LEGAL),
    (event!(Posted, 0, 1, 2, 4), LEGAL),
    (event!(Took, 0, 1, 1, 7), LEGAL),
    (event!(Took, 0, 1, 2, 4), LEGAL),
    (event!(Took, 0, 1, 3, 4), ILLEGAL),
    (event!(Took, 2, 1, 1, 9), LEGAL),
    (event!(Took, 1, 0, 0, 8), LEGAL),
    (event!(Took, 0, 1, 3, 4), ILLEGAL),
];

const CLOSED: &[Row] = &[
    (event!(Posted, 0, 1, 0, 7), LEGAL),
    (event!(Closed, 0, 1, 1, 3), ILLEGAL),
    (event!(Closed, 0, 1, 0, 0), ILLEGAL),
    (event!(Closed, 0, 1, 1, 0), LEGAL),
    (event!(Posted, 0, 1, 2, 7), ILLEGAL),
    (event!(Closed, 0, 1, 2, 0), ILLEGAL),
    (event!(Ended, 0, 1, 1, 0), ILLEGAL),
    (event!(Took, 0, 1, 0, 7), LEGAL),
    (event!(Ended, 0, 1, 1, 0), LEGAL),
    (event!(Ended, 0, 1, 1, 0), ILLEGAL),
    (event!(Posted, 1, 0, 0, 7), LEGAL),
];

const OLDEST: &[Row] = &[
    (event!(Posted, 0, 1, 0, 7), LEGAL),
    (event!(Took, 0, 1, 0, 8), ILLEGAL),
    (event!(Took, 0, 1, 1, 7), ILLEGAL),
    (event!(Ended, 0, 1, 0, 0), ILLEGAL),
    (event!(Ended, 0, 1, 0, 7), ILLEGAL),
    (event!(Took, 1, 0, 0, 7), ILLEGAL),
    (event!(Took, 0, 1, 0, 7), LEGAL),
    (event!(Closed, 0, 1, 1, 0), LEGAL),
    (event!(Took, 0, 1, 1, 0), ILLEGAL),
    (event!(Ended, 0, 1, 1, 0), LEGAL),
];

const STRANGERS: &[Row] = &[
    (event!(Posted, 0, 0, 0, 7), ILLEGAL),
    (event!(Posted, 2, 1, 0, 7), ILLEGAL),
    (event!(Posted, 1, 2, 0, 7), ILLEGAL),
    (event!(Posted, 1, 0, 0, 7), LEGAL),
    (event!(Posted, 1, 0, 1, 7), NO_ROOM),
    (event!(Posted, 1, 1, 0, 7), ILLEGAL),
    (event!(Posted, 1, 0, 2, 7), ILLEGAL),
];

/// What is shown, how many ranks the trace has, its room, what happens, and how many events it has then.
type Script = (&'static str, u16, usize, &'static [Row], usize);

const SCRIPTS: [Script; 5] = [
    ("lanes interleave", 3, 12, INTERLEAVED, 12),
    ("nothing is posted after a close", 2, 8, CLOSED, 5),
    (
        "the oldest letter is taken as it was posted",
        2,
        8,
        OLDEST,
        4,
    ),
    (
        "a lane is between two ranks of the trace",
        2,
        1,
        STRANGERS,
        1,
    ),
    (
        "no ranks",
        0,
        1,
        &[(event!(Posted, 0, 1, 0, 7), ILLEGAL)],
        0,
    ),
];

/// What the first script with an unexpected answer is to show.
fn wrong_script(alloc: Global) -> Option<&'static str> {
    for (shown, ranks, room, rows, len) in &SCRIPTS {
        match recorded(alloc, *ranks, *room, rows) {
            Some(trace) if trace.len() == *len => {}
            _ => return Some(*shown),
        }
    }
    None
}

#[test]
fn events_are_legal_or_refused(rt: HostRuntime) {
    assert!(rt; wrong_script(rt.alloc()).is_none());
}

/// Whether the trace matches the logs of its two ranks.
fn is_matched(
    alloc: Global,
    trace: &Trace,
    first: &[TraceEvent],
    second: &[TraceEvent],
) -> Option<bool> {
    let first = Vec::from_slice(alloc, first).ok()?;
    let second = Vec::from_slice(alloc, second).ok()?;
    let logs = vec![in alloc; first, second].ok()?;
    Some(trace.matches(&logs))
}

/// A letter that is posted and taken on a lane that is then closed.
const SENT: TraceEvent = event!(Posted, 0, 1, 0, 7);

const GOT: TraceEvent = event!(Took, 0, 1, 0, 7);

const SHUT: TraceEvent = event!(Closed, 0, 1, 1, 0);

/// The same letter with another tag.
const OTHER: TraceEvent = event!(Posted, 0, 1, 0, 8);

/// The trace of two ranks with these three events.
const SMALL: &[Row] = &[(SENT, LEGAL), (SHUT, LEGAL), (GOT, LEGAL)];

/// A name for what is wrong with the logs of two ranks, the logs, and whether the trace matches them.
type Logs = (
    &'static str,
    &'static [TraceEvent],
    &'static [TraceEvent],
    bool,
);

const LOGS: [Logs; 7] = [
    ("nothing", &[SENT, SHUT], &[GOT], true),
    ("too short", &[SENT], &[GOT], false),
    ("an empty log", &[SENT, SHUT], &[], false),
    ("too long", &[SENT, SHUT], &[GOT, GOT], false),
    ("another order", &[SHUT, SENT], &[GOT], false),
    ("another rank's", &[GOT], &[SENT, SHUT], false),
    ("another tag", &[OTHER, SHUT], &[GOT], false),
];

/// The name of the first row with an unexpected answer.
fn wrong_logs(alloc: Global, trace: &Trace) -> Option<&'static str> {
    for (name, first, second, answer) in &LOGS {
        if is_matched(alloc, trace, first, second) != Some(*answer) {
            return Some(*name);
        }
    }
    None
}

/// Whether the trace matches if the second log is missing.
fn matches_one_log(alloc: Global, trace: &Trace) -> Option<bool> {
    let first = Vec::from_slice(alloc, &[SENT, SHUT]).ok()?;
    let one = vec![in alloc; first].ok()?;
    Some(trace.matches(&one))
}

/// Whether the small trace matches the right logs alone.
fn matches_whole_logs(alloc: Global) -> Option<bool> {
    let trace = recorded(alloc, 2, 4, SMALL)?;
    let is_matched = matches_one_log(alloc, &trace)?;
    Some(!is_matched && wrong_logs(alloc, &trace).is_none())
}

#[test]
fn logs_match_as_a_whole(rt: HostRuntime) {
    assert!(rt; matches_whole_logs(rt.alloc()) == Some(true));
}

/// Records letters from one rank to the other, each posted and taken.
fn post_some<R: Wait>(rt: &R, shared: &SharedTrace, from: u16, to: u16) -> bool {
    let mut all = true;
    for number in 0..50 {
        all &= shared
            .record(rt, event!(Posted, from, to, number, 7))
            .is_ok();
        all &= shared.record(rt, event!(Took, from, to, number, 7)).is_ok();
    }
    all
}

/// Whether two threads record their letters at once.
fn record_at_once<R: Threads + Wait + Sync>(rt: &R, shared: &SharedTrace) -> bool {
    let (first, second) = thread::join(
        rt,
        || post_some(rt, shared, 0, 1),
        || post_some(rt, shared, 1, 0),
    );
    first && second
}

/// Whether an event that isn't legal is then refused, and there is room for one more.
fn fills_up<R: Wait>(rt: &R, shared: &SharedTrace) -> bool {
    let illegal = shared.record(rt, event!(Posted, 0, 1, 0, 7));
    let last = shared.record(rt, event!(Posted, 0, 1, 50, 7));
    let full = shared.record(rt, event!(Took, 0, 1, 50, 7));
    illegal == Err(TraceRefusal::Illegal) && last == Ok(200) && full == Err(TraceRefusal::Room)
}

/// How many events a trace has in the end.
fn shared_by_threads<R: Threads + Wait + Sync>(rt: &R, alloc: Global) -> Option<usize> {
    let trace = Trace::with_room(alloc, 2, 201).ok()?;
    let shared = SharedTrace::new(trace);
    let as_expected = record_at_once(rt, &shared) & fills_up(rt, &shared);
    let len = shared.into_trace().len();
    if as_expected { Some(len) } else { None }
}

#[test]
fn threads_record_at_once(rt: HostRuntime) {
    assert!(rt; shared_by_threads(&rt, rt.alloc()) == Some(201));
}

/// Passes whichever single growth is refused.
#[test]
fn refused_memory_makes_no_trace(rt: HostRuntime) {
    let is_right = match Trace::with_room(rt.alloc(), 3, 5) {
        Ok(trace) => trace.ranks() == 3 && trace.is_empty(),
        Err(AllocError) => true,
    };
    assert!(rt; is_right);
}
