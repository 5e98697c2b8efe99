//! A trace that threads write to.
ghost use Rattle.cb_trace.specs.Traces.{TraceView, IsTrace, Records};

use crate::events::TraceEvent;
use crate::traces::{Trace, TraceRefusal};
use std::sync::{Mutex, Wait};

/// A trace under a lock. Whoever takes the lock finds a legal list.
#[derive(Drop)]
pub struct SharedTrace {
    trace: Mutex<Trace>,
}

impl SharedTrace {
    /// A trace that threads may share. It takes no memory.
    pub fn new(trace: Trace) -> SharedTrace {
        SharedTrace {
            trace: Mutex::new(trace),
        }
    }

    /// Records an event as the last, and returns its place. It waits while another thread records.
    ///
    /// It finds the trace that the threads that had the lock before left. No clause says which trace that is.
    pub fn record<R: Wait>(&self, rt: &R, event: TraceEvent) -> Result<usize, TraceRefusal>
        ensures { (found : TraceView) × (left : TraceView) × IsTrace found × IsTrace left × Records event result found left }
    {
        let mut trace = self.trace.lock(rt);
        record_in(&mut trace, event)
    }

    /// The trace, once no thread shares it. It takes no memory.
    pub fn into_trace(self) -> Trace
        ensures { IsTrace result }
    {
        let trace = self.trace.into_inner();
        trace.len();
        trace
    }
}

/// Records an event as the last, and returns its place.
fn record_in(trace: &mut Trace, event: TraceEvent) -> Result<usize, TraceRefusal>
    ensures found { IsTrace trace.old }
    ensures left { IsTrace trace.new }
    ensures records { Records event result trace.old trace.new }
{
    let place = trace.len();
    let recorded = trace.record(event);
    trace.len();
    match recorded {
        Ok(()) => Ok(place),
        Err(refusal) => Err(refusal),
    }
}
