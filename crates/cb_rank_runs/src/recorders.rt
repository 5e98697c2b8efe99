//! Recorders of what a rank does at its ends of lanes.
ghost use Rattle.std.specs.Prelude.{⊤};
ghost use Rattle.cb_trace.specs.declared.events.TraceEvent.{TraceEvent};

use cb_trace::TraceEvent;
use std::sync::Wait;

/// Is told of each post and close of a rank before it is done, and of each take and end after it is done.
pub trait Recorder: Drop + Send {
    /// How a recorder may change when it is told of an event.
    ghost tells: { Self → TraceEvent → Self → Type 0 };

    /// Tells the recorder of an event.
    fn tell<R: Wait>(&mut self, rt: &R, event: TraceEvent)
        ensures { tells self.old event self.new };
}

/// A recorder that keeps nothing.
#[derive(Clone, Copy, Drop)]
pub struct Silent;

impl Recorder for Silent {
    ghost tells = { λ _ _ _. ⊤ };

    fn tell<R: Wait>(&mut self, _rt: &R, _event: TraceEvent) {}
}
