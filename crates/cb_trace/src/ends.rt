//! What a trace keeps of a lane's two ends.
ghost use Rattle.std.specs.Prelude.{◌≡◌, ◌↔◌, true, false, ◌+◌, ◌<◌, ◌^◌, length};
ghost use Rattle.cb_trace.specs.Ends.{lane_after, next_after, after_post, next_after_post, after_take, IsWithin};

use crate::events::TraceEvent;

/// The state of a lane at its two ends. Its letters form a chain through the events: from the place of the oldest that
/// wasn't taken, each leads to the next that was posted.
#[derive(Clone, Copy, Drop)]
pub struct LaneEnds {
    /// The number of letters posted, a close mark included, and the number of those taken.
    pub posted: u64,
    pub taken: u64,
    pub is_closed: bool,
    /// Where in the trace the oldest letter that wasn't taken was posted, if there is one.
    pub oldest: usize,
    /// Where in the trace the newest letter was posted, if there is one.
    pub newest: usize,
}

impl LaneEnds {
    /// A lane on which nothing was posted.
    pub const NEW: LaneEnds = LaneEnds {
        posted: 0,
        taken: 0,
        is_closed: false,
        oldest: 0,
        newest: 0,
    };

    /// Whether a letter with this number may be posted.
    pub fn may_post(&self, number: u64) -> bool
        ensures { result ≡ true ↔ ((self.now.is_closed ≡ false) × (number ≡ self.now.posted)) }
    {
        !self.is_closed && number == self.posted
    }

    /// Records an event of this lane at this place of the trace. `next` has, at the place of a letter's post, the place
    /// at which the lane's next letter was posted.
    pub fn record(&mut self, event: &TraceEvent, place: usize, next: &mut [usize])
        requires posted { self.old.posted + 1 < 2 ^ 64 }
        requires taken { self.old.taken + 1 < 2 ^ 64 }
        requires within { IsWithin event.now self.old (length next.old) }
        ensures lane { self.new ≡ lane_after event.now place next.old self.old }
        ensures next { next.new ≡ next_after event.now place self.old next.old }
    {
        match event {
            TraceEvent::Posted(_) => self.post(place, false, next),
            TraceEvent::Closed(_) => self.post(place, true, next),
            TraceEvent::Took(_) => self.take(next),
            TraceEvent::Ended(_) => self.take(next),
        }
    }

    fn post(&mut self, place: usize, is_close: bool, next: &mut [usize])
        requires posted { self.old.posted + 1 < 2 ^ 64 }
        requires newest { 0 < self.old.posted → self.old.newest < length next.old }
        ensures lane { self.new ≡ after_post self.old place is_close }
        ensures next { next.new ≡ next_after_post self.old place next.old }
    {
        if self.posted > 0 {
            next[self.newest] = place;
        }
        if self.taken == self.posted {
            self.oldest = place;
        }
        self.newest = place;
        self.posted += 1;
        self.is_closed = is_close;
    }

    fn take(&mut self, next: &[usize])
        requires taken { self.old.taken + 1 < 2 ^ 64 }
        requires oldest { self.old.oldest < length next.now }
        ensures { self.new ≡ after_take self.old next.now }
    {
        self.taken += 1;
        self.oldest = next[self.oldest];
    }
}
