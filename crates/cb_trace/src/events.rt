//! What a trace keeps of a post and of a take.
ghost use Rattle.std.specs.Prelude.{◌≡◌};
ghost use Rattle.cb_trace.specs.Traces.{envelope_of, owner};

use cb_letters::Tag;

/// Identifies a letter: the ranks that it goes from and to, its number on the lane between them, and its tag. A close
/// mark has tag 0. (The source, the destination and the tag of a message are its envelope in MPI: A Message-Passing
/// Interface Standard, section 3.2.3.)
#[derive(Clone, Copy, Debug, PartialEq, Eq, Drop)]
pub struct Envelope {
    pub from: u16,
    pub to: u16,
    pub number: u64,
    pub tag: Tag,
}

/// What a rank did at its end of a lane.
#[derive(Clone, Copy, Debug, PartialEq, Eq, Drop)]
pub enum TraceEvent {
    /// A letter was posted.
    Posted(Envelope),
    /// A letter was taken.
    Took(Envelope),
    /// The lane was closed: its close mark was posted.
    Closed(Envelope),
    /// The lane came to its end: its close mark was taken.
    Ended(Envelope),
}

impl TraceEvent {
    /// The envelope of the letter, or of the close mark.
    pub fn envelope(&self) -> Envelope
        ensures { result ≡ envelope_of self.now }
    {
        match self {
            TraceEvent::Posted(envelope) => *envelope,
            TraceEvent::Took(envelope) => *envelope,
            TraceEvent::Closed(envelope) => *envelope,
            TraceEvent::Ended(envelope) => *envelope,
        }
    }

    /// The rank that did it: the sender posts and closes, the addressee takes and sees the end.
    pub fn rank(&self) -> u16
        ensures { result ≡ owner self.now }
    {
        match self {
            TraceEvent::Posted(envelope) => envelope.from,
            TraceEvent::Took(envelope) => envelope.to,
            TraceEvent::Closed(envelope) => envelope.from,
            TraceEvent::Ended(envelope) => envelope.to,
        }
    }
}
