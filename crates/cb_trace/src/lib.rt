//! A trace: the list of what ranks did at their ends of lanes, in an order that is legal at every moment.
//!
//! A [`TraceEvent`] says that a letter was posted or taken, or that a lane was closed or came to its end. It keeps the
//! letter's [`Envelope`], not what the letter carried. A [`Trace`] accepts an event only if it may follow those that
//! are there, by the rules of lanes. So each letter in it is taken at most once, by its addressee alone, per sender in
//! posting order, and nothing is posted after a close. A [`SharedTrace`] is a trace that threads write to, one at a
//! time.
//!
//! `specs/Traces` says which lists of events are legal.
#![tactic(auto)]

mod ends;
mod events;
mod shared;
mod traces;

pub use events::{Envelope, TraceEvent};
pub use shared::SharedTrace;
pub use traces::{Trace, TraceRefusal};
