//! How a job ends: its answer's text has been written to a sink, or there is a fault.
//!
//! - `faults` says why a job has no answer, or why the answer wasn't written.
//! - `sinks` has what bytes are written to.
//! - `texts` has the bytes of a file, in the parts in which they were loaded.
//!
//! `IsEnd` (`specs/WriteEnds.antt`) is the one statement about a call that writes an answer.
#![tactic(auto)]

pub mod faults;
pub mod sinks;
pub mod texts;
