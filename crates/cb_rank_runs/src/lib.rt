//! Ranks that run apart: each does its own program over its desk, and together they leave what the plan means.
//!
//! A rank is run on a thread that owns it, with its slots, and its desk, with its ends of the lanes. What goes from one
//! rank to another goes in a letter: a block that is lent, which nobody changes as long as it is.
//!
//! - [`assemble`] makes the ranks of a plan, each with its desk.
//! - [`run_rank`] does one rank's halves in order on its caller's thread. Before each half it calls the [`Observer`]. A half
//!   waits while its lane has no room for its letter, or no letter for it. A rank that finds another one gone gives up,
//!   and is dropped. [`run_recorded`] also tells a [`Recorder`] what the rank posts and takes. A [`Log`] records that in a
//!   shared trace and in a list of the rank's own.
//! - [`Remains::finish`] takes what the ranks left, and compares both ends of each lane.
//!
//! What the ranks leave follows from what each did by itself and from what lanes guarantee: what was taken is a prefix of
//! what was posted. The interleaving of the threads doesn't matter. No contract claims that a run terminates.
#![tactic(auto)]

mod crew;
mod finished;
mod logs;
mod observers;
mod recorders;
mod runs;

pub use crew::{Member, assemble};
pub use finished::{Finished, Remains};
pub use logs::{Log, event_lists, events_of};
pub use observers::{NoObserver, Observer};
pub use recorders::{Recorder, Silent};
pub use runs::{run_rank, run_recorded};
