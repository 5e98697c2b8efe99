//! The ranks of a plan at once, each in a thread of its own.
//!
//! [`run_threads`] runs all ranks of a plan in one scope:
//!
//! - It takes all memory for the ranks, the lanes and the results first. If memory is refused, no thread is started.
//! - It moves each rank with its desk into a thread, in order. If a thread can't be started, the remaining ranks are
//!   dropped, and a rank that waits for one of them finds it gone.
//! - It joins every thread, and compares both ends of each lane.
//!
//! [`run_traced`] does the same, and keeps a trace of what the ranks posted and took.
//!
//! Each thread promises what its rank leaves by itself, and from this it follows what all ranks leave (`cb_rank_runs`). No
//! contract claims that a run terminates.
#![tactic(auto)]

mod crew_faults;
mod promises;
mod rank_threads;
mod rooms;
mod threads;
mod traced;

pub use threads::run_threads;
pub use traced::run_traced;
