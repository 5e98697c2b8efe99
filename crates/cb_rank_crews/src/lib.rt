//! Threads that are started once, and run one plan after the other.
//!
//! A crew has a worker for each rank, a thread of its own. [`hire`] starts them. For each plan [`Crew::run_plan`] gives
//! each worker a rank with its desk, and waits until all have run theirs; then the workers sleep until the next plan.
//!
//! What is known of a message is what its type says, and no type says which rank was given. So each worker has a ring
//! for the ranks that it gets ([`Rings`]). The end that puts them in stays with the crew. The other end, the slip, goes
//! to and fro: with the request to the worker, who takes the rank out of the ring, and back with the answer. Once both ends
//! are together again, what was taken is what was put in, so the answer is what is left of the rank that was put in
//! last. That the slip which comes back is of the same ring is said by a ghost member, [`Naming`], which is picked as
//! the crew is hired.
//!
//! Requests and answers go over lines, rings of one place with a bell, at which a worker without a request sleeps. No contract
//! claims that a run terminates.
#![tactic(auto)]

mod crew;
mod hiring;
mod lines;
mod messages;
mod rooms;
mod workers;

pub use crew::Crew;
pub use hiring::{Rings, hire};
pub use messages::Naming;
