//! The lanes between running ranks: a desk for each rank, which moves into the rank's thread.
//!
//! `open` makes a bounded ring with a bell from each rank to each other, and takes all memory; no later call takes any.
//! A desk owns the posting end of each lane from its rank, and the taking end of each lane to it. So each end has one
//! owner, and desks share nothing but the lanes.
//!
//! - `try_post`, `try_close`, `try_take` and `room` never wait. They answer like a mailbox, except that `Full` and
//!   `Empty` report what this end of the ring sees: the other end may change it at any time.
//! - `post`, `close` and `take` wait instead of returning `Full` or `Empty`, and give up if the desk at the other end is
//!   gone. They poll, and pause between polls: at first they spin, twice as long each time; then they yield the
//!   processor four times; then they sleep until the desk at the other end posts, takes or is dropped, and wakes them.
//! - `settle` takes back the desks of all ranks, and compares both ends of each lane.
//!
//! In the proofs, a desk has the list of letters that it posted on each lane and the list of those that it took. A call
//! that returns a number appends its letter to one posted list; a take that returns a letter appends it to one taken
//! list; the first `End` appends the close mark; every other answer changes no list. After `settle`, what was taken on
//! each lane is a prefix of what was posted there, and all of it if the close mark was taken.
//!
//! No contract claims that a waiting call returns, that a sleeper wakes, or when a dropped desk is noticed.
#![tactic(auto)]

mod desk;
mod opening;
mod ports;
mod settled;
mod settling;
mod waiting;

pub use desk::Desk;
pub use opening::open;
pub use settled::Settled;
pub use settling::settle;
pub use waiting::{Gone, WaitRefusal};
