//! The two ends of a lane between running ranks: a bounded ring with a bell.
//!
//! A [`Poster`] posts letters and the close mark, numbered from 0. A [`Taker`] takes them in this order. An end never
//! waits, except in `await_room` and `await_letter`, which give up if the other end is gone. Both ends count in a `u64`:
//! the ring's protocol ([`Numbered`]) numbers the letters, and knows nothing of their content. `settle` compares both
//! ends: what was taken is a prefix of what was posted.
//!
//! A thread that waits at an end polls, then sleeps until the bell rings that both ends share (`bells`).
//!
//! [`open_lanes`] makes the lanes from each rank to each other, and takes all memory. No later call takes any.
#![tactic(auto)]

mod bells;
mod lane_rows;
mod ring_ends;

pub use bells::{Bell, Look, RingEnd, wait_at};
pub use lane_rows::{Column, Row, open_lanes};
pub use ring_ends::{Numbered, Poster, Taker};
