//! The part of a plan that one rank, or one thread, does by itself on its blocks.
//!
//! [`work`] does an operation on the slots of one rank by the block kernels: products, sums, transposes, cuts and the
//! rest, and [`accumulate_all`] adds several products to one slot at once, with several threads if there is enough to do. [`run_plain`] runs a checked plan on one thread,
//! act by act, on stores that it fits.
#![tactic(auto)]

mod kernels;
mod parts;
mod plain_runs;

pub use kernels::{accumulate_all, work};
pub use plain_runs::run_plain;
