//! What is computed of matrices by several threads, which share the operands: [`compute`] computes anything.
//!
//! Each thread makes some columns of the result, with `cb_shares`: of a product, the columns are divided so that all ranges take
//! about the same number of products of two values. The caller's thread makes one range, starts a thread for each of the others,
//! and waits. If no thread is available, it makes the range itself. What they make stands side by side in panels, and no entry is
//! copied.
#![tactic(auto)]

mod computations;
mod ranges;

pub use computations::compute;

/// Into how many panels a result is divided.
#[derive(Clone, Copy)]
pub struct Panels {
    /// At most this many.
    pub most: u32,
    /// So few that each takes this many products of two values or, where none are made, entries of the operands. Columns stay
    /// whole, so one panel may take fewer.
    pub least: usize,
}
