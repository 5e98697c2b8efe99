//! Matrices in compressed columns, as C passes them: whether lists are well formed, the block of lists, and the lists of a
//! block.
#![tactic(auto)]

mod incoming;
mod lists;
mod outgoing;

pub use incoming::block_of;
pub use lists::{Columns, ascends};
pub use outgoing::{block_lists, starts_of};
