//! Matrices over a square grid of ranks, and matrices in panels.
//!
//! A [`DistributedMatrix`] is a matrix in the blocks that a grid cuts it into (`cb_grid`), one for each rank. [`gather`]
//! glues blocks together again.
//!
//! A matrix without a grid can stand in panels ([`PanelledMatrix`]): blocks side by side, each with the entries of some
//! columns. Both layouts are walked alike, column by column ([`Segments`]).
#![tactic(auto)]

mod distributed;
mod freeing;
mod front;
mod glue;
mod panelled;
mod single;
mod traversal;
mod whole;

pub use cb_grid::Grid;
pub use distributed::DistributedMatrix;
pub use glue::{append_segment, gather, stored};
pub use panelled::PanelledMatrix;
pub use traversal::{Segment, Segments};
pub use whole::Whole;
