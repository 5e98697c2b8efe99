//! The texts of a job's files, read into blocks.
//!
//! - `reading` reads a text, or two, by several threads, `inputs` the texts of a job, and `operands` those of an operation or a
//!   selection.
//! - `pieces` cuts a text where lines end; `places` reads the pieces, and `joining` joins them.
//! - `lists` reads the numbers that a column lists.
#![tactic(auto)]

pub mod inputs;
mod joining;
pub mod lists;
pub mod operands;
mod pieces;
mod places;
pub mod reading;
