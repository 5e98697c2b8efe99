//! Plans that bring the entries of texts to the ranks that own them, and blocks back to the parts of a text.
//!
//! A text is in order of columns, and a grid cuts a matrix by rows too. So what a process reads of a text has entries of every
//! rank's block, and what a rank has of a matrix isn't a part of its text. [`pieces_plan`] is for reading: each rank begins with
//! what it read, and ends with its block. [`panels_plan`] is for writing: each rank begins with its block, and ends with some
//! whole columns, whose lines are one part of the text.
//!
//! Each plan is checked when it is made, so it can be run. `specs/Pieces` and `specs/Panels` define what they leave in the slots
//! of the ranks, and list their acts.
#![tactic(auto)]

mod panels;
mod pieces;
mod rounds;
mod starts;
mod works;

pub use panels::panels_plan;
pub use pieces::pieces_plan;
