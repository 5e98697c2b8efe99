//! The parts from which plans over a grid of ranks are built.
//!
//! Rank (i, j) keeps part (i, j) of each operand in the operand's slot. A plan starts from these parts
//! ([`operand_starts`]), lets each rank work on its own slots ([`work_everywhere`], [`zero_everywhere`]), moves blocks
//! along the rows and columns of ranks by collectives, and ends by shutting all lanes
//! ([`finish`]). Then it is a plan that can be run.
//!
//! A collective is the acts of all members of a list of ranks. Each call takes room for all of them before it appends the first,
//! so a refused call leaves the plan as it was; its cost is proportional to the acts that it appends. Shutting all lanes costs
//! nothing: a plan stores no act for it.
//!
//! `specs/Collectives` lists the acts of each collective, and defines what they do to the slots of the ranks, over blocks of any
//! kind. `specs/PlanParts` defines the starts and the work, `specs/Flows` says when acts pass the check. `proofs/Lib` lists the
//! lemmas that such plans share.
#![tactic(auto)]

mod broadcasts;
mod closings;
mod endings;
mod exchanges;
mod first_slots;
mod gathers;
mod reductions;
mod steps;
mod works;

pub use broadcasts::broadcast;
pub use closings::shut_all;
pub use endings::finish;
pub use exchanges::all_to_all;
pub use first_slots::{Operand, operand_starts};
pub use gathers::gather;
pub use reductions::reduce;
pub use steps::send;
pub use works::{work_everywhere, zero_everywhere};

/// The slot of each rank that has its block of the first matrix.
pub const LEFT: u16 = 0;

/// The slot of each rank that has its block of the second matrix, or its piece of a vector.
pub const RIGHT: u16 = 1;

/// The slot of each rank that has its block, or its piece, of the answer in the end.
pub const RESULT: u16 = 2;
