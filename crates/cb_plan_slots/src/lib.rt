//! Matrices in the slots of ranks: laid out before a plan, and read out after it.
//!
//! [`laid_out`] moves the blocks of matrices over a grid into the slots of its ranks. [`drain`] moves the blocks of one
//! slot out again, and [`gather_slot`] makes a matrix of them. `Makes` of `specs/Answers` says when a plan makes a matrix
//! from others that are laid out so: `cb_planner` proves it of each plan, and `cb_rank_engines` requires it of the plan that it
//! runs. Nothing here runs a plan.
#![tactic(auto)]

ghost use Rattle.std.specs.Prelude.{◌≡◌};
ghost use Rattle.cb_plan_slots.specs.declared.DrainFault.TheVariants.{Memory};

mod placed_stores;

pub use placed_stores::{blank, drain, fill, gather_slot, laid_out};
use std::alloc::AllocError;
use thiserror::Error;

/// Why the blocks in a slot can't be taken out.
#[derive(Clone, Copy, Debug, PartialEq, Eq, Error)]
pub enum DrainFault {
    /// Memory was refused.
    #[error("out of memory")]
    Memory,
    /// A block is lost because this rank was refused memory. If several are lost, that of the least rank is reported.
    #[error("lost at rank {0}")]
    Lost(u16),
}

impl From<AllocError> for DrainFault {
    ghost from_gives = { λ _ fault. fault ≡ Memory };

    fn from(_error: AllocError) -> DrainFault {
        DrainFault::Memory
    }
}
