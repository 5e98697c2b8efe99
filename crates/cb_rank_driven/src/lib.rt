//! One rank of a plan, driven half by half by another program, which carries its letters.
//!
//! A [`DrivenRank`] never waits. It names its next half ([`DrivenRank::want`]), and each other call does that half, or says
//! that another one is next and changes nothing. What arrives isn't trusted: a letter for which the half doesn't wait is
//! refused, and changes nothing either.
//!
//! In contracts a driven rank also has the slots with which it began, and the letters that it posted and took. What these
//! imply is a clause of [`DrivenRank::finish`]: if all ranks of a plan ran, each by itself, wherever they ran, and on each lane
//! the letters taken are the first of those posted, then each rank has its block of the answer, or names a rank that was
//! refused memory.
#![tactic(auto)]

mod driven_ranks;
mod first_stores;
mod lane_letters;

pub use driven_ranks::{DrivenRank, NoBlock, StartFault, StepRefusal};
