//! Plans: what the ranks of a grid do, act by act, and what that means.
//!
//! Each rank has 256 slots, and a slot is empty or holds a block. An act sends a copy of a slot from one rank to another,
//! does one operation on the slots of one rank, or shuts the lane from one rank to another for good. A plan means what
//! its acts do one after another, as on a single thread: `specs/Meaning` defines this over blocks of any kind.
//!
//! A [`Plan`] grows act by act, up to its end, which shuts all lanes ([`Plan::shut_all`]) and isn't stored act by act.
//! [`CheckedPlan::check`] finds its first fault by doing the plan on the shapes of the
//! blocks alone. In a plan that passes, no operation meets an empty slot or a wrong shape, and each lane is shut once,
//! after its last letter. A plan that its maker proves to run (`specs/Runnable`) isn't checked again:
//! [`Planned::into_checked`]. A checked plan is run on stores that it [`fits`](CheckedPlan::fits): by one thread, or by
//! ranks that run apart. [`CheckedPlan::project`] gives the program of each of them; `specs/PlanLetters` says what they
//! post to each other.
#![tactic(auto)]

mod acts;
mod check_states;
mod checks;
mod fits;
mod operands;
mod plans;
mod programs;
mod shared_blocks;
mod stores;
mod tables;

pub use acts::{Act, Half, Op, Start};
pub use checks::CheckedPlan;
pub use operands::ReadSlots;
pub use plans::{MOST_ACTS, Plan, PlanFault, PlanFaultKind, Planned};
pub use shared_blocks::SharedBlock;
pub use stores::{RankStore, SLOTS, Slot};
