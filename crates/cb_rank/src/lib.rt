//! One rank of a plan, run independently of the others: it does the halves of its own program, in order.
//!
//! A rank knows its program, how many halves of it are done, and its slots; it knows nothing of the other ranks.
//! [`Rank::want`] names its next half. A Post hands out a copy of a slot ([`Rank::outgoing`]), a Take or an End accepts
//! what arrives on its lane ([`Rank::accept`]), a Work does an operation on the slots ([`Rank::work`]), and a Shut
//! leaves a close mark to be posted ([`Rank::shut`]). [`Rank::step`] does the next half through any
//! [`Ports`](cb_letters::Ports), if it can be done now; otherwise nothing changes.
//!
//! Only [`Rank::start`] reports that memory is refused. Later, a sheet for which memory is refused is lost: its slot or
//! letter names this rank, whose count of refusals rises by one. A result with a lost operand is lost too, and names
//! the same rank.
//!
//! A letter is accepted only if it has the sender, addressee, tag and kind that the half waits for. Anything else is a
//! [`Stray`], and changes nothing.
//!
//! `specs/Halves` defines what one rank does by itself, `specs/Agreement` how the slots and lanes of all ranks agree
//! with what the plan means, at every moment of every run, and `specs/Leavings` what the ranks leave once all have done
//! their programs, in whatever order they ran.
#![tactic(auto)]

mod next_products;
mod operations;
mod ranks;
mod steps;
mod wants;

pub use ranks::Rank;
pub use wants::{Arrival, Moved, Stray, Supply, Want};
