//! One process of a run by several that share no memory: one rank of a grid, and the blocks that it keeps between plans.
//!
//! A [`Process`] keeps a few matrices, of each of which it has its block. Every step that takes more than one process is a plan:
//! to read a text ([`Process::read`]), to compute an operation ([`Process::operate`]), and to bring an answer into the order of
//! its text ([`Process::gather_columns`]). A search in a graph is a series of products, between which each process takes over the
//! lower numbers of its own vertices ([`Process::begin_search`], [`Process::settle`]). A plan is begun by such a call, done half by half ([`Process::want`] and the calls
//! that do what it says), and ended by [`Process::end`].
//!
//! Whoever drives a process moves bytes and letters, and computes nothing. Each call checks whether its turn has come, and if not
//! changes nothing. Nothing here waits, starts a thread or takes a lock.
//!
//! [`AnyProcess`] is a process over whichever semiring.
#![tactic(auto)]

mod any_kinds;
mod any_process;
mod any_texts;
mod faults;
mod letters;
mod operations;
mod outgoing;
mod processes;
mod registers;
mod texts;
mod vertex_numbers;

pub use any_process::{AnyMessage, AnyProcess};
pub use any_texts::{TextFault, opening_length, text_fault};
pub use faults::ProcessFault;
pub use outgoing::Outgoing;
pub use processes::{Process, REGISTERS};
pub use texts::LineCounts;
