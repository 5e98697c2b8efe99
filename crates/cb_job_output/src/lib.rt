//! The text of a job's answer, written to a sink.
//!
//! - `answers` has the answer of any task, and writes its text.
//! - `output` writes the text of a matrix or a column to a sink, page by page or in rounds.
//! - `rounds` has the form of a round: the next entries of a text are dealt to shares in order, and several threads write the
//!   shares on sheets, each the next that nobody has taken. Written in order, the shares are the next part of the text: the
//!   same bytes as from one thread, however the threads are scheduled.
//! - `stacks` has the sheets of each thread.
#![tactic(auto)]

pub mod answers;
pub mod output;
pub mod rounds;
mod stacks;
