//! The command line of `cbgrid`: from words to a job.
//!
//! [`asked`] takes the words from a [`CommandLine`], and [`read_job`] reads them. The result is a [`Job`], which says what is
//! computed, from which files and by which ranks, or a [`UsageFault`] with the text to print. No file is read, and
//! nothing is computed or written here.
//!
//! A job names its semiring and its engine. `cb_semirings` has the table of the names of semirings.
#![tactic(auto)]

mod command_lines;
mod commands;
mod conflicts;
mod engine_words;
mod file_words;
mod jobs;
mod lists;
mod negative_words;
mod options;
mod selection_words;
mod task_words;
mod tasks;
mod words;

pub use command_lines::{CommandLine, SystemLine};
pub use jobs::{EngineName, Job, UsageFault};
pub use lists::Lists;
pub use tasks::{Task, is_distributive};
pub use words::{asked, read_job};
