//! What a command line asks for.
ghost use Rattle.std.specs.Prelude.{◌≡◌, ◌≤◌, vec_len};
ghost use Rattle.cb_command_line.specs.Jobs.{file_count_of};

use crate::tasks::Task;
use std::alloc::{AllocError, AllocFailed};
use thiserror::Error;

/// What computes a job.
#[derive(Clone, Copy, PartialEq, Eq)]
pub enum EngineName {
    /// No ranks: threads that share the matrices.
    Plain,
    /// Ranks, each in a thread of its own, over lanes with room for so many letters.
    Ranks(usize),
    /// The same, with a trace of what the ranks post and take.
    Traced(usize),
}

/// A command line that was read.
#[derive(Drop)]
pub struct Job {
    pub task: Task,
    /// The side of the grid of the ranks that compute it, 1 to 6.
    pub side: u32,
    pub engine: EngineName,
    /// How many threads may read the files, compute without ranks, and write the answer.
    pub threads: u32,
    /// The names of the files, in the order in which they are read.
    pub files: Vec<String>,
    pub ghost file_count: { vec_len files ≡ file_count_of task },
    pub ghost some_ranks: { 1 ≤ side },
    pub ghost few_ranks: { side ≤ 6 },
}

impl Job {
    /// The names of the files, in the order in which they are read.
    pub fn files(&self) -> &[String]
        ensures { result.now ≡ self.now.files.items }
    {
        self.files.as_slice()
    }
}

/// Why a command line isn't a job: it asks for help or for the version, the program doesn't accept it, or memory was
/// refused while it was read.
#[derive(Debug, Drop, Error)]
pub enum UsageFault {
    /// The text to print on standard output; the program then ends with status 0.
    #[error("{0}")]
    Help(String),
    /// The text to print on standard error; the program then ends with status 2.
    #[error("{0}")]
    Usage(String),
    /// The program ends with status 6.
    #[error("out of memory")]
    Memory,
}

impl From<AllocError> for UsageFault {
    ghost use Rattle.cb_command_line.specs.declared.jobs.UsageFault.TheVariants.{Memory};

    ghost from_gives = { λ _ e. e ≡ Memory };

    fn from(_error: AllocError) -> UsageFault {
        UsageFault::Memory
    }
}

impl<T: Drop> From<AllocFailed<T>> for UsageFault {
    ghost use Rattle.cb_command_line.specs.declared.jobs.UsageFault.TheVariants.{Memory};

    ghost from_gives = { λ _ e. e ≡ Memory };

    fn from(_error: AllocFailed<T>) -> UsageFault {
        UsageFault::Memory
    }
}
