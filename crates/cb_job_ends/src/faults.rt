//! Why a job has no answer.
ghost use Rattle.std.specs.Prelude.{◌≡◌};

use cb_market_lines::ReadFault;
use cb_operations::{ComputeFault, Refusal};
use cb_rank_faults::RanksFault;
use std::alloc::AllocError;
use thiserror::Error;

/// Why a job has no answer, or why the answer wasn't written, in the order in which the reasons are checked.
#[derive(Clone, Copy, Debug, PartialEq, Eq, Error)]
pub enum JobFault {
    /// The program doesn't have the ranks or the semiring that the job asks for.
    #[error("not in this program")]
    Absent,
    /// The text of file `which` isn't a matrix, or memory was refused while it was read.
    #[error("file {which}: {fault}")]
    Read { which: usize, fault: ReadFault },
    /// The operation, the selection or the task on a graph is refused for these matrices.
    #[error("{0}")]
    Refused(Refusal),
    /// The job asks for ranks, and they failed, though not for lack of memory: that is `Memory`.
    #[error("{0}")]
    Ranks(RanksFault),
    /// Memory was refused, for the answer or for its text.
    #[error("out of memory")]
    Memory,
    /// The sink failed. A beginning of the text may have been written.
    #[error("can't write")]
    Output,
}

impl From<Refusal> for JobFault {
    ghost use Rattle.cb_job_ends.specs.declared.faults.JobFault.TheVariants.{Refused};

    ghost from_gives = { λ refusal told. told ≡ Refused refusal };

    fn from(refusal: Refusal) -> JobFault {
        JobFault::Refused(refusal)
    }
}

impl From<ComputeFault> for JobFault {
    ghost use Rattle.cb_job_ends.specs.WriteEnds.{told_of};

    ghost from_gives = { λ fault told. told ≡ told_of fault };

    fn from(fault: ComputeFault) -> JobFault {
        match fault {
            ComputeFault::Refused(refusal) => JobFault::Refused(refusal),
            ComputeFault::Memory => JobFault::Memory,
        }
    }
}

impl From<AllocError> for JobFault {
    ghost use Rattle.cb_job_ends.specs.declared.faults.JobFault.TheVariants.{Memory};

    ghost from_gives = { λ _ told. told ≡ Memory };

    fn from(_error: AllocError) -> JobFault {
        JobFault::Memory
    }
}
