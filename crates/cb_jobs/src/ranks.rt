//! The ranks that compute a job, and their faults.
ghost use Rattle.std.specs.Prelude.{◌≡◌, IfSome, option_map};
ghost use Rattle.cb_jobs.specs.Engines.{engine_of, fault_of_operation};

use cb_command_line::{EngineName, Job};
use cb_job_ends::faults::JobFault;
use cb_layout::Grid;
use cb_rank_engines::Engine;
use cb_rank_faults::RanksFault;
use cb_rank_operations::OperationFault;

/// The ranks that compute a job: an engine over the ranks of a grid; and how many threads read and write.
#[derive(Clone, Copy)]
pub struct Ranks<'o> {
    pub engine: Engine<'o>,
    pub grid: Grid,
    pub threads: u32,
}

/// The ranks that compute a job, or none if threads compute it that share whole blocks.
pub fn ranks_of(job: &Job) -> Option<Ranks<'static>>
    ensures engine { option_map (λ ranks. ranks.engine) result ≡ engine_of job.now.engine }
    ensures side { IfSome result (λ ranks. ranks.grid.side ≡ job.now.side) }
{
    let engine = match job.engine {
        EngineName::Plain => return None,
        EngineName::Ranks(letters) => Engine::Threads(letters),
        EngineName::Traced(letters) => Engine::Traced(letters),
    };
    Some(Ranks {
        engine,
        grid: Grid::new(job.side).unwrap(),
        threads: job.threads,
    })
}

/// The fault of a job for a fault of an operation by an engine. Lack of memory is the job's own fault, wherever it comes.
pub fn job_fault(fault: OperationFault) -> JobFault
    ensures { result ≡ fault_of_operation fault }
{
    match fault {
        OperationFault::Refused(refusal) => JobFault::Refused(refusal),
        OperationFault::Failed(RanksFault::Memory) => JobFault::Memory,
        OperationFault::Failed(fault) => JobFault::Ranks(fault),
    }
}
