//! The exit status of a fault.
ghost use Rattle.std.specs.Prelude.{◌≡◌};
ghost use Rattle.cb_job_runs.specs.Statuses.{status_of};

use cb_job_ends::faults::JobFault;
use cb_market_lines::Kind;

/// The exit status of a fault: 4 for a text that isn't a matrix; 5 for shapes that don't agree, a matrix that isn't
/// square, a source that isn't a vertex or a selection that can't be made; 6 for want of memory and for ranks that failed;
/// 7 for a sink that failed; 69 for a job that asks for what the program doesn't have.
pub fn status(fault: &JobFault) -> u8
    ensures { result ≡ status_of fault.now }
{
    match fault {
        JobFault::Absent => 69,
        JobFault::Read { fault, .. } => match fault.kind {
            Kind::Memory => 6,
            _ => 4,
        },
        JobFault::Refused(_) => 5,
        JobFault::Ranks(_) => 6,
        JobFault::Memory => 6,
        JobFault::Output => 7,
    }
}
