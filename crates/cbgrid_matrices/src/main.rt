//! The small program of matrices. It does each job of `cbgrid` that computes something of matrices, without ranks and over a
//! distributive semiring, and is proved and compiled long before the whole program.
#![tactic(auto)]

ghost use Rattle.std.specs.Prelude.{◌↔◌, IsTrue};
ghost use Rattle.cbgrid_matrices.specs.MatrixJobs.{Asks, IsJobAnswer, IsJobFault};

use cb_command_line::{EngineName, Job, Task, is_distributive};
use cb_job_computations::named_computations::{
    execute_distributive_computation, execute_distributive_extract,
};
use cb_job_ends::faults::JobFault;
use cb_job_ends::sinks::Sink;
use cb_job_ends::texts::Text;
use cb_job_files::system_files::SystemFiles;
use cb_job_runs::endings::Status;
use cb_job_runs::runs::Program;
use cb_job_runs::system_runs::run_on_system;
use std::alloc::Global;
use std::thread::Threads;

/// The program, by its answers.
struct Matrices;

/// Whether a job asks for what the program can do.
fn can_do(job: &Job) -> bool
    ensures { IsTrue result ↔ Asks job.now job.now.task }
{
    let semiring = match job.task {
        Task::Compute(_computation, semiring) => semiring,
        Task::Extract(_lists, semiring) => semiring,
        Task::Graph(_task) => return false,
    };
    job.engine == EngineName::Plain && is_distributive(semiring)
}

impl<R: Threads + Sync> Program<R> for Matrices {
    ghost answers = { IsJobAnswer };

    ghost faults = { IsJobFault };

    fn answer<K: Sink>(
        rt: &R,
        alloc: Global,
        job: &Job,
        texts: Vec<Text>,
        out: &mut K,
    ) -> Result<(), JobFault> {
        if !can_do(job) {
            return Err(JobFault::Absent);
        }
        let threads = job.threads;
        match job.task {
            Task::Compute(computation, semiring) => {
                execute_distributive_computation(
                    rt,
                    alloc,
                    threads,
                    computation,
                    semiring,
                    texts,
                    out,
                )
            }
            Task::Extract(lists, semiring) => {
                execute_distributive_extract(rt, alloc, threads, lists, semiring, texts, out)
            }
            Task::Graph(_task) => unreachable!(),
        }
    }
}

fn main(rt: HostRuntime) -> Status {
    run_on_system::<Matrices, _, _, _>(&rt, &SystemFiles::new(&rt), rt.stderr())
}
