//! The program, by its answers.
ghost use Rattle.cb_jobs.specs.Answers.{IsJobAnswer, IsJobFault};

use crate::execution::execute;
use cb_command_line::Job;
use cb_job_ends::faults::JobFault;
use cb_job_ends::sinks::Sink;
use cb_job_ends::texts::Text;
use cb_job_runs::runs::Program;
use std::alloc::Global;
use std::sync::Wait;
use std::thread::Threads;

/// The program `cbgrid`: it answers every job.
pub struct Cbgrid;

impl<R: Threads + Wait + Sync> Program<R> for Cbgrid {
    ghost answers = { IsJobAnswer };

    ghost faults = { IsJobFault };

    fn answer<K: Sink>(
        rt: &R,
        alloc: Global,
        job: &Job,
        texts: Vec<Text>,
        out: &mut K,
    ) -> Result<(), JobFault> {
        execute(rt, alloc, job, texts, out)
    }
}
