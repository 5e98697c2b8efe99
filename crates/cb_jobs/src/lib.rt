//! The program `cbgrid`, as a library: it does every job, with ranks or without.
//!
//! [`Cbgrid`](program::Cbgrid) is the program that `run` of `cb_job_runs` runs, and [`execute`](execution::execute) writes the
//! answer of a job. The engine is chosen at run time, by its name in the job: without one, threads that share whole blocks do
//! the task; otherwise the ranks of a grid compute an operation, levels or distances. The contracts are about the engine that
//! the job names.
#![tactic(auto)]

pub mod execution;
mod job_computations;
pub mod program;
mod ranks;
mod searches_by_ranks;
mod trace_lines;
