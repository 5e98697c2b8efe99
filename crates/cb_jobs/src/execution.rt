//! Does a job on the texts of its files.
ghost use Rattle.std.specs.Prelude.{◌≡◌, vec_len, false, Some};
ghost use Rattle.cb_operations.specs.Graphs.{operand_count_of};
ghost use Rattle.cb_jobs.specs.Engines.{engine_of};
ghost use Rattle.cb_jobs.specs.JobEnds.{IsGraphAnsweredBy, IsGraphEnd, IsJobEnd};

use crate::job_computations::{execute_computation, execute_extract};
use crate::ranks::{Ranks, ranks_of};
use crate::searches_by_ranks::{distances_answer, levels_answer};
use cb_command_line::{Job, Task};
use cb_job_ends::faults::JobFault;
use cb_job_ends::sinks::Sink;
use cb_job_ends::texts::Text;
use cb_job_graphs::graph_tasks::graph_answer;
use cb_job_output::answers::{Answer, put_answer};
use cb_operations::GraphTask;
use cb_semirings::MinPlus;
use std::alloc::Global;
use std::sync::Wait;
use std::thread::Threads;

/// The answer of a task on a graph: ranks compute levels and distances from one source; the caller's thread computes everything
/// else.
fn ranks_graph_answer<R: Threads + Wait + Sync>(
    rt: &R,
    alloc: Global,
    ranks: &Ranks<'_>,
    task: GraphTask,
    texts: Vec<Text>,
) -> Result<Answer<MinPlus>, JobFault>
    requires { vec_len texts ≡ operand_count_of task }
    ensures { IsGraphAnsweredBy (Some ranks.now.engine) ranks.now.grid.side task texts.items result }
{
    match task {
        GraphTask::Levels { source } => levels_answer(rt, alloc, ranks, source, texts),
        GraphTask::Distances { source } => distances_answer(rt, alloc, ranks, source, texts),
        _ => graph_answer(rt, alloc, ranks.threads, task, texts),
    }
}

/// The answer of a task on a graph, by the ranks of a job or without any.
fn graph_answer_by<R: Threads + Wait + Sync>(
    rt: &R,
    alloc: Global,
    job: &Job,
    task: GraphTask,
    texts: Vec<Text>,
) -> Result<Answer<MinPlus>, JobFault>
    requires { vec_len texts ≡ operand_count_of task }
    ensures { IsGraphAnsweredBy (engine_of job.now.engine) job.now.side task texts.items result }
{
    match ranks_of(job) {
        Some(ranks) => ranks_graph_answer(rt, alloc, &ranks, task, texts),
        None => graph_answer(rt, alloc, job.threads, task, texts),
    }
}

/// Writes the answer of a task on a graph.
fn put_graph<R: Threads + Wait + Sync, K: Sink>(
    rt: &R,
    alloc: Global,
    job: &Job,
    task: GraphTask,
    texts: Vec<Text>,
    out: &mut K,
) -> Result<(), JobFault>
    requires texts { vec_len texts ≡ operand_count_of task }
    requires works { K.has_failed out.old ≡ false }
    ensures { IsGraphEnd job.now task texts.items (K.written out.old) (K.written out.new) (K.has_failed out.new) result }
{
    let answer = graph_answer_by(rt, alloc, job, task, texts)?;
    put_answer(rt, alloc, job.threads, answer, out)
}

/// Reads the texts of a job's files in the job's order, computes the answer by what the job names, and writes its text. If
/// the engine keeps a trace of an operation, a line for each event follows.
///
/// All memory is taken before the first byte is written: at a fault other than `Output` nothing has been written. At
/// `Output` the sink has failed, which it has in no other case, and a beginning of the text has been written.
///
/// The first fault in this order is returned: a text that isn't a matrix; shapes that don't agree, a graph whose matrix
/// isn't square, a source that isn't a vertex, or a selection that can't be made; a failure of ranks, or want of memory;
/// `Output`. Each text is dropped once it is read, so that its memory is free for the computation.
pub fn execute<R: Threads + Wait + Sync, K: Sink>(
    rt: &R,
    alloc: Global,
    job: &Job,
    texts: Vec<Text>,
    out: &mut K,
) -> Result<(), JobFault>
    requires texts { vec_len texts ≡ vec_len job.now.files }
    requires works { K.has_failed out.old ≡ false }
    ensures { IsJobEnd job.now texts.items (K.written out.old) (K.written out.new) (K.has_failed out.new) result }
{
    match job.task {
        Task::Compute(computation, semiring) => {
            execute_computation(rt, alloc, job, computation, semiring, texts, out)
        }
        Task::Extract(lists, semiring) => {
            execute_extract(rt, alloc, job.threads, lists, semiring, texts, out)
        }
        Task::Graph(task) => put_graph(rt, alloc, job, task, texts, out),
    }
}
