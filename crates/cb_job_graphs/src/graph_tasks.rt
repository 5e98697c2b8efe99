//! Any task on the graph of a text, or on the pattern of a matrix.
ghost use Rattle.std.specs.Prelude.{◌≡◌, vec_len, false};
ghost use Rattle.cb_semirings.specs.Names.{arithmetic_of};
ghost use Rattle.cb_operations.specs.Graphs.{beside_of, operand_count_of, semiring_of};
ghost use Rattle.cb_job_graphs.specs.GraphTasks.{HasAnswer, IsGraphAnswered, IsGraphEnd};

use crate::graph_answers::{answer_over, text_answer};
use cb_graphs::GraphAnswer;
use cb_job_ends::faults::JobFault;
use cb_job_ends::sinks::Sink;
use cb_job_ends::texts::Text;
use cb_job_output::answers::{Answer, put_answer};
use cb_operations::GraphTask;
use cb_semirings::{MinPlus, OrAnd, SemiringName};
use std::alloc::Global;
use std::thread::Threads;

/// Reads the texts of a task in order, the graph over the semiring of the task, and computes what it asks for.
fn task_answer<R: Threads + Sync>(
    rt: &R,
    alloc: Global,
    threads: u32,
    task: GraphTask,
    texts: Vec<Text>,
) -> Result<GraphAnswer, JobFault>
    requires { vec_len texts ≡ operand_count_of task }
    ensures { HasAnswer (beside_of task) (arithmetic_of (semiring_of task)) task texts.items result }
{
    if task.semiring() == SemiringName::MinPlus {
        answer_over::<MinPlus, R>(rt, alloc, threads, task, texts)
    } else {
        answer_over::<OrAnd, R>(rt, alloc, threads, task, texts)
    }
}

/// Reads the texts of a task in order, and computes the answer. At most `threads` threads read; the caller's thread computes.
///
/// Levels and distances from listed sources are a matrix with a column for each source. Other levels and distances, parents,
/// components, counts of triangles and degrees take one line for each vertex that has one.
///
/// The first fault in this order is returned: a text that isn't a matrix; a graph whose matrix isn't square, or a source that
/// isn't a vertex; want of memory. Each text is dropped once it is read, so that its memory is free for the computation.
pub fn graph_answer<R: Threads + Sync>(
    rt: &R,
    alloc: Global,
    threads: u32,
    task: GraphTask,
    texts: Vec<Text>,
) -> Result<Answer<MinPlus>, JobFault>
    requires { vec_len texts ≡ operand_count_of task }
    ensures { IsGraphAnswered task texts.items result }
{
    let answer = task_answer(rt, alloc, threads, task, texts)?;
    Ok(text_answer(alloc, answer))
}

/// Writes the text of the answer of a task, with the faults of [`graph_answer`] and of [`put_answer`].
pub fn execute_graph_task<R: Threads + Sync, K: Sink>(
    rt: &R,
    alloc: Global,
    threads: u32,
    task: GraphTask,
    texts: Vec<Text>,
    out: &mut K,
) -> Result<(), JobFault>
    requires texts { vec_len texts ≡ operand_count_of task }
    requires works { K.has_failed out.old ≡ false }
    ensures { IsGraphEnd task texts.items (K.written out.old) (K.written out.new) (K.has_failed out.new) result }
{
    let answer = graph_answer(rt, alloc, threads, task, texts)?;
    put_answer(rt, alloc, threads, answer, out)
}
