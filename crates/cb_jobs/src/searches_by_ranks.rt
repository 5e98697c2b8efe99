//! Levels and distances of the vertices of a graph from a source, by ranks.
ghost use Rattle.std.specs.Prelude.{◌≡◌, vec_len, Some, IfOk};
ghost use Rattle.cb_semirings.specs.Tables.{min_plus};
ghost use Rattle.cb_market_pages.specs.Text.{vertex_text_of};
ghost use Rattle.cb_operations.specs.declared.graphs.GraphTask.TheVariants as task_is;
ghost use Rattle.cb_job_output.specs.Answers.{text_of_answer};
ghost use Rattle.cb_jobs.specs.JobEnds.{IsGraphAnsweredBy};

use crate::ranks::{Ranks, job_fault};
use cb_graphs::{GraphAnswer, block_of};
use cb_job_ends::faults::JobFault;
use cb_job_ends::texts::Text;
use cb_job_graphs::graph_answers::text_answer;
use cb_job_inputs::inputs::read_one;
use cb_job_output::answers::Answer;
use cb_matrix::Matrix;
use cb_rank_operations::{distances, levels};
use cb_semirings::{MinPlus, OrAnd};
use std::alloc::{AllocError, Global};
use std::sync::Wait;
use std::thread::Threads;

/// A line for each vertex that has a number in a column.
fn numbers_answer(alloc: Global, column: Matrix<MinPlus>) -> Result<Answer<MinPlus>, AllocError>
    ensures { IfOk result (λ answer. text_of_answer min_plus answer ≡ vertex_text_of column) }
{
    let block = block_of(alloc, column)?;
    Ok(text_answer(alloc, GraphAnswer::Numbers(block)))
}

/// Reads a graph, and finds the level of each vertex that can be reached from a source.
pub fn levels_answer<R: Threads + Wait + Sync>(
    rt: &R,
    alloc: Global,
    ranks: &Ranks<'_>,
    source: u32,
    texts: Vec<Text>,
) -> Result<Answer<MinPlus>, JobFault>
    requires { vec_len texts ≡ 1 }
    ensures { IsGraphAnsweredBy (Some ranks.now.engine) ranks.now.grid.side (task_is.Levels source) texts.items result }
{
    let graph = read_one::<OrAnd, R>(rt, alloc, &ranks.grid, ranks.threads, texts)?;
    match levels(rt, alloc, ranks.engine, graph, source) {
        Ok(column) => Ok(numbers_answer(alloc, column)?),
        Err(fault) => Err(job_fault(fault)),
    }
}

/// Reads a graph, and finds the distance of each vertex from a source, except infinite ones.
pub fn distances_answer<R: Threads + Wait + Sync>(
    rt: &R,
    alloc: Global,
    ranks: &Ranks<'_>,
    source: u32,
    texts: Vec<Text>,
) -> Result<Answer<MinPlus>, JobFault>
    requires { vec_len texts ≡ 1 }
    ensures { IsGraphAnsweredBy (Some ranks.now.engine) ranks.now.grid.side (task_is.Distances source) texts.items result }
{
    let graph = read_one::<MinPlus, R>(rt, alloc, &ranks.grid, ranks.threads, texts)?;
    match distances(rt, alloc, ranks.engine, graph, source) {
        Ok(column) => Ok(numbers_answer(alloc, column)?),
        Err(fault) => Err(job_fault(fault)),
    }
}
