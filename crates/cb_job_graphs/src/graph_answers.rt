//! The answer of a task on the graph of a text, over the semiring of the graph; and the text of any such answer.
ghost use Rattle.std.specs.Prelude.{◌≡◌, vec_len, IfErr, IfOk};
ghost use Rattle.cb_semirings.specs.Tables.{min_plus};
ghost use Rattle.cb_operations.specs.declared.graphs.Beside.TheVariants as beside_is;
ghost use Rattle.cb_operations.specs.Graphs.{beside_of, operand_count_of};
ghost use Rattle.cb_graphs.specs.GraphAnswers.{IsTaken, SourceList};
ghost use Rattle.cb_job_inputs.specs.Lists.{IsList, numbers_in};
ghost use Rattle.cb_job_output.specs.Answers.{text_of_answer};
ghost use Rattle.cb_job_graphs.specs.GraphTasks.{HasAnswer, IsListFault, answer_text};

use cb_bases::Based;
use cb_dcsc::Block;
use cb_graphs::{GraphAnswer, GraphOperand, GraphSemiring, compute};
use cb_job_ends::faults::JobFault;
use cb_job_ends::texts::Text;
use cb_job_inputs::inputs::{read_beside, read_one};
use cb_job_inputs::lists::{check_list, listed};
use cb_job_output::answers::Answer;
use cb_layout::{Grid, PanelledMatrix};
use cb_market_pages::LineForm;
use cb_matrix::Shape;
use cb_operations::{Beside, ComputeFault, GraphTask, Refusal};
use cb_semirings::{MinPlus, PlusTimes};
use std::alloc::Global;
use std::thread::Threads;

/// The answer of a task that takes nothing beside its graph.
fn answer_alone<S: GraphSemiring + Based + Send + Sync, R: Threads + Sync>(
    rt: &R,
    alloc: Global,
    threads: u32,
    task: GraphTask,
    texts: Vec<Text>,
) -> Result<GraphAnswer, JobFault>
    requires over { S.is_of task }
    requires beside { beside_of task ≡ beside_is.Nothing }
    requires count { vec_len texts ≡ 1 }
    ensures { HasAnswer beside_is.Nothing S.arithmetic task texts.items result }
{
    let graph = read_one::<S, R>(rt, alloc, &Grid::single(), threads, texts)?;
    let graph = PanelledMatrix::from_block(alloc, graph.into_block());
    let answer = compute(alloc, task, &graph, None, &GraphOperand::Nothing)?;
    Ok(answer)
}

/// The sources that a list has for a task on a graph of this shape, which is refused before the list.
fn sources_of(
    alloc: Global,
    task: GraphTask,
    shape: Shape,
    list: Block<PlusTimes>,
) -> Result<Vec<u32>, ComputeFault>
    ensures list { IfOk result (λ _. IsList shape.rows list) }
    ensures sources { IfOk result (λ v. v.items ≡ numbers_in list) }
    ensures taken { IfOk result (λ v. IsTaken task shape (SourceList v.items)) }
    ensures fault { IfErr result (IsListFault task shape list) }
{
    task.check(shape)?;
    check_list(&list, shape.rows(), Refusal::Source)?;
    let sources = listed(alloc, &list, shape.rows())?;
    Ok(sources)
}

/// The answer of a task from listed sources.
fn answer_from<S: GraphSemiring + Based + Send + Sync, R: Threads + Sync>(
    rt: &R,
    alloc: Global,
    threads: u32,
    task: GraphTask,
    texts: Vec<Text>,
) -> Result<GraphAnswer, JobFault>
    requires over { S.is_of task }
    requires beside { beside_of task ≡ beside_is.Sources }
    requires count { vec_len texts ≡ 2 }
    ensures { HasAnswer beside_is.Sources S.arithmetic task texts.items result }
{
    let grid = Grid::single();
    let (graph, list, _) = read_beside::<S, PlusTimes, R>(rt, alloc, &grid, threads, texts)?;
    let sources = sources_of(alloc, task, graph.shape(), list.into_block())?;
    let graph = PanelledMatrix::from_block(alloc, graph.into_block());
    let answer = compute(alloc, task, &graph, None, &GraphOperand::Sources(&sources))?;
    Ok(answer)
}

/// The answer of a task from initial values.
fn answer_given<S: GraphSemiring + Based + Send + Sync, R: Threads + Sync>(
    rt: &R,
    alloc: Global,
    threads: u32,
    task: GraphTask,
    texts: Vec<Text>,
) -> Result<GraphAnswer, JobFault>
    requires over { S.is_of task }
    requires beside { beside_of task ≡ beside_is.Values }
    requires count { vec_len texts ≡ 2 }
    ensures { HasAnswer beside_is.Values S.arithmetic task texts.items result }
{
    let grid = Grid::single();
    let (graph, values, _) = read_beside::<S, MinPlus, R>(rt, alloc, &grid, threads, texts)?;
    let graph = PanelledMatrix::from_block(alloc, graph.into_block());
    let values = PanelledMatrix::from_block(alloc, values.into_block());
    let answer = compute(alloc, task, &graph, None, &GraphOperand::Values(&values))?;
    Ok(answer)
}

/// Reads the texts of a task in order, and computes what it asks for. Several threads read a large text. The matrices are dropped
/// then.
pub(crate) fn answer_over<S: GraphSemiring + Based + Send + Sync, R: Threads + Sync>(
    rt: &R,
    alloc: Global,
    threads: u32,
    task: GraphTask,
    texts: Vec<Text>,
) -> Result<GraphAnswer, JobFault>
    requires over { S.is_of task }
    requires count { vec_len texts ≡ operand_count_of task }
    ensures { HasAnswer (beside_of task) S.arithmetic task texts.items result }
{
    match task.beside() {
        Beside::Nothing => answer_alone::<S, R>(rt, alloc, threads, task, texts),
        Beside::Sources => answer_from::<S, R>(rt, alloc, threads, task, texts),
        Beside::Values => answer_given::<S, R>(rt, alloc, threads, task, texts),
    }
}

/// An answer to be written: a matrix, a number, or a column with a line for each vertex, row or column that has a number.
pub fn text_answer(alloc: Global, answer: GraphAnswer) -> Answer<MinPlus>
    ensures { text_of_answer min_plus result ≡ answer_text answer }
{
    match answer {
        GraphAnswer::Numbers(column) => Answer::Column(column, LineForm::RowAndValue),
        GraphAnswer::Columns(matrix) => Answer::Matrix(PanelledMatrix::from_block(alloc, matrix)),
        GraphAnswer::Vertices(column) => Answer::Column(column, LineForm::RowAndVertex),
        GraphAnswer::Counts(column) => Answer::Counts(column),
        GraphAnswer::Count(count) => Answer::Number(count),
    }
}
