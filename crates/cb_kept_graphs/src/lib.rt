//! Tasks on kept graphs, by numbers, and their answers, for programs in other languages. [`kept_graph`] computes any. The graph is
//! borrowed; the kernels copy or transpose only what they need.
#![tactic(auto)]

ghost use Rattle.std.specs.Prelude.{◌≡◌, IfErr, IfOk, IfSome, OnOk};
ghost use Rattle.cb_semirings.specs.Names.{arithmetic_of};
ghost use Rattle.cb_matrix.specs.Operations.{transposed};
ghost use Rattle.cb_operations.specs.Graphs.{beside_of};
ghost use Rattle.cb_graphs.specs.GraphAnswers.{NoOperand, value_of};
ghost use Rattle.cb_kept.specs.Answers.{IsAnswer};
ghost use Rattle.cb_kept.specs.Kept.{matrix_in, semiring_of};
ghost use Rattle.cb_kept_graphs.specs.KeptGraphs.{AreOverMinPlus, IsDegrees, IsGraphAnswer, IsKeptAnswer, IsKeptAs, IsTaskAnswer, faults_over, graph_faults, graph_task_of, operand_faults, operand_of, task_faults};
ghost use Rattle.cb_kept.specs.Refusals.{IsMemory};

use cb_graphs::{GraphAnswer, GraphOperand, GraphSemiring, column_degrees, compute, row_degrees};
use cb_kept::{Fault, Keep, Kept, KeptMatrix, keep_block, of_matrix};
use cb_layout::PanelledMatrix;
use cb_matrix::Shape;
use cb_operations::{Beside, GraphTask};
use cb_semirings::{MinPlus, OrAnd, PlusTimes, Semiring, SemiringName};
use std::alloc::Global;

/// The answer of a task on a kept graph.
#[derive(Drop)]
pub enum KeptAnswer {
    /// Columns of numbers or of vertices, over min-plus, or a column of counts, over plus-times.
    Matrix(Kept),
    /// One count.
    Number(u64),
}

/// Returns the task with the number `task`, which begins at `source` if it has one source: 0 for levels and 1 for distances,
/// 2 and 3 for those from several sources, 4 and 5 for those from initial values, 6 for parents, 7 for components, 8 for
/// triangles and 9 for those of each vertex, 10 and 11 for the degrees of rows and of columns. No other number has a task.
pub fn graph_task_of(task: u32, source: u32) -> Option<GraphTask>
    ensures { result ≡ graph_task_of task source }
{
    match task {
        0 => Some(GraphTask::Levels { source }),
        1 => Some(GraphTask::Distances { source }),
        2 => Some(GraphTask::LevelsFrom),
        3 => Some(GraphTask::DistancesFrom),
        4 => Some(GraphTask::LevelsGiven),
        5 => Some(GraphTask::DistancesGiven),
        6 => Some(GraphTask::Parents { source }),
        7 => Some(GraphTask::Components),
        8 => Some(GraphTask::Triangles),
        9 => Some(GraphTask::TriangleCounts),
        10 => Some(GraphTask::RowDegrees),
        11 => Some(GraphTask::ColumnDegrees),
        _ => None,
    }
}

/// Keeps an answer.
fn keep_answer(alloc: Global, answer: GraphAnswer) -> KeptAnswer
    ensures { IsKeptAs answer result }
{
    match answer {
        GraphAnswer::Numbers(m) => KeptAnswer::Matrix(keep_block::<MinPlus>(alloc, m)),
        GraphAnswer::Columns(m) => KeptAnswer::Matrix(keep_block::<MinPlus>(alloc, m)),
        GraphAnswer::Vertices(m) => KeptAnswer::Matrix(keep_block::<MinPlus>(alloc, m)),
        GraphAnswer::Counts(m) => KeptAnswer::Matrix(keep_block::<PlusTimes>(alloc, m)),
        GraphAnswer::Count(count) => KeptAnswer::Number(count),
    }
}

/// What a task takes beside a graph of some shape. Initial values over another semiring are refused after the graph.
fn operand_in<'k>(
    task: GraphTask,
    shape: Shape,
    sources: &'k [u32],
    values: &'k Kept,
) -> Result<GraphOperand<'k>, Fault>
    ensures operand { IfOk result (λ operand. value_of operand ≡ operand_of (beside_of task) sources.now values.now) }
    ensures over { OnOk result (AreOverMinPlus (beside_of task) values.now) }
    ensures fault { IfErr result (operand_faults task shape values.now (λ _. ⊥)) }
{
    match task.beside() {
        Beside::Nothing => Ok(GraphOperand::Nothing),
        Beside::Sources => Ok(GraphOperand::Sources(sources)),
        Beside::Values => {
            let Ok(column) = MinPlus::panels_of(values) else {
                task.check(shape)?;
                return Err(Fault::Mixed);
            };
            Ok(GraphOperand::Values(column))
        }
    }
}

/// The panels of the transpose of a kept matrix, if that is kept, and is over a semiring.
fn turned_in<S: Keep>(kept: &KeptMatrix) -> Option<&PanelledMatrix<S>>
    requires { arithmetic_of S.name ≡ S.arithmetic }
    ensures { IfSome result (λ turned. turned.now ≡ transposed S.arithmetic (matrix_in kept.now)) }
{
    S::panels_of(kept.turned()?).ok()
}

/// The answer of a task on a graph that has to be over a semiring.
fn answer_over<S: GraphSemiring + Keep>(
    alloc: Global,
    task: GraphTask,
    graph: &KeptMatrix,
    sources: &[u32],
    values: &Kept,
) -> Result<KeptAnswer, Fault>
    requires named { arithmetic_of S.name ≡ S.arithmetic }
    requires over { S.is_of task }
    ensures { IsAnswer (faults_over S.name task graph.now sources.now values.now) (IsTaskAnswer task graph.now sources.now values.now) result }
{
    let panels = S::panels_of(graph.matrix())?;
    let turned = turned_in::<S>(graph);
    let operand = operand_in(task, panels.shape(), sources, values)?;
    let answer = compute(alloc, task, panels, turned, &operand)?;
    Ok(keep_answer(alloc, answer))
}

/// The degrees of columns, or of rows for any other task, of a matrix over any semiring.
fn degrees_over<S: Semiring>(
    alloc: Global,
    task: GraphTask,
    matrix: &PanelledMatrix<S>,
) -> Result<KeptAnswer, Fault>
    requires { IsDegrees task }
    ensures { IsAnswer IsMemory (IsKeptAnswer S.arithmetic task matrix.now NoOperand) result }
{
    let whole = matrix.whole()?;
    let column = match task {
        GraphTask::ColumnDegrees => column_degrees(alloc, whole.block())?,
        _ => row_degrees(alloc, whole.block())?,
    };
    Ok(KeptAnswer::Matrix(keep_block::<PlusTimes>(alloc, column)))
}

/// The same of a kept matrix.
#[tactic(auto, unfolding(cb_kept::specs::Kept::semiring_of, cb_kept::specs::Kept::matrix_in))]
fn kept_degrees(alloc: Global, task: GraphTask, kept: &Kept) -> Result<KeptAnswer, Fault>
    requires { IsDegrees task }
    ensures { IsAnswer IsMemory (IsKeptAnswer (arithmetic_of (semiring_of kept.now)) task (matrix_in kept.now) NoOperand) result }
{
    of_matrix!(kept, matrix => degrees_over(alloc, task, matrix))
}

/// The answer of a task.
fn known_graph(
    alloc: Global,
    task: GraphTask,
    graph: &KeptMatrix,
    sources: &[u32],
    values: &Kept,
) -> Result<KeptAnswer, Fault>
    ensures { IsAnswer (task_faults task graph.now sources.now values.now) (IsTaskAnswer task graph.now sources.now values.now) result }
{
    match task {
        GraphTask::RowDegrees => kept_degrees(alloc, task, graph.matrix()),
        GraphTask::ColumnDegrees => kept_degrees(alloc, task, graph.matrix()),
        _ => match task.semiring() {
            SemiringName::MinPlus => answer_over::<MinPlus>(alloc, task, graph, sources, values),
            _ => answer_over::<OrAnd>(alloc, task, graph, sources, values),
        },
    }
}

/// Computes a task on a kept graph, and keeps the answer. `None` stands for a number without a task. `sources` are those of a
/// task from several sources, counted from 0, and `values` the initial values, in a column over min-plus; other tasks don't
/// read them.
///
/// The faults in order: no task; a graph over another semiring than the task's ([`GraphTask::semiring`]), one that isn't square,
/// one without the source; more sources than a matrix can have columns, a source that isn't a vertex; initial values over
/// another semiring than min-plus, or that aren't a column with a place for each vertex. Degrees take a matrix over any semiring
/// and of any shape. The cost is that of the task: see [`compute`]. Searches from sources use the transpose of
/// the graph if it is [kept](KeptMatrix::keep_transpose).
pub fn kept_graph(
    alloc: Global,
    task: Option<GraphTask>,
    graph: &KeptMatrix,
    sources: &[u32],
    values: &Kept,
) -> Result<KeptAnswer, Fault>
    ensures { IsAnswer (graph_faults task graph.now sources.now values.now) (IsGraphAnswer task graph.now sources.now values.now) result }
{
    match task {
        Some(known) => known_graph(alloc, known, graph, sources, values),
        None => Err(Fault::Test),
    }
}
