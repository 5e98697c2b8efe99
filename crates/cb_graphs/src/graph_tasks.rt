//! Any task on a graph, by the caller's thread.
ghost use Rattle.std.specs.Prelude.{◌≡◌, IfErr, IfOk, IfSome, OnOk};
ghost use Rattle.cb_matrix.specs.Operations.{transposed};
ghost use Rattle.cb_semirings.specs.declared.names.SemiringName.TheVariants as name_is;
ghost use Rattle.cb_operations.specs.Graphs.{beside_of, semiring_of};
ghost use Rattle.cb_graphs.specs.GraphAnswers.{Fits, IsAnswerOf, IsFaultOf, IsTaken, IsUnfit, kind_of, value_of};

use crate::connected::components;
use crate::degrees::{column_degrees, row_degrees};
use crate::triangle_counts::{triangles, triangles_of};
use cb_dcsc::Block;
use cb_layout::PanelledMatrix;
use cb_matrix::{LIMIT, Matrix, Shape};
use cb_operations::{ComputeFault, GraphTask, Refusal, check_sources, check_values};
use cb_searches::{
    distances, distances_from, distances_given, levels, levels_from, levels_given, parents,
};
use cb_semirings::{MinPlus, OrAnd, PlusTimes, Semiring};
use std::alloc::{AllocError, Global};

/// What a task takes beside its graph.
#[derive(Drop)]
pub enum GraphOperand<'a> {
    /// Nothing.
    Nothing,
    /// Sources, counted from 0.
    Sources(&'a [u32]),
    /// A column of initial values.
    Values(&'a PanelledMatrix<MinPlus>),
}

impl GraphOperand<'_> {
    /// Refuses what can't be taken beside a graph of this shape: more sources than a matrix can have columns, then one that isn't
    /// a vertex; or initial values that aren't a column with a place for each vertex.
    fn check(&self, shape: Shape) -> Result<(), Refusal>
        ensures ok { OnOk result (Fits shape (value_of self.now)) }
        ensures refused { IfErr result (IsUnfit shape (value_of self.now)) }
    {
        match self {
            GraphOperand::Nothing => Ok(()),
            GraphOperand::Sources(sources) => {
                if sources.len() > LIMIT as usize {
                    return Err(Refusal::TooLarge);
                }
                check_sources(shape, sources)
            }
            GraphOperand::Values(values) => check_values(shape, values.shape()),
        }
    }
}

/// The answer of a task.
#[derive(Drop)]
pub enum GraphAnswer {
    /// A column with the number of each vertex that has one: a level or a distance.
    Numbers(Block<MinPlus>),
    /// Several such columns.
    Columns(Block<MinPlus>),
    /// A column with a vertex, counted from 0, for each vertex that has one.
    Vertices(Block<MinPlus>),
    /// A column with the count of each vertex, row or column that has one.
    Counts(Block<PlusTimes>),
    /// One count.
    Count(u64),
}

/// A semiring of graphs: or-and, or min-plus if edges have weights.
pub trait GraphSemiring: Semiring {
    ghost use Rattle.std.specs.Prelude.{◌≡◌, IfOk, IfSome};
    ghost use Rattle.cb_matrix.specs.Operations.{transposed};
    ghost use Rattle.cb_operations.specs.declared.graphs.GraphTask.{GraphTask};
    ghost use Rattle.cb_operations.specs.Graphs.{beside_of};
    ghost use Rattle.cb_graphs.specs.GraphAnswers.{IsAnswerOf, IsTaken, kind_of, value_of};

    /// The graph of a task is over it.
    ghost is_of: { GraphTask → Type 0 };

    /// The answer of a task that isn't refused. See [`compute`].
    fn answer<'g>(
        alloc: Global,
        task: GraphTask,
        graph: &'g Block<Self>,
        turned: Option<&'g Block<Self>>,
        operand: &GraphOperand<'_>,
    ) -> Result<GraphAnswer, AllocError>
        requires over { is_of task }
        requires kind { kind_of (value_of operand.now) ≡ beside_of task }
        requires taken { IsTaken task graph.now.shape (value_of operand.now) }
        requires turned { IfSome turned (λ t. t.now ≡ transposed Self.arithmetic graph.now) }
        ensures { IfOk result (IsAnswerOf Self.arithmetic task graph.now (value_of operand.now)) };
}

impl GraphSemiring for OrAnd {
    ghost is_of = { λ task. semiring_of task ≡ name_is.OrAnd };

    fn answer<'g>(
        alloc: Global,
        task: GraphTask,
        graph: &'g Block<OrAnd>,
        turned: Option<&'g Block<OrAnd>>,
        operand: &GraphOperand<'_>,
    ) -> Result<GraphAnswer, AllocError> {
        match task {
            GraphTask::Levels { source } => {
                let column = levels(alloc, graph, turned, source)?;
                Ok(GraphAnswer::Numbers(block_of(alloc, column)?))
            }
            GraphTask::LevelsFrom => {
                let GraphOperand::Sources(sources) = operand else {
                    unreachable!()
                };
                let columns = levels_from(alloc, graph, turned, sources)?;
                Ok(GraphAnswer::Columns(block_of(alloc, columns)?))
            }
            GraphTask::LevelsGiven => {
                let GraphOperand::Values(values) = operand else {
                    unreachable!()
                };
                let values = values.whole()?;
                let column = levels_given(alloc, graph, values.block())?;
                Ok(GraphAnswer::Numbers(block_of(alloc, column)?))
            }
            GraphTask::Parents { source } => {
                let column = parents(alloc, graph, turned, source)?;
                Ok(GraphAnswer::Vertices(block_of(alloc, column)?))
            }
            GraphTask::Components => {
                let column = components(alloc, graph)?;
                Ok(GraphAnswer::Vertices(block_of(alloc, column)?))
            }
            GraphTask::Triangles => Ok(GraphAnswer::Count(triangles(alloc, graph)?)),
            GraphTask::TriangleCounts => {
                let column = triangles_of(alloc, graph)?;
                Ok(GraphAnswer::Counts(block_of(alloc, column)?))
            }
            GraphTask::RowDegrees => Ok(GraphAnswer::Counts(row_degrees(alloc, graph)?)),
            GraphTask::ColumnDegrees => Ok(GraphAnswer::Counts(column_degrees(alloc, graph)?)),
            _ => unreachable!(),
        }
    }
}

impl GraphSemiring for MinPlus {
    ghost is_of = { λ task. semiring_of task ≡ name_is.MinPlus };

    fn answer<'g>(
        alloc: Global,
        task: GraphTask,
        graph: &'g Block<MinPlus>,
        turned: Option<&'g Block<MinPlus>>,
        operand: &GraphOperand<'_>,
    ) -> Result<GraphAnswer, AllocError> {
        match task {
            GraphTask::Distances { source } => {
                let column = distances(alloc, graph, turned, source)?;
                Ok(GraphAnswer::Numbers(block_of(alloc, column)?))
            }
            GraphTask::DistancesFrom => {
                let GraphOperand::Sources(sources) = operand else {
                    unreachable!()
                };
                let columns = distances_from(alloc, graph, turned, sources)?;
                Ok(GraphAnswer::Columns(block_of(alloc, columns)?))
            }
            GraphTask::DistancesGiven => {
                let GraphOperand::Values(values) = operand else {
                    unreachable!()
                };
                let values = values.whole()?;
                let column = distances_given(alloc, graph, values.block())?;
                Ok(GraphAnswer::Numbers(block_of(alloc, column)?))
            }
            _ => unreachable!(),
        }
    }
}

/// Computes a task with what it takes beside its graph, given the transpose of the graph as `turned` if the caller has it: searches
/// from sources use it.
///
/// What is refused is refused before memory is requested: the graph ([`GraphTask::check`]), then more sources than a matrix can
/// have columns, one that isn't a vertex, or initial values that aren't a column with a place for each vertex. The cost is that of
/// the task's function: [`levels`], [`components`] and so on. A matrix in several panels is copied into one block first.
pub fn compute<'g, S: GraphSemiring>(
    alloc: Global,
    task: GraphTask,
    graph: &'g PanelledMatrix<S>,
    turned: Option<&'g PanelledMatrix<S>>,
    operand: &GraphOperand<'_>,
) -> Result<GraphAnswer, ComputeFault>
    requires over { S.is_of task }
    requires kind { kind_of (value_of operand.now) ≡ beside_of task }
    requires turned { IfSome turned (λ t. t.now ≡ transposed S.arithmetic graph.now) }
    ensures ok { IfOk result (IsAnswerOf S.arithmetic task graph.now (value_of operand.now)) }
    ensures taken { OnOk result (IsTaken task graph.now.shape (value_of operand.now)) }
    ensures fault { IfErr result (IsFaultOf task graph.now.shape (value_of operand.now)) }
{
    let shape = graph.shape();
    task.check(shape)?;
    operand.check(shape)?;
    let whole = graph.whole()?;
    let turned = match turned {
        Some(turned) => Some(turned.whole()?),
        None => None,
    };
    let turned = turned.as_ref().map(|it| it.block());
    let answer = S::answer(alloc, task, whole.block(), turned, operand)?;
    Ok(answer)
}

/// A matrix as a block. The list of its entries is dropped.
pub fn block_of<S: Semiring>(alloc: Global, matrix: Matrix<S>) -> Result<Block<S>, AllocError>
    ensures { IfOk result (λ block. block ≡ matrix) }
{
    Block::from_ordered(alloc, matrix.shape(), matrix.entries())
}
