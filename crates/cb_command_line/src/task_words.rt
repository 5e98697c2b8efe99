//! Reads the task of a command line.
ghost use Rattle.std.specs.Prelude.{◌≡◌, IfSome, Some};
ghost use Rattle.cb_command_line.specs.Asked.{AsksFor, AsksForComputation, entry, graph_tasks, operations, semiring_in, test_in};
ghost use Rattle.cb_command_line.specs.Options.{rows_in};

use crate::options::{has_word, is_there, number_of, place_of, word_of};
use crate::selection_words::{lists_of, selection_of};
use crate::tasks::Task;
use cb_matrix::Test;
use cb_operations::{Computation, GraphTask, Operation};
use cb_semirings::SemiringName;
use clap::ArgMatches;

fn semiring_of(found: &ArgMatches<'_>) -> Option<SemiringName>
    ensures { result ≡ semiring_in (rows_in found.now) }
{
    SemiringName::named(word_of(found, "semiring")?)
}

fn test_of(found: &ArgMatches<'_>) -> Option<Test>
    ensures { result ≡ test_in (rows_in found.now) }
{
    let number = number_of(found, "value")?;
    match word_of(found, "test")? {
        "below" => Some(Test::Below(number)),
        "above" => Some(Test::Above(number)),
        "equal" => Some(Test::Equal(number)),
        _ => None,
    }
}

/// The operation of a command on matrices.
fn operation_of(command: &str, found: &ArgMatches<'_>) -> Option<Operation>
    ensures { IfSome result (λ operation. entry command.now (operations (rows_in found.now)) ≡ Some operation) }
{
    match command {
        "multiply" if is_there(found, "mask") => Some(Operation::MultiplyMasked),
        "multiply" => Some(Operation::Multiply),
        "spmv" => Some(Operation::MultiplyVector),
        "transpose" => Some(Operation::Transpose),
        "reduce" if has_word(found, "by", "columns") => Some(Operation::ColumnSums),
        "reduce" => Some(Operation::RowSums),
        "add" => Some(Operation::Add),
        "times" => Some(Operation::Times),
        "prune" => Some(Operation::Prune(test_of(found)?)),
        _ => None,
    }
}

/// The task of a command on a graph.
fn graph_task_of(command: &str, found: &ArgMatches<'_>) -> Option<GraphTask>
    ensures { IfSome result (λ task. entry command.now (graph_tasks (rows_in found.now)) ≡ Some task) }
{
    let source = place_of(found, "source");
    match command {
        "bfs" => Some(GraphTask::Levels { source: source? }),
        "relax" => Some(GraphTask::Distances { source: source? }),
        "parents" => Some(GraphTask::Parents { source: source? }),
        "bfs-from" => Some(GraphTask::LevelsFrom),
        "relax-from" => Some(GraphTask::DistancesFrom),
        "bfs-given" => Some(GraphTask::LevelsGiven),
        "relax-given" => Some(GraphTask::DistancesGiven),
        "components" => Some(GraphTask::Components),
        "triangles" if has_word(found, "by", "vertex") => Some(GraphTask::TriangleCounts),
        "triangles" => Some(GraphTask::Triangles),
        "degrees" if has_word(found, "by", "column") => Some(GraphTask::ColumnDegrees),
        "degrees" => Some(GraphTask::RowDegrees),
        _ => None,
    }
}

/// What a command computes of matrices.
fn computation_of(command: &str, found: &ArgMatches<'_>) -> Option<Computation>
    ensures { IfSome result (AsksForComputation command.now (rows_in found.now)) }
{
    match operation_of(command, found) {
        Some(operation) => Some(Computation::Operation(operation)),
        None => Some(Computation::Selection(selection_of(command, found)?)),
    }
}

/// The task of a command.
pub fn task_of(command: &str, found: &ArgMatches<'_>) -> Option<Task>
    ensures { IfSome result (AsksFor command.now (rows_in found.now)) }
{
    if let Some(task) = graph_task_of(command, found) {
        return Some(Task::Graph(task));
    }
    let semiring = semiring_of(found)?;
    match command {
        "extract" => Some(Task::Extract(lists_of(found)?, semiring)),
        _ => Some(Task::Compute(computation_of(command, found)?, semiring)),
    }
}
