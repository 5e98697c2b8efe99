//! Reads the names of a job's files.
ghost use Rattle.std.specs.Prelude.{◌≡◌, ◌+◌, IfOk, IfSome, length, map, vec_len};
ghost use Rattle.cb_operations.specs.Computations.{operand_count_of};
ghost use Rattle.cb_operations.specs.Graphs.{count_with};
ghost use Rattle.cb_command_line.specs.Asked.{AreWordsOf, file_names, list_names, names_with, operand_names};
ghost use Rattle.cb_command_line.specs.Jobs.{file_count_of, list_count_of};
ghost use Rattle.cb_command_line.specs.Options.{rows_in};

use crate::lists::Lists;
use crate::options::word_of;
use crate::tasks::Task;
use cb_operations::{Beside, Computation, Operation};
use clap::ArgMatches;
use std::alloc::{AllocError, Global};

/// The arguments that name the matrices of a computation, in the order in which they are read.
fn operands(computation: Computation) -> &'static [&'static str]
    ensures count { length result.now ≡ operand_count_of computation }
    ensures names { map (λ name. name.now) result.now ≡ operand_names computation }
{
    match computation {
        Computation::Operation(Operation::MultiplyVector) => &["A", "x"],
        _ => &["A", "B", "mask"][..computation.operand_count()],
    }
}

/// The arguments that name a matrix and the files of lists, in the order in which they are read.
fn listed(lists: Lists) -> &'static [&'static str]
    ensures count { length result.now ≡ 1 + list_count_of lists }
    ensures names { map (λ name. name.now) result.now ≡ list_names lists }
{
    match lists {
        Lists::Rows => &["A", "rows"],
        Lists::Columns => &["A", "columns"],
        Lists::Both => &["A", "rows", "columns"],
    }
}

/// The arguments that name a graph and what a task takes beside it, in the order in which they are read.
fn searched(beside: Beside) -> &'static [&'static str]
    ensures count { length result.now ≡ count_with beside }
    ensures names { map (λ name. name.now) result.now ≡ names_with beside }
{
    match beside {
        Beside::Nothing => &["A"],
        Beside::Sources => &["A", "s"],
        Beside::Values => &["A", "x"],
    }
}

/// The arguments that name the files of a task, in the order in which they are read.
pub fn arguments(task: Task) -> &'static [&'static str]
    ensures count { length result.now ≡ file_count_of task }
    ensures names { map (λ name. name.now) result.now ≡ file_names task }
{
    match task {
        Task::Compute(computation, _) => operands(computation),
        Task::Extract(lists, _) => listed(lists),
        Task::Graph(task) => searched(task.beside()),
    }
}

/// The files that these arguments name, or None if one of the arguments is missing.
pub fn files_of(
    alloc: Global,
    found: &ArgMatches<'_>,
    arguments: &[&str],
) -> Result<Option<Vec<String>>, AllocError>
    ensures count { IfOk result (λ files. IfSome files (λ v. vec_len v ≡ length arguments.now)) }
    ensures names { IfOk result (λ files. IfSome files (AreWordsOf (map (λ name. name.now) arguments.now) (rows_in found.now))) }
{
    let mut files = Vec::with_capacity(alloc, arguments.len())?;
    for argument in arguments {
        let Some(name) = word_of(found, argument) else {
            return Ok(None);
        };
        files.push(String::from_str(alloc, name)?)?;
    }
    Ok(Some(files))
}
