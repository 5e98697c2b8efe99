//! Rows and columns of the matrix of a text by their numbers, which are listed in other texts. The caller's thread makes them.
ghost use Rattle.std.specs.Prelude.{◌≡◌, ◌+◌, vec_len, false, option_map, IfOk, IfErr, OnOk};
ghost use Rattle.cb_semirings.specs.Tables.{plus_times};
ghost use Rattle.cb_selections.specs.Extracted.{AreBelow, AreFew};
ghost use Rattle.cb_command_line.specs.Jobs.{list_count_of};
ghost use Rattle.cb_job_inputs.specs.Inputs.{IsFirstReadFault, arithmetic_at};
ghost use Rattle.cb_job_inputs.specs.Lists.{numbers_in};
ghost use Rattle.cb_job_computations.specs.Extracts.{AreListsFault, AreListsRefused, AreLists, AreWithLists, IsListed, IsUnlisted};
ghost use Rattle.cb_job_computations.specs.Extracts.{IsExtractAnswered, IsExtractEnd, extract_of};

use cb_bases::Based;
use cb_command_line::Lists;
use cb_dcsc::Block;
use cb_job_ends::faults::JobFault;
use cb_job_ends::sinks::Sink;
use cb_job_ends::texts::Text;
use cb_job_inputs::inputs::read_beside;
use cb_job_inputs::lists::{check_list, listed};
use cb_job_output::answers::{Answer, put_answer};
use cb_layout::{Grid, PanelledMatrix};
use cb_matrix::Shape;
use cb_operations::{ComputeFault, Refusal};
use cb_selections::extract;
use cb_semirings::{PlusTimes, Semiring};
use std::alloc::{AllocError, Global};
use std::thread::Threads;

/// Reads a matrix over a semiring, and the lists that there are of its rows and of its columns.
fn read_with_lists<S: Based + Send + Sync, R: Threads + Sync>(
    rt: &R,
    alloc: Global,
    threads: u32,
    lists: Lists,
    texts: Vec<Text>,
) -> Result<(Block<S>, Option<Block<PlusTimes>>, Option<Block<PlusTimes>>), JobFault>
    requires { vec_len texts ≡ 1 + list_count_of lists }
    ensures ok { IfOk result (λ p. AreWithLists lists S.arithmetic texts.items p.0 p.1 p.2) }
    ensures fault { IfErr result (IsFirstReadFault (arithmetic_at S.arithmetic plus_times) texts.items) }
{
    let grid = Grid::single();
    let (matrix, list, other) = read_beside::<S, PlusTimes, R>(rt, alloc, &grid, threads, texts)?;
    let (matrix, list) = (matrix.into_block(), list.into_block());
    match (lists, other) {
        (Lists::Rows, _) => Ok((matrix, Some(list), None)),
        (Lists::Columns, _) => Ok((matrix, None, Some(list))),
        (Lists::Both, Some(columns)) => Ok((matrix, Some(list), Some(columns.into_block()))),
        (Lists::Both, None) => unreachable!(),
    }
}

/// Refuses a matrix, if there is one, that doesn't list numbers from 1 to a limit. If a place has no such number, the refusal is
/// `missing`.
fn check_some_list(
    list: &Option<Block<PlusTimes>>,
    limit: u32,
    missing: Refusal,
) -> Result<(), Refusal>
    ensures ok { OnOk result (IsListed limit list.now) }
    ensures refused { IfErr result (IsUnlisted missing limit list.now) }
{
    match list {
        Some(column) => check_list(column, limit, missing),
        None => Ok(()),
    }
}

/// Checks that two matrices list rows and columns in a shape.
fn check_lists(
    shape: Shape,
    rows: &Option<Block<PlusTimes>>,
    columns: &Option<Block<PlusTimes>>,
) -> Result<(), Refusal>
    ensures ok { OnOk result (AreLists shape rows.now columns.now) }
    ensures refused { IfErr result (AreListsRefused shape rows.now columns.now) }
{
    check_some_list(rows, shape.rows(), Refusal::NoRow)?;
    check_some_list(columns, shape.cols(), Refusal::NoColumn)
}

/// The numbers of a list, if there is one, counted from 0.
fn numbers_of(
    alloc: Global,
    list: &Option<Block<PlusTimes>>,
    limit: u32,
) -> Result<Option<Vec<u32>>, AllocError>
    requires { IsListed limit list.now }
    ensures numbers { IfOk result (λ v. option_map (λ n. n.items) v ≡ option_map numbers_in list.now) }
    ensures below { IfOk result (λ v. AreBelow limit (option_map (λ n. n.items) v)) }
    ensures few { IfOk result (λ v. AreFew (option_map (λ n. n.items) v)) }
{
    let Some(column) = list else {
        return Ok(None);
    };
    let numbers = listed(alloc, column, limit)?;
    Ok(Some(numbers))
}

/// The listed rows and columns of a block; without a list, all of them.
fn part_of<S: Semiring>(
    alloc: Global,
    block: &Block<S>,
    rows: &Option<Block<PlusTimes>>,
    columns: &Option<Block<PlusTimes>>,
) -> Result<PanelledMatrix<S>, ComputeFault>
    ensures listed { OnOk result (AreLists block.now.shape rows.now columns.now) }
    ensures part { IfOk result (λ m. m ≡ extract_of S.arithmetic block.now rows.now columns.now) }
    ensures fault { IfErr result (AreListsFault block.now.shape rows.now columns.now) }
{
    let shape = block.shape();
    check_lists(shape, rows, columns)?;
    let some_rows = numbers_of(alloc, rows, shape.rows())?;
    let some_columns = numbers_of(alloc, columns, shape.cols())?;
    let part = extract(alloc, block, some_rows.as_deref(), some_columns.as_deref())?;
    Ok(PanelledMatrix::from_block(alloc, part))
}

/// Reads a matrix over a semiring and lists, and makes the rows and columns that are listed: the answer whose text is theirs.
pub fn extract_answer<S: Based + Send + Sync, R: Threads + Sync>(
    rt: &R,
    alloc: Global,
    threads: u32,
    lists: Lists,
    texts: Vec<Text>,
) -> Result<Answer<S>, JobFault>
    requires { vec_len texts ≡ 1 + list_count_of lists }
    ensures { IsExtractAnswered lists S.arithmetic texts.items result }
{
    let (matrix, rows, columns) = read_with_lists::<S, R>(rt, alloc, threads, lists, texts)?;
    let part = part_of(alloc, &matrix, &rows, &columns)?;
    Ok(Answer::Matrix(part))
}

/// Writes the text of the listed rows and columns of a matrix over a semiring.
#[tactic(auto, unfolding(crate::specs::Extracts::IsExtractEnd))]
pub fn put_extract<S: Based + Send + Sync, R: Threads + Sync, K: Sink>(
    rt: &R,
    alloc: Global,
    threads: u32,
    lists: Lists,
    texts: Vec<Text>,
    out: &mut K,
) -> Result<(), JobFault>
    requires texts { vec_len texts ≡ 1 + list_count_of lists }
    requires works { K.has_failed out.old ≡ false }
    ensures { IsExtractEnd lists S.arithmetic texts.items (K.written out.old) (K.written out.new) (K.has_failed out.new) result }
{
    let answer = extract_answer::<S, R>(rt, alloc, threads, lists, texts)?;
    put_answer(rt, alloc, threads, answer, out)
}
