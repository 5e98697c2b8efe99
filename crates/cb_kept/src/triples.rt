//! Kept matrices from triples in any order. Values at one place are added up.
ghost use Rattle.std.specs.Prelude.{◌≡◌, ◌↔◌, IsTrue, map, IfOk, IfErr};
ghost use Rattle.cb_matrix.specs.Values.{collected};
ghost use Rattle.cb_kept.specs.Answers.{NoFault};
ghost use Rattle.cb_kept.specs.KeptAnswers.{IsKeptAnswerOver};
ghost use Rattle.cb_kept.specs.Triples.{entry_of, AreWithin, AreTripleValues, triple_faults, IsKeptTriples, IsTriplesAnswer};

use crate::faults::Fault;
use crate::kept::{Keep, Kept, keep_block};
use cb_dcsc::Block;
use cb_matrix::{Entry, Matrix, Shape};
use cb_semirings::{Semiring, SemiringName, over_semiring};
use std::alloc::{AllocError, Global};

/// An entry: its row, its column and its value.
#[repr(C)]
#[derive(Clone, Copy)]
pub struct Triple {
    pub row: u32,
    pub column: u32,
    pub value: u64,
}

/// The entries of triples, as a new list.
fn entries_of(alloc: Global, triples: &[Triple]) -> Result<Vec<Entry>, AllocError>
    ensures { IfOk result (λ v. v.items ≡ map entry_of triples.now) }
{
    let mut entries = Vec::with_capacity(alloc, triples.len())?;
    for triple in triples {
        entries.push(Entry {
            row: triple.row,
            column: triple.column,
            value: triple.value,
        })?;
    }
    Ok(entries)
}

/// Whether all places are inside a shape.
pub(crate) fn are_within(shape: Shape, triples: &[Triple]) -> bool
    ensures { IsTrue result ↔ AreWithin shape triples.now }
{
    let (rows, cols) = (shape.rows(), shape.cols());
    triples
        .iter()
        .all(|triple| triple.row < rows && triple.column < cols)
}

/// Whether the values are values of the semiring.
fn are_values<S: Semiring>(triples: &[Triple]) -> bool
    ensures { IsTrue result ↔ AreTripleValues S.arithmetic triples.now }
{
    triples.iter().all(|triple| S::is_value(triple.value))
}

/// The shape of well-formed triples, or else the first fault.
#[tactic(auto, using(crate::proofs::TripleFaults::too_large_first, crate::proofs::TripleFaults::place_next, crate::proofs::TripleFaults::value_next))]
fn check<S: Semiring>(nrows: u32, ncols: u32, triples: &[Triple]) -> Result<Shape, Fault>
    ensures shape { IfOk result (λ d. d ≡ record { rows = nrows; cols = ncols }) }
    ensures within { IfOk result (λ d. AreWithin d triples.now) }
    ensures values { IfOk result (λ _. AreTripleValues S.arithmetic triples.now) }
    ensures none { IfOk result (λ _. NoFault (triple_faults S.arithmetic nrows ncols triples.now)) }
    ensures fault { IfErr result (triple_faults S.arithmetic nrows ncols triples.now) }
{
    let Some(shape) = Shape::new(nrows, ncols) else {
        return Err(Fault::TooLarge);
    };
    if !are_within(shape, triples) {
        return Err(Fault::Place);
    }
    if !are_values::<S>(triples) {
        return Err(Fault::Value);
    }
    Ok(shape)
}

/// The block of well-formed triples.
fn block_of<S: Semiring>(
    alloc: Global,
    shape: Shape,
    triples: &[Triple],
) -> Result<Block<S>, AllocError>
    requires within { AreWithin shape triples.now }
    requires values { AreTripleValues S.arithmetic triples.now }
    ensures { IfOk result (λ m. m ≡ collected S.arithmetic shape (map entry_of triples.now)) }
{
    let entries = entries_of(alloc, triples)?;
    let matrix = Matrix::<S>::collect(shape, entries)?;
    Block::from_ordered(alloc, matrix.shape(), matrix.entries())
}

/// The matrix of triples, kept over a semiring.
fn triples_over<S: Keep>(
    alloc: Global,
    nrows: u32,
    ncols: u32,
    triples: &[Triple],
) -> Result<Kept, Fault>
    ensures { IsTriplesAnswer S.arithmetic S.name nrows ncols triples.now result }
{
    let shape = check::<S>(nrows, ncols, triples)?;
    let block = block_of::<S>(alloc, shape, triples)?;
    Ok(keep_block::<S>(alloc, block))
}

/// Keeps the matrix of triples in any order, over the semiring of a number. Values at one place are added up. Costs a sort
/// of the triples, or one walk if they ascend by column and then by row.
pub fn keep_triples(
    alloc: Global,
    semiring: u32,
    nrows: u32,
    ncols: u32,
    triples: &[Triple],
) -> Result<Kept, Fault>
    ensures { IsKeptAnswerOver semiring (λ s. triple_faults s nrows ncols triples.now) (λ s name. IsKeptTriples s name nrows ncols triples.now) result }
{
    match SemiringName::numbered(semiring) {
        Some(name) => over_semiring!(name, triples_over::<_>(alloc, nrows, ncols, triples)),
        None => Err(Fault::Semiring),
    }
}
