//! Kept matrices from lists, and lists of a kept matrix.
ghost use Rattle.std.specs.Prelude.{IfOk, IfErr};
ghost use Rattle.cb_lists.specs.Lists.{AreLists, HasLists};
ghost use Rattle.cb_kept.specs.Refusals.{IsMemory, list_faults, matrix_faults};
ghost use Rattle.cb_kept.specs.Answers.{IsAnswer};
ghost use Rattle.cb_kept.specs.Kept.{matrix_in};
ghost use Rattle.cb_kept.specs.KeptAnswers.{IsKeptAnswerOver, IsKeptOf};

use crate::faults::Fault;
use crate::kept::{Keep, Kept, keep_block};
use crate::of_matrix;
use cb_layout::PanelledMatrix;
use cb_lists::{Columns, block_lists, block_of};
use cb_semirings::{Semiring, SemiringName, over_semiring};
use std::alloc::Global;

/// Checks that lists are those of a matrix over the semiring, or returns the first fault. Costs a walk over the stored
/// columns and the entries.
#[tactic(auto, unfolding(crate::specs::Refusals::matrix_faults))]
fn check_lists<S: Semiring>(lists: &Columns) -> Result<(), Fault>
    ensures ok { IfOk result (λ _. AreLists S.arithmetic lists.now) }
    ensures fault { IfErr result (matrix_faults S.arithmetic lists.now (λ _. ⊥)) }
{
    if !lists.has_form() {
        return Err(Fault::Form);
    }
    if !lists.fits() {
        return Err(Fault::TooLarge);
    }
    if !lists.have_lengths() {
        return Err(Fault::Lengths);
    }
    if !lists.are_ordered() {
        return Err(Fault::Order);
    }
    if !lists.are_inside() {
        return Err(Fault::Place);
    }
    if !lists.are_values::<S>() {
        return Err(Fault::Value);
    }
    Ok(())
}

/// The matrix of lists, kept over a semiring.
fn keep_over<S: Keep>(alloc: Global, a: &Columns) -> Result<Kept, Fault>
    ensures { IsAnswer (list_faults S.arithmetic a.now) (IsKeptOf S.arithmetic S.name a.now) result }
{
    check_lists::<S>(a)?;
    let block = block_of::<S>(alloc, a)?;
    Ok(keep_block::<S>(alloc, block))
}

/// Keeps the matrix of lists, over the semiring of a number. The entries are copied once.
pub fn keep_lists(alloc: Global, semiring: u32, a: &Columns) -> Result<Kept, Fault>
    ensures { IsKeptAnswerOver semiring (λ s. list_faults s a.now) (λ s name. IsKeptOf s name a.now) result }
{
    match SemiringName::numbered(semiring) {
        Some(name) => over_semiring!(name, keep_over::<_>(alloc, a)),
        None => Err(Fault::Semiring),
    }
}

/// A copy of the lists of a matrix.
fn copied_columns<S: Semiring>(
    alloc: Global,
    matrix: &PanelledMatrix<S>,
) -> Result<Columns<'static>, Fault>
    ensures { IsAnswer IsMemory (HasLists matrix.now) result }
{
    let copy = matrix.to_block()?;
    Ok(block_lists(alloc, copy)?)
}

/// Returns a copy of the lists of a kept matrix, which belongs to the caller.
#[tactic(auto, unfolding(crate::specs::Kept::semiring_of, crate::specs::Kept::matrix_in))]
pub fn columns_of(alloc: Global, kept: &Kept) -> Result<Columns<'static>, Fault>
    ensures { IsAnswer IsMemory (HasLists (matrix_in kept.now)) result }
{
    of_matrix!(kept, matrix => copied_columns(alloc, matrix))
}
