//! Some columns of a matrix that is updated: made of the same columns of the operands.
ghost use Rattle.std.specs.Prelude.{◌≡◌, None, Some, IfOk, IfSome, option_copied};
ghost use Rattle.cb_selections.specs.Updates.{updated};
ghost use Rattle.cb_shares.specs.Shares.{panel};

use crate::columns::columns_between;
use cb_dcsc::Block;
use cb_layout::PanelledMatrix;
use cb_selections::{WriteBack, update};
use cb_semirings::Semiring;
use std::alloc::{AllocError, Global};

/// Some columns of a matrix, updated without a mask.
fn columns_updated<S: Semiring>(
    alloc: Global,
    how: WriteBack,
    old: &PanelledMatrix<S>,
    new: &PanelledMatrix<S>,
    first: u32,
    end: u32,
) -> Result<Block<S>, AllocError>
    requires { new.now.shape ≡ old.now.shape }
    ensures { IfOk result (λ m. m ≡ panel (updated S.arithmetic how None old.now new.now) first end) }
{
    let before = columns_between(alloc, old, first, end)?;
    let after = columns_between(alloc, new, first, end)?;
    update_all(alloc, how, before.block(), after.block())
}

/// A block, updated without a mask.
fn update_all<'a, S: Semiring>(
    alloc: Global,
    how: WriteBack,
    old: &'a Block<S>,
    new: &'a Block<S>,
) -> Result<Block<S>, AllocError>
    requires { new.now.shape ≡ old.now.shape }
    ensures { IfOk result (λ m. m ≡ updated S.arithmetic how None old.now new.now) }
{
    let no_mask: Option<&'a Block<S>> = None;
    update(alloc, how, old, new, no_mask)
}

/// Some columns of a matrix, updated under a mask.
fn columns_updated_under<S: Semiring>(
    alloc: Global,
    how: WriteBack,
    old: &PanelledMatrix<S>,
    new: &PanelledMatrix<S>,
    mask: &PanelledMatrix<S>,
    first: u32,
    end: u32,
) -> Result<Block<S>, AllocError>
    requires shape { new.now.shape ≡ old.now.shape }
    requires mask_shape { mask.now.shape ≡ old.now.shape }
    ensures { IfOk result (λ m. m ≡ panel (updated S.arithmetic how (Some mask.now) old.now new.now) first end) }
{
    let before = columns_between(alloc, old, first, end)?;
    let after = columns_between(alloc, new, first, end)?;
    let allowed = columns_between(alloc, mask, first, end)?;
    update(
        alloc,
        how,
        before.block(),
        after.block(),
        Some(allowed.block()),
    )
}

/// Returns the columns from `first` up to, but not including, `end` of a matrix that is updated by a new one of its shape at
/// the places that a mask allows ([`cb_selections::update`]), in a block of the whole shape. Costs what these columns of the
/// three cost.
pub fn update_columns<S: Semiring>(
    alloc: Global,
    how: WriteBack,
    old: &PanelledMatrix<S>,
    new: &PanelledMatrix<S>,
    mask: Option<&PanelledMatrix<S>>,
    first: u32,
    end: u32,
) -> Result<Block<S>, AllocError>
    requires shape { new.now.shape ≡ old.now.shape }
    requires mask_shape { IfSome mask (λ m. m.now.shape ≡ old.now.shape) }
    ensures { IfOk result (λ m. m ≡ panel (updated S.arithmetic how (option_copied mask.entry) old.now new.now) first end) }
{
    match mask {
        Some(mask) => columns_updated_under(alloc, how, old, new, mask, first, end),
        None => columns_updated(alloc, how, old, new, first, end),
    }
}
