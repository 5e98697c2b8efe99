//! A block updated by another one under a mask: the step that ends each operation of GraphBLAS.
ghost use Rattle.std.specs.Prelude.{◌≡◌, Some, None, IfOk, IfSome, option_copied};
ghost use Rattle.cb_matrix.specs.Operations.{sum_of};
ghost use Rattle.cb_selections.specs.Updates.{updated, allowed};

use cb_dcsc::Block;
use cb_elementwise::{add, exclude};
use cb_semirings::Semiring;
use std::alloc::{AllocError, Global};

/// How an update writes.
#[derive(Clone, Copy)]
pub struct WriteBack {
    /// The mask is complemented: it allows the places where it has no entry. The complement of no mask allows none.
    pub complement: bool,
    /// A new value is added to the old one by the semiring's sum. Otherwise it takes its place.
    pub accumulate: bool,
    /// The old entries at the places that the mask doesn't allow are dropped. Otherwise they stay.
    pub replace: bool,
}

/// The old block, updated by a new one of its shape at the places that the mask allows: those where it has an entry,
/// whatever its value. No mask allows all places. An old entry at such a place is dropped if the new block has none there,
/// unless the update accumulates. This is the write-back of The GraphBLAS C API Specification, version 2.1, section 4.3.
///
/// Costs a few instructions for each entry of the three.
pub fn update<S: Semiring>(
    alloc: Global,
    how: WriteBack,
    old: &Block<S>,
    new: &Block<S>,
    mask: Option<&Block<S>>,
) -> Result<Block<S>, AllocError>
    requires shape { new.now.shape ≡ old.now.shape }
    requires mask_shape { IfSome mask (λ m. m.now.shape ≡ old.now.shape) }
    ensures { IfOk result (λ m. m ≡ updated S.arithmetic how (option_copied mask.entry) old.now new.now) }
{
    match mask {
        Some(mask) => update_under(alloc, how, old, new, mask),
        None => update_all(alloc, how, old, new),
    }
}

/// The update without a mask: of all places, or of none if it is complemented.
fn update_all<S: Semiring>(
    alloc: Global,
    how: WriteBack,
    old: &Block<S>,
    new: &Block<S>,
) -> Result<Block<S>, AllocError>
    requires { new.now.shape ≡ old.now.shape }
    ensures { IfOk result (λ m. m ≡ updated S.arithmetic how None old.now new.now) }
{
    prove_eq!(new.shape(), old.shape());
    if how.complement {
        return if how.replace {
            Ok(Block::empty(alloc, old.shape()))
        } else {
            old.try_clone()
        };
    }
    if how.accumulate {
        add(alloc, old, new)
    } else {
        new.try_clone()
    }
}

/// The update under a mask.
fn update_under<S: Semiring>(
    alloc: Global,
    how: WriteBack,
    old: &Block<S>,
    new: &Block<S>,
    mask: &Block<S>,
) -> Result<Block<S>, AllocError>
    requires shape { new.now.shape ≡ old.now.shape }
    requires mask_shape { mask.now.shape ≡ old.now.shape }
    ensures { IfOk result (λ m. m ≡ updated S.arithmetic how (Some mask.now) old.now new.now) }
{
    prove_eq!(new.shape(), old.shape());
    let written = allowed(alloc, new, mask, how.complement)?;
    if how.accumulate {
        if how.replace {
            add_allowed(alloc, old, mask, how.complement, &written)
        } else {
            add(alloc, old, &written)
        }
    } else if how.replace {
        Ok(written)
    } else {
        add_allowed(alloc, old, mask, !how.complement, &written)
    }
}

/// The entries of a block at the places that the mask allows.
fn allowed<S: Semiring>(
    alloc: Global,
    block: &Block<S>,
    mask: &Block<S>,
    complement: bool,
) -> Result<Block<S>, AllocError>
    requires { mask.now.shape ≡ block.now.shape }
    ensures { IfOk result (λ kept. kept ≡ allowed S.arithmetic complement mask.now block.now) }
{
    if complement {
        exclude(alloc, block, mask)
    } else {
        cb_elementwise::mask(alloc, block, mask)
    }
}

/// The sum of the entries of a block at the places that the mask allows, and those of another block.
fn add_allowed<S: Semiring>(
    alloc: Global,
    block: &Block<S>,
    mask: &Block<S>,
    complement: bool,
    other: &Block<S>,
) -> Result<Block<S>, AllocError>
    requires mask_shape { mask.now.shape ≡ block.now.shape }
    requires shape { other.now.shape ≡ block.now.shape }
    ensures { IfOk result (λ sum. sum ≡ sum_of S.arithmetic (allowed S.arithmetic complement mask.now block.now) other.now) }
{
    let kept = allowed(alloc, block, mask, complement)?;
    add(alloc, &kept, other)
}
