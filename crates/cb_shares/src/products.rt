//! Some columns of a product: of matrices, under a mask or outside it, and a Kronecker product.
ghost use Rattle.std.specs.Prelude.{◌≡◌, ℕ, ◌<◌, ◌≤◌, ◌*◌, ◌/◌, [], ◌∷◌, IfOk};
ghost use Rattle.cb_operations.specs.Computations.{operand_count_of, Suits, answer_of};
ghost use Rattle.cb_operations.specs.OperationAnswers.{shapes_in};
ghost use Rattle.cb_operations.specs.SelectionAnswers.{excluded, kronecker};
ghost use Rattle.cb_matrix.specs.Operations.{masked};
ghost use Rattle.cb_matrix.specs.Values.{product, product_shape};
ghost use Rattle.cb_shares.specs.Shares.{panel};

use crate::columns::{columns_between, only_between, places_between};
use cb_dcsc::Block;
use cb_layout::PanelledMatrix;
use cb_masked::{multiply_masked_columns, multiply_outside_columns};
use cb_matrix::LIMIT;
use cb_operations::{Computation, Operation};
use cb_product::multiply;
use cb_selections::kronecker;
use cb_semirings::Semiring;
use std::alloc::{AllocError, Global};

/// Some columns of a product: the product with these columns of the right factor.
pub(crate) fn product_columns<S: Semiring>(
    alloc: Global,
    a: &PanelledMatrix<S>,
    b: &PanelledMatrix<S>,
    first: u32,
    end: u32,
) -> Result<Block<S>, AllocError>
    requires { a.now.shape.cols ≡ b.now.shape.rows }
    ensures { IfOk result (λ m. m ≡ panel (product S.arithmetic a.now b.now) first end) }
{
    let left = a.whole()?;
    let right = columns_between(alloc, b, first, end)?;
    prove_eq!(left.block().shape().cols(), right.block().shape().rows());
    multiply(alloc, left.block(), right.block())
}

/// Some columns of a product of blocks under a mask or outside it, of which nothing is copied.
pub(crate) fn columns_of_blocks<S: Semiring>(
    alloc: Global,
    computation: Computation,
    left: &Block<S>,
    right: &Block<S>,
    mask: &Block<S>,
    first: u32,
    end: u32,
) -> Result<Block<S>, AllocError>
    requires count { operand_count_of computation ≡ 3 }
    requires suits { Suits computation S.arithmetic (shapes_in (left.now ∷ right.now ∷ mask.now ∷ [])) }
    ensures { IfOk result (λ m. m ≡ panel (answer_of computation S.arithmetic (left.now ∷ right.now ∷ mask.now ∷ [])) first end) }
{
    match computation {
        Computation::Operation(Operation::MultiplyMasked) => {
            masked_columns(alloc, left, right, mask, first, end)
        }
        Computation::MultiplyOutside => outside_columns(alloc, left, right, mask, first, end),
        _ => unreachable!(),
    }
}

/// The same of a product under a mask: under these columns of the mask.
fn masked_columns<S: Semiring>(
    alloc: Global,
    left: &Block<S>,
    right: &Block<S>,
    mask: &Block<S>,
    first: u32,
    end: u32,
) -> Result<Block<S>, AllocError>
    requires agree { left.now.shape.cols ≡ right.now.shape.rows }
    requires shape { mask.now.shape ≡ product_shape left.now right.now }
    ensures { IfOk result (λ m. m ≡ panel (masked S.arithmetic (product S.arithmetic left.now right.now) mask.now) first end) }
{
    prove_eq!(left.shape().cols(), right.shape().rows());
    let (low, high) = places_between(mask, first, end);
    multiply_masked_columns(alloc, left, right, mask, low, high)
}

/// The same of a product outside a mask: with these columns of the right factor.
fn outside_columns<S: Semiring>(
    alloc: Global,
    left: &Block<S>,
    right: &Block<S>,
    mask: &Block<S>,
    first: u32,
    end: u32,
) -> Result<Block<S>, AllocError>
    requires agree { left.now.shape.cols ≡ right.now.shape.rows }
    requires shape { mask.now.shape ≡ product_shape left.now right.now }
    ensures { IfOk result (λ m. m ≡ panel (excluded S.arithmetic (product S.arithmetic left.now right.now) mask.now) first end) }
{
    prove_eq!(left.shape().cols(), right.shape().rows());
    let (low, high) = places_between(right, first, end);
    multiply_outside_columns(alloc, left, right, mask, low, high)
}

/// Some columns of a Kronecker product: some of the product of these columns of the first factor that they are made of.
pub(crate) fn kronecker_columns<S: Semiring>(
    alloc: Global,
    a: &PanelledMatrix<S>,
    b: &PanelledMatrix<S>,
    first: u32,
    end: u32,
) -> Result<Block<S>, AllocError>
    requires rows { a.now.shape.rows * b.now.shape.rows ≤ LIMIT }
    requires cols { a.now.shape.cols * b.now.shape.cols ≤ LIMIT }
    ensures { IfOk result (λ m. m ≡ panel (kronecker S.arithmetic a.now b.now) first end) }
{
    let width = b.shape().cols().max(1);
    let (low, high) = outer_columns(width, first, end);
    let left = columns_between(alloc, a, low, high)?;
    let right = b.whole()?;
    let made = kronecker(alloc, left.block(), right.block())?;
    only_between(alloc, made, first, end)
}

/// Which columns of a Kronecker product's first factor make the columns from `first` up to, but not including, `end` of the
/// product: the first of them, and the one after the last. The second factor has this many columns.
fn outer_columns(width: u32, first: u32, end: u32) -> (u32, u32)
    requires { 0 < width }
    ensures { (j : ℕ) → first ≤ j → j < end → (result.0 ≤ j / width) × (j / width < result.1) }
{
    let high = if end == 0 { 0 } else { (end - 1) / width + 1 };
    (first / width, high)
}
