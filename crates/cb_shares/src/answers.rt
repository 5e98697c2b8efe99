//! Some columns of what is computed of matrices. Where the result has in each column only what its operands have there, these
//! columns are made of the same columns of the operands.
ghost use Rattle.std.specs.Prelude.{◌≡◌, [], ◌∷◌, length, All, IsTrue, IfOk, IfErr, OnOk};
ghost use Rattle.cb_operations.specs.Computations.{operand_count_of, Suits, IsRefusal, answer_of, IsFaultOf};
ghost use Rattle.cb_operations.specs.OperationAnswers.{shapes_in};
ghost use Rattle.cb_operations.specs.Operands.{lent_in};
ghost use Rattle.cb_matrix.specs.Sparse.{IsMatrix};
ghost use Rattle.cb_matrix.specs.Operations.{transposed};
ghost use Rattle.cb_shares.specs.Shares.{panel};
ghost use Rattle.cb_shares.specs.ByColumns.{IsByColumns};

use crate::columns::{columns_between, only_between, only_panel};
use crate::parts::{assigned_columns, part_columns};
use crate::products::{columns_of_blocks, kronecker_columns, product_columns};
use cb_dcsc::Block;
use cb_layout::PanelledMatrix;
use cb_operations::{Computation, ComputeFault, Operation, Refusal, Selection};
use cb_reshape::transpose_rows;
use cb_semirings::Semiring;
use cb_serial::{binary, ternary, unary};
use std::alloc::{AllocError, Global};

/// Whether each column of the result is made of the same columns of all operands.
pub fn is_by_columns(computation: Computation) -> bool
    ensures { IsTrue result → IsByColumns computation }
{
    match computation {
        Computation::Operation(Operation::ColumnSums) => true,
        Computation::Operation(Operation::Add) => true,
        Computation::Operation(Operation::Times) => true,
        Computation::Operation(Operation::Prune(_test)) => true,
        Computation::Selection(Selection::Select(_region)) => true,
        Computation::Selection(Selection::Apply(_function)) => true,
        Computation::Selection(Selection::Exclude) => true,
        _ => false,
    }
}

/// Some columns of what is computed of one matrix.
fn columns_of_one<S: Semiring>(
    alloc: Global,
    computation: Computation,
    a: &PanelledMatrix<S>,
    first: u32,
    end: u32,
) -> Result<Block<S>, AllocError>
    requires count { operand_count_of computation ≡ 1 }
    requires suits { Suits computation S.arithmetic (shapes_in (a.now ∷ [])) }
    ensures { IfOk result (λ m. m ≡ panel (answer_of computation S.arithmetic (a.now ∷ [])) first end) }
{
    if is_by_columns(computation) {
        let part = columns_between(alloc, a, first, end)?;
        return unary(alloc, computation, part.block());
    }
    match computation {
        Computation::Operation(Operation::Transpose) => transposed_columns(alloc, a, first, end),
        Computation::Selection(Selection::Part(rows, cols)) => {
            part_columns(alloc, a, rows, cols, first, end)
        }
        _ => {
            let whole = a.whole()?;
            let made = unary(alloc, computation, whole.block())?;
            only_between(alloc, made, first, end)
        }
    }
}

/// Some columns of a transpose: the same rows of the matrix, transposed.
fn transposed_columns<S: Semiring>(
    alloc: Global,
    a: &PanelledMatrix<S>,
    first: u32,
    end: u32,
) -> Result<Block<S>, AllocError>
    ensures { IfOk result (λ m. m ≡ panel (transposed S.arithmetic a.now) first end) }
{
    let whole = a.whole()?;
    let end = end.min(whole.block().shape().rows());
    transpose_rows(alloc, whole.block(), (first.min(end), end))
}

/// Some columns of what is computed of two matrices.
fn columns_of_two<S: Semiring>(
    alloc: Global,
    computation: Computation,
    a: &PanelledMatrix<S>,
    b: &PanelledMatrix<S>,
    first: u32,
    end: u32,
) -> Result<Block<S>, AllocError>
    requires count { operand_count_of computation ≡ 2 }
    requires suits { Suits computation S.arithmetic (shapes_in (a.now ∷ b.now ∷ [])) }
    ensures { IfOk result (λ m. m ≡ panel (answer_of computation S.arithmetic (a.now ∷ b.now ∷ [])) first end) }
{
    if is_by_columns(computation) {
        return columns_of_both(alloc, computation, a, b, first, end);
    }
    match computation {
        Computation::Operation(Operation::Multiply) => product_columns(alloc, a, b, first, end),
        Computation::Selection(Selection::Kronecker) => kronecker_columns(alloc, a, b, first, end),
        Computation::Selection(Selection::Assign(corner)) => {
            assigned_columns(alloc, a, corner, b, first, end)
        }
        _ => columns_of_whole(alloc, computation, a, b, first, end),
    }
}

/// The same of a computation by columns.
fn columns_of_both<S: Semiring>(
    alloc: Global,
    computation: Computation,
    a: &PanelledMatrix<S>,
    b: &PanelledMatrix<S>,
    first: u32,
    end: u32,
) -> Result<Block<S>, AllocError>
    requires count { operand_count_of computation ≡ 2 }
    requires suits { Suits computation S.arithmetic (shapes_in (a.now ∷ b.now ∷ [])) }
    requires by_columns { IsByColumns computation }
    ensures { IfOk result (λ m. m ≡ panel (answer_of computation S.arithmetic (a.now ∷ b.now ∷ [])) first end) }
{
    let left = columns_between(alloc, a, first, end)?;
    let right = columns_between(alloc, b, first, end)?;
    binary(alloc, computation, left.block(), right.block())
}

/// The same of any computation: of its whole result.
fn columns_of_whole<S: Semiring>(
    alloc: Global,
    computation: Computation,
    a: &PanelledMatrix<S>,
    b: &PanelledMatrix<S>,
    first: u32,
    end: u32,
) -> Result<Block<S>, AllocError>
    requires count { operand_count_of computation ≡ 2 }
    requires suits { Suits computation S.arithmetic (shapes_in (a.now ∷ b.now ∷ [])) }
    ensures { IfOk result (λ m. m ≡ panel (answer_of computation S.arithmetic (a.now ∷ b.now ∷ [])) first end) }
{
    let left = a.whole()?;
    let right = b.whole()?;
    let made = binary(alloc, computation, left.block(), right.block())?;
    only_between(alloc, made, first, end)
}

/// Some columns of what is computed of three matrices: of a product under a mask or outside it. Nothing is copied of a right
/// factor and a mask of one panel each.
fn columns_of_three<S: Semiring>(
    alloc: Global,
    computation: Computation,
    a: &PanelledMatrix<S>,
    b: &PanelledMatrix<S>,
    mask: &PanelledMatrix<S>,
    first: u32,
    end: u32,
) -> Result<Block<S>, AllocError>
    requires count { operand_count_of computation ≡ 3 }
    requires suits { Suits computation S.arithmetic (shapes_in (a.now ∷ b.now ∷ mask.now ∷ [])) }
    ensures { IfOk result (λ m. m ≡ panel (answer_of computation S.arithmetic (a.now ∷ b.now ∷ mask.now ∷ [])) first end) }
{
    let left = a.whole()?;
    if let Some(right) = only_panel(b) {
        if let Some(allowed) = only_panel(mask) {
            return columns_of_blocks(alloc, computation, left.block(), right, allowed, first, end);
        }
    }
    let right = columns_between(alloc, b, first, end)?;
    let allowed = columns_between(alloc, mask, first, end)?;
    prove_eq!(left.block().shape().cols(), right.block().shape().rows());
    ternary(
        alloc,
        computation,
        left.block(),
        right.block(),
        allowed.block(),
    )
}

/// Refuses matrices that don't suit a computation. The contract also says what [`PanelledMatrix::shape`] does of each.
pub fn check<S: Semiring>(
    computation: Computation,
    operands: &[&PanelledMatrix<S>],
) -> Result<(), Refusal>
    requires { length operands.now ≡ operand_count_of computation }
    ensures ok { OnOk result (Suits computation S.arithmetic (shapes_in (lent_in operands.now))) }
    ensures matrices { OnOk result (All (IsMatrix S.arithmetic) (lent_in operands.now)) }
    ensures refused { IfErr result (IsRefusal computation S.arithmetic (shapes_in (lent_in operands.now))) }
{
    match operands {
        [a] => computation.check::<S>(&[a.shape()]),
        [a, b] => computation.check::<S>(&[a.shape(), b.shape()]),
        [a, b, c] => computation.check::<S>(&[a.shape(), b.shape(), c.shape()]),
        _ => unreachable!(),
    }
}

/// Some columns of what is computed of matrices that suit it.
fn columns_of_any<S: Semiring>(
    alloc: Global,
    computation: Computation,
    operands: &[&PanelledMatrix<S>],
    first: u32,
    end: u32,
) -> Result<Block<S>, AllocError>
    requires count { length operands.now ≡ operand_count_of computation }
    requires suits { Suits computation S.arithmetic (shapes_in (lent_in operands.now)) }
    ensures { IfOk result (λ m. m ≡ panel (answer_of computation S.arithmetic (lent_in operands.now)) first end) }
{
    match operands {
        [a] => columns_of_one(alloc, computation, a, first, end),
        [a, b] => columns_of_two(alloc, computation, a, b, first, end),
        [a, b, mask] => columns_of_three(alloc, computation, a, b, mask, first, end),
        _ => unreachable!(),
    }
}

/// Returns the columns from `first` up to, but not including, `end` of what is computed of matrices, in a block of the whole
/// shape. What is refused is refused before memory is requested.
///
/// Where each column is made of the same columns of the operands, it costs what these columns cost; for products of matrices, the
/// products with these columns of the right factor; for a Kronecker product, the product of the columns of the left factor that
/// they are made of; for a part, and a matrix with a part in it, these columns twice; for a transpose, what [`transpose_rows`] costs for the same rows; for all others what the whole result costs.
/// The range of all columns costs what the kernel costs, and copies nothing of an operand in one panel.
pub fn computed_columns<S: Semiring>(
    alloc: Global,
    computation: Computation,
    operands: &[&PanelledMatrix<S>],
    first: u32,
    end: u32,
) -> Result<Block<S>, ComputeFault>
    requires { length operands.now ≡ operand_count_of computation }
    ensures ok { IfOk result (λ m. m ≡ panel (answer_of computation S.arithmetic (lent_in operands.now)) first end) }
    ensures suits { IfOk result (λ _. Suits computation S.arithmetic (shapes_in (lent_in operands.now))) }
    ensures fault { IfErr result (IsFaultOf computation S.arithmetic (lent_in operands.now)) }
{
    check::<S>(computation, operands)?;
    Ok(columns_of_any(alloc, computation, operands, first, end)?)
}
