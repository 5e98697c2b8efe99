//! Each computation on whole blocks, in the caller's thread: no grid, no plan and no runtime.
//!
//! The cost is that of the kernel, which is proportional to entries and never to a dimension: see [`cb_product`], [`cb_dense`],
//! [`cb_masked`], [`cb_reshape`], [`cb_elementwise`] and [`cb_selections`].
#![tactic(auto)]

ghost use Rattle.std.specs.Prelude.{◌≡◌, [], ◌∷◌, length, IfOk, IfErr, OnOk};
ghost use Rattle.cb_operations.specs.OperationAnswers as operations;
ghost use Rattle.cb_operations.specs.OperationAnswers.{shapes_in};
ghost use Rattle.cb_operations.specs.Computations.{operand_count_of, Suits, IsRefusal, answer_of, IsFaultOf};
ghost use Rattle.cb_operations.specs.Operands.{lent_in};

mod vector_products;

use cb_dcsc::Block;
use cb_operations::{Computation, ComputeFault, Operation, Refusal};
use cb_semirings::Semiring;
use std::alloc::{AllocError, Global};
use vector_products::multiply_vector;

/// The result of an operation on one block.
fn operation_of_one<S: Semiring>(
    alloc: Global,
    operation: Operation,
    a: &Block<S>,
) -> Result<Block<S>, AllocError>
    requires count { operations.operand_count_of operation ≡ 1 }
    ensures { IfOk result (λ m. m ≡ operations.answer_of operation S.arithmetic (a.now ∷ [])) }
{
    match operation {
        Operation::Transpose => cb_reshape::transpose(alloc, a),
        Operation::RowSums => cb_reshape::row_sums(alloc, a),
        Operation::ColumnSums => cb_reshape::column_sums(alloc, a),
        Operation::Prune(test) => cb_elementwise::prune(alloc, a, test),
        _ => unreachable!(),
    }
}

/// The result of an operation on two blocks, whose shapes agree.
fn operation_of_two<S: Semiring>(
    alloc: Global,
    operation: Operation,
    a: &Block<S>,
    b: &Block<S>,
) -> Result<Block<S>, AllocError>
    requires count { operations.operand_count_of operation ≡ 2 }
    requires agree { operations.Agree operation (shapes_in (a.now ∷ b.now ∷ [])) }
    ensures { IfOk result (λ m. m ≡ operations.answer_of operation S.arithmetic (a.now ∷ b.now ∷ [])) }
{
    match operation {
        Operation::Multiply => cb_product::multiply(alloc, a, b),
        Operation::MultiplyVector => multiply_vector(alloc, a, b),
        Operation::Add => cb_elementwise::add(alloc, a, b),
        Operation::Times => cb_elementwise::times(alloc, a, b),
        _ => unreachable!(),
    }
}

/// What is computed of one block that suits it.
pub fn unary<S: Semiring>(
    alloc: Global,
    computation: Computation,
    a: &Block<S>,
) -> Result<Block<S>, AllocError>
    requires count { operand_count_of computation ≡ 1 }
    requires suits { Suits computation S.arithmetic (shapes_in (a.now ∷ [])) }
    ensures { IfOk result (λ m. m ≡ answer_of computation S.arithmetic (a.now ∷ [])) }
{
    match computation {
        Computation::Operation(operation) => operation_of_one(alloc, operation, a),
        Computation::Selection(selection) => cb_selections::selection_of_one(alloc, selection, a),
        Computation::MultiplyOutside => unreachable!(),
    }
}

/// What is computed of two blocks that suit it.
pub fn binary<S: Semiring>(
    alloc: Global,
    computation: Computation,
    a: &Block<S>,
    b: &Block<S>,
) -> Result<Block<S>, AllocError>
    requires count { operand_count_of computation ≡ 2 }
    requires suits { Suits computation S.arithmetic (shapes_in (a.now ∷ b.now ∷ [])) }
    ensures { IfOk result (λ m. m ≡ answer_of computation S.arithmetic (a.now ∷ b.now ∷ [])) }
{
    match computation {
        Computation::Operation(operation) => operation_of_two(alloc, operation, a, b),
        Computation::Selection(selection) => cb_selections::selection_of_two(
            alloc, selection, a, b,
        ),
        Computation::MultiplyOutside => unreachable!(),
    }
}

/// What is computed of three blocks that suit it: a product under a mask or outside it.
pub fn ternary<S: Semiring>(
    alloc: Global,
    computation: Computation,
    a: &Block<S>,
    b: &Block<S>,
    c: &Block<S>,
) -> Result<Block<S>, AllocError>
    requires count { operand_count_of computation ≡ 3 }
    requires suits { Suits computation S.arithmetic (shapes_in (a.now ∷ b.now ∷ c.now ∷ [])) }
    ensures { IfOk result (λ m. m ≡ answer_of computation S.arithmetic (a.now ∷ b.now ∷ c.now ∷ [])) }
{
    match computation {
        Computation::Operation(Operation::MultiplyMasked) => {
            cb_masked::multiply_masked(alloc, a, b, c)
        }
        Computation::MultiplyOutside => cb_masked::multiply_outside(alloc, a, b, c),
        _ => unreachable!(),
    }
}

/// Refuses blocks that don't suit a computation.
fn check<S: Semiring>(computation: Computation, operands: &[&Block<S>]) -> Result<(), Refusal>
    requires { length operands.now ≡ operand_count_of computation }
    ensures ok { OnOk result (Suits computation S.arithmetic (shapes_in (lent_in operands.now))) }
    ensures refused { IfErr result (IsRefusal computation S.arithmetic (shapes_in (lent_in operands.now))) }
{
    match operands {
        [a] => computation.check::<S>(&[a.shape()]),
        [a, b] => computation.check::<S>(&[a.shape(), b.shape()]),
        [a, b, c] => computation.check::<S>(&[a.shape(), b.shape(), c.shape()]),
        _ => unreachable!(),
    }
}

/// What is computed of borrowed blocks, in order, that suit it.
fn computed<S: Semiring>(
    alloc: Global,
    computation: Computation,
    operands: &[&Block<S>],
) -> Result<Block<S>, AllocError>
    requires count { length operands.now ≡ operand_count_of computation }
    requires suits { Suits computation S.arithmetic (shapes_in (lent_in operands.now)) }
    ensures { IfOk result (λ m. m ≡ answer_of computation S.arithmetic (lent_in operands.now)) }
{
    match operands {
        [a] => unary(alloc, computation, a),
        [a, b] => binary(alloc, computation, a, b),
        [a, b, c] => ternary(alloc, computation, a, b, c),
        _ => unreachable!(),
    }
}

/// Computes anything of borrowed blocks, in order. What is refused is refused before memory is requested. The cost is that of its
/// kernel: `cb_product::multiply`, `cb_elementwise::add`, `cb_selections::select` and so on.
pub fn compute<S: Semiring>(
    alloc: Global,
    computation: Computation,
    operands: &[&Block<S>],
) -> Result<Block<S>, ComputeFault>
    requires { length operands.now ≡ operand_count_of computation }
    ensures ok { IfOk result (λ m. m ≡ answer_of computation S.arithmetic (lent_in operands.now)) }
    ensures suits { IfOk result (λ _. Suits computation S.arithmetic (shapes_in (lent_in operands.now))) }
    ensures fault { IfErr result (IsFaultOf computation S.arithmetic (lent_in operands.now)) }
{
    check::<S>(computation, operands)?;
    Ok(computed(alloc, computation, operands)?)
}
