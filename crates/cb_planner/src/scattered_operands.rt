//! One, two or three operands over a grid: their shapes, their plan and their slots. Nothing here runs a plan.
ghost use Rattle.std.specs.Prelude.{◌≡◌, ◌⊎◌, ℕ, [], length, All, IfSome, IfNone, IfOk};
ghost use Rattle.cb_matrix.specs.Sparse.{IsMatrix};
ghost use Rattle.cb_matrix.specs.Values.{product};
ghost use Rattle.cb_operations.specs.Operands.{lent_in, list_of};
ghost use Rattle.cb_operations.specs.OperationAnswers.{operand_count_of, Agree, answer_of, shape_of, shapes_in};
ghost use Rattle.cb_plan_slots.specs.Answers.{over_grid};
ghost use Rattle.cb_plan_slots.specs.Slots.{whole_operands};
ghost use Rattle.cb_planner.specs.OperationPlans.{Computes, placed_operands};
ghost use Rattle.cb_planner.specs.ScatteredOperands.{IsEmptyProduct, LieOver, wholes};

use crate::plan_of;
use cb_layout::{DistributedMatrix, Grid};
use cb_matrix::{Matrix, Shape};
use cb_operations::{Operands, Operation};
use cb_plan::Planned;
use cb_plan_parts::{LEFT, RIGHT};
use cb_plan_summa::MASK;
use cb_semirings::Semiring;
use std::alloc::{AllocError, Global};

/// Returns the shape of an operation's result for whole matrices. None if their shapes don't agree.
pub fn whole_shape_in<S: Semiring>(
    operation: Operation,
    operands: &Operands<&Matrix<S>>,
) -> Option<Shape>
    requires { operand_count_of operation ≡ length (list_of operands.now) }
    ensures agree { IfSome result (λ _. Agree operation (shapes_in (lent_in (list_of operands.now)))) }
    ensures none { IfNone result (¬ Agree operation (shapes_in (lent_in (list_of operands.now)))) }
{
    match operands {
        Operands::One(matrix) => operation.shape_of(&[matrix.shape()]),
        Operands::Two(left, right) => operation.shape_of(&[left.shape(), right.shape()]),
        Operands::Three(left, right, mask) => {
            operation.shape_of(&[left.shape(), right.shape(), mask.shape()])
        }
    }
}

/// Cuts whole matrices into blocks over a grid.
pub fn scattered<S: Semiring>(
    alloc: Global,
    grid: &Grid,
    operands: Operands<&Matrix<S>>,
) -> Result<Operands<DistributedMatrix<S>>, AllocError>
    ensures sides { IfOk result (LieOver grid.now.side) }
    ensures matrices { IfOk result (λ o. wholes (list_of o) ≡ lent_in (list_of operands.entry)) }
    ensures count { IfOk result (λ o. length (list_of o) ≡ length (list_of operands.entry)) }
{
    match operands {
        Operands::One(matrix) => {
            let matrix = DistributedMatrix::scatter(alloc, *grid, matrix)?;
            Ok(Operands::One(matrix))
        }
        Operands::Two(left, right) => {
            let left = DistributedMatrix::scatter(alloc, *grid, left)?;
            let right = DistributedMatrix::scatter(alloc, *grid, right)?;
            Ok(Operands::Two(left, right))
        }
        Operands::Three(left, right, mask) => {
            let left = DistributedMatrix::scatter(alloc, *grid, left)?;
            let right = DistributedMatrix::scatter(alloc, *grid, right)?;
            let mask = DistributedMatrix::scatter(alloc, *grid, mask)?;
            Ok(Operands::Three(left, right, mask))
        }
    }
}

/// Returns the shape of an operation's result. None if the shapes of the operands don't agree. The contract also says
/// that the operands are matrices.
pub fn shape_in<S: Semiring>(
    operation: Operation,
    operands: &Operands<DistributedMatrix<S>>,
) -> Option<Shape>
    requires { operand_count_of operation ≡ length (list_of operands.now) }
    ensures agree { IfSome result (λ d. Agree operation (shapes_in (wholes (list_of operands.now)))) }
    ensures shape { IfSome result (λ d. d ≡ shape_of operation (shapes_in (wholes (list_of operands.now)))) }
    ensures matrices { IfSome result (λ d. All (IsMatrix S.arithmetic) (wholes (list_of operands.now))) }
    ensures none { IfNone result (¬ Agree operation (shapes_in (wholes (list_of operands.now)))) }
{
    match operands {
        Operands::One(matrix) => operation.shape_of(&[matrix.shape()]),
        Operands::Two(left, right) => operation.shape_of(&[left.shape(), right.shape()]),
        Operands::Three(left, right, mask) => {
            operation.shape_of(&[left.shape(), right.shape(), mask.shape()])
        }
    }
}

/// Returns the product over the grid if one of its factors has no entries: it needs no plan. None in any other case.
pub fn empty_product<S: Semiring>(
    alloc: Global,
    grid: &Grid,
    operation: Operation,
    operands: &Operands<DistributedMatrix<S>>,
) -> Result<Option<DistributedMatrix<S>>, AllocError>
    ensures answer { IfOk result (λ o. IfSome o (λ m. m ≡ over_grid grid.now.side (answer_of operation S.arithmetic (wholes (list_of operands.now))))) }
    ensures empty { IfOk result (λ o. IfSome o (λ _. IsEmptyProduct operation (wholes (list_of operands.now)))) }
{
    let Operands::Two(left, right) = operands else {
        return Ok(None);
    };
    match operation {
        Operation::Multiply => vanishing_product(alloc, grid, left, right),
        Operation::MultiplyVector => vanishing_product(alloc, grid, left, right),
        _ => Ok(None),
    }
}

/// Plans an operation on these operands, whose shapes agree, and gives each operand its slot.
pub fn ready<S: Semiring>(
    alloc: Global,
    grid: &Grid,
    operation: Operation,
    operands: Operands<DistributedMatrix<S>>,
) -> Result<(Planned, Vec<(u16, DistributedMatrix<S>)>), AllocError>
    requires count { operand_count_of operation ≡ length (list_of operands) }
    requires agree { Agree operation (shapes_in (wholes (list_of operands))) }
    ensures plan { IfOk result (λ p. Computes operation grid.now.side (shapes_in (wholes (list_of operands))) p.0) }
    ensures sides { IfOk result (λ p. (q : ℕ) → LieOver q operands → All (λ o. o.1.side ≡ q) p.1.items) }
    ensures slots { IfOk result (λ p. whole_operands p.1.items ≡ placed_operands (wholes (list_of operands))) }
{
    let planned = plan_in(alloc, grid, operation, &operands)?;
    let there = placed(alloc, operands)?;
    Ok((planned, there))
}

/// Returns the plan of an operation on these operands, whose shapes agree.
fn plan_in<S: Semiring>(
    alloc: Global,
    grid: &Grid,
    operation: Operation,
    operands: &Operands<DistributedMatrix<S>>,
) -> Result<Planned, AllocError>
    requires count { operand_count_of operation ≡ length (list_of operands.now) }
    requires agree { Agree operation (shapes_in (wholes (list_of operands.now))) }
    ensures { IfOk result (Computes operation grid.now.side (shapes_in (wholes (list_of operands.now)))) }
{
    match operands {
        Operands::One(matrix) => plan_of(alloc, grid, operation, &[matrix.shape()]),
        Operands::Two(left, right) => {
            plan_of(alloc, grid, operation, &[left.shape(), right.shape()])
        }
        Operands::Three(left, right, mask) => {
            let shapes = [left.shape(), right.shape(), mask.shape()];
            plan_of(alloc, grid, operation, &shapes)
        }
    }
}

/// Returns each operand with its slot.
fn placed<S: Semiring>(
    alloc: Global,
    operands: Operands<DistributedMatrix<S>>,
) -> Result<Vec<(u16, DistributedMatrix<S>)>, AllocError>
    ensures sides { IfOk result (λ v. (q : ℕ) → LieOver q operands → All (λ o. o.1.side ≡ q) v.items) }
    ensures slots { IfOk result (λ v. whole_operands v.items ≡ placed_operands (wholes (list_of operands))) }
{
    let there = match operands {
        Operands::One(matrix) => vec![in alloc; (LEFT, matrix)]?,
        Operands::Two(left, right) => vec![in alloc; (LEFT, left), (RIGHT, right)]?,
        Operands::Three(left, right, mask) => {
            vec![in alloc; (LEFT, left), (RIGHT, right), (MASK, mask)]?
        }
    };
    Ok(there)
}

/// Returns the product of two matrices if one of them has no entries: it has none either. None if both have entries.
#[tactic(auto, using(crate::proofs::Empties::empty_product_is))]
fn vanishing_product<S: Semiring>(
    alloc: Global,
    grid: &Grid,
    left: &DistributedMatrix<S>,
    right: &DistributedMatrix<S>,
) -> Result<Option<DistributedMatrix<S>>, AllocError>
    ensures answer { IfOk result (λ o. IfSome o (λ m. m ≡ over_grid grid.now.side (product S.arithmetic left.now.matrix right.now.matrix))) }
    ensures empty { IfOk result (λ o. IfSome o (λ _. (left.now.matrix.entries ≡ []) ⊎ (right.now.matrix.entries ≡ []))) }
{
    let shape = left.shape().with_columns_of(right.shape());
    if left.is_empty() || right.is_empty() {
        return Ok(Some(DistributedMatrix::with_room(alloc, *grid, shape, 0)?));
    }
    Ok(None)
}
