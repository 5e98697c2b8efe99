//! Shares of sums over the columns of kept matrices, for threads of a program in another language: what some columns add to a
//! product with a vector, to the sums of rows or to the sum of all values; and shares that are added up.
ghost use Rattle.std.specs.Prelude.{◌≡◌, ◌↔◌, IsTrue, length, All, IfOk, IfErr, IfSome};
ghost use Rattle.cb_semirings.specs.Arithmetic.{IsValue};
ghost use Rattle.cb_semirings.specs.Names.{arithmetic_of};
ghost use Rattle.cb_operations.specs.OperationAnswers.{operand_count_of};
ghost use Rattle.cb_operations.specs.Operands.{lent_in};
ghost use Rattle.cb_shares.specs.Sums.{IsSumOfColumns};
ghost use Rattle.cb_kept.specs.Answers.{IsAnswer, NoFault};
ghost use Rattle.cb_kept.specs.Kept.{semiring_of, matrix_in};
ghost use Rattle.cb_kept.specs.CallsOver.{operation_faults};
ghost use Rattle.cb_kept.specs.KeptAnswers.{numbered_faults};
ghost use Rattle.cb_kept.specs.KeptSums.{IsAddedShare, IsColumnOver, IsKeptColumn, IsKeptShare, IsTotal, share_faults, sum_faults, sum_of};

use crate::faults::Fault;
use crate::kept::{Keep, Kept, keep_block};
use crate::kept_calls::{KeptCall, kept_call};
use crate::of_matrix;
use cb_layout::PanelledMatrix;
use cb_matrix::Shape;
use cb_operations::{Computation, Operation};
use cb_semirings::Semiring;
use cb_shares::{add_share, check, column_of_sums, share_of_sum, total_of_columns};
use std::alloc::Global;

/// A list with a number for each row.
#[repr(C)]
#[derive(Clone, Copy)]
pub struct Sums {
    pub values: &'static [u64],
}

/// Returns the operation of a number ([`Operation::numbered`]) if its result is a sum over the columns of its first operand: the
/// product with a vector, or the sums of rows.
pub fn sum_of(number: u32) -> Option<Operation>
    ensures operation { result ≡ sum_of number }
    ensures sum { IfSome result IsSumOfColumns }
{
    match number {
        2 => Some(Operation::MultiplyVector),
        4 => Some(Operation::RowSums),
        _ => None,
    }
}

/// What some columns of the first matrix add to the result of an operation.
#[derive(Drop)]
struct SumShare {
    operation: Operation,
    first: u32,
    end: u32,
}

impl KeptCall for SumShare {
    ghost use Rattle.std.specs.Prelude.{◌≡◌};
    ghost use Rattle.cb_operations.specs.OperationAnswers.{operand_count_of};
    ghost use Rattle.cb_shares.specs.Sums.{IsListOf, IsSumOfColumns, share_of};
    ghost use Rattle.cb_kept.specs.CallsOver.{operation_faults};

    type Answer = Sums;

    ghost takes = { λ c n. IsSumOfColumns c.operation × (n ≡ operand_count_of c.operation) };

    ghost faults = { λ c s ms. operation_faults c.operation s ms };

    ghost gives = { λ c name s ms sums. IsListOf s (share_of c.operation s ms c.first c.end) sums.values.now };

    #[tactic(auto, using(crate::proofs::Firsts::refused_fault, crate::proofs::Firsts::none_of_computed))]
    fn over<S: Keep>(&self, alloc: Global, operands: &[&PanelledMatrix<S>]) -> Result<Sums, Fault> {
        check::<S>(Computation::Operation(self.operation), operands)?;
        let list = share_of_sum(alloc, self.operation, operands, self.first, self.end)?;
        Ok(Sums {
            values: list.leak(),
        })
    }
}

/// Returns what the columns of the first kept matrix from `first` up to, but not including, `end` add to a product with a vector
/// or to sums of rows, as a list with a number for each row, which belongs to the caller. `None` stands for a number of another
/// operation. The faults are those of the whole operation. Costs what [`cb_shares::share_of_sum`] costs.
#[tactic(auto, unfolding(crate::specs::KeptAnswers::numbered_faults))]
pub fn kept_share_of_sum(
    alloc: Global,
    operation: Option<Operation>,
    operands: &[&Kept],
    first: u32,
    end: u32,
) -> Result<Sums, Fault>
    requires sum { IfSome operation IsSumOfColumns }
    requires count { IfSome operation (λ o. length operands.now ≡ operand_count_of o) }
    ensures { IsAnswer (numbered_faults operation_faults operation (lent_in operands.now)) (IsKeptShare operation first end (lent_in operands.now)) result }
{
    let Some(operation) = operation else {
        return Err(Fault::Test);
    };
    let call = SumShare {
        operation,
        first,
        end,
    };
    kept_call(alloc, &call, operands)
}

/// The sum of all values of a matrix in some columns, or in all.
fn total_over<S: Semiring>(matrix: &PanelledMatrix<S>, first: u32, end: u32) -> u64
    ensures { IsTotal S.arithmetic matrix.now first end result }
{
    prove_eq!(matrix.shape(), matrix.shape());
    total_of_columns(matrix, first, end)
}

/// Returns the sum of all values of a kept matrix in the columns from `first` up to, but not including, `end`: the semiring's zero
/// if they have no entries. Takes no memory.
#[tactic(auto, unfolding(crate::specs::Kept::semiring_of, crate::specs::Kept::matrix_in))]
pub fn kept_total(kept: &Kept, first: u32, end: u32) -> u64
    ensures { IsTotal (arithmetic_of (semiring_of kept.now)) (matrix_in kept.now) first end result }
{
    of_matrix!(kept, matrix => total_over(matrix, first, end))
}

/// Whether all numbers of a list are values.
fn are_values<S: Semiring>(list: &[u64]) -> bool
    ensures { IsTrue result ↔ All (IsValue S.arithmetic) list.now }
{
    list.iter().all(|value| S::is_value(*value))
}

/// Refuses shares of different lengths, and numbers that aren't values.
fn check_shares<S: Semiring>(sums: &[u64], more: &[u64]) -> Result<(), Fault>
    ensures length { IfOk result (λ _. length more.now ≡ length sums.now) }
    ensures values { IfOk result (λ _. All (IsValue S.arithmetic) sums.now) }
    ensures more { IfOk result (λ _. All (IsValue S.arithmetic) more.now) }
    ensures none { IfOk result (λ _. NoFault (share_faults S.arithmetic sums.now more.now)) }
    ensures fault { IfErr result (share_faults S.arithmetic sums.now more.now) }
{
    if more.len() != sums.len() {
        return Err(Fault::Lengths);
    }
    if !are_values::<S>(sums) || !are_values::<S>(more) {
        return Err(Fault::Value);
    }
    Ok(())
}

/// Adds a share to another over the semiring of a matrix.
fn add_over<S: Semiring>(
    _like: &PanelledMatrix<S>,
    sums: &mut [u64],
    more: &[u64],
) -> Result<(), Fault>
    ensures { IsAddedShare S.arithmetic sums.old more.now sums.new result }
{
    check_shares::<S>(sums, more)?;
    add_share::<S>(sums, more);
    Ok(())
}

/// Adds a share to that of the columns before it, over the semiring of a kept matrix: lists of one length, or the sums of all
/// values in these columns, as lists of a single number. At a fault nothing changes. Costs a few instructions for each number.
#[tactic(auto, unfolding(crate::specs::Kept::semiring_of))]
pub fn kept_add_share(like: &Kept, sums: &mut [u64], more: &[u64]) -> Result<(), Fault>
    ensures { IsAddedShare (arithmetic_of (semiring_of like.now)) sums.old more.now sums.new result }
{
    of_matrix!(like, matrix => add_over(matrix, sums, more))
}

/// Refuses a list of another length than a column of a shape, and numbers that aren't values.
fn check_sums<S: Semiring>(shape: Shape, list: &[u64]) -> Result<(), Fault>
    ensures length { IfOk result (λ _. length list.now ≡ shape.rows) }
    ensures values { IfOk result (λ _. All (IsValue S.arithmetic) list.now) }
    ensures none { IfOk result (λ _. NoFault (sum_faults S.arithmetic shape.rows list.now)) }
    ensures fault { IfErr result (sum_faults S.arithmetic shape.rows list.now) }
{
    if list.len() != shape.rows() as usize {
        return Err(Fault::Lengths);
    }
    if !are_values::<S>(list) {
        return Err(Fault::Value);
    }
    Ok(())
}

/// The column of a list, kept over the semiring of a matrix.
fn column_over<S: Keep>(
    alloc: Global,
    like: &PanelledMatrix<S>,
    list: &[u64],
) -> Result<Kept, Fault>
    ensures { IsAnswer (sum_faults S.arithmetic like.now.shape.rows list.now) (IsColumnOver S.name S.arithmetic list.now) result }
{
    let shape = Shape::new(like.shape().rows(), 1).unwrap();
    check_sums::<S>(shape, list)?;
    let block = column_of_sums::<S>(alloc, shape, list)?;
    Ok(keep_block::<S>(alloc, block))
}

/// Keeps the column that has the values of a list, one for each row of a kept matrix, over its semiring. Costs a few instructions
/// for each row.
#[tactic(auto, unfolding(crate::specs::Kept::semiring_of, crate::specs::Kept::matrix_in))]
pub fn kept_column_of_sums(alloc: Global, like: &Kept, list: &[u64]) -> Result<Kept, Fault>
    ensures { IsAnswer (sum_faults (arithmetic_of (semiring_of like.now)) (matrix_in like.now).shape.rows list.now) (IsKeptColumn like.now list.now) result }
{
    of_matrix!(like, matrix => column_over(alloc, matrix, list))
}
