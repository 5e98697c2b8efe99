//! Sums over the columns of a matrix in several panels, made in shares: those of the columns before one and from it on, added up, are
//! the whole sum.
ghost use Rattle.std.specs.Prelude.{◌≡◌, length};
ghost use Rattle.cb_operations.specs.OperationAnswers.{operand_count_of, Agree, shapes_in};
ghost use Rattle.cb_operations.specs.Operands.{lent_in};
ghost use Rattle.cb_shares.specs.Sums.{IsSumOfColumns};

use crate::operands::{Matrix, are_same, product_in, random};
use cb_layout::PanelledMatrix;
use cb_matrix::LIMIT;
use cb_operations::Operation;
use cb_product::multiply;
use cb_reshape::row_sums;
use cb_samples::SampleFault;
use cb_semirings::PlusTimes;
use cb_shares::{add_share, column_of_sums, share_of_sum, total, total_of_columns};
use std::alloc::{AllocError, Global};
use std::thread::Threads;

type Panelled = PanelledMatrix<PlusTimes>;

/// Whether the shares on both sides of a column, added up, are the values of a column.
fn are_shares(
    alloc: Global,
    operation: Operation,
    operands: &[&Panelled],
    column: u32,
    wanted: &Matrix,
) -> Result<bool, AllocError>
    requires sum { IsSumOfColumns operation }
    requires count { length operands.now ≡ operand_count_of operation }
    requires agree { Agree operation (shapes_in (lent_in operands.now)) }
{
    let mut sums = share_of_sum(alloc, operation, operands, 0, column)?;
    let more = share_of_sum(alloc, operation, operands, column, LIMIT)?;
    let shape = wanted.shape();
    if more.len() != sums.len() || shape.rows() as usize != sums.len() || shape.cols() != 1 {
        return Ok(false);
    }
    add_share::<PlusTimes>(&mut sums, &more);
    let made = column_of_sums::<PlusTimes>(alloc, shape, &sums)?;
    Ok(are_same(&made, wanted))
}

/// Whether it is so of the sums of rows.
fn are_row_sums(alloc: Global, matrix: &Panelled, column: u32) -> Result<bool, AllocError> {
    let whole = matrix.to_block()?;
    let wanted = row_sums(alloc, &whole)?;
    are_shares(alloc, Operation::RowSums, &[matrix], column, &wanted)
}

/// Whether it is so of the product with a vector.
fn is_product(
    alloc: Global,
    matrix: &Panelled,
    vector: Matrix,
    column: u32,
) -> Result<bool, AllocError> {
    let whole = matrix.to_block()?;
    if whole.shape().cols() != vector.shape().rows() || vector.shape().cols() != 1 {
        return Ok(false);
    }
    let wanted = multiply(alloc, &whole, &vector)?;
    let x = PanelledMatrix::from_block(alloc, vector);
    are_shares(
        alloc,
        Operation::MultiplyVector,
        &[matrix, &x],
        column,
        &wanted,
    )
}

/// Whether it is so of the sum of all values.
fn is_total(matrix: &Panelled, column: u32) -> bool {
    let front = total_of_columns(matrix, 0, column);
    let back = total_of_columns(matrix, column, LIMIT);
    front.wrapping_add(back) == total(matrix)
}

/// Whether all of these are so of a product of random matrices in three panels.
fn are_sums<R: Threads + Sync>(rt: &R, alloc: Global, column: u32) -> Result<bool, SampleFault> {
    let left = random(alloc, 60, 6, 2, 7919)?;
    let right = random(alloc, 6, 9, 2, 104729)?;
    let vector = random(alloc, 9, 1, 2, 31)?;
    let matrix = product_in(rt, alloc, 3, left, right)?;
    Ok(
        is_total(&matrix, column)
            && are_row_sums(alloc, &matrix, column)?
            && is_product(alloc, &matrix, vector, column)?,
    )
}

#[test]
fn sums_are_made_in_shares(rt: HostRuntime) {
    for column in 0..10 {
        assert!(&rt;
            are_sums(&rt, rt.alloc(), column) == Ok(true),
            "column {column}"
        );
    }
}
