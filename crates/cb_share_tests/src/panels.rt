//! Products in panels, beside the product by one thread.
ghost use Rattle.std.specs.Prelude.{◌≡◌, IfOk};

use crate::operands::{are_same, is_right_or_refused, panels, product_in, scattered};
use cb_dcsc::Block;
use cb_layout::PanelledMatrix;
use cb_matrix::{LIMIT, Test};
use cb_operations::{Computation, ComputeFault, Diagonal, Function, Operation, Region, Selection};
use cb_panels::compute;
use cb_product::{ColumnIndex, multiply_columns};
use cb_samples::{SampleFault, block};
use cb_semirings::PlusTimes;
use std::alloc::{AllocError, Global};
use std::thread::Threads;

type Panelled = PanelledMatrix<PlusTimes>;

/// Two random factors: the sides (rows, inner side, columns) of the shapes, and of what has entries; and one in how many
/// places of each has an entry.
type Factors = ([u32; 3], [u32; 3], [u32; 2]);

/// More panels than columns, columns of many entries, the largest sides, and one column.
const FACTORS: &[Factors] = &[
    ([9, 7, 8], [9, 7, 8], [2, 2]),
    MANY,
    ([LIMIT, LIMIT, LIMIT], [20, 6, 15], [2, 2]),
    ONE,
];

/// The factors of a seed.
fn factors_of(
    alloc: Global,
    factors: &Factors,
    seed: u32,
) -> Result<(Block<PlusTimes>, Block<PlusTimes>), SampleFault>
    ensures { IfOk result (λ made. made.0.shape.cols ≡ made.1.shape.rows) }
{
    let ([rows, inner, cols], [rows_used, inner_used, cols_used], [one, two]) = *factors;
    let left = scattered(alloc, rows_used, inner_used, one, seed)?;
    let right = scattered(alloc, inner_used, cols_used, two, !seed)?;
    let left = block(alloc, rows, inner, &left)?;
    let right = block(alloc, inner, cols, &right)?;
    Ok((left, right))
}

/// Whether the product of factors of a seed, in so many panels, is the product by one thread.
fn is_product<R: Threads + Sync>(
    rt: &R,
    alloc: Global,
    most: u32,
    factors: &Factors,
    seed: u32,
) -> Result<bool, SampleFault> {
    let (left, right) = factors_of(alloc, factors, seed)?;
    let wanted = cb_product::multiply(alloc, &left, &right)?;
    let found = product_in(rt, alloc, most, left, right)?;
    Ok(are_same(&found.into_block()?, &wanted))
}

/// Whether it is for some seeds and in as many panels as are tried.
fn are_products<R: Threads + Sync>(rt: &R, alloc: Global, factors: &Factors) -> bool {
    for seed in 1..8 {
        for most in [0, 1, 2, 3, 5, 64] {
            if is_product(rt, alloc, most, factors, seed * 7919) != Ok(true) {
                return false;
            }
        }
    }
    true
}

/// Whether the product, made of all columns that have entries by an index of the left factor, is the product.
fn are_columns(alloc: Global, factors: &Factors, seed: u32) -> Result<bool, SampleFault> {
    let (left, right) = factors_of(alloc, factors, seed)?;
    prove_eq!(left.shape().cols(), right.shape().rows());
    let index = ColumnIndex::new(alloc, &left, right.len())?;
    let columns = right.column_numbers();
    let made = multiply_columns(alloc, &left, &index, &right, columns, right.len())?;
    Ok(are_same(&made, &cb_product::multiply(alloc, &left, &right)?))
}

#[test]
fn products_of_columns_are_the_same(rt: HostRuntime) {
    for factors in FACTORS {
        assert!(&rt; are_columns(rt.alloc(), factors, 7919) == Ok(true));
    }
}

#[test]
fn products_in_panels_are_the_same(rt: HostRuntime) {
    for factors in FACTORS {
        assert!(&rt; are_products(&rt, rt.alloc(), factors));
    }
}

/// Whether the product of some factors has this many panels, of at most so many.
fn has_panels<R: Threads + Sync>(
    rt: &R,
    alloc: Global,
    most: u32,
    factors: &Factors,
    wanted: usize,
) -> Result<bool, SampleFault> {
    let (left, right) = factors_of(alloc, factors, 7919)?;
    let made = product_in(rt, alloc, most, left, right)?;
    Ok(made.panels().1.len() + 1 == wanted)
}

const MANY: Factors = ([60, 6, 40], [60, 6, 40], [1, 3]);

const ONE: Factors = ([300, 200, 100], [20, 6, 1], [1, 1]);

const SQUARE: Factors = ([30, 6, 30], [30, 6, 24], [4, 4]);

/// Whether products have as many panels as are asked for, and of one column one.
fn have_panels<R: Threads + Sync>(rt: &R, alloc: Global) -> bool {
    for (most, wanted) in [(0, 1), (1, 1), (2, 2), (5, 5)] {
        let many = has_panels(rt, alloc, most, &MANY, wanted);
        let one = has_panels(rt, alloc, most, &ONE, 1);
        if many != Ok(true) || one != Ok(true) {
            return false;
        }
    }
    true
}

/// There are as many as are asked for, at least one, unless fewer columns have entries: none is without.
#[test]
fn a_product_has_as_many_panels_as_are_asked_for(rt: HostRuntime) {
    assert!(&rt; have_panels(&rt, rt.alloc()));
}

/// Passes whichever single allocation is refused (`rt try --test --fail-alloc N`, for each N in turn).
#[test]
fn a_refused_product_in_panels_answers_memory(rt: HostRuntime) {
    let made = is_product(&rt, rt.alloc(), 3, &MANY, 7919);
    assert!(&rt; is_right_or_refused(made));
}

/// A product of random factors, in so many panels: square, without entries in the last columns.
fn square<R: Threads + Sync>(
    rt: &R,
    alloc: Global,
    most: u32,
    seed: u32,
) -> Result<Panelled, SampleFault> {
    let (left, right) = factors_of(alloc, &SQUARE, seed)?;
    product_in(rt, alloc, most, left, right)
}

/// What was computed, None where it was refused.
fn unless_refused(
    made: Result<Panelled, ComputeFault>,
) -> Result<Option<Block<PlusTimes>>, AllocError> {
    match made {
        Ok(made) => Ok(Some(made.into_block()?)),
        Err(ComputeFault::Memory) => Err(AllocError),
        Err(ComputeFault::Refused(_refusal)) => Ok(None),
    }
}

/// Whether two results, or that they were refused, are the same.
fn is_same_made(found: Option<Block<PlusTimes>>, wanted: Option<Block<PlusTimes>>) -> bool {
    match (&found, &wanted) {
        (Some(found), Some(wanted)) => are_same(found, wanted),
        (None, None) => true,
        _ => false,
    }
}

/// Whether what so many threads compute, or its refusal, is that of one thread.
fn is_same_computation<R: Threads + Sync>(
    rt: &R,
    alloc: Global,
    most: u32,
    computation: Computation,
    operands: &[&Panelled],
) -> Result<bool, AllocError> {
    if operands.len() != computation.operand_count() {
        return Ok(false);
    }
    let found = unless_refused(compute(rt, alloc, panels(most), computation, operands))?;
    let wanted = unless_refused(compute(rt, alloc, panels(1), computation, operands))?;
    Ok(is_same_made(found, wanted))
}

/// Whether it is so of each of some computations.
fn are_same_computations<R: Threads + Sync>(
    rt: &R,
    alloc: Global,
    most: u32,
    computations: &[Computation],
    operands: &[&Panelled],
) -> Result<bool, AllocError> {
    for computation in computations {
        if !is_same_computation(rt, alloc, most, *computation, operands)? {
            return Ok(false);
        }
    }
    Ok(true)
}

fn of_one() -> [Computation; 8] {
    [
        Computation::Operation(Operation::Prune(Test::Below(30))),
        Computation::Operation(Operation::ColumnSums),
        Computation::Operation(Operation::Transpose),
        Computation::Selection(Selection::Select(Region::Lower(Diagonal { row: 0, column: 2 }))),
        Computation::Selection(Selection::Apply(Function::Sum(5))),
        Computation::Selection(Selection::Apply(Function::Column)),
        Computation::Selection(Selection::Diagonal),
        Computation::Selection(Selection::DiagonalMatrix),
    ]
}

fn of_two() -> [Computation; 6] {
    [
        Computation::Operation(Operation::Add),
        Computation::Operation(Operation::Times),
        Computation::Operation(Operation::Multiply),
        Computation::Selection(Selection::Exclude),
        Computation::Selection(Selection::Kronecker),
        Computation::Selection(Selection::Assign((1, 1))),
    ]
}

fn of_three() -> [Computation; 2] {
    [
        Computation::Operation(Operation::MultiplyMasked),
        Computation::MultiplyOutside,
    ]
}

/// Whether all computations on two matrices, one in one panel and one in three, are the same by so many threads. Two are refused:
/// neither matrix is a column, as a diagonal matrix takes, and neither is a part of the other at row 1 of column 1.
fn are_the_same<R: Threads + Sync>(rt: &R, alloc: Global, most: u32) -> Result<bool, SampleFault> {
    let a = square(rt, alloc, 1, 7919)?;
    let b = square(rt, alloc, 3, 104729)?;
    Ok(
        are_same_computations(rt, alloc, most, &of_one(), &[&a])?
            && are_same_computations(rt, alloc, most, &of_one(), &[&b])?
            && are_same_computations(rt, alloc, most, &of_two(), &[&a, &b])?
            && are_same_computations(rt, alloc, most, &of_three(), &[&a, &b, &a])?,
    )
}

#[test]
fn computations_by_threads_are_the_same(rt: HostRuntime) {
    for most in [0, 2, 3, 5, 64] {
        assert!(&rt;
            are_the_same(&rt, rt.alloc(), most) == Ok(true),
            "{most} threads"
        );
    }
}

/// Passes whichever single allocation is refused (`rt try --test --fail-alloc N`, for each N in turn).
#[test]
fn refused_computations_by_threads_answer_memory(rt: HostRuntime) {
    let made = are_the_same(&rt, rt.alloc(), 3);
    assert!(&rt; is_right_or_refused(made));
}
