//! Every operation on two small matrices and a column, with every engine and on one thread.
use crate::examples::{
    AGREEING, COLUMN, FIRST, Given, PRODUCT, Place, REFUSING, RUNS, Run, SECOND, Sample, grid, has,
    is_refusal, made, made_alone, matrices,
};
use cb_layout::Grid;
use cb_matrix::Test;
use cb_operations::{Operation, Refusal};
use cb_rank_engines::Engine;
use cb_rank_operations::OperationFault;
use std::alloc::Global;
use std::sync::Wait;
use std::thread::Threads;

/// An operation and its result. None if the shapes of its operands don't agree.
type Row = (Operation, Option<&'static [Place]>);

/// Every operation, and its result for the operands of [`AGREEING`].
const ANSWERS: &[Row] = &[
    (Operation::Multiply, Some(&PRODUCT)),
    (Operation::MultiplyMasked, Some(&[(0, 0, 6), (0, 1, 2)])),
    (Operation::MultiplyVector, Some(&[(0, 0, 6), (1, 0, 10)])),
    (
        Operation::Add,
        Some(&[(0, 0, 1), (1, 0, 4), (0, 1, 1), (1, 1, 3)]),
    ),
    (Operation::Times, Some(&[(0, 1, 3)])),
    (Operation::Prune(Test::Above(1)), Some(&[(0, 0, 1)])),
    (
        Operation::Transpose,
        Some(&[(0, 0, 1), (1, 0, 2), (1, 1, 3)]),
    ),
    (Operation::RowSums, Some(&[(0, 0, 1), (1, 0, 3)])),
    (Operation::ColumnSums, Some(&[(0, 0, 1), (0, 1, 2)])),
];

const SMALL: Sample = (1, 1, &[]);

/// Operands for which no operation with several operands has a result: the second matrix is too small, and the column has
/// two columns.
const DISAGREEING: [Sample; 4] = [FIRST, SMALL, FIRST, SECOND];

/// The operations with several operands, whose shapes have to agree.
const OF_SEVERAL: &[Row] = &[
    (Operation::Multiply, None),
    (Operation::MultiplyMasked, None),
    (Operation::MultiplyVector, None),
    (Operation::Add, None),
    (Operation::Times, None),
];

/// Operands of which only the mask is too small.
const MASKED_TOO_SMALL: [Sample; 4] = [FIRST, SECOND, SMALL, COLUMN];

/// Whether every operation has its result in a run; or reports refused memory, if it may be refused.
fn makes_all<R: Threads + Wait + Sync>(
    rt: &R,
    alloc: Global,
    engine: Option<Engine>,
    grid: &Grid,
    given: &Given,
    rows: &[Row],
    may_be_refused: bool,
) -> bool {
    for (operation, wanted) in rows {
        let answer = match engine {
            Some(engine) => made(rt, alloc, engine, grid, given, *operation),
            None => made_alone(alloc, given, *operation),
        };
        let is_right = match answer {
            Ok(answer) => match wanted {
                Some(places) => has(&answer, places),
                None => false,
            },
            Err(OperationFault::Refused(Refusal::Shapes)) => wanted.is_none(),
            Err(fault) => may_be_refused && is_refusal(engine, fault),
        };
        if !is_right {
            return false;
        }
    }
    true
}

/// Whether every operation on these operands has its result in each of these runs; or reports refused memory, if it may
/// be refused.
fn make_all<R: Threads + Wait + Sync>(
    rt: &R,
    alloc: Global,
    runs: &[Run],
    samples: &[Sample; 4],
    rows: &[Row],
    may_be_refused: bool,
) -> Option<bool> {
    let given = matrices(alloc, samples)?;
    for (engine, side) in runs {
        let grid = grid(*side)?;
        if !makes_all(rt, alloc, *engine, &grid, &given, rows, may_be_refused) {
            return Some(false);
        }
    }
    Some(true)
}

#[test]
fn each_operation_in_each_run(rt: HostRuntime) {
    assert!(rt; make_all(&rt, rt.alloc(), &RUNS, &AGREEING, ANSWERS, false) == Some(true));
}

#[test]
fn shapes_are_refused(rt: HostRuntime) {
    let masked = [(Operation::MultiplyMasked, None)];
    assert!(rt; make_all(&rt, rt.alloc(), &RUNS, &DISAGREEING, OF_SEVERAL, false) == Some(true));
    assert!(rt; make_all(&rt, rt.alloc(), &RUNS, &MASKED_TOO_SMALL, &masked, false) == Some(true));
}

/// Passes whichever single allocation is refused (`rt try --test --fail-alloc N`, for each N in turn): the call reports
/// it, or its result is right.
#[test]
fn refused_memory_is_reported(rt: HostRuntime) {
    assert!(rt; make_all(&rt, rt.alloc(), &REFUSING, &AGREEING, ANSWERS, true) != Some(false));
}
