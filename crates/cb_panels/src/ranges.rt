//! Some columns of a result by each of several threads.
ghost use Rattle.std.specs.Prelude.{◌≡◌, ◌<◌, ◌-◌, length, slice_index, IfOk};
ghost use Rattle.std.specs.Thread.{IsSync};
ghost use Rattle.cb_operations.specs.Computations.{answer_of};
ghost use Rattle.cb_operations.specs.Operands.{lent_in};
ghost use Rattle.cb_panels.specs.Shared.{AreShared, HasRanges};
ghost use Rattle.cb_shares.specs.Shares.{panel, AreEnds};

use cb_layout::PanelledMatrix;
use cb_matrix::LIMIT;
use cb_operations::{Computation, ComputeFault};
use cb_semirings::Semiring;
use cb_shares::computed_columns;
use std::alloc::{AllocError, Global};
use std::thread::{Threads, join};

/// The columns from `first` up to, but not including, `end` of a result, in one panel.
fn make_range<S: Semiring>(
    alloc: Global,
    computation: Computation,
    operands: &[&PanelledMatrix<S>],
    first: u32,
    end: u32,
) -> Result<PanelledMatrix<S>, AllocError>
    requires { AreShared S.arithmetic computation operands.now }
    ensures { IfOk result (λ m. m ≡ panel (answer_of computation S.arithmetic (lent_in operands.now)) first end) }
{
    match computed_columns(alloc, computation, operands, first, end) {
        Ok(block) => Ok(PanelledMatrix::from_block(alloc, block)),
        Err(ComputeFault::Memory) => Err(AllocError),
        Err(ComputeFault::Refused(_refusal)) => unreachable!(),
    }
}

/// All columns of a result, in one panel.
pub(crate) fn make_whole<S: Semiring>(
    alloc: Global,
    computation: Computation,
    operands: &[&PanelledMatrix<S>],
) -> Result<PanelledMatrix<S>, AllocError>
    requires { AreShared S.arithmetic computation operands.now }
    ensures { IfOk result (λ m. m ≡ answer_of computation S.arithmetic (lent_in operands.now)) }
{
    let made = make_range(alloc, computation, operands, 0, LIMIT)?;
    prove!(made.shape().cols() <= LIMIT);
    Ok(made)
}

/// The columns of the first `count` ranges of a result. This thread makes those of the first range, and starts another thread
/// for each range after it that has columns.
#[cycle(ranges)]
fn make_ranges<S: Semiring + Send + Sync, R: Threads + Sync>(
    rt: &R,
    alloc: Global,
    computation: Computation,
    operands: &[&PanelledMatrix<S>],
    ends: &[u32],
    count: usize,
) -> Result<PanelledMatrix<S>, AllocError>
    requires operands { AreShared S.arithmetic computation operands.now }
    requires ranges { HasRanges ends.now count }
    ensures { IfOk result (λ m. m ≡ panel (answer_of computation S.arithmetic (lent_in operands.now)) 0 (slice_index ends.now (count - 1))) }
{
    let end = ends[count - 1];
    if count < 2 {
        return make_range(alloc, computation, operands, 0, end);
    }
    let first = ends[count - 2];
    let before = count - 1;
    if first == end {
        return make_ranges::<S, R>(rt, alloc, computation, operands, ends, before);
    }
    let (back, front) = join(
        rt,
        || -> Result<PanelledMatrix<S>, AllocError>
            requires { AreShared S.arithmetic computation operands.now }
            ensures { IfOk result (λ m. m ≡ panel (answer_of computation S.arithmetic (lent_in operands.entry.now)) first end) }
        { make_range(alloc, computation, operands, first, end) },
        || -> Result<PanelledMatrix<S>, AllocError>
            requires { IsSync R.row × AreShared S.arithmetic computation operands.now × HasRanges ends.now before }
            ensures { IfOk result (λ m. m ≡ panel (answer_of computation S.arithmetic (lent_in operands.entry.now)) 0 (slice_index ends.entry.now (before - 1))) }
        { make_ranges::<S, R>(rt, alloc, computation, operands, ends, before) },
    );
    let mut front = front?;
    let mut back = back?;
    cb_shares::join(alloc, &mut front, &mut back)?;
    Ok(front)
}

/// All columns of a result, in ranges that end there: one by this thread, and each of the others by a thread of its own.
pub(crate) fn make_all<S: Semiring + Send + Sync, R: Threads + Sync>(
    rt: &R,
    alloc: Global,
    computation: Computation,
    operands: &[&PanelledMatrix<S>],
    ends: &[u32],
) -> Result<PanelledMatrix<S>, AllocError>
    requires operands { AreShared S.arithmetic computation operands.now }
    requires ends { 0 < length ends.now }
    requires all { AreEnds (length ends.now) (answer_of computation S.arithmetic (lent_in operands.now)).shape.cols ends.now }
    ensures { IfOk result (λ m. m ≡ answer_of computation S.arithmetic (lent_in operands.now)) }
{
    make_ranges::<S, R>(rt, alloc, computation, operands, ends, ends.len())
}
