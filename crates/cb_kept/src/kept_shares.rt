//! Shares of a call on kept matrices, for threads of a program in another language: some columns of its result, and where the
//! ranges of columns end. The whole result is the range of all columns.
ghost use Rattle.cb_shares.specs.Shares.{AreEnds};
ghost use Rattle.cb_kept.specs.Answers.{IsAnswer};
ghost use Rattle.cb_kept.specs.Kept.{matrix_in};
ghost use Rattle.cb_kept.specs.KeptShares.{factor_faults, pair_faults};

use crate::faults::Fault;
use crate::kept::{Keep, Kept};
use crate::kept_calls::{KeptCall, kept_call};
use cb_layout::PanelledMatrix;
use cb_operations::{Computation, Operation};
use cb_product::LEAST_PRODUCTS;
use cb_shares::{check, ends_by_entries, ends_of};
use std::alloc::Global;

/// The fewest entries that are worth a thread.
const LEAST_ENTRIES: usize = 32_768;

/// The columns of a call's result from `first` up to, but not including, `end`.
#[derive(Drop)]
pub(crate) struct Share<C> {
    pub(crate) call: C,
    pub(crate) first: u32,
    pub(crate) end: u32,
}

/// Where each of `count` ranges of the columns of two matrices ends.
#[derive(Drop)]
struct EntryEnds {
    count: usize,
}

impl KeptCall for EntryEnds {
    ghost use Rattle.std.specs.Prelude.{◌≡◌};
    ghost use Rattle.cb_operations.specs.OperationAnswers.{matrix_at};
    ghost use Rattle.cb_shares.specs.Shares.{AreEnds};
    ghost use Rattle.cb_kept.specs.Refusals.{IsMemory};

    type Answer = Vec<u32>;

    ghost takes = { λ _ n. n ≡ 2 };

    ghost faults = { λ _ s ms. IsMemory };

    ghost gives = { λ c name s ms ends. AreEnds c.count (matrix_at ms 0).shape.cols ends.items };

    fn over<S: Keep>(
        &self,
        alloc: Global,
        operands: &[&PanelledMatrix<S>],
    ) -> Result<Vec<u32>, Fault> {
        let cols = operands[0].shape().cols();
        let ends = ends_by_entries(alloc, operands, cols, self.count, LEAST_ENTRIES)?;
        Ok(ends)
    }
}

/// Returns where each of `count` ranges of the columns of two kept matrices ends, which may be the same. All ranges take about
/// the same number of entries, and about [`LEAST_ENTRIES`] or more: ranges that are left over have no columns. Costs a few
/// binary searches for each range.
pub fn kept_entry_ends(alloc: Global, a: &Kept, b: &Kept, count: usize) -> Result<Vec<u32>, Fault>
    ensures { IsAnswer (pair_faults a.now b.now) (λ ends. AreEnds count (matrix_in a.now).shape.cols ends.items) result }
{
    kept_call(alloc, &EntryEnds { count }, &[a, b])
}

/// Where each of `count` ranges of a product's columns ends.
#[derive(Drop)]
struct ProductEnds {
    count: usize,
}

impl KeptCall for ProductEnds {
    ghost use Rattle.std.specs.Prelude.{◌≡◌};
    ghost use Rattle.cb_operations.specs.declared.operations.Operation.TheVariants.{Multiply};
    ghost use Rattle.cb_operations.specs.OperationAnswers.{matrix_at};
    ghost use Rattle.cb_shares.specs.Shares.{AreEnds};
    ghost use Rattle.cb_kept.specs.CallsOver.{operation_faults};

    type Answer = Vec<u32>;

    ghost takes = { λ _ n. n ≡ 2 };

    ghost faults = { λ _ s ms. operation_faults Multiply s ms };

    ghost gives = { λ c name s ms ends. AreEnds c.count (matrix_at ms 1).shape.cols ends.items };

    #[tactic(auto, using(crate::proofs::Firsts::refused_fault, crate::proofs::Firsts::none_of_computed))]
    fn over<S: Keep>(
        &self,
        alloc: Global,
        operands: &[&PanelledMatrix<S>],
    ) -> Result<Vec<u32>, Fault> {
        check::<S>(Computation::Operation(Operation::Multiply), operands)?;
        let [a, b] = operands else { unreachable!() };
        let a = a.whole()?;
        let b = b.whole()?;
        let ends = ends_of(alloc, a.block(), b.block(), self.count, LEAST_PRODUCTS)?;
        Ok(ends)
    }
}

/// Returns where each of `count` ranges of a product's columns ends. All ranges take about the same number of products of
/// two values, and about [`LEAST_PRODUCTS`] or more: ranges that are left over have no columns. Costs an index of the left
/// matrix's columns, and a pass over the right matrix's entries.
pub fn kept_ends(alloc: Global, left: &Kept, right: &Kept, count: usize) -> Result<Vec<u32>, Fault>
    ensures { IsAnswer (factor_faults left.now right.now) (λ ends. AreEnds count (matrix_in right.now).shape.cols ends.items) result }
{
    kept_call(alloc, &ProductEnds { count }, &[left, right])
}
