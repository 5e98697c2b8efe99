//! The sums that are stored: those other than zero.
ghost use Rattle.std.specs.Prelude.{◌≡◌, ◌<◌, length, All, AllPairs, OnOk};
ghost use Rattle.cb_semirings.specs.Arithmetic.{IsValue};
ghost use Rattle.cb_product.specs.SparseColumn.{IsSparseColumn};
ghost use Rattle.cb_masked.specs.RowSums.{HaveSameValues};

use cb_semirings::Semiring;
use std::alloc::AllocError;

/// Copies the sums other than zero, and their rows, into two lists: a sparse column with the same value at each row.
pub(crate) fn keep_nonzero<S: Semiring>(
    rows: &[u32],
    sums: &[u64],
    kept_rows: &mut Vec<u32>,
    values: &mut Vec<u64>,
) -> Result<(), AllocError>
    requires lengths { length sums.now ≡ length rows.now }
    requires order { AllPairs (λ i j. i < j) rows.now }
    requires values { All (IsValue S.arithmetic) sums.now }
    ensures column { OnOk result (IsSparseColumn S.arithmetic kept_rows.new.items values.new.items) }
    ensures values { OnOk result (HaveSameValues S.arithmetic.zero kept_rows.new.items values.new.items rows.now sums.now) }
{
    kept_rows.clear();
    values.clear();
    for n in 0..rows.len() {
        if sums[n] != S::zero() {
            kept_rows.push(rows[n])?;
            values.push(sums[n])?;
        }
    }
    Ok(())
}
