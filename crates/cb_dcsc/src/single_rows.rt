//! Blocks whose entries are all in one row.
ghost use Rattle.std.specs.Prelude.{◌≡◌, ◌≢◌, ℕ, ◌<◌, ◌≤◌, ◌+◌, ◌^◌, length, slice_index, All, AllPairs, IfOk};
ghost use Rattle.cb_semirings.specs.Arithmetic.{IsValue};
ghost use Rattle.cb_matrix.specs.Sparse.{IsMatrix};
ghost use Rattle.cb_dcsc.specs.Compressed.{entries_in_row};

use crate::Block;
use cb_matrix::Shape;
use cb_semirings::Semiring;
use std::alloc::{AllocError, Global};
use std::marker::PhantomData;

impl<S: Semiring> Block<S> {
    /// The block whose entries are in one row, given by their columns, which ascend, and the value at each. Both lists are
    /// consumed and become the block's.
    ///
    /// Costs a few instructions for each entry, which fill the other two lists.
    pub fn from_row(
        alloc: Global,
        shape: Shape,
        row: u32,
        columns: Vec<u32>,
        values: Vec<u64>,
    ) -> Result<Self, AllocError>
        requires row { row < shape.rows }
        requires lengths { length values.items ≡ length columns.items }
        requires ascending { AllPairs (λ c d. c < d) columns.items }
        requires columns { All (λ c. c < shape.cols) columns.items }
        requires values { All (IsValue S.arithmetic) values.items }
        requires not_zero { All (λ v. v ≢ S.arithmetic.zero) values.items }
        ensures entries { IfOk result (λ m. m ≡ record { shape = shape; entries = entries_in_row row columns.items values.items }) }
        ensures matrix { IfOk result (λ m. IsMatrix S.arithmetic m) }
    {
        if columns.is_empty() {
            return Ok(Block::empty(alloc, shape));
        }
        let rows = vec![in alloc; row; columns.len()]?;
        let starts = counted(alloc, columns.len())?;
        Ok(Block {
            shape,
            columns,
            starts,
            rows,
            values,
            semiring: PhantomData,
        })
    }
}

/// The numbers from 0 up to the last, which is among them.
fn counted(alloc: Global, last: usize) -> Result<Vec<usize>, AllocError>
    requires { last + 1 < 2 ^ 64 }
    ensures length { IfOk result (λ v. length v.items ≡ last + 1) }
    ensures numbers { IfOk result (λ v. (k : ℕ) → k ≤ last → slice_index v.items k ≡ k) }
{
    let mut numbers = vec![in alloc; 0; last + 1]?;
    count_up(&mut numbers);
    Ok(numbers)
}

/// Writes to each place of a list how many are before it.
fn count_up(numbers: &mut [usize])
    ensures length { length numbers.new ≡ length numbers.old }
    ensures numbers { (k : ℕ) → k < length numbers.new → slice_index numbers.new k ≡ k }
{
    for (n, number) in numbers.iter_mut().enumerate() {
        *number = n;
    }
}
