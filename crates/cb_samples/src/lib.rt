//! Small blocks for tests and examples, written entry by entry.
//!
//! For example, `block(alloc, 2, 2, &[entry(0, 1, 3)])?` is the block of two rows and two columns with a 3 in row 0 of
//! column 1.
#![tactic(auto)]

ghost use Rattle.std.specs.Prelude.{◌≡◌, ◌↔◌, IsTrue, All, IfOk};
ghost use Rattle.cb_semirings.specs.Arithmetic.{IsValue};

use cb_dcsc::{Block, BlockFault};
pub use cb_matrix::Entry;
use cb_matrix::Shape;
use cb_semirings::Semiring;
use std::alloc::{AllocError, Global};
use thiserror::Error;

/// Why a test's sample is no block.
#[derive(Clone, Copy, Debug, PartialEq, Eq, Error)]
pub enum SampleFault {
    /// More rows or columns than a matrix can have.
    #[error("more rows or columns than a matrix can have")]
    Shape,
    /// A number that isn't a value of the semiring.
    #[error("a number that isn't a value of the semiring")]
    Value,
    /// Entries that make no block, or want of memory.
    #[error("{0}")]
    Block(BlockFault),
}

impl From<BlockFault> for SampleFault {
    fn from(fault: BlockFault) -> SampleFault {
        SampleFault::Block(fault)
    }
}

impl From<AllocError> for SampleFault {
    fn from(_error: AllocError) -> SampleFault {
        SampleFault::Block(BlockFault::Memory)
    }
}

/// Entries, each written as its row, column and value, as a constant.
#[macro_export]
macro_rules! entries {
    ($(($row:expr, $column:expr, $value:expr)),* $(,)?) => {
        &[$($crate::Entry { row: $row, column: $column, value: $value }),*]
    };
}

/// Makes an entry from its row, column and value.
pub const fn entry(row: u32, column: u32, value: u64) -> Entry
    ensures { result ≡ record { row = row; column = column; value = value } }
{
    Entry { row, column, value }
}

/// Makes the shape of this many rows and columns.
pub fn shape(rows: u32, cols: u32) -> Result<Shape, SampleFault>
    ensures { IfOk result (λ s. s ≡ record { rows = rows; cols = cols }) }
{
    Shape::new(rows, cols).ok_or(SampleFault::Shape)
}

/// Returns whether each entry's value is one of the semiring.
pub fn are_values<S: Semiring>(entries: &[Entry]) -> bool
    ensures { IsTrue result ↔ All (λ e. IsValue S.arithmetic e.value) entries.now }
{
    entries.iter().all(|entry| S::is_value(entry.value))
}

/// Makes the block of these entries, which have to be ordered by column and then by row, and not zero.
pub fn block<S: Semiring>(
    alloc: Global,
    rows: u32,
    cols: u32,
    entries: &[Entry],
) -> Result<Block<S>, SampleFault>
    ensures shape { IfOk result (λ b. b.shape ≡ record { rows = rows; cols = cols }) }
    ensures entries { IfOk result (λ b. b.entries ≡ entries.now) }
{
    if !are_values::<S>(entries) {
        return Err(SampleFault::Value);
    }
    Ok(Block::from_sorted(alloc, shape(rows, cols)?, entries)?)
}
