//! Faults of entries that don't form a block.
ghost use Rattle.std.specs.Prelude.{◌≡◌, ◌==◌, ℕ, ◌<◌, Option, Some, None, Bool, not};
ghost use Rattle.cb_dcsc.specs.BlockFaults.{fault_of, first_fault, is_late};

use cb_matrix::{Entry, Shape};
use cb_semirings::Semiring;
use std::alloc::AllocError;
use thiserror::Error;

/// Why entries don't form a block. Each fault except `Memory` has the index of the first faulty entry.
#[derive(Clone, Copy, Debug, PartialEq, Eq, Error)]
pub enum BlockFault {
    /// The entry is outside the shape.
    #[error("entry {0} is outside the shape")]
    Place(usize),
    /// The entry doesn't come after the one before it, by column and then by row.
    #[error("entry {0} doesn't come after the one before it")]
    Order(usize),
    /// The entry's value is the semiring's zero.
    #[error("entry {0} is zero")]
    Zero(usize),
    /// Memory was refused.
    #[error("out of memory")]
    Memory,
}

impl From<AllocError> for BlockFault {
    ghost use Rattle.cb_dcsc.specs.declared.block_faults.BlockFault.TheVariants.{Memory};

    ghost from_gives = { λ _ fault. fault ≡ Memory };

    fn from(_error: AllocError) -> BlockFault {
        BlockFault::Memory
    }
}

/// Whether an entry doesn't come after the one before it.
fn is_late(before: Option<Entry>, entry: &Entry) -> bool
    ensures { result ≡ is_late before entry.now }
{
    match before {
        Some(last) => {
            !(last.column < entry.column || last.column == entry.column && last.row < entry.row)
        }
        None => false,
    }
}

/// The fault of the entry with this index, which comes after the entry before it.
fn fault_of<S: Semiring>(
    shape: Shape,
    index: usize,
    before: Option<Entry>,
    entry: &Entry,
) -> Option<BlockFault>
    ensures { result ≡ fault_of S.arithmetic shape index before entry.now }
{
    if !(entry.row < shape.rows() && entry.column < shape.cols()) {
        return Some(BlockFault::Place(index));
    }
    if is_late(before, entry) {
        return Some(BlockFault::Order(index));
    }
    if entry.value == S::zero() {
        return Some(BlockFault::Zero(index));
    }
    None
}

/// The fault of the first entry that has one.
pub(crate) fn first_fault<S: Semiring>(shape: Shape, entries: &[Entry]) -> Option<BlockFault>
    ensures { result ≡ first_fault S.arithmetic shape entries.now }
{
    let mut before = None;
    for index in 0..entries.len() {
        let entry = entries[index];
        let fault = fault_of::<S>(shape, index, before, &entry);
        if fault.is_some() {
            return fault;
        }
        before = Some(entry);
    }
    None
}
