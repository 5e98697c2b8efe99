//! How the tests write entries, and tests that `cb_samples` makes the blocks that it is asked for or reports why not.
use cb_dcsc::{Block, BlockFault};
use cb_operations::ComputeFault;
use cb_samples::{SampleFault, block, entries, entry};
use cb_semirings::{OrAnd, PlusTimes, Semiring};
use std::alloc::{AllocError, Global};

/// Whether a block has exactly these entries.
pub(crate) fn has_entries<S: Semiring>(block: &Block<S>, wanted: &[cb_matrix::Entry]) -> bool {
    if block.len() != wanted.len() {
        return false;
    }
    for n in 0..block.len() {
        if wanted.get(n) != Some(&block.entry_at(n)) {
            return false;
        }
    }
    true
}

/// Whether two blocks are the same.
pub(crate) fn are_same<S: Semiring>(left: &Block<S>, right: &Block<S>) -> bool {
    if left.shape() != right.shape() || left.len() != right.len() {
        return false;
    }
    for n in 0..left.len() {
        if n >= right.len() || left.entry_at(n) != right.entry_at(n) {
            return false;
        }
    }
    true
}

/// Whether what was computed has these entries.
pub(crate) fn is_computed(
    made: Result<Block<PlusTimes>, ComputeFault>,
    wanted: &[cb_matrix::Entry],
) -> Result<bool, SampleFault> {
    match made {
        Ok(block) => Ok(has_entries(&block, wanted)),
        Err(ComputeFault::Refused(_)) => Ok(false),
        Err(ComputeFault::Memory) => Err(AllocError.into()),
    }
}

/// Whether a result is right, or its error is want of memory.
pub(crate) fn is_right_or_refused(made: Result<bool, SampleFault>) -> bool {
    match made {
        Ok(is_right) => is_right,
        Err(fault) => fault == SampleFault::Block(BlockFault::Memory),
    }
}

/// Whether the block of two rows and columns with these entries has them.
fn is_written_out(alloc: Global, given: &[cb_matrix::Entry]) -> Result<bool, SampleFault> {
    let made = block::<PlusTimes>(alloc, 2, 2, given)?;
    Ok(has_entries(&made, given))
}

#[test]
fn a_block_is_what_is_written_out(rt: HostRuntime) {
    let given = [entry(1, 0, 4), entry(0, 1, 3)];
    assert!(rt; is_written_out(rt.alloc(), &given) == Ok(true));
}

/// Why entries make no block of this many rows and one column.
fn fault_of<S: Semiring>(
    alloc: Global,
    rows: u32,
    entries: &[cb_matrix::Entry],
) -> Option<SampleFault> {
    block::<S>(alloc, rows, 1, entries).err()
}

#[test]
fn what_is_no_block_is_reported(rt: HostRuntime) {
    let large = fault_of::<PlusTimes>(rt.alloc(), u32::MAX, &[]);
    assert!(rt; large == Some(SampleFault::Shape));
    let value = fault_of::<OrAnd>(rt.alloc(), 1, entries![(0, 0, 2)]);
    assert!(rt; value == Some(SampleFault::Value));
    let twice = fault_of::<OrAnd>(rt.alloc(), 1, entries![(0, 0, 1), (0, 0, 1)]);
    assert!(rt; twice == Some(SampleFault::Block(BlockFault::Order(1))));
}
