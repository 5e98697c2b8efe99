//! Freeing the memory of matrices.
use cb_dcsc::Block;
use cb_semirings::Semiring;
use std::alloc::Global;
use std::thread;
use std::thread::Threads;

/// The fewest entries that are freed by several threads.
const FREED_APART: usize = 131_072;

/// Frees blocks, which have this many entries: if these are many, each block by a thread of its own. To take pages back
/// keeps the system busy for a good part of the time that it took to give them.
pub(crate) fn free_blocks<S: Semiring + Send, R: Threads + Sync>(
    rt: &R,
    alloc: Global,
    entries: usize,
    blocks: &mut [Block<S>],
) {
    let threads = blocks.len();
    if threads < 2 || entries < FREED_APART {
        return;
    }
    thread::for_each_mut(
        rt,
        blocks,
        threads,
        &|_, block| { *block = Block::empty(alloc, block.shape()) },
    );
}
