//! Glue: blocks over a grid are gathered into one matrix.
ghost use Rattle.std.specs.Prelude.{◌≡◌, ℕ, ◌<◌, ◌+◌, ◌*◌, ◌^◌, ◌++◌, length, min, sum_by, All, IfOk, OnOk, OnErr};
ghost use Rattle.cb_matrix.specs.Sparse.{IsMatrix};
ghost use Rattle.cb_grid.specs.Blocks.{AreBlocksOf, block_at, glued_blocks};
ghost use Rattle.cb_layout.specs.Distributed.{HavePartShapes};
ghost use Rattle.cb_layout.specs.Segments.{entries_of};

use crate::Segment;
use crate::traversal::GridSegments;
use cb_dcsc::Block;
use cb_grid::{Grid, LARGEST_SIDE};
use cb_matrix::{Entry, Matrix, Shape};
use cb_semirings::Semiring;
use std::alloc::{AllocError, Global};

/// The matrix of a shape from the block of each rank, in the order of their numbers. The blocks are merged column by
/// column, so the entries come in the matrix's order. Each stored column of a block costs finding the least of as many
/// numbers as the grid has rows: the next columns of the blocks in its column of the grid. No cost depends on the shape.
pub fn gather<S: Semiring>(
    alloc: Global,
    grid: &Grid,
    blocks: &[Block<S>],
    shape: Shape,
) -> Result<Matrix<S>, AllocError>
    requires count { length blocks.now ≡ grid.now.side * grid.now.side }
    requires shapes { HavePartShapes grid.now.side shape blocks.now }
    ensures glued { IfOk result (λ m. m ≡ glued_blocks S.arithmetic grid.now.side shape blocks.now) }
    ensures cuts { IfOk result (λ m. AreBlocksOf S.arithmetic grid.now.side m blocks.now) }
{
    prove!(grid.side() <= LARGEST_SIDE);
    let mut entries = Vec::new(alloc);
    entries.reserve(stored(blocks))?;
    let mut segments = GridSegments::new(*grid, shape, blocks);
    loop {
        match segments.next_segment() {
            Some(segment) => append_segment(&mut entries, segment)?,
            None => break,
        }
    }
    Ok(Matrix::from_ordered(shape, entries))
}

/// The number of entries that all blocks store.
pub fn stored<S: Semiring>(blocks: &[Block<S>]) -> usize
    ensures count { result ≡ min (sum_by (λ block. length block.entries) blocks.now) usize.MAX }
    ensures matrices { (r : ℕ) → r < length blocks.now → IsMatrix S.arithmetic (block_at blocks.now r) }
{
    let mut count = 0usize;
    for block in blocks {
        // For the proof alone: the contract of this call says that the block is a matrix.
        let _shape = block.shape();
        count = count.saturating_add(block.len());
    }
    count
}

/// Appends the entries of a segment. If memory is refused, the list stays as it was.
pub fn append_segment(entries: &mut Vec<Entry>, segment: Segment<'_>) -> Result<(), AllocError>
    requires lengths { length segment.values.now ≡ length segment.rows.now }
    requires fits { All (λ i. segment.top + i < 2 ^ 32) segment.rows.now }
    ensures ok { OnOk result (entries.new.items ≡ entries.old.items ++ entries_of segment.entry) }
    ensures err { OnErr result (entries.new.items ≡ entries.old.items) }
{
    let (rows, values) = (segment.rows, segment.values);
    entries.reserve(rows.len())?;
    for n in 0..rows.len() {
        entries.push_reserved(Entry {
            row: segment.top + rows[n],
            column: segment.column,
            value: values[n],
        });
    }
    Ok(())
}
