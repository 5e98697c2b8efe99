//! Scatter: a matrix is cut into one block for each rank.
ghost use Rattle.std.specs.Prelude.{◌≡◌, ◌≢◌, ℕ, ◌<◌, ◌≤◌, ◌+◌, ◌*◌, ◌/◌, ◌%◌, List, length, All, IfOk, OnOk, OnErr, slice_set};
ghost use Rattle.cb_semirings.specs.Arithmetic.{IsValue};
ghost use Rattle.cb_matrix.specs.Sparse.{IsMatrix, IsInside, IsBefore};
ghost use Rattle.cb_matrix.specs.Values.{empty_matrix};
ghost use Rattle.cb_dcsc.specs.Columns.{with_entry};
ghost use Rattle.std.specs.Int.{div_ceil};
ghost use Rattle.cb_grid.specs.Parts.{part_length, part_shape};
ghost use Rattle.cb_grid.specs.Blocks.{AreBlocksOf, AreRankMatrices, block_at, blank_blocks, part_with, place_in_part, placed_in_block, glued_blocks};

use crate::Grid;
use cb_dcsc::Block;
use cb_matrix::{Entry, Matrix, Shape};
use cb_semirings::Semiring;
use std::alloc::{AllocError, Global};

impl Grid {
    /// The block of each rank, in the order of their numbers: its row part and column part of the matrix, with places
    /// counted from the block's corner. Glued together, the blocks are the matrix again. The cost is that of the stored
    /// entries, and of one block for each rank.
    pub fn scatter<S: Semiring>(
        &self,
        alloc: Global,
        matrix: &Matrix<S>,
    ) -> Result<Vec<Block<S>>, AllocError>
        ensures count { IfOk result (λ v. length v.items ≡ self.now.side * self.now.side) }
        ensures blocks { IfOk result (λ v. AreBlocksOf S.arithmetic self.now.side matrix.now v.items) }
        ensures matrices { IfOk result (λ v. AreRankMatrices S.arithmetic self.now.side v.items) }
        ensures law { IfOk result (λ v. glued_blocks S.arithmetic self.now.side matrix.now.shape v.items ≡ matrix.now) }
    {
        prove!(self.side() > 0);
        let shape = matrix.shape();
        let mut blocks = self.empty_blocks(alloc, shape, matrix.len())?;
        for entry in matrix.entries() {
            let (rank, local) = self.in_block(shape, *entry);
            deliver(&mut blocks, rank, local)?;
        }
        Ok(blocks)
    }

    /// A block without entries for each rank, with room for this many in all, spread evenly.
    pub fn empty_blocks<S: Semiring>(
        &self,
        alloc: Global,
        shape: Shape,
        entries: usize,
    ) -> Result<Vec<Block<S>>, AllocError>
        ensures { IfOk result (λ v. v.items ≡ blank_blocks self.now.side shape) }
    {
        let each = self.room(entries);
        let mut blocks = Vec::with_capacity(alloc, usize::from(self.ranks()))?;
        for rank in 0..self.ranks() {
            let part = self.block_shape(shape, rank);
            blocks.push_reserved(roomy(alloc, part, each)?);
        }
        Ok(blocks)
    }

    /// The room to make in each block for this many entries in all: a little more than an equal share, since even entries
    /// that are spread evenly give some blocks more than others.
    fn room(&self, entries: usize) -> usize {
        let each = entries / usize::from(self.ranks());
        each.saturating_add(each / 16)
    }

    /// The shape of a rank's block. In constant time.
    pub fn block_shape(&self, shape: Shape, rank: u16) -> Shape
        requires { rank < self.now.side * self.now.side }
        ensures { result ≡ part_shape self.now.side shape (rank / self.now.side) (rank % self.now.side) }
    {
        let side = self.side();
        let rows = self.part_length(shape.rows(), u32::from(rank) / side);
        let cols = self.part_length(shape.cols(), u32::from(rank) % side);
        Shape::new(rows, cols).unwrap()
    }

    /// The number of places of part i of a dimension of d places. In constant time.
    pub fn part_length(&self, d: u32, i: u32) -> u32
        requires { i < self.now.side }
        ensures value { result ≡ part_length self.now.side d i }
        ensures limit { result ≤ d }
    {
        let (start, end) = self.range(d, i);
        end - start
    }

    /// The rank that keeps an entry, and the entry with its place in that rank's block.
    pub fn in_block(&self, shape: Shape, entry: Entry) -> (usize, Entry)
        requires { IsInside shape entry }
        ensures rank { result.0 ≡ part_with self.now.side shape.rows entry.row * self.now.side + part_with self.now.side shape.cols entry.column }
        ensures entry { result.1 ≡ placed_in_block self.now.side shape entry }
    {
        let (i, row) = self.in_part(shape.rows(), entry.row);
        let (j, column) = self.in_part(shape.cols(), entry.column);
        let local = Entry {
            row,
            column,
            value: entry.value,
        };
        (usize::from(self.rank(i, j)), local)
    }

    /// The part of a dimension that a place is in, and its place in that part. Divides by a part's length only from the third
    /// part on.
    #[inline(always)]
    pub fn in_part(&self, d: u32, place: u32) -> (u32, u32)
        requires { place < d }
        ensures part { result.0 ≡ part_with self.now.side d place }
        ensures place { result.1 ≡ place_in_part self.now.side d place }
        ensures within { result.0 < self.now.side }
    {
        let length = self.whole_part(d);
        // No branch tells the first two parts apart, since the processor guesses it wrong for every other row.
        let second = u32::from(length <= place);
        let local = place - second * length;
        if local < length {
            return (second, local);
        }
        (place / length, place % length)
    }

    /// The number of places of the first part of a dimension, and of each part that isn't cut short. To divide by a number
    /// that the compiler knows takes a few cycles, by any other some 25.
    #[inline(always)]
    fn whole_part(&self, d: u32) -> u32
        ensures value { result ≡ div_ceil d self.now.side }
        ensures side { 0 < self.now.side }
    {
        match self.side() {
            1 => d,
            2 => d.div_ceil(2),
            3 => d.div_ceil(3),
            4 => d.div_ceil(4),
            5 => d.div_ceil(5),
            6 => d.div_ceil(6),
            side => d.div_ceil(side),
        }
    }
}

/// A block without entries, with room for this many.
fn roomy<S: Semiring>(alloc: Global, shape: Shape, entries: usize) -> Result<Block<S>, AllocError>
    ensures { IfOk result (λ block. block ≡ empty_matrix shape) }
{
    let mut block = Block::empty(alloc, shape);
    block.reserve(entries)?;
    Ok(block)
}

/// Stores one more entry in the block of a rank, after all its others. A refusal leaves the blocks as they were.
pub fn deliver<S: Semiring>(
    blocks: &mut Vec<Block<S>>,
    rank: usize,
    entry: Entry,
) -> Result<(), AllocError>
    requires rank { rank < length blocks.old.items }
    requires inside { IsInside (block_at blocks.old.items rank).shape entry }
    requires order { All (λ e. IsBefore e entry) (block_at blocks.old.items rank).entries }
    requires value { IsValue S.arithmetic entry.value }
    requires not_zero { entry.value ≢ S.arithmetic.zero }
    ensures ok { OnOk result (blocks.new.items ≡ slice_set blocks.old.items rank (with_entry (block_at blocks.old.items rank) entry)) }
    ensures err { OnErr result (blocks.new.items ≡ blocks.old.items) }
{
    blocks[rank].push(entry)
}
