//! A matrix over a grid of ranks.
ghost use Rattle.std.specs.Prelude.{◌≡◌, ◌≢◌, ◌↔◌, ℕ, ◌<◌, ◌+◌, ◌*◌, [], length, All, IfOk, OnOk, OnErr, IsTrue};
ghost use Rattle.cb_semirings.specs.Arithmetic.{IsValue};
ghost use Rattle.cb_matrix.specs.Sparse.{IsMatrix, IsInside, IsBefore};
ghost use Rattle.cb_matrix.specs.Values.{empty_matrix};
ghost use Rattle.cb_dcsc.specs.Columns.{with_entry, with_entries};
ghost use Rattle.cb_grid.specs.Blocks.{AreBlocksOf, block_at, glued_blocks};
ghost use Rattle.std.specs.Thread.{IsSync};
ghost use Rattle.cb_layout.specs.Distributed.{HavePartShapes, MayBeAppended, AreAppended};

use crate::Segments;
use crate::freeing::free_blocks;
use crate::glue::{gather, stored};
use cb_dcsc::Block;
use cb_grid::{Grid, LARGEST_SIDE, deliver};
use cb_matrix::{Entry, LIMIT, Matrix, Shape};
use cb_semirings::Semiring;
use std::alloc::{AllocError, Global};
use std::marker::Model;
use std::thread::{Threads, join_mut};

/// A matrix whose blocks are kept by the ranks of a grid: the distributed sparse matrix of The Combinatorial BLAS.
/// Contracts see the side of its grid and the whole matrix, which its blocks are glued to.
#[derive(Drop)]
pub struct DistributedMatrix<S: Semiring> {
    grid: Grid,
    shape: Shape,
    /// The number of entries that all blocks store.
    len: usize,
    /// The block of each rank, in the order of their numbers.
    blocks: Vec<Block<S>>,
}

impl<S: Semiring> Model for DistributedMatrix<S> {
    ghost use Rattle.cb_layout.specs.Distributed.{Distributed, HaveEntries};
    ghost use Rattle.cb_grid.specs.Blocks.{glued_blocks};

    ghost Value = { Distributed };

    ghost view = { λ a. record { side = a.grid.side; matrix = glued_blocks S.arithmetic a.grid.side a.shape a.blocks.items } };

    ghost invariant = { λ a. HaveEntries S.arithmetic a.grid.side a.shape a.blocks.items a.len };
}

impl<S: Semiring> DistributedMatrix<S> {
    /// The matrix of a shape that these blocks are glued to, one for each rank in the order of their numbers. It takes no
    /// memory.
    pub fn from_blocks(grid: Grid, shape: Shape, blocks: Vec<Block<S>>) -> Self
        requires count { length blocks.items ≡ grid.side * grid.side }
        requires shapes { HavePartShapes grid.side shape blocks.items }
        ensures { result ≡ record { side = grid.side; matrix = glued_blocks S.arithmetic grid.side shape blocks.items } }
    {
        prove!(grid.side() <= LARGEST_SIDE);
        prove!(shape.rows() <= LIMIT);
        prove!(shape.cols() <= LIMIT);
        let len = stored(&blocks);
        DistributedMatrix {
            grid,
            shape,
            len,
            blocks,
        }
    }

    /// A matrix cut over a grid. The cost is that of the stored entries and of one block for each rank.
    pub fn scatter(alloc: Global, grid: Grid, matrix: &Matrix<S>) -> Result<Self, AllocError>
        ensures { IfOk result (λ m. m ≡ record { side = grid.side; matrix = matrix.now }) }
    {
        let blocks = grid.scatter(alloc, matrix)?;
        Ok(Self::from_blocks(grid, matrix.shape(), blocks))
    }

    /// An empty matrix of this shape over a grid, with room for this many entries, spread evenly. The cost is that of one
    /// block for each rank.
    pub fn with_room(
        alloc: Global,
        grid: Grid,
        shape: Shape,
        entries: usize,
    ) -> Result<Self, AllocError>
        ensures { IfOk result (λ m. m ≡ record { side = grid.side; matrix = empty_matrix shape }) }
    {
        prove!(grid.side() <= LARGEST_SIDE);
        let blocks = grid.empty_blocks(alloc, shape, entries)?;
        Ok(Self::from_blocks(grid, shape, blocks))
    }

    /// Stores one more entry, after all the others. A refusal leaves the matrix as it was. Takes constant time, unless a
    /// list grows.
    pub fn push(&mut self, entry: Entry) -> Result<(), AllocError>
        requires inside { IsInside self.old.matrix.shape entry }
        requires order { All (λ e. IsBefore e entry) self.old.matrix.entries }
        requires value { IsValue S.arithmetic entry.value }
        requires not_zero { entry.value ≢ S.arithmetic.zero }
        ensures ok { OnOk result (self.new ≡ record { side = self.old.side; matrix = with_entry self.old.matrix entry }) }
        ensures err { OnErr result (self.new ≡ self.old) }
    {
        prove!(self.shape.rows() <= LIMIT);
        prove!(self.shape.cols() <= LIMIT);
        let (rank, local) = self.grid.in_block(self.shape, entry);
        deliver(&mut self.blocks, rank, local)?;
        self.len += 1;
        Ok(())
    }

    /// The whole matrix, as a copy. The cost is that of the stored entries.
    pub fn gather(&self, alloc: Global) -> Result<Matrix<S>, AllocError>
        ensures { IfOk result (λ m. m ≡ self.now.matrix) }
    {
        gather(alloc, &self.grid, &self.blocks, self.shape)
    }

    /// Its grid.
    pub fn grid(&self) -> Grid
        ensures { result ≡ record { side = self.now.side } }
    {
        self.grid
    }

    /// Its numbers of rows and columns. The contract also says that the stored entries are inside this shape, ascend by
    /// column and then row, and aren't zero.
    pub fn shape(&self) -> Shape
        ensures shape { result ≡ self.now.matrix.shape }
        ensures matrix { IsMatrix S.arithmetic self.now.matrix }
    {
        self.shape
    }

    /// The number of stored entries.
    pub fn len(&self) -> usize
        ensures { result ≡ length self.now.matrix.entries }
    {
        self.len
    }

    /// Whether no entry is stored.
    pub fn is_empty(&self) -> bool
        ensures { IsTrue result ↔ (self.now.matrix.entries ≡ []) }
    {
        self.len == 0
    }

    /// The block of each rank, in the order of their numbers.
    pub fn blocks(&self) -> &[Block<S>]
        ensures count { length result.now ≡ self.now.side * self.now.side }
        ensures blocks { AreBlocksOf S.arithmetic self.now.side self.now.matrix result.now }
    {
        &self.blocks
    }

    /// The block of each rank, by value.
    pub fn into_blocks(self) -> Vec<Block<S>>
        ensures count { length result.items ≡ self.side * self.side }
        ensures blocks { AreBlocksOf S.arithmetic self.side self.matrix result.items }
    {
        self.blocks
    }

    /// The same matrix over another semiring. Its stored values must be nonzero values of that semiring too. No entry is
    /// copied: it takes memory for one block header per rank. If that is refused, the matrix is dropped.
    pub fn recast<T: Semiring>(self, alloc: Global) -> Result<DistributedMatrix<T>, AllocError>
        requires values { All (λ e. IsValue T.arithmetic e.value × (e.value ≢ T.arithmetic.zero)) self.matrix.entries }
        ensures { IfOk result (λ m. m ≡ self) }
    {
        Ok(DistributedMatrix {
            grid: self.grid,
            shape: self.shape,
            len: self.len,
            blocks: recast_blocks(alloc, self.blocks)?,
        })
    }

    /// The stored entries, column by column: for each column the segments in its blocks, from the first row on.
    pub fn segments(&self) -> Segments<'_, S>
        ensures { result ≡ self.now.matrix.entries }
    {
        Segments::over_grid(self.grid, self.shape, &self.blocks)
    }
}

impl<S: Semiring + Send + Sync> DistributedMatrix<S> {
    /// The matrix with the entries of another one of the same grid and shape appended. They must all come after its own.
    /// If memory is refused, both are dropped. The cost is that of one block for each rank, and of the other's entries in
    /// blocks where both have entries. If these are many, blocks get them side by side, from threads of their own.
    pub fn append<R: Threads + Sync>(self, rt: &R, other: Self) -> Result<Self, AllocError>
        requires side { other.side ≡ self.side }
        requires shape { other.matrix.shape ≡ self.matrix.shape }
        requires order { All (λ d. All (IsBefore d) other.matrix.entries) self.matrix.entries }
        ensures { IfOk result (λ m. m ≡ record { side = self.side; matrix = with_entries self.matrix other.matrix.entries }) }
    {
        prove!(self.shape.rows() <= LIMIT);
        prove!(self.shape.cols() <= LIMIT);
        let (mut blocks, mut others) = (self.blocks, other.blocks);
        append_each(rt, &mut blocks, &mut others)?;
        Ok(DistributedMatrix {
            grid: self.grid,
            shape: self.shape,
            len: self.len + other.len,
            blocks,
        })
    }

    /// Frees the matrix, as dropping it does. If it has many entries, each block is freed by a thread of its own.
    pub fn free<R: Threads + Sync>(mut self, rt: &R, alloc: Global) {
        free_blocks(rt, alloc, self.len, &mut self.blocks);
    }
}

/// The fewest entries that are worth a thread.
const LONG: usize = 8_192;

/// Whether a block gets many entries from another one. A block without entries gets none: it takes over the other's lists.
fn gets_many<S: Semiring>(block: &Block<S>, other: &Block<S>) -> bool {
    block.len() != 0 && other.len() >= LONG
}

/// How many of these blocks get many entries.
fn count_of_long<S: Semiring>(blocks: &[Block<S>], others: &[Block<S>]) -> usize {
    let mut count = 0usize;
    for rank in 0..blocks.len().min(others.len()) {
        if gets_many(&blocks[rank], &others[rank]) {
            count = count.saturating_add(1);
        }
    }
    count
}

/// Appends the entries of each of the other blocks to the block of the same rank: by several threads if several blocks get
/// many entries.
fn append_each<S: Semiring + Send + Sync, R: Threads + Sync>(
    rt: &R,
    blocks: &mut Vec<Block<S>>,
    others: &mut Vec<Block<S>>,
) -> Result<(), AllocError>
    requires { MayBeAppended S.arithmetic blocks.old.items others.old.items }
    ensures { OnOk result (AreAppended blocks.old.items others.old.items blocks.new.items) }
{
    if count_of_long(blocks, others) < 2 {
        append_in_turn(blocks, others)
    } else {
        append_apart(rt, blocks, others)
    }
}

/// Appends the entries of each of the other blocks to the block of the same rank, on this thread.
fn append_in_turn<S: Semiring>(
    blocks: &mut Vec<Block<S>>,
    others: &mut Vec<Block<S>>,
) -> Result<(), AllocError>
    requires { MayBeAppended S.arithmetic blocks.old.items others.old.items }
    ensures { OnOk result (AreAppended blocks.old.items others.old.items blocks.new.items) }
{
    for rank in 0..others.len() {
        blocks[rank].append(&mut others[rank])?;
    }
    Ok(())
}

/// Appends the entries of each of the other blocks to the block of the same rank. A block that gets many gets them from a
/// thread of its own; this thread does the others, and waits.
#[cycle(ranks)]
fn append_apart<S: Semiring + Send + Sync, R: Threads + Sync>(
    rt: &R,
    blocks: &mut [Block<S>],
    others: &mut [Block<S>],
) -> Result<(), AllocError>
    requires { MayBeAppended S.arithmetic blocks.old others.old }
    ensures { OnOk result (AreAppended blocks.old others.old blocks.new) }
{
    let Some(last) = blocks.len().checked_sub(1) else {
        return Ok(());
    };
    let (front, back) = blocks.split_at_mut(last);
    let (front_others, back_others) = others.split_at_mut(last);
    append_both(rt, front, front_others, back, back_others)
}

/// The same for the blocks of some ranks and for that of the rank after them.
#[cycle(ranks)]
fn append_both<S: Semiring + Send + Sync, R: Threads + Sync>(
    rt: &R,
    front: &mut [Block<S>],
    front_others: &mut [Block<S>],
    back: &mut [Block<S>],
    back_others: &mut [Block<S>],
) -> Result<(), AllocError>
    requires one { length back.old ≡ 1 }
    requires front { MayBeAppended S.arithmetic front.old front_others.old }
    requires back { MayBeAppended S.arithmetic back.old back_others.old }
    ensures front { OnOk result (AreAppended front.old front_others.old front.new) }
    ensures back { OnOk result (AreAppended back.old back_others.old back.new) }
{
    if count_of_long(back, back_others) == 0 {
        append_first(back, back_others)?;
        return append_apart(rt, front, front_others);
    }
    let mut there = || -> Result<(), AllocError>
        requires { (length back.now ≡ 1) × MayBeAppended S.arithmetic back.now back_others.now }
        ensures { OnOk result (AreAppended back.entry.now back_others.entry.now back.exit.now) }
    { append_first(back, back_others) };
    let mut here = || -> Result<(), AllocError>
        requires { IsSync R.row × MayBeAppended S.arithmetic front.now front_others.now }
        ensures { OnOk result (AreAppended front.entry.now front_others.entry.now front.exit.now) }
    { append_apart(rt, front, front_others) };
    let (there, here) = join_mut(rt, &mut there, &mut here);
    there?;
    here
}

/// Appends the entries of the only other block to the only block.
fn append_first<S: Semiring>(
    blocks: &mut [Block<S>],
    others: &mut [Block<S>],
) -> Result<(), AllocError>
    requires one { length blocks.old ≡ 1 }
    requires fits { MayBeAppended S.arithmetic blocks.old others.old }
    ensures { OnOk result (AreAppended blocks.old others.old blocks.new) }
{
    blocks[0].append(&mut others[0])
}

/// The same blocks over another semiring. Their stored values must be nonzero values of that semiring too.
pub(crate) fn recast_blocks<S: Semiring, T: Semiring>(
    alloc: Global,
    blocks: Vec<Block<S>>,
) -> Result<Vec<Block<T>>, AllocError>
    requires { All (λ b. All (λ e. IsValue T.arithmetic e.value × (e.value ≢ T.arithmetic.zero)) b.entries) blocks.items }
    ensures { IfOk result (λ v. v.items ≡ blocks.items) }
{
    let mut recast = Vec::with_capacity(alloc, blocks.len())?;
    for block in blocks {
        recast.push_reserved(block.recast());
    }
    Ok(recast)
}
