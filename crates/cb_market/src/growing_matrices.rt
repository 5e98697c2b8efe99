//! A matrix over a grid that grows entry by entry.
ghost use Rattle.std.specs.Prelude.{◌≡◌, ◌≢◌, All, IfOk, OnOk, OnErr};
ghost use Rattle.cb_semirings.specs.Arithmetic.{IsValue};
ghost use Rattle.cb_matrix.specs.Sparse.{IsInside, IsBefore, IsMatrix};
ghost use Rattle.cb_matrix.specs.Values.{empty_matrix};
ghost use Rattle.cb_dcsc.specs.Columns.{with_entry};

use cb_dcsc::Block;
use cb_layout::{DistributedMatrix, Grid};
use cb_matrix::{Entry, Shape};
use cb_semirings::Semiring;
use std::alloc::{AllocError, Global};
use std::marker::Model;

/// A matrix over a grid to which entries are added one after another. On the grid of one rank its block stands by itself, so
/// that no rank is looked up for an entry.
#[derive(Drop)]
pub struct GrowingMatrix<S: Semiring> {
    held: Held<S>,
}

/// The block of the only rank, or those of a grid.
#[derive(Drop)]
enum Held<S: Semiring> {
    One(Block<S>),
    Each(DistributedMatrix<S>),
}

impl<S: Semiring> Model for GrowingMatrix<S> {
    ghost use Rattle.cb_layout.specs.Distributed.{Distributed};
    ghost use Rattle.cb_market.specs.GrowingMatrices.{distributed};

    ghost Value = { Distributed };

    ghost view = { λ m. distributed m.held };
}

/// Copies entries to a list with room for this many.
fn copied(alloc: Global, entries: &[Entry], room: usize) -> Result<Vec<Entry>, AllocError>
    ensures { IfOk result (λ v. v.items ≡ entries.now) }
{
    let mut list = Vec::with_capacity(alloc, room)?;
    list.extend_from_slice(entries)?;
    Ok(list)
}

impl<S: Semiring> GrowingMatrix<S> {
    /// An empty matrix of this shape over a grid, with room for this many entries.
    pub fn with_room(
        alloc: Global,
        grid: Grid,
        shape: Shape,
        entries: usize,
    ) -> Result<Self, AllocError>
        ensures { IfOk result (λ m. m ≡ record { side = grid.side; matrix = empty_matrix shape }) }
    {
        if grid.side() == 1 {
            let mut block = Block::empty(alloc, shape);
            block.reserve(entries)?;
            return Ok(GrowingMatrix {
                held: Held::One(block),
            });
        }
        let blocks = DistributedMatrix::with_room(alloc, grid, shape, entries)?;
        Ok(GrowingMatrix::of(blocks))
    }

    /// A matrix over a grid.
    pub fn of(blocks: DistributedMatrix<S>) -> Self
        ensures { result ≡ blocks }
    {
        GrowingMatrix {
            held: Held::Each(blocks),
        }
    }

    /// Stores one more entry, after all the others. If memory is refused, the matrix stays as it was.
    #[inline(always)]
    pub fn push(&mut self, entry: Entry) -> Result<(), AllocError>
        requires inside { IsInside self.old.matrix.shape entry }
        requires order { All (λ e. IsBefore e entry) self.old.matrix.entries }
        requires value { IsValue S.arithmetic entry.value }
        requires not_zero { entry.value ≢ S.arithmetic.zero }
        ensures ok { OnOk result (self.new ≡ record { side = self.old.side; matrix = with_entry self.old.matrix entry }) }
        ensures err { OnErr result (self.new ≡ self.old) }
    {
        match &mut self.held {
            Held::One(block) => block.push(entry),
            Held::Each(blocks) => blocks.push(entry),
        }
    }

    /// Its grid.
    pub fn grid(&self) -> Grid
        ensures { result ≡ record { side = self.now.side } }
    {
        match &self.held {
            Held::One(_block) => Grid::single(),
            Held::Each(blocks) => blocks.grid(),
        }
    }

    /// Its shape. The contract also says that the stored entries are inside it, ascend by column and then row, and aren't
    /// zero.
    pub fn shape(&self) -> Shape
        ensures shape { result ≡ self.now.matrix.shape }
        ensures matrix { IsMatrix S.arithmetic self.now.matrix }
    {
        match &self.held {
            Held::One(block) => block.shape(),
            Held::Each(blocks) => blocks.shape(),
        }
    }

    /// Its entries, in a list with room for this many.
    pub fn list(&self, alloc: Global, room: usize) -> Result<Vec<Entry>, AllocError>
        ensures { IfOk result (λ v. v.items ≡ self.now.matrix.entries) }
    {
        match &self.held {
            Held::One(block) => {
                let entries = block.entries()?;
                copied(alloc, &entries, room)
            }
            Held::Each(blocks) => {
                let matrix = blocks.gather(alloc)?;
                copied(alloc, matrix.entries(), room)
            }
        }
    }

    /// The matrix in its blocks. No entry is copied. If memory for the list of blocks is refused, it is dropped.
    pub fn into_blocks(self, alloc: Global) -> Result<DistributedMatrix<S>, AllocError>
        ensures { IfOk result (λ m. m ≡ self) }
    {
        match self.held {
            Held::One(block) => DistributedMatrix::from_block(alloc, block),
            Held::Each(blocks) => Ok(blocks),
        }
    }
}
