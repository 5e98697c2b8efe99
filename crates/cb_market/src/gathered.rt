//! The entries of a text, as they are read.
ghost use Rattle.std.specs.Prelude.{◌≡◌, ◌+◌, ◌*◌, ◌^◌, ◌++◌, [], ◌∷◌, All, IfOk, OnOk, OnErr};
ghost use Rattle.cb_semirings.specs.Arithmetic.{IsValue};
ghost use Rattle.cb_matrix.specs.Sparse.{IsInside};
ghost use Rattle.cb_matrix.specs.Values.{collected};
ghost use Rattle.cb_market.specs.Gathered.{place_number, AreSamePlaces};

use crate::growing_matrices::GrowingMatrix;
use cb_layout::{DistributedMatrix, Grid};
use cb_matrix::{Entry, Matrix, Shape, in_order};
use cb_semirings::Semiring;
use std::alloc::{AllocError, Global};
use std::marker::Model;
use std::thread::Threads;

/// The entries of a text. They are in the blocks of a grid as long as they ascend by column and then row and none is
/// zero, and otherwise in a list.
#[derive(Drop)]
pub struct Gathered<S: Semiring> {
    blocks: GrowingMatrix<S>,
    list: Vec<Entry>,
    /// Whether all entries are in the blocks; otherwise all are in the list.
    ascends: bool,
    /// At most the number of each place in the blocks.
    first: u64,
    /// Above the number of each place in the blocks.
    bound: u64,
    /// The number of entries to take room for.
    room: usize,
}

impl<S: Semiring> Model for Gathered<S> {
    ghost use Rattle.std.specs.Prelude.{◌++◌};
    ghost use Rattle.cb_market.specs.Gathered.{Listed, IsGathered};

    ghost Value = { Listed };

    ghost view = { λ a. record { side = a.blocks.side; shape = a.blocks.matrix.shape; room = a.room; entries = a.blocks.matrix.entries ++ a.list.items } };

    ghost invariant = { λ a. IsGathered S.arithmetic a.blocks.matrix a.list.items a.ascends a.first a.bound };
}

/// Returns the number of a place: places are ordered by column and then by row.
fn place_number(entry: Entry) -> u64
    ensures { result ≡ place_number entry }
{
    u64::from(entry.column) * (1 << 32) + u64::from(entry.row)
}

/// Copies the entries of a matrix over a grid to a list with room for this many.
fn in_list<S: Semiring>(
    alloc: Global,
    blocks: &GrowingMatrix<S>,
    room: usize,
) -> Result<Vec<Entry>, AllocError>
    ensures entries { IfOk result (λ v. v.items ≡ blocks.now.matrix.entries) }
    ensures inside { IfOk result (λ v. All (IsInside blocks.now.matrix.shape) v.items) }
    ensures values { IfOk result (λ v. All (λ e. IsValue S.arithmetic e.value) v.items) }
{
    let _shape = blocks.shape();
    blocks.list(alloc, room)
}

/// The same, with one more entry at the end.
fn listed<S: Semiring>(
    alloc: Global,
    blocks: &GrowingMatrix<S>,
    room: usize,
    last: Entry,
) -> Result<Vec<Entry>, AllocError>
    requires inside { IsInside blocks.now.matrix.shape last }
    requires value { IsValue S.arithmetic last.value }
    ensures entries { IfOk result (λ v. v.items ≡ blocks.now.matrix.entries ++ last ∷ []) }
    ensures inside { IfOk result (λ v. All (IsInside blocks.now.matrix.shape) v.items) }
    ensures values { IfOk result (λ v. All (λ e. IsValue S.arithmetic e.value) v.items) }
{
    let mut list = in_list(alloc, blocks, room)?;
    list.push(last)?;
    Ok(list)
}

/// Moves the entries of a matrix over a grid to a list, with one more entry at the end.
fn move_to_list<S: Semiring>(
    alloc: Global,
    blocks: &mut GrowingMatrix<S>,
    room: usize,
    last: Entry,
) -> Result<Vec<Entry>, AllocError>
    requires inside { IsInside blocks.old.matrix.shape last }
    requires value { IsValue S.arithmetic last.value }
    ensures entries { IfOk result (λ v. v.items ≡ blocks.old.matrix.entries ++ last ∷ []) }
    ensures inside { IfOk result (λ v. All (IsInside blocks.old.matrix.shape) v.items) }
    ensures values { IfOk result (λ v. All (λ e. IsValue S.arithmetic e.value) v.items) }
    ensures side { blocks.new.side ≡ blocks.old.side }
    ensures shape { blocks.new.matrix.shape ≡ blocks.old.matrix.shape }
    ensures moved { OnOk result (blocks.new.matrix.entries ≡ []) }
    ensures kept { OnErr result (blocks.new ≡ blocks.old) }
{
    let list = listed(alloc, blocks, room, last)?;
    *blocks = GrowingMatrix::with_room(alloc, blocks.grid(), blocks.shape(), 0)?;
    Ok(list)
}

impl<S: Semiring> Gathered<S> {
    /// Starts without entries, in the blocks of a grid, and takes room for this many.
    pub fn start(alloc: Global, grid: Grid, shape: Shape, room: usize) -> Result<Self, AllocError>
        ensures { IfOk result (λ g. g ≡ record { side = grid.side; shape = shape; room = room; entries = [] }) }
    {
        let blocks = GrowingMatrix::with_room(alloc, grid, shape, room)?;
        Ok(Gathered {
            blocks,
            list: Vec::new(alloc),
            ascends: true,
            first: u64::MAX,
            bound: 0,
            room,
        })
    }

    /// Appends an entry. If memory is refused, nothing changes. It takes constant time, except when lists grow, and except
    /// for the entry that ends the ascent, which moves all others to the list.
    pub fn push(&mut self, alloc: Global, entry: Entry) -> Result<(), AllocError>
        requires inside { IsInside self.old.shape entry }
        requires value { IsValue S.arithmetic entry.value }
        ensures entries { OnOk result (self.new.entries ≡ self.old.entries ++ entry ∷ []) }
        ensures err { OnErr result (self.new ≡ self.old) }
        ensures side { self.new.side ≡ self.old.side }
        ensures shape { self.new.shape ≡ self.old.shape }
        ensures room { self.new.room ≡ self.old.room }
    {
        if !self.ascends {
            self.list.push(entry)?;
            return Ok(());
        }
        let place = place_number(entry);
        if self.bound <= place && entry.value != S::zero() {
            prove!(entry.column < self.blocks.shape().cols());
            self.blocks.push(entry)?;
            self.first = self.first.min(place);
            self.bound = place + 1;
            return Ok(());
        }
        self.list = move_to_list(alloc, &mut self.blocks, self.room, entry)?;
        self.ascends = false;
        Ok(())
    }

    /// The same, to a list.
    fn append_list(self, alloc: Global, other: Self) -> Result<Self, AllocError>
        requires shape { other.shape ≡ self.shape }
        ensures entries { IfOk result (λ g. g.entries ≡ self.entries ++ other.entries) }
        ensures side { IfOk result (λ g. g.side ≡ self.side) }
        ensures shape { IfOk result (λ g. g.shape ≡ self.shape) }
    {
        let room = self.room;
        let (grid, shape) = (self.blocks.grid(), self.blocks.shape());
        let mut list = self.into_list(alloc, room)?;
        let others = other.into_list(alloc, 0)?;
        list.extend_from_slice(&others)?;
        let blocks = GrowingMatrix::with_room(alloc, grid, shape, 0)?;
        Ok(Gathered {
            blocks,
            list,
            ascends: false,
            first: u64::MAX,
            bound: 0,
            room,
        })
    }

    /// Sorts the entries by column and then by row if they are in a list. Entries of one place keep their order.
    pub fn sorted(self) -> Result<Self, AllocError>
        ensures places { IfOk result (λ g. AreSamePlaces g.entries self.entries) }
        ensures side { IfOk result (λ g. g.side ≡ self.side) }
        ensures shape { IfOk result (λ g. g.shape ≡ self.shape) }
    {
        if self.ascends {
            return Ok(self);
        }
        let list = in_order(self.list)?;
        Ok(Gathered {
            blocks: self.blocks,
            list,
            ascends: false,
            first: self.first,
            bound: self.bound,
            room: self.room,
        })
    }

    /// Returns all entries in a list. If they are in blocks, the list is made with room for this many.
    fn into_list(self, alloc: Global, room: usize) -> Result<Vec<Entry>, AllocError>
        ensures entries { IfOk result (λ v. v.items ≡ self.entries) }
        ensures inside { IfOk result (λ v. All (IsInside self.shape) v.items) }
        ensures values { IfOk result (λ v. All (λ e. IsValue S.arithmetic e.value) v.items) }
    {
        if self.ascends {
            in_list(alloc, &self.blocks, room)
        } else {
            Ok(self.list)
        }
    }

    /// Adds up the entries of each place, and returns the matrix in the blocks of the grid.
    pub fn into_blocks(self, alloc: Global) -> Result<DistributedMatrix<S>, AllocError>
        ensures { IfOk result (λ m. m ≡ record { side = self.side; matrix = collected S.arithmetic self.shape self.entries }) }
    {
        let shape = self.blocks.shape();
        if self.ascends {
            return self.blocks.into_blocks(alloc);
        }
        let grid = self.blocks.grid();
        let matrix = Matrix::collect(shape, self.list)?;
        DistributedMatrix::scatter(alloc, grid, &matrix)
    }
}

impl<S: Semiring + Send + Sync> Gathered<S> {
    /// Appends all entries of another. They stay in blocks if both are in blocks and the other's come after these. If
    /// memory is refused, both are dropped. The cost is proportional to the other's entries, or to all entries if they
    /// don't ascend. Many entries in blocks are appended by several threads.
    pub fn append<R: Threads + Sync>(
        self,
        rt: &R,
        alloc: Global,
        other: Self,
    ) -> Result<Self, AllocError>
        requires side { other.side ≡ self.side }
        requires shape { other.shape ≡ self.shape }
        ensures entries { IfOk result (λ g. g.entries ≡ self.entries ++ other.entries) }
        ensures side { IfOk result (λ g. g.side ≡ self.side) }
        ensures shape { IfOk result (λ g. g.shape ≡ self.shape) }
    {
        if !self.ascends || !other.ascends || self.bound > other.first {
            return self.append_list(alloc, other);
        }
        let shape = self.blocks.shape();
        prove_eq!(other.blocks.shape(), shape);
        let first = self.first.min(other.first);
        let bound = self.bound.max(other.bound);
        let own = self.blocks.into_blocks(alloc)?;
        let others = other.blocks.into_blocks(alloc)?;
        let blocks = own.append(rt, others)?;
        Ok(Gathered {
            blocks: GrowingMatrix::of(blocks),
            list: self.list,
            ascends: true,
            first,
            bound,
            room: self.room,
        })
    }
}
