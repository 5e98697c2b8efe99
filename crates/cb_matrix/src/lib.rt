//! Sparse matrices over a semiring: a shape, and the entries that are stored.
//!
//! A place without a stored entry has the semiring's zero. The stored entries are inside the shape, aren't zero, and
//! ascend by column and then by row. So no two share a place, and two matrices of one shape with the same value at each
//! place are equal. Every call works on stored entries alone: a matrix of side 2,147,483,647 with one entry costs what
//! one entry costs.
//!
//! In contracts a matrix is its shape and its list of stored entries (`specs/Sparse.antt`). The result of a call is
//! defined place by place (`specs/Values.antt`, `specs/Operations.antt`): `matrix_of` turns a function of row and column
//! into the matrix that has its values.
//!
//! A matrix is built from entries in any order; values at the same place are added up. The product of two matrices is
//! computed here entry by entry, as a reference for faster kernels.
#![tactic(auto)]

ghost use Rattle.std.specs.Prelude.{◌≡◌, ◌↔◌, IsTrue, ◌<◌, ◌≤◌, [], length, IfOk, IfSome, IsSome, slice_index_or};
ghost use Rattle.cb_semirings.specs.Arithmetic.{IsValue};

mod collect;
mod ordered;
mod passing;

use cb_semirings::Semiring;
pub use collect::in_order;
pub use passing::Test;
use std::alloc::{AllocError, Global};
use std::marker::{Model, PhantomData};
use thiserror::Error;

/// The most rows, and the most columns, that a matrix may have: 2^31 - 1.
pub const LIMIT: u32 = 2_147_483_647;

/// A value at a place. Rows and columns count from 0.
#[derive(Clone, Copy, Debug, PartialEq, Eq)]
pub struct Entry {
    pub row: u32,
    pub column: u32,
    pub value: u64,
}

/// How many rows and how many columns, each at most `LIMIT`.
#[derive(Clone, Copy, Debug, PartialEq, Eq)]
pub struct Shape {
    rows: u32,
    cols: u32,
}

impl Model for Shape {
    ghost use Rattle.std.specs.Prelude.{◌≤◌};
    ghost use Rattle.cb_matrix.specs.Sparse.{Extent};
    ghost use Rattle.cb_matrix.specs.declared.TheConstants.{LIMIT};

    ghost Value = { Extent };

    ghost view = { λ a. record { rows = a.rows; cols = a.cols } };

    ghost invariant = { λ a. (a.rows ≤ LIMIT) × (a.cols ≤ LIMIT) };

    ghost inverse = { λ d. record { rows = d.rows; cols = d.cols } };
}

impl Shape {
    /// The shape with this many rows and columns, or None if either is above the limit.
    pub fn new(rows: u32, cols: u32) -> Option<Shape>
        ensures some { IsSome result ↔ ((rows ≤ LIMIT) × (cols ≤ LIMIT)) }
        ensures value { IfSome result (λ s. (s.rows ≡ rows) × (s.cols ≡ cols)) }
    {
        if rows <= LIMIT && cols <= LIMIT {
            Some(Shape { rows, cols })
        } else {
            None
        }
    }

    /// How many rows there are.
    pub fn rows(&self) -> u32
        ensures value { result ≡ self.now.rows }
        ensures limit { result ≤ LIMIT }
    {
        self.rows
    }

    /// How many columns there are.
    pub fn cols(&self) -> u32
        ensures value { result ≡ self.now.cols }
        ensures limit { result ≤ LIMIT }
    {
        self.cols
    }

    /// The rows of this shape and the columns of another: the shape of the product of two matrices of these shapes.
    pub fn with_columns_of(&self, other: Shape) -> Shape
        ensures { result ≡ record { rows = self.now.rows; cols = other.cols } }
    {
        Shape {
            rows: self.rows,
            cols: other.cols,
        }
    }
}

/// A matrix over the semiring `S`. Zeros aren't stored.
#[derive(Drop)]
pub struct Matrix<S: Semiring> {
    shape: Shape,
    entries: Vec<Entry>,
    semiring: PhantomData<S>,
}

impl<S: Semiring> Model for Matrix<S> {
    ghost use Rattle.cb_matrix.specs.Sparse.{Sparse, IsMatrix};

    ghost Value = { Sparse };

    ghost view = { λ a. record { shape = a.shape; entries = a.entries.items } };

    ghost invariant = { λ a. IsMatrix S.arithmetic (record { shape = a.shape; entries = a.entries.items }) };
}

impl<S: Semiring> Matrix<S> {
    ghost use Rattle.cb_matrix.specs.Sparse.{Sparse, IsMatrix, at};
    ghost use Rattle.cb_matrix.specs.Values.{empty_matrix};

    /// The matrix without entries. It takes no memory.
    pub fn empty(alloc: Global, shape: Shape) -> Self
        ensures { result ≡ empty_matrix shape }
    {
        let entries = Vec::new(alloc);
        Matrix {
            shape,
            entries,
            semiring: PhantomData,
        }
    }

    /// How many rows and columns there are. The contract also says that the stored entries are inside them, ascend by
    /// column and then row, and aren't zero.
    pub fn shape(&self) -> Shape
        ensures shape { result ≡ self.now.shape }
        ensures matrix { IsMatrix S.arithmetic self.now }
    {
        self.shape
    }

    /// How many rows there are.
    pub fn rows(&self) -> u32
        ensures { result ≡ self.now.shape.rows }
    {
        self.shape.rows()
    }

    /// How many columns there are.
    pub fn cols(&self) -> u32
        ensures { result ≡ self.now.shape.cols }
    {
        self.shape.cols()
    }

    /// How many entries are stored.
    pub fn len(&self) -> usize
        ensures { result ≡ length self.now.entries }
    {
        self.entries.len()
    }

    /// Whether no entry is stored.
    pub fn is_empty(&self) -> bool
        ensures { IsTrue result ↔ (self.now.entries ≡ []) }
    {
        self.entries.is_empty()
    }

    /// The value at a place inside the shape: that of the entry stored there, or zero. Costs O(log n) comparisons for n
    /// stored entries.
    pub fn get(&self, row: u32, column: u32) -> u64
        requires row_inside { row < self.now.shape.rows }
        requires column_inside { column < self.now.shape.cols }
        ensures value { result ≡ at S.arithmetic self.now row column }
        ensures is_value { IsValue S.arithmetic result }
    {
        let place = (column, row);
        match self
            .entries
            .binary_search_by_key(&place, |entry| (entry.column, entry.row))
        {
            Ok(found) => self.entries[found].value,
            Err(_) => S::zero(),
        }
    }

    /// The stored entries, by column and then by row.
    pub fn entries(&self) -> &[Entry]
        ensures { result.now ≡ self.now.entries }
    {
        self.entries.as_slice()
    }

    /// The stored entry with an index below `len`, counted by column and then by row.
    pub fn entry_at(&self, index: usize) -> Entry
        requires { index < length self.now.entries }
        ensures { result ≡ slice_index_or self.now.entries index result }
    {
        self.entries[index]
    }

    /// A copy. Fails only if memory for its entries is refused.
    pub fn try_clone(&self) -> Result<Self, AllocError>
        ensures { IfOk result (λ copy. copy ≡ self.now) }
    {
        Ok(Matrix {
            shape: self.shape,
            entries: Vec::from_slice(*self.entries.allocator(), &self.entries)?,
            semiring: PhantomData,
        })
    }
}

/// Why entries don't form a matrix. Places are checked before memory is requested.
#[derive(Clone, Copy, Debug, PartialEq, Eq, Error)]
pub enum EntryFault {
    /// The entry with this index is the first outside the shape.
    #[error("entry {0} is outside the shape")]
    Place(usize),
    /// Memory was refused.
    #[error("out of memory")]
    Memory,
}

impl From<AllocError> for EntryFault {
    ghost use Rattle.cb_matrix.specs.declared.EntryFault.TheVariants.{Memory};

    ghost from_gives = { λ _ fault. fault ≡ Memory };

    fn from(_error: AllocError) -> EntryFault {
        EntryFault::Memory
    }
}

/// Why two matrices have no product. Shapes are checked before memory is requested.
#[derive(Clone, Copy, Debug, PartialEq, Eq, Error)]
pub enum ProductFault {
    /// The first doesn't have as many columns as the second has rows.
    #[error("shapes don't agree")]
    Shapes,
    /// Memory was refused.
    #[error("out of memory")]
    Memory,
}

impl From<AllocError> for ProductFault {
    ghost use Rattle.cb_matrix.specs.declared.ProductFault.TheVariants.{Memory};

    ghost from_gives = { λ _ fault. fault ≡ Memory };

    fn from(_error: AllocError) -> ProductFault {
        ProductFault::Memory
    }
}
