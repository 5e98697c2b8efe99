//! A square grid of ranks, and how a matrix is cut over it.
//!
//! A grid of side q has q times q ranks; the one in row i and column j has the number i*q + j. A dimension of d places
//! is cut into q parts of `d.div_ceil(q)` places each; the last parts may have fewer, or none. Rank (i, j) keeps the
//! block of a matrix in row part i and column part j, with places counted from the block's corner. [`Grid::scatter`]
//! cuts a matrix into these blocks.
//!
//! The grid is the two-dimensional distribution of Buluç and Gilbert, The Combinatorial BLAS (IJHPCA 2011).
#![tactic(auto)]

ghost use Rattle.std.specs.Prelude.{◌≡◌, ◌↔◌, ℕ, ◌<◌, ◌≤◌, ◌+◌, ◌*◌, List, [], ◌∷◌, ◌++◌, length, min, IsOk, IfOk};

mod scatter;

pub use scatter::deliver;
use smallvec::SmallVec;
use std::alloc::Global;
use std::marker::Model;
use thiserror::Error;

/// The greatest side of a grid.
pub const LARGEST_SIDE: u32 = 64;

/// A grid can't have this side: it isn't from 1 to 64.
#[derive(Clone, Copy, Debug, PartialEq, Eq, Error)]
#[error("a grid has a side of 1 to 64")]
pub struct Side;

/// A square grid of ranks, of side 1 to 64.
#[derive(Clone, Copy, Debug, PartialEq, Eq)]
pub struct Grid {
    side: u32,
}

impl Model for Grid {
    ghost use Rattle.std.specs.Prelude.{◌≤◌};
    ghost use Rattle.cb_grid.specs.Parts.{Square};
    ghost use Rattle.cb_grid.specs.declared.TheConstants.{LARGEST_SIDE};

    ghost Value = { Square };

    ghost view = { λ a. record { side = a.side } };

    ghost invariant = { λ a. (1 ≤ a.side) × (a.side ≤ LARGEST_SIDE) };

    ghost inverse = { λ g. record { side = g.side } };
}

impl Grid {
    ghost use Rattle.cb_grid.specs.Parts.{row_group, column_group, part_start};
    ghost use Rattle.std.specs.Int.{div_ceil};

    /// The grid of this side, which must be from 1 to 64.
    pub fn new(q: u32) -> Result<Grid, Side>
        ensures ok { IsOk result ↔ ((1 ≤ q) × (q ≤ LARGEST_SIDE)) }
        ensures side { IfOk result (λ grid. grid.side ≡ q) }
    {
        if (1..=LARGEST_SIDE).contains(&q) {
            Ok(Grid { side: q })
        } else {
            Err(Side)
        }
    }

    /// The grid of one rank.
    pub fn single() -> Grid
        ensures { result ≡ record { side = 1 } }
    {
        Grid { side: 1 }
    }

    /// The number of rows of ranks, and of columns.
    pub fn side(&self) -> u32
        ensures value { result ≡ self.now.side }
        ensures some { 1 ≤ result }
        ensures limit { result ≤ LARGEST_SIDE }
    {
        self.side
    }

    /// The number of ranks.
    pub fn ranks(&self) -> u16
        ensures value { result ≡ self.now.side * self.now.side }
        ensures some { 1 ≤ result }
        ensures limit { result ≤ LARGEST_SIDE * LARGEST_SIDE }
    {
        (self.side * self.side) as u16
    }

    /// The number of the rank in row i and column j.
    pub fn rank(&self, i: u32, j: u32) -> u16
        requires row { i < self.now.side }
        requires column { j < self.now.side }
        ensures { result ≡ i * self.now.side + j }
    {
        (i * self.side + j) as u16
    }

    /// The ranks of a row, ascending, stored inline without an allocation.
    pub fn row_group(&self, alloc: Global, row: u32) -> SmallVec<u16, 64>
        requires { row < self.now.side }
        ensures { result.items ≡ row_group self.now.side row }
    {
        let mut group = SmallVec::new(alloc);
        for j in 0..self.side() {
            group.push_reserved(self.rank(row, j));
        }
        group
    }

    /// The ranks of a column, ascending, stored inline without an allocation.
    pub fn column_group(&self, alloc: Global, column: u32) -> SmallVec<u16, 64>
        requires { column < self.now.side }
        ensures { result.items ≡ column_group self.now.side column }
    {
        let mut group = SmallVec::new(alloc);
        for i in 0..self.side() {
            group.push_reserved(self.rank(i, column));
        }
        group
    }

    /// The places of part i of a dimension of d places: the first, and the one after the last. Takes constant time.
    pub fn range(&self, d: u32, i: u32) -> (u32, u32)
        requires { i < self.now.side }
        ensures start { result.0 ≡ part_start self.now.side d i }
        ensures end { result.1 ≡ part_start self.now.side d (i + 1) }
    {
        let length = d.div_ceil(self.side);
        (start(length, d, i), start(length, d, i + 1))
    }
}

/// Where part i of a dimension of d places begins, if the parts have this length.
fn start(length: u32, d: u32, i: u32) -> u32
    ensures { result ≡ min (i * length) d }
{
    let start = u64::from(i) * u64::from(length);
    start.min(u64::from(d)) as u32
}
