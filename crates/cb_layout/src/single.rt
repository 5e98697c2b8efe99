//! Matrices over the grid of one rank: the only block is the whole matrix.
ghost use Rattle.std.specs.Prelude.{◌≡◌, IfOk};

use crate::DistributedMatrix;
use cb_dcsc::Block;
use cb_grid::Grid;
use cb_semirings::Semiring;
use std::alloc::{AllocError, Global};

impl<S: Semiring> DistributedMatrix<S> {
    /// This block, as a matrix over the grid of one rank. No entry is copied.
    pub fn from_block(alloc: Global, block: Block<S>) -> Result<Self, AllocError>
        ensures { IfOk result (λ m. m ≡ record { side = 1; matrix = block }) }
    {
        let shape = block.shape();
        let blocks = vec![in alloc; block]?;
        Ok(DistributedMatrix::from_blocks(Grid::single(), shape, blocks))
    }

    /// The only block of a matrix over the grid of one rank. No entry is copied.
    pub fn into_block(self) -> Block<S>
        requires { self.side ≡ 1 }
        ensures { result ≡ self.matrix }
    {
        let shape = self.shape();
        let mut blocks = self.into_blocks();
        let block = blocks.remove(0);
        prove_eq!(block.shape(), shape);
        block
    }
}
