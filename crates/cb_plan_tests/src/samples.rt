//! How the tests write entries and matrices.
ghost use Rattle.std.specs.Prelude.{◌≡◌, IfOk};

use cb_layout::Grid;
use cb_matrix::{Entry, Matrix};
use cb_samples::{SampleFault, block};
use cb_semirings::PlusTimes;
use std::alloc::Global;

/// The rows, columns and entries of a matrix, by column and then by row.
pub(crate) type Given<'a> = (u32, u32, &'a [Entry]);

/// The matrix of these entries.
pub(crate) fn matrix(alloc: Global, given: &Given<'_>) -> Result<Matrix<PlusTimes>, SampleFault> {
    let (rows, cols, entries) = given;
    let block = block::<PlusTimes>(alloc, *rows, *cols, entries)?;
    let shape = block.shape();
    Ok(Matrix::from_ordered(shape, block.entries()?))
}

/// The grid of this side, or the fault of a shape if there is none.
pub(crate) fn grid_of(side: u32) -> Result<Grid, SampleFault>
    ensures { IfOk result (λ g. g.side ≡ side) }
{
    Grid::new(side).map_err(|_| SampleFault::Shape)
}
