//! Some columns of a part of a matrix, and of a matrix with a part in it.
ghost use Rattle.std.specs.Prelude.{◌≡◌, IfOk};
ghost use Rattle.cb_matrix.specs.Operations.{cut};
ghost use Rattle.cb_operations.specs.SelectionAnswers.{FitsAt, IsPartOf, assigned};
ghost use Rattle.cb_shares.specs.Shares.{panel};

use crate::columns::{columns_between, only_panel};
use cb_dcsc::Block;
use cb_layout::PanelledMatrix;
use cb_reshape::cut;
use cb_selections::assign;
use cb_semirings::Semiring;
use std::alloc::{AllocError, Global};

/// Some columns of a part: the part of these columns of the matrix. Nothing is copied before all columns of a part are, if the
/// matrix is in one panel.
pub(crate) fn part_columns<S: Semiring>(
    alloc: Global,
    matrix: &PanelledMatrix<S>,
    rows: (u32, u32),
    cols: (u32, u32),
    first: u32,
    end: u32,
) -> Result<Block<S>, AllocError>
    requires { IsPartOf rows cols matrix.now.shape }
    ensures { IfOk result (λ m. m ≡ panel (cut S.arithmetic rows cols matrix.now) first end) }
{
    let wide = cols.1 - cols.0;
    if first == 0 && wide <= end {
        if let Some(block) = only_panel(matrix) {
            prove_eq!(block.shape(), block.shape());
            return cut(alloc, block, rows, cols);
        }
    }
    let (low, high) = (cols.0 + first.min(wide), cols.0 + end.min(wide));
    let columns = columns_between(alloc, matrix, low, high)?;
    cut(alloc, columns.block(), rows, cols)
}

/// Some columns of a matrix with a part in it: these columns of both.
pub(crate) fn assigned_columns<S: Semiring>(
    alloc: Global,
    matrix: &PanelledMatrix<S>,
    corner: (u32, u32),
    part: &PanelledMatrix<S>,
    first: u32,
    end: u32,
) -> Result<Block<S>, AllocError>
    requires { FitsAt corner part.now.shape matrix.now.shape }
    ensures { IfOk result (λ m. m ≡ panel (assigned S.arithmetic corner part.now matrix.now) first end) }
{
    let (low, high) = (first.saturating_sub(corner.1), end.saturating_sub(corner.1));
    let outer = columns_between(alloc, matrix, first, end)?;
    let inner = columns_between(alloc, part, low, high)?;
    assign(alloc, outer.block(), corner, inner.block())
}
