//! What a kept matrix has: its shape, its number of entries, and the value at a place.
ghost use Rattle.std.specs.Prelude.{◌≡◌};
ghost use Rattle.cb_semirings.specs.Names.{arithmetic_of};
ghost use Rattle.cb_matrix.specs.Sparse.{at};
ghost use Rattle.cb_kept.specs.Kept.{semiring_of, matrix_in};
ghost use Rattle.cb_kept.specs.KeptAnswers.{IsSummary};

use crate::kept::Kept;
use crate::of_matrix;

/// What a kept matrix is, without its entries.
#[repr(C)]
#[derive(Clone, Copy)]
pub struct Summary {
    /// How many rows it has.
    pub nrows: u32,
    /// How many columns it has.
    pub ncols: u32,
    /// The number of its semiring.
    pub semiring: u32,
    /// How many entries it has.
    pub entries: u64,
}

/// Returns the shape of a kept matrix, its semiring and its number of entries.
pub fn summary_of(kept: &Kept) -> Summary
    ensures { IsSummary kept.now result }
{
    let shape = kept.shape();
    Summary {
        nrows: shape.rows(),
        ncols: shape.cols(),
        semiring: kept.number(),
        entries: kept.len() as u64,
    }
}

/// Returns the value of a kept matrix at a place: the semiring's zero if the place has no entry or is outside the shape.
/// Costs two binary searches for each panel.
#[tactic(auto, unfolding(crate::specs::Kept::semiring_of, crate::specs::Kept::matrix_in))]
pub fn value_at(kept: &Kept, row: u32, column: u32) -> u64
    ensures { result ≡ at (arithmetic_of (semiring_of kept.now)) (matrix_in kept.now) row column }
{
    of_matrix!(kept, matrix => matrix.get(row, column))
}
