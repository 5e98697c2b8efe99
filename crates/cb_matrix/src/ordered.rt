//! A matrix from its stored entries, in order.
ghost use Rattle.std.specs.Prelude.{◌≡◌};
ghost use Rattle.cb_matrix.specs.Sparse.{IsMatrix};

use crate::{Entry, Matrix, Shape};
use cb_semirings::Semiring;
use std::marker::PhantomData;

impl<S: Semiring> Matrix<S> {
    /// The matrix with these stored entries, which are inside the shape, ascend by column and then by row, and aren't
    /// zero. The list is consumed: no entry is copied or read.
    pub fn from_ordered(shape: Shape, entries: Vec<Entry>) -> Self
        requires { IsMatrix S.arithmetic (record { shape = shape; entries = entries.items }) }
        ensures { result ≡ record { shape = shape; entries = entries.items } }
    {
        Matrix {
            shape,
            entries,
            semiring: PhantomData,
        }
    }
}
