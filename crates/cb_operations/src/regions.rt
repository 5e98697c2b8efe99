//! Regions of a matrix, bounded by a diagonal.
ghost use Rattle.std.specs.Prelude.{◌≡◌, ◌+◌};
ghost use Rattle.cb_operations.specs.Regions.{is_in};

/// A diagonal, given by a place on it. If the place's column is greater than its row, the diagonal is above the main one.
///
/// GraphBLAS numbers a diagonal by its column minus its row: row 0 and column k are on diagonal k, and row k and column 0
/// on diagonal -k.
#[derive(Clone, Copy, PartialEq, Eq)]
pub struct Diagonal {
    pub row: u32,
    pub column: u32,
}

/// The places on a diagonal, off it, or on one side of it.
#[derive(Clone, Copy, PartialEq, Eq)]
pub enum Region {
    /// The lower triangle: the places on or below the diagonal.
    Lower(Diagonal),
    /// The upper triangle: the places on or above the diagonal.
    Upper(Diagonal),
    /// The places on the diagonal.
    On(Diagonal),
    /// The places that aren't on the diagonal.
    Off(Diagonal),
}

impl Region {
    /// Whether a place is in the region.
    pub fn has(&self, row: u32, column: u32) -> bool
        ensures { result ≡ is_in self.now row column }
    {
        match self {
            Region::Lower(diagonal) => {
                let (right, down) = diagonal.distances(row, column);
                right <= down
            }
            Region::Upper(diagonal) => {
                let (right, down) = diagonal.distances(row, column);
                down <= right
            }
            Region::On(diagonal) => {
                let (right, down) = diagonal.distances(row, column);
                right == down
            }
            Region::Off(diagonal) => {
                let (right, down) = diagonal.distances(row, column);
                right != down
            }
        }
    }
}

impl Diagonal {
    /// Two numbers that differ by how far the place is to the right of the diagonal; on the diagonal they are equal.
    pub fn distances(&self, row: u32, column: u32) -> (u64, u64)
        ensures right { result.0 ≡ column + self.now.row }
        ensures down { result.1 ≡ row + self.now.column }
    {
        (
            u64::from(column) + u64::from(self.row),
            u64::from(row) + u64::from(self.column),
        )
    }
}
