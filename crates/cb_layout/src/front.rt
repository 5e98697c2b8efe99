//! How far a walk over the blocks in one column of the grid has come, column by column.
ghost use Rattle.std.specs.Prelude.{◌≡◌, ℕ, List, ◌<◌, ◌≤◌, ◌+◌, ◌*◌, length, IfSome, IfNone, ◌⊎◌, slice_index, slice_index_or, slice_set};
ghost use Rattle.cb_grid.specs.Blocks.{block_at};
ghost use Rattle.cb_layout.specs.Fronts.{IsFront, IsLeast, AreNext};

use cb_dcsc::Block;
use cb_grid::{Grid, LARGEST_SIDE};
use cb_matrix::Shape;
use cb_semirings::Semiring;

/// How many rows of blocks a grid has at most.
pub(crate) const MOST_ROWS: usize = LARGEST_SIDE as usize;

/// Stands for the next column of a block that has no more. Every column number is less.
pub(crate) const NO_COLUMN: u32 = u32::MAX;

/// A column of the grid, and how far the walk over each of its blocks has come. Only the rows of the grid have a place that
/// counts: a step costs what the side does, and not what the largest side would.
#[derive(Clone, Copy)]
pub(crate) struct Front {
    /// Which column of the grid.
    pub column: u32,
    /// Its first column in the whole matrix.
    pub left: u32,
    /// For the block in each row, the number of its columns with entries that are done.
    pub done: [usize; MOST_ROWS],
    /// The column that comes next in each, if any.
    pub columns: [u32; MOST_ROWS],
    /// The least of these, with the first row that has it, if any.
    pub first: Option<(u32, u32)>,
}

impl Front {
    /// The front at the start of a column of the grid.
    pub fn start<S: Semiring>(grid: Grid, shape: Shape, blocks: &[Block<S>], column: u32) -> Front
        requires column { column < grid.side }
        requires count { length blocks.now ≡ grid.side * grid.side }
        ensures front { IsFront grid.side shape blocks.now result }
        ensures column { result.column ≡ column }
        ensures start { (i : ℕ) → slice_index result.done i ≡ 0 }
    {
        let (left, _) = grid.range(shape.cols(), column);
        let done = [0usize; MOST_ROWS];
        let columns = first_columns(grid, blocks, column);
        let first = least(&columns, grid.side());
        Front {
            column,
            left,
            done,
            columns,
            first,
        }
    }

    /// Advances past one column of the block in a row of the grid, which has these columns. The front is changed in place:
    /// a copy for each column would cost more than everything else.
    pub fn step(&mut self, grid: Grid, row: u32, numbers: &[u32])
        requires row { row < grid.side }
        requires some { slice_index self.old.done row < length numbers.now }
        requires all_done { length self.old.done ≡ LARGEST_SIDE }
        requires all_columns { length self.old.columns ≡ LARGEST_SIDE }
        ensures column { self.new.column ≡ self.old.column }
        ensures left { self.new.left ≡ self.old.left }
        ensures done { self.new.done ≡ slice_set self.old.done row (slice_index self.old.done row + 1) }
        ensures columns { self.new.columns ≡ slice_set self.old.columns row (slice_index_or numbers.now (slice_index self.old.done row + 1) NO_COLUMN) }
        ensures some { IfSome self.new.first (λ t. IsLeast grid.side self.new.columns t.0 t.1) }
        ensures none { IfNone self.new.first ((k : ℕ) → k < grid.side → NO_COLUMN ≤ slice_index self.new.columns k) }
    {
        let n = self.done[row as usize] + 1;
        self.done[row as usize] = n;
        self.columns[row as usize] = nth_or_none(numbers, n);
        self.first = least(&self.columns, grid.side());
    }
}

/// The first column with entries of each block in a column of the grid.
fn first_columns<S: Semiring>(grid: Grid, blocks: &[Block<S>], column: u32) -> [u32; MOST_ROWS]
    requires column { column < grid.side }
    requires count { length blocks.now ≡ grid.side * grid.side }
    ensures all { length result ≡ LARGEST_SIDE }
    ensures next { (done : List ℕ) → ((i : ℕ) → slice_index done i ≡ 0) → AreNext grid.side blocks.now column done result }
{
    let mut columns = [NO_COLUMN; MOST_ROWS];
    for i in 0..grid.side() {
        let block = block_in(grid, blocks, i, column);
        columns[i as usize] = nth_or_none(block.column_numbers(), 0);
    }
    columns
}

/// The block in a row and a column of the grid.
pub(crate) fn block_in<'a, S: Semiring>(
    grid: Grid,
    blocks: &'a [Block<S>],
    row: u32,
    column: u32,
) -> &'a Block<S>
    requires row { row < grid.side }
    requires column { column < grid.side }
    requires count { length blocks.now ≡ grid.side * grid.side }
    ensures { result.now ≡ block_at blocks.now (row * grid.side + column) }
{
    &blocks[usize::from(grid.rank(row, column))]
}

/// The nth of the columns that have entries, if any.
fn nth_or_none(columns: &[u32], n: usize) -> u32
    ensures { result ≡ slice_index_or columns.now n NO_COLUMN }
{
    columns.get(n).copied().unwrap_or(NO_COLUMN)
}

/// The least of the first columns, of which there are as many as rows of the grid, with the first row that has it, if any.
fn least(columns: &[u32; MOST_ROWS], side: u32) -> Option<(u32, u32)>
    requires { side ≤ LARGEST_SIDE }
    ensures some { IfSome result (λ t. IsLeast side columns.now t.0 t.1) }
    ensures none { IfNone result ((k : ℕ) → k < side → NO_COLUMN ≤ slice_index columns.now k) }
{
    let mut row = 0;
    let mut column = NO_COLUMN;
    for k in 0..side {
        if columns[k as usize] < column {
            row = k;
            column = columns[k as usize];
        }
    }
    if column == NO_COLUMN {
        return None;
    }
    Some((row, column))
}
