//! Walks over a matrix in its order: column by column, and by row in each column. A matrix stands over a grid or in panels.
ghost use Rattle.std.specs.Prelude.{◌≡◌, ℕ, ◌<◌, ◌≤◌, ◌+◌, ◌*◌, [], ◌∷◌, ◌++◌, length, All, IfSome, IfNone, slice_index};
ghost use Rattle.cb_grid.specs.Parts.{part_start};
ghost use Rattle.cb_grid.specs.Blocks.{glued_blocks};
ghost use Rattle.cb_layout.specs.Distributed.{AreBlocks};
ghost use Rattle.cb_layout.specs.Fronts.{IsFront};
ghost use Rattle.cb_layout.specs.Panels.{entries_of_panels};
ghost use Rattle.cb_layout.specs.Segments.{shifted, entries_left};

use crate::front::{Front, MOST_ROWS, block_in};
use cb_dcsc::Block;
use cb_grid::{Grid, LARGEST_SIDE};
use cb_matrix::{Entry, LIMIT, Shape};
use cb_semirings::Semiring;
use std::alloc::AllocError;
use std::marker::Model;
use std::slice;

/// The entries of one column in one block.
#[derive(Clone, Copy)]
pub struct Segment<'a> {
    /// The column in the whole matrix.
    pub column: u32,
    /// The row of the whole matrix from which the rows are counted.
    pub top: u32,
    /// The rows, ascending.
    pub rows: &'a [u32],
    /// The value at each.
    pub values: &'a [u64],
}

/// The remaining segments of a matrix over a grid or in panels, by column and then by row. Contracts see the remaining
/// entries. Each segment costs finding the least of as many numbers as the grid has rows; no cost depends on a dimension.
#[derive(Drop)]
pub struct Segments<'a, S: Semiring> {
    /// Those of the panel that the walk has come to. A matrix over a grid is a single panel.
    current: GridSegments<'a, S>,
    /// The panels after it.
    panels: &'a [Block<S>],
}

impl<'a, S: Semiring> Model for Segments<'a, S> {
    ghost use Rattle.std.specs.Prelude.{List, ◌++◌};
    ghost use Rattle.cb_matrix.specs.declared.Entry.{Entry};
    ghost use Rattle.cb_layout.specs.Panels.{entries_of_panels};

    ghost Value = { List Entry };

    ghost view = { λ a. a.current ++ entries_of_panels a.panels.now };
}

impl<'a, S: Semiring> Segments<'a, S> {
    /// All segments of the matrix of a shape that blocks over a grid are glued to.
    pub(crate) fn over_grid(grid: Grid, shape: Shape, blocks: &'a [Block<S>]) -> Segments<'a, S>
        requires { AreBlocks S.arithmetic grid.side shape blocks.now }
        ensures { result ≡ (glued_blocks S.arithmetic grid.side shape blocks.now).entries }
    {
        Segments {
            current: GridSegments::new(grid, shape, blocks),
            panels: &[],
        }
    }

    /// All segments of a block, one for each stored column.
    pub fn of_block(block: &'a Block<S>) -> Segments<'a, S>
        ensures { result ≡ block.now.entries }
    {
        Segments::over_panels(block, &[])
    }

    /// All segments of a panel and of those after it.
    pub(crate) fn over_panels(first: &'a Block<S>, others: &'a [Block<S>]) -> Segments<'a, S>
        ensures { result ≡ entries_of_panels (first.now ∷ others.now) }
    {
        Segments {
            current: GridSegments::of_panel(slice::from_ref(first)),
            panels: others,
        }
    }

    /// A second walk over the remaining segments. Takes constant time.
    pub fn fork(&self) -> Segments<'a, S>
        ensures { result ≡ self.now }
    {
        Segments {
            current: self.current.fork(),
            panels: self.panels,
        }
    }

    /// The next segment, with at least one entry, or None if no entry remains.
    pub fn next_segment(&mut self) -> Option<Segment<'a>>
        ensures some { IfSome result (λ g. self.old ≡ shifted g.top g.column g.rows.now g.values.now ++ self.new) }
        ensures none { IfNone result ((self.old ≡ []) × (self.new ≡ [])) }
        ensures lengths { IfSome result (λ g. length g.values.now ≡ length g.rows.now) }
        ensures entries { IfSome result (λ g. 0 < length g.rows.now) }
        ensures inside { IfSome result (λ g. (g.column < LIMIT) × All (λ i. g.top + i < LIMIT) g.rows.now) }
    {
        loop {
            if let Some(segment) = self.current.next_segment() {
                return Some(segment);
            }
            if self.panels.is_empty() {
                return None;
            }
            let (next, others) = self.panels.split_at(1);
            self.current = GridSegments::of_panel(next);
            self.panels = others;
        }
    }
}

/// The remaining segments of a matrix over a grid, by column and then by row. Contracts see the remaining entries.
#[derive(Drop)]
pub(crate) struct GridSegments<'a, S: Semiring> {
    grid: Grid,
    shape: Shape,
    blocks: &'a [Block<S>],
    /// The first row of each row of the grid.
    tops: [u32; MOST_ROWS],
    front: Front,
}

impl<'a, S: Semiring> Model for GridSegments<'a, S> {
    ghost use Rattle.std.specs.Prelude.{List};
    ghost use Rattle.cb_matrix.specs.declared.Entry.{Entry};

    ghost Value = { List Entry };

    ghost use Rattle.cb_layout.specs.Segments.{entries_left, AreSegments};

    ghost view = { λ a. entries_left S.arithmetic a.grid.side a.shape a.blocks.now a.front };

    ghost invariant = { λ a. AreSegments S.arithmetic a.grid.side a.shape a.blocks.now a.front a.tops };
}

impl<'a, S: Semiring> GridSegments<'a, S> {
    /// All segments of the matrix of a shape that blocks over a grid are glued to.
    pub(crate) fn new(grid: Grid, shape: Shape, blocks: &'a [Block<S>]) -> GridSegments<'a, S>
        requires { AreBlocks S.arithmetic grid.side shape blocks.now }
        ensures { result ≡ (glued_blocks S.arithmetic grid.side shape blocks.now).entries }
    {
        GridSegments {
            grid,
            shape,
            blocks,
            tops: tops(grid, shape.rows()),
            front: Front::start(grid, shape, blocks, 0),
        }
    }

    /// All segments of a single panel, which is walked as the only block of a grid.
    fn of_panel(panel: &'a [Block<S>]) -> GridSegments<'a, S>
        requires { length panel.now ≡ 1 }
        ensures { result ≡ entries_of_panels panel.now }
    {
        let shape = panel[0].shape();
        GridSegments::new(Grid::single(), shape, panel)
    }

    /// A second walk over the remaining segments. Takes constant time.
    pub(crate) fn fork(&self) -> GridSegments<'a, S>
        ensures { result ≡ self.now }
    {
        GridSegments {
            grid: self.grid,
            shape: self.shape,
            blocks: self.blocks,
            tops: self.tops,
            front: self.front,
        }
    }

    /// The next segment, with at least one entry, or None if no entry remains.
    pub fn next_segment(&mut self) -> Option<Segment<'a>>
        ensures some { IfSome result (λ g. self.old ≡ shifted g.top g.column g.rows.now g.values.now ++ self.new) }
        ensures none { IfNone result ((self.old ≡ []) × (self.new ≡ [])) }
        ensures lengths { IfSome result (λ g. length g.values.now ≡ length g.rows.now) }
        ensures entries { IfSome result (λ g. 0 < length g.rows.now) }
        ensures inside { IfSome result (λ g. (g.column < LIMIT) × All (λ i. g.top + i < LIMIT) g.rows.now) }
    {
        reach(self.grid, self.shape, self.blocks, &mut self.front);
        let Some((row, column)) = self.front.first else {
            return None;
        };
        let block = block_in(self.grid, self.blocks, row, self.front.column);
        let top = self.tops[row as usize];
        let column = self.front.left + column;
        let n = self.front.done[row as usize];
        self.front.step(self.grid, row, block.column_numbers());
        let (rows, values) = block.nth_column(n);
        Some(Segment {
            column,
            top,
            rows,
            values,
        })
    }
}

/// The first row of each row part.
fn tops(grid: Grid, rows: u32) -> [u32; MOST_ROWS]
    ensures all { length result ≡ LARGEST_SIDE }
    ensures tops { (i : ℕ) → i < grid.side → slice_index result i ≡ part_start grid.side rows i }
{
    let mut tops = [0; MOST_ROWS];
    for part in 0..grid.side() {
        let (top, _) = grid.range(rows, part);
        tops[part as usize] = top;
    }
    tops
}

/// If the front is done, moves it to the next column of the grid that has entries, or to the last column if none has.
fn reach<S: Semiring>(grid: Grid, shape: Shape, blocks: &[Block<S>], front: &mut Front)
    requires blocks { AreBlocks S.arithmetic grid.side shape blocks.now }
    requires front { IsFront grid.side shape blocks.now front.old }
    ensures front { IsFront grid.side shape blocks.now front.new }
    ensures left { entries_left S.arithmetic grid.side shape blocks.now front.new ≡ entries_left S.arithmetic grid.side shape blocks.now front.old }
    ensures last { IfNone front.new.first (entries_left S.arithmetic grid.side shape blocks.now front.new ≡ []) }
{
    for column in front.column + 1..grid.side() {
        let None = front.first else {
            return;
        };
        *front = Front::start(grid, shape, blocks, column);
    }
}
