//! Worked examples, with ample memory and with each allocation refused in turn.
ghost use Rattle.std.specs.Prelude.{◌≡◌, ◌*◌, IfOk};

use crate::samples::{Given, grid_of, matrix};
use cb_dcsc::{Block, BlockFault};
use cb_grid::{Grid, Side};
use cb_layout::{DistributedMatrix, Segments, gather};
use cb_matrix::{Entry, LIMIT, Matrix};
use cb_plan_vectors::{gather_result, scatter_input};
use cb_samples::{SampleFault, entries, entry};
use cb_semirings::PlusTimes;
use std::alloc::{AllocError, Global};
use std::test::Fail;

/// The contents of a block: its rows and columns, and the rows and values of its entries.
type Contents<'a> = (u32, u32, &'a [u32], &'a [u64]);

/// The parts of a segment: its column, the row from which its rows count, its rows, and their values.
type Parts<'a> = (u32, u32, &'a [u32], &'a [u64]);

/// What a matrix over a grid is compared with.
#[derive(Clone, Copy)]
enum Check<'a> {
    /// The blocks.
    Blocks(&'a [Contents<'a>]),
    /// The matrix itself, gathered again.
    Whole,
    /// The same, built entry by entry with room for this many.
    Grown(usize),
    /// The segments.
    Segments(&'a [Parts<'a>]),
    /// The pieces of an input vector.
    Pieces(&'a [Contents<'a>]),
    /// How many rows the first pieces of an input vector have; the others have none.
    Rows(&'a [u32]),
    /// The result whose pieces are those of an input vector with a row for each rank.
    Turned(&'a [Entry]),
}

/// The side of a grid, a matrix, and what it is compared with.
type Case<'a> = (u32, Given<'a>, Check<'a>);

/// Whether a block has these contents.
fn is(block: &Block<PlusTimes>, wanted: &Contents<'_>) -> bool {
    let (rows, cols, places, values) = *wanted;
    let has_shape = block.shape().rows() == rows && block.shape().cols() == cols;
    has_shape && block.row_numbers() == places && block.values() == values
}

/// Whether blocks have these contents.
fn are(blocks: &[Block<PlusTimes>], wanted: &[Contents<'_>]) -> bool {
    for (block, contents) in blocks.iter().zip(wanted) {
        if !is(block, contents) {
            return false;
        }
    }
    blocks.len() == wanted.len()
}

/// Whether the blocks of two matrices are the same.
fn are_same(blocks: &[Block<PlusTimes>], others: &[Block<PlusTimes>]) -> bool {
    for (own, other) in blocks.iter().zip(others) {
        let contents = (
            other.shape().rows(),
            other.shape().cols(),
            other.row_numbers(),
            other.values(),
        );
        if !is(own, &contents) || own.column_numbers() != other.column_numbers() {
            return false;
        }
    }
    blocks.len() == others.len()
}

/// Whether a matrix over a grid has this grid, shape and number of entries, and is gathered as this matrix.
fn holds(
    alloc: Global,
    spread: &DistributedMatrix<PlusTimes>,
    grid: Grid,
    whole: &Matrix<PlusTimes>,
) -> Result<bool, AllocError> {
    let given = whole.entries();
    let says = spread.grid() == grid
        && spread.shape() == whole.shape()
        && spread.len() == given.len()
        && spread.is_empty() == given.is_empty()
        && spread.blocks().len() == usize::from(grid.ranks());
    let again = spread.gather(alloc)?;
    Ok(says && again.entries() == given)
}

/// A matrix scattered over a grid and gathered again.
fn cut_and_glued(
    alloc: Global,
    grid: &Grid,
    whole: &Matrix<PlusTimes>,
) -> Result<Matrix<PlusTimes>, AllocError> {
    let blocks = grid.scatter(alloc, whole)?;
    gather(alloc, grid, &blocks, whole.shape())
}

/// A matrix built over a grid entry by entry, with room for this many.
fn pushed(
    alloc: Global,
    grid: Grid,
    whole: &Matrix<PlusTimes>,
    room: usize,
) -> Result<DistributedMatrix<PlusTimes>, AllocError>
    ensures { IfOk result (λ m. m ≡ record { side = grid.side; matrix = whole.now }) }
{
    let shape = whole.shape();
    let mut spread = DistributedMatrix::with_room(alloc, grid, shape, room)?;
    for entry in whole.entries() {
        spread.push(*entry)?;
    }
    Ok(spread)
}

/// An input vector with a row for each rank, spread over the ranks, with its pieces taken as those of a result.
fn turned(
    alloc: Global,
    grid: &Grid,
    vector: &Matrix<PlusTimes>,
) -> Result<Matrix<PlusTimes>, AllocError>
    requires rows { vector.now.shape.rows ≡ grid.now.side * grid.now.side }
    requires column { vector.now.shape.cols ≡ 1 }
{
    let pieces = scatter_input(alloc, grid, vector)?;
    gather_result(alloc, grid, &pieces, vector.shape())
}

/// Whether a scattered matrix has these blocks.
fn is_cut_into(
    alloc: Global,
    grid: &Grid,
    whole: &Matrix<PlusTimes>,
    wanted: &[Contents<'_>],
) -> Result<bool, AllocError> {
    let blocks = grid.scatter(alloc, whole)?;
    Ok(are(&blocks, wanted))
}

/// Whether the blocks of a matrix are gathered as the matrix.
fn is_glued_again(
    alloc: Global,
    grid: &Grid,
    whole: &Matrix<PlusTimes>,
) -> Result<bool, AllocError> {
    let again = cut_and_glued(alloc, grid, whole)?;
    Ok(again.entries() == whole.entries())
}

/// Whether a matrix is distributed over a grid, with a block for each rank.
fn is_spread(alloc: Global, grid: Grid, whole: &Matrix<PlusTimes>) -> Result<bool, AllocError> {
    let spread = DistributedMatrix::scatter(alloc, grid, whole)?;
    let is_whole = holds(alloc, &spread, grid, whole)?;
    Ok(is_whole && spread.into_blocks().len() == usize::from(grid.ranks()))
}

/// Whether a matrix built entry by entry equals the scattered one.
fn is_grown(
    alloc: Global,
    grid: Grid,
    whole: &Matrix<PlusTimes>,
    room: usize,
) -> Result<bool, AllocError> {
    let blocks = grid.scatter(alloc, whole)?;
    let spread = pushed(alloc, grid, whole, room)?;
    let is_whole = holds(alloc, &spread, grid, whole)?;
    Ok(is_whole && are_same(spread.blocks(), &blocks))
}

/// Whether these segments come next, and then no other, however often one is asked for.
fn come(segments: &mut Segments<'_, PlusTimes>, wanted: &[Parts<'_>]) -> bool {
    for (column, top, rows, values) in wanted {
        let Some(segment) = segments.next_segment() else {
            return false;
        };
        let is_there = segment.column == *column && segment.top == *top;
        if !is_there || segment.rows != *rows || segment.values != *values {
            return false;
        }
    }
    segments.next_segment().is_none() && segments.next_segment().is_none()
}

/// Whether a matrix has these segments.
fn has_segments(
    alloc: Global,
    grid: Grid,
    whole: &Matrix<PlusTimes>,
    wanted: &[Parts<'_>],
) -> Result<bool, AllocError> {
    let spread = DistributedMatrix::scatter(alloc, grid, whole)?;
    Ok(come(&mut spread.segments(), wanted))
}

/// Whether an input vector has these pieces.
fn has_pieces(
    alloc: Global,
    grid: &Grid,
    vector: &Matrix<PlusTimes>,
    wanted: &[Contents<'_>],
) -> Result<bool, AllocError>
    requires { vector.now.shape.cols ≡ 1 }
{
    let pieces = scatter_input(alloc, grid, vector)?;
    Ok(are(&pieces, wanted))
}

/// Whether the pieces of an input vector have these numbers of rows, the others none, and all entries.
fn has_rows(
    alloc: Global,
    grid: &Grid,
    vector: &Matrix<PlusTimes>,
    wanted: &[u32],
) -> Result<bool, AllocError>
    requires { vector.now.shape.cols ≡ 1 }
{
    let pieces = scatter_input(alloc, grid, vector)?;
    Ok(are_of_rows(&pieces, wanted) && stored(&pieces) == vector.len())
}

/// Whether pieces have these numbers of rows, and the others none.
fn are_of_rows(pieces: &[Block<PlusTimes>], wanted: &[u32]) -> bool {
    for (rank, piece) in pieces.iter().enumerate() {
        if piece.shape().rows() != wanted.get(rank).copied().unwrap_or(0) {
            return false;
        }
    }
    true
}

/// How many entries blocks store.
fn stored(blocks: &[Block<PlusTimes>]) -> usize {
    let mut count = 0usize;
    for block in blocks {
        count = count.saturating_add(block.len());
    }
    count
}

/// Whether an input vector becomes this one if its pieces are taken as those of a result.
fn is_turned(
    alloc: Global,
    grid: &Grid,
    vector: &Matrix<PlusTimes>,
    wanted: &[Entry],
) -> Result<bool, AllocError>
    requires { vector.now.shape.cols ≡ 1 }
{
    if vector.rows() != u32::from(grid.ranks()) {
        return Ok(false);
    }
    let result = turned(alloc, grid, vector)?;
    Ok(result.entries() == wanted)
}

/// Whether a vector is as it should be.
fn is_right_vector(
    alloc: Global,
    grid: &Grid,
    vector: &Matrix<PlusTimes>,
    check: &Check<'_>,
) -> Result<bool, AllocError> {
    if vector.cols() != 1 {
        return Ok(false);
    }
    match check {
        Check::Pieces(wanted) => has_pieces(alloc, grid, vector, wanted),
        Check::Rows(wanted) => has_rows(alloc, grid, vector, wanted),
        Check::Turned(wanted) => is_turned(alloc, grid, vector, wanted),
        _ => Ok(false),
    }
}

/// Whether a matrix is as it should be.
fn is_right_matrix(
    alloc: Global,
    grid: Grid,
    whole: &Matrix<PlusTimes>,
    check: &Check<'_>,
) -> Result<bool, AllocError> {
    match check {
        Check::Blocks(wanted) => is_cut_into(alloc, &grid, whole, wanted),
        Check::Whole => Ok(is_glued_again(alloc, &grid, whole)? && is_spread(alloc, grid, whole)?),
        Check::Grown(room) => is_grown(alloc, grid, whole, *room),
        Check::Segments(wanted) => has_segments(alloc, grid, whole, wanted),
        _ => is_right_vector(alloc, &grid, whole, check),
    }
}

/// Whether a case is right.
fn is_right(alloc: Global, case: &Case<'_>) -> Result<bool, SampleFault> {
    let (side, given, check) = case;
    let grid = grid_of(*side)?;
    let whole = matrix(alloc, given)?;
    Ok(is_right_matrix(alloc, grid, &whole, check)?)
}

/// Whether each case is right.
fn are_right(alloc: Global, cases: &[Case<'_>]) -> bool {
    for case in cases {
        if is_right(alloc, case) != Ok(true) {
            return false;
        }
    }
    true
}

/// Whether there is a grid of this side.
fn has_side(side: u32) -> bool {
    match Grid::new(side) {
        Ok(grid) => grid.side() == side,
        Err(Side) => false,
    }
}

#[test]
fn sides_are_one_to_64(rt: HostRuntime) {
    for side in 0..=65 {
        assert!(rt; has_side(side) == (1 <= side && side <= 64));
    }
}

/// Whether row 1 and column 1 of the grid of side 3 have these ranks.
fn has_groups(alloc: Global, grid: &Grid, row: &[u16], column: &[u16]) -> bool
    requires { grid.now.side ≡ 3 }
{
    let is_row = grid.row_group(alloc, 1).as_slice() == row;
    is_row && grid.column_group(alloc, 1).as_slice() == column
}

#[test]
fn ranks_have_numbers(rt: HostRuntime) -> Result<(), Fail> {
    let grid = grid_of(3)?;
    assert!(rt; grid.ranks() == 9 && grid.rank(1, 2) == 5);
    assert!(rt; has_groups(rt.alloc(), &grid, &[3, 4, 5], &[1, 4, 7]));
    Ok(())
}

/// Whether a dimension is cut into these ranges by the grid of side 4.
fn is_cut_at(dimension: u32, wanted: &[(u32, u32)]) -> bool {
    let Ok(grid) = grid_of(4) else {
        return false;
    };
    for part in 0..4 {
        if wanted.get(part as usize) != Some(&grid.range(dimension, part)) {
            return false;
        }
    }
    true
}

const RANGES: &[(u32, &[(u32, u32)])] = &[
    (10, &[(0, 3), (3, 6), (6, 9), (9, 10)]),
    (5, &[(0, 2), (2, 4), (4, 5), (5, 5)]),
    (0, &[(0, 0), (0, 0), (0, 0), (0, 0)]),
];

#[test]
fn ranges_of_dimensions(rt: HostRuntime) {
    for (dimension, wanted) in RANGES {
        assert!(rt; is_cut_at(*dimension, wanted));
    }
}

const BLOCKS: &[Case<'static>] = &[
    (
        2,
        (2, 2, entries![(0, 0, 1), (0, 1, 2), (1, 1, 3)]),
        Check::Blocks(&[
            (1, 1, &[0], &[1]),
            (1, 1, &[0], &[2]),
            (1, 1, &[], &[]),
            (1, 1, &[0], &[3]),
        ]),
    ),
    (
        3,
        (5, 4, entries![(4, 1, 9), (1, 2, 8)]),
        Check::Blocks(&[
            (2, 2, &[], &[]),
            (2, 2, &[1], &[8]),
            (2, 0, &[], &[]),
            (2, 2, &[], &[]),
            (2, 2, &[], &[]),
            (2, 0, &[], &[]),
            (1, 2, &[0], &[9]),
            (1, 2, &[], &[]),
            (1, 0, &[], &[]),
        ]),
    ),
];

/// An entry keeps its place in the matrix.
#[test]
fn a_matrix_lies_in_blocks(rt: HostRuntime) {
    assert!(rt; are_right(rt.alloc(), BLOCKS));
}

const LAST: u32 = LIMIT - 1;

/// Seven rows and five columns.
const FOUR: Given<'static> = (7, 5, entries![(1, 0, 4), (6, 0, 5), (0, 3, 6), (6, 3, 7)]);

/// The largest sides, which cost no more than the entries; dimensions below the side of the grid; and no rows.
const WHOLE: &[Given<'static>] = &[
    (
        LIMIT,
        LIMIT,
        entries![(LAST, 0, 2), (0, LAST, 3), (LAST, LAST, 4)],
    ),
    (2, 3, entries![(1, 0, 4), (0, 2, 5)]),
    (0, 1, &[]),
    FOUR,
];

/// Sides of grids: those by which the code divides as by known numbers, one beyond them, and the largest.
const SIDES: &[u32] = &[1, 2, 3, 4, 5, 6, 7, 64];

/// Whether a matrix is distributed over grids and gathered unchanged.
fn lies_over_each(alloc: Global, given: &Given<'_>) -> bool {
    for side in SIDES {
        if is_right(alloc, &(*side, *given, Check::Whole)) != Ok(true) {
            return false;
        }
    }
    true
}

#[test]
fn a_matrix_lies_over_each_grid(rt: HostRuntime) {
    for given in WHOLE {
        assert!(rt; lies_over_each(rt.alloc(), given));
    }
}

/// Seven rows of one column.
const SEVEN: Given<'static> = (7, 1, entries![(0, 0, 1), (3, 0, 2), (6, 0, 3)]);

/// Four rows on four ranks; and seven rows on grids of many sides.
const VECTORS: &[Case<'static>] = &[
    (
        2,
        (4, 1, entries![(0, 0, 5), (1, 0, 6), (2, 0, 7), (3, 0, 8)]),
        Check::Pieces(&[
            (1, 1, &[0], &[5]),
            (1, 1, &[0], &[7]),
            (1, 1, &[0], &[6]),
            (1, 1, &[0], &[8]),
        ]),
    ),
    (1, SEVEN, Check::Rows(&[7])),
    (2, SEVEN, Check::Rows(&[2, 2, 2, 1])),
    (3, SEVEN, Check::Rows(&[1, 1, 1, 1, 1, 0, 1, 1, 0])),
    (4, SEVEN, Check::Rows(&[1, 1, 1, 1, 1, 1, 1])),
    (5, SEVEN, Check::Rows(&[1, 1, 1, 1, 0, 1, 1, 1])),
    (6, SEVEN, Check::Rows(&[1, 1, 1, 1, 0, 0, 1, 1, 1])),
    (64, SEVEN, Check::Rows(&[1, 1, 1, 1, 1, 1, 1])),
];

#[test]
fn a_vector_lies_in_pieces(rt: HostRuntime) {
    assert!(rt; are_right(rt.alloc(), VECTORS));
}

/// A vector with a row for each rank, and the same, transposed as a square.
fn square(alloc: Global, side: u32) -> Result<(Vec<Entry>, Vec<Entry>), AllocError> {
    let mut given = Vec::new(alloc);
    let mut turned = Vec::new(alloc);
    for i in 0..side {
        for t in 0..side {
            let row = i.wrapping_mul(side).wrapping_add(t);
            let from = t.wrapping_mul(side).wrapping_add(i);
            given.push(entry(row, 0, u64::from(row) + 1))?;
            turned.push(entry(row, 0, u64::from(from) + 1))?;
        }
    }
    Ok((given, turned))
}

/// Whether a vector with a row for each rank, taken as a result, is the same as the transposed square.
fn is_a_turned_square(alloc: Global, side: u32) -> Result<bool, SampleFault> {
    let (given, wanted) = square(alloc, side)?;
    let Ok(rows) = u32::try_from(given.len()) else {
        return Err(SampleFault::Shape);
    };
    is_right(alloc, &(side, (rows, 1, &given), Check::Turned(&wanted)))
}

/// Piece t of part i of an input is where piece i of part t of a result is. So a vector with a row for each rank, taken as
/// a result, is transposed as a square.
#[test]
fn vectors_on_grids_of_many_sides(rt: HostRuntime) {
    for side in SIDES {
        assert!(rt; is_a_turned_square(rt.alloc(), *side) == Ok(true));
    }
}

const NO_ENTRIES: Given<'static> = (3, 4, &[]);

const GROWN: &[Case<'static>] = &[
    (1, FOUR, Check::Grown(4)),
    (2, FOUR, Check::Grown(4)),
    (3, FOUR, Check::Grown(4)),
    (1, NO_ENTRIES, Check::Grown(9)),
    (2, NO_ENTRIES, Check::Grown(9)),
    (3, NO_ENTRIES, Check::Grown(9)),
];

/// Entries pushed one by one make the same matrix as scattering them. Without entries it is empty, whatever the room.
#[test]
fn a_matrix_grows_entry_by_entry(rt: HostRuntime) {
    assert!(rt; are_right(rt.alloc(), GROWN));
}

/// Rows of the grid without entries, between others and at the end; and entries in the last row and column of the grid.
const SEGMENTS: &[Case<'static>] = &[
    (
        2,
        (
            4,
            4,
            entries![(0, 0, 1), (1, 0, 2), (2, 0, 3), (3, 2, 4), (0, 3, 5)],
        ),
        Check::Segments(&[
            (0, 0, &[0, 1], &[1, 2]),
            (0, 2, &[0], &[3]),
            (2, 2, &[1], &[4]),
            (3, 0, &[0], &[5]),
        ]),
    ),
    (
        7,
        (
            14,
            14,
            entries![
                (0, 0, 1),
                (1, 0, 2),
                (13, 0, 3),
                (2, 3, 4),
                (12, 3, 5),
                (0, 13, 6)
            ],
        ),
        Check::Segments(&[
            (0, 0, &[0, 1], &[1, 2]),
            (0, 12, &[1], &[3]),
            (3, 2, &[0], &[4]),
            (3, 12, &[0], &[5]),
            (13, 0, &[0], &[6]),
        ]),
    ),
    (
        64,
        (
            127,
            64,
            entries![(0, 0, 1), (126, 0, 2), (4, 63, 3), (126, 63, 4)],
        ),
        Check::Segments(&[
            (0, 0, &[0], &[1]),
            (0, 126, &[0], &[2]),
            (63, 4, &[0], &[3]),
            (63, 126, &[0], &[4]),
        ]),
    ),
];

#[test]
fn segments_of_a_matrix(rt: HostRuntime) {
    assert!(rt; are_right(rt.alloc(), SEGMENTS));
}

/// Four rows and columns.
const THREE: Given<'static> = (4, 4, entries![(0, 0, 1), (3, 0, 2), (0, 2, 3)]);

/// Every call that takes memory.
const REFUSED: &[Case<'static>] = &[
    (2, THREE, Check::Whole),
    (2, THREE, Check::Grown(3)),
    (
        2,
        (4, 1, entries![(1, 0, 5), (3, 0, 6)]),
        Check::Turned(entries![(2, 0, 5), (3, 0, 6)]),
    ),
];

/// Whether each case is right, or its error is want of memory.
fn are_right_or_refused(alloc: Global, cases: &[Case<'_>]) -> bool {
    for case in cases {
        let is_fine = match is_right(alloc, case) {
            Ok(is_right) => is_right,
            Err(fault) => fault == SampleFault::Block(BlockFault::Memory),
        };
        if !is_fine {
            return false;
        }
    }
    true
}

/// Passes whichever single allocation is refused (`rt try --test --fail-alloc N`, for each N in turn): the call reports it,
/// or its result is right.
#[test]
fn refused_memory_is_reported(rt: HostRuntime) {
    assert!(rt; are_right_or_refused(rt.alloc(), REFUSED));
}
