//! Texts of matrices over a grid, page by page.
use cb_dcsc::Block;
use cb_layout::{DistributedMatrix, Grid};
use cb_market::{Kind, read_distributed};
use cb_market_pages::{Page, TextPages, text};
use cb_matrix::{Entry, Matrix, Shape};
use cb_samples::are_values;
use cb_semirings::{OrAnd, PlusTimes, Semiring};
use std::alloc::{AllocError, Global};

/// Appends the pages of a text, and returns their number.
fn append_pages<S: Semiring>(
    page: &mut Page,
    pages: &mut TextPages<'_, S>,
    bytes: &mut Vec<u8>,
) -> Result<usize, AllocError> {
    let mut count: usize = 0;
    while pages.next_page(page) {
        bytes.extend_from_slice(page.written())?;
        count = count.saturating_add(1);
    }
    Ok(count)
}

/// The concatenated pages of a text, and their number.
pub(crate) fn joined<S: Semiring>(
    alloc: Global,
    mut pages: TextPages<'_, S>,
) -> Result<(Vec<u8>, usize), AllocError> {
    let mut page = Page::new(alloc)?;
    let mut bytes = Vec::new(alloc);
    let count = append_pages(&mut page, &mut pages, &mut bytes)?;
    Ok((bytes, count))
}

/// Reads a text over the grid of this side, and returns the concatenated pages of the matrix and their number.
fn read_and_joined<S: Semiring>(
    alloc: Global,
    side: u32,
    given: &[u8],
) -> Result<(Vec<u8>, usize), Kind> {
    let Ok(grid) = Grid::new(side) else {
        return Err(Kind::TooLarge);
    };
    match read_distributed::<S>(alloc, &grid, given) {
        Ok(matrix) => joined(alloc, TextPages::new(&matrix)).map_err(|_| Kind::Memory),
        Err(fault) => Err(fault.kind),
    }
}

/// Whether the matrix that a text reads as is written as `wanted`, on one page, on the grid of every side.
fn is_one_page<S: Semiring>(alloc: Global, given: &[u8], wanted: &[u8]) -> bool {
    for side in 1..=6 {
        match read_and_joined::<S>(alloc, side, given) {
            Ok((bytes, 1)) if bytes.as_slice() == wanted => {}
            _ => return false,
        }
    }
    true
}

/// Texts, and the texts of the matrices that they read as: the largest sides and no sides too; and entries that ascend at
/// first, before one comes out of order or is at the same place as the one before.
const NUMBERS: &[(&[u8], &[u8])] = &[
    (GIVEN, GIVEN),
    (FAR, FAR),
    (EMPTY, EMPTY),
    (
        b"%%MatrixMarket matrix coordinate integer general\n3 3 3\n2 1 7\n3 3 1\n1 3 5\n",
        b"%%MatrixMarket matrix coordinate integer general\n3 3 3\n2 1 7\n1 3 5\n3 3 1\n",
    ),
    (
        b"%%MatrixMarket matrix coordinate integer general\n2 2 3\n1 1 1\n2 2 3\n2 2 4\n",
        b"%%MatrixMarket matrix coordinate integer general\n2 2 2\n1 1 1\n2 2 7\n",
    ),
];

pub(crate) const GIVEN: &[u8] =
    b"%%MatrixMarket matrix coordinate integer general\n5 4 6\n1 1 7\n5 1 10\n2 2 18446744073709551615\n4 2 3\n1 4 99999\n3 4 1\n";

pub(crate) const FAR: &[u8] =
    b"%%MatrixMarket matrix coordinate integer general\n2147483647 2147483647 2\n2147483646 2147483647 1\n2147483647 2147483647 18446744073709551615\n";

pub(crate) const EMPTY: &[u8] = b"%%MatrixMarket matrix coordinate integer general\n0 0 0\n";

const PATTERN: &[u8] =
    b"%%MatrixMarket matrix coordinate pattern general\n3 100 3\n2 1\n1 100\n3 100\n";

/// Whether each text is written as it should be.
fn are_one_page<S: Semiring>(alloc: Global, rows: &[(&[u8], &[u8])]) -> bool {
    for (given, wanted) in rows {
        if !is_one_page::<S>(alloc, given, wanted) {
            return false;
        }
    }
    true
}

#[test]
fn are_the_text_on_each_grid(rt: HostRuntime) {
    assert!(rt; are_one_page::<PlusTimes>(rt.alloc(), NUMBERS));
    assert!(rt; is_one_page::<OrAnd>(rt.alloc(), PATTERN, PATTERN));
}

/// A matrix of seven columns, whose text is longer than a page.
fn long_matrix(alloc: Global) -> Option<Matrix<PlusTimes>> {
    let mut entries = Vec::new(alloc);
    for row in 0u32..9_000 {
        let value = u64::from(row) + 1;
        let column = row % 7;
        entries.push(Entry { row, column, value }).ok()?;
    }
    if !are_values::<PlusTimes>(&entries) {
        return None;
    }
    Matrix::from_entries(alloc, Shape::new(9_000, 7)?, &entries).ok()
}

/// Whether the text of a matrix over a grid is written on two pages.
fn are_two_pages(
    alloc: Global,
    grid: Grid,
    matrix: &Matrix<PlusTimes>,
    whole: &[u8],
) -> Result<bool, AllocError> {
    let blocks = DistributedMatrix::scatter(alloc, grid, matrix)?;
    let (bytes, count) = joined(alloc, TextPages::new(&blocks))?;
    Ok(count == 2 && bytes.as_slice() == whole)
}

/// Whether the text of the long matrix over the grid of this side is written on two pages.
fn are_two_long_pages(alloc: Global, side: u32) -> Option<bool> {
    let grid = Grid::new(side).ok()?;
    let matrix = long_matrix(alloc)?;
    let block = Block::<PlusTimes>::from_ordered(alloc, matrix.shape(), matrix.entries()).ok()?;
    let whole = text(alloc, &block).ok()?;
    are_two_pages(alloc, grid, &matrix, &whole).ok()
}

/// A column continues on the next page.
#[test]
fn follow_one_another(rt: HostRuntime) {
    for side in [1, 3] {
        assert!(rt; are_two_long_pages(rt.alloc(), side) == Some(true));
    }
}

/// Whether a text is written as itself, or memory is refused.
fn is_joined_or_refused(alloc: Global, given: &[u8]) -> bool {
    match read_and_joined::<PlusTimes>(alloc, 2, given) {
        Ok((bytes, _)) => bytes.as_slice() == given,
        Err(kind) => kind == Kind::Memory,
    }
}

/// Also run with each allocation refused in turn.
#[test]
fn are_refused_or_joined(rt: HostRuntime) {
    assert!(rt; is_joined_or_refused(rt.alloc(), GIVEN));
}

/// Whether a text lacks entries on the grid of this side.
fn lacks_entries(alloc: Global, side: u32, given: &[u8]) -> bool {
    match read_and_joined::<PlusTimes>(alloc, side, given) {
        Ok(_) => false,
        Err(kind) => kind == Kind::MissingEntries,
    }
}

#[test]
fn a_bad_text_is_refused_on_each_grid(rt: HostRuntime) {
    let short = b"%%MatrixMarket matrix coordinate integer general\n2 2 3\n1 1 1\n";
    for side in 1..=6 {
        assert!(rt; lacks_entries(rt.alloc(), side, short));
    }
}
