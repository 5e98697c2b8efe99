//! Selections: by place, of diagonals, of rows and columns by their numbers; replaced values, Kronecker products and
//! assigned parts. Worked rows, with ample memory and with each allocation refused in turn.
use crate::calls::{Call, Case, Given, are_right, are_right_or_refused, is_right};
use crate::samples::{is_computed, is_right_or_refused};
use cb_matrix::{Entry, LIMIT};
use cb_operations::{Computation, Diagonal, Function, Region, Selection};
use cb_samples::{SampleFault, block, entries, entry};
use cb_semirings::PlusTimes;
use cb_serial::compute;
use std::alloc::{AllocError, Global};

const TOP: u64 = u64::MAX;

const LAST: u32 = LIMIT - 1;

const LAST_VALUE: u64 = LAST as u64;

/// Four by five.
const GIVEN: Given<'static> = (
    (4, 5),
    entries![
        (0, 0, 1),
        (2, 0, 2),
        (1, 1, 3),
        (3, 1, 4),
        (0, 2, 5),
        (2, 3, 6),
        (3, 3, 7),
        (0, 4, 8)
    ],
);

/// The main diagonal.
const MAIN: Diagonal = Diagonal { row: 0, column: 0 };

/// The diagonal two above it.
const ABOVE: Diagonal = Diagonal { row: 0, column: 2 };

/// The diagonal two below it, named by a place that isn't its first.
const BELOW: Diagonal = Diagonal { row: 3, column: 1 };

/// The diagonal that starts in the last row of the first column.
const LOWEST: Diagonal = Diagonal {
    row: LAST,
    column: 0,
};

/// Two by two, with one entry.
const CORNER: Given<'static> = ((2, 2), entries![(1, 1, 5)]);

/// Two by three.
const SECOND: Given<'static> = ((2, 3), entries![(0, 0, 1), (1, 0, 2), (1, 2, 1 << 63)]);

/// Both triangles, with and without the main diagonal; a diagonal, and all but it; sides of 0; no entries; and the corners
/// of the largest sides.
const SELECTED: &[Case<'static>] = &[
    (
        Call::Select(Region::Lower(MAIN)),
        &[GIVEN],
        (
            (4, 5),
            entries![(0, 0, 1), (2, 0, 2), (1, 1, 3), (3, 1, 4), (3, 3, 7)],
        ),
    ),
    (
        Call::Select(Region::Upper(MAIN)),
        &[GIVEN],
        (
            (4, 5),
            entries![
                (0, 0, 1),
                (1, 1, 3),
                (0, 2, 5),
                (2, 3, 6),
                (3, 3, 7),
                (0, 4, 8)
            ],
        ),
    ),
    (
        Call::Select(Region::Lower(BELOW)),
        &[GIVEN],
        ((4, 5), entries![(2, 0, 2), (3, 1, 4)]),
    ),
    (
        Call::Select(Region::Upper(ABOVE)),
        &[GIVEN],
        ((4, 5), entries![(0, 2, 5), (0, 4, 8)]),
    ),
    (
        Call::Select(Region::On(BELOW)),
        &[GIVEN],
        ((4, 5), entries![(2, 0, 2), (3, 1, 4)]),
    ),
    (
        Call::Select(Region::On(ABOVE)),
        &[GIVEN],
        ((4, 5), entries![(0, 2, 5)]),
    ),
    (
        Call::Select(Region::Off(MAIN)),
        &[GIVEN],
        (
            (4, 5),
            entries![(2, 0, 2), (3, 1, 4), (0, 2, 5), (2, 3, 6), (0, 4, 8)],
        ),
    ),
    (
        Call::Select(Region::Lower(MAIN)),
        &[((0, 0), &[])],
        ((0, 0), &[]),
    ),
    (
        Call::Select(Region::Off(MAIN)),
        &[((LIMIT, 3), &[])],
        ((LIMIT, 3), &[]),
    ),
    (
        Call::Select(Region::Lower(LOWEST)),
        &[(
            (LIMIT, LIMIT),
            entries![(0, 0, 1), (LAST, 0, TOP), (LAST, LAST, 2)],
        )],
        ((LIMIT, LIMIT), entries![(LAST, 0, TOP)]),
    ),
    (
        Call::Select(Region::Upper(LOWEST)),
        &[(
            (LIMIT, LIMIT),
            entries![(0, 0, 1), (LAST, 0, TOP), (LAST, LAST, 2)],
        )],
        (
            (LIMIT, LIMIT),
            entries![(0, 0, 1), (LAST, 0, TOP), (LAST, LAST, 2)],
        ),
    ),
    (
        Call::Select(Region::On(MAIN)),
        &[(
            (LIMIT, LIMIT),
            entries![(0, 0, 1), (LAST, 0, TOP), (LAST, LAST, 2)],
        )],
        ((LIMIT, LIMIT), entries![(0, 0, 1), (LAST, LAST, 2)]),
    ),
];

/// Diagonals of tall, wide and square blocks, of sides of 0, without entries, and of the largest sides; and columns on
/// diagonals.
const DIAGONALS: &[Case<'static>] = &[
    (
        Call::Diagonal,
        &[GIVEN],
        ((4, 1), entries![(0, 0, 1), (1, 0, 3), (3, 0, 7)]),
    ),
    (
        Call::Diagonal,
        &[((5, 2), entries![(0, 0, 1), (4, 0, 2), (1, 1, 3)])],
        ((2, 1), entries![(0, 0, 1), (1, 0, 3)]),
    ),
    (Call::Diagonal, &[((0, 3), &[])], ((0, 1), &[])),
    (Call::Diagonal, &[((3, 3), &[])], ((3, 1), &[])),
    (
        Call::Diagonal,
        &[((LIMIT, LIMIT), entries![(LAST, 0, 1), (LAST, LAST, TOP)])],
        ((LIMIT, 1), entries![(LAST, 0, TOP)]),
    ),
    (
        Call::DiagonalMatrix,
        &[((LIMIT, 1), entries![(0, 0, 3), (7, 0, 4), (LAST, 0, TOP)])],
        (
            (LIMIT, LIMIT),
            entries![(0, 0, 3), (7, 7, 4), (LAST, LAST, TOP)],
        ),
    ),
    (Call::DiagonalMatrix, &[((0, 1), &[])], ((0, 0), &[])),
    (Call::DiagonalMatrix, &[((4, 1), &[])], ((4, 4), &[])),
];

/// Constants, sums, products, and the numbers of rows and columns. Zeros aren't stored.
const REPLACED: &[Case<'static>] = &[
    (
        Call::Apply(Function::Constant(9)),
        &[((2, 2), entries![(0, 0, 1), (1, 1, TOP)])],
        ((2, 2), entries![(0, 0, 9), (1, 1, 9)]),
    ),
    (
        Call::Apply(Function::Constant(0)),
        &[((2, 2), entries![(0, 0, 1), (1, 1, TOP)])],
        ((2, 2), &[]),
    ),
    (
        Call::Apply(Function::Sum(1)),
        &[((2, 2), entries![(0, 0, 1), (1, 1, TOP)])],
        ((2, 2), entries![(0, 0, 2)]),
    ),
    (
        Call::Apply(Function::LeftProduct(3)),
        &[((2, 2), entries![(0, 0, 1), (1, 1, TOP)])],
        ((2, 2), entries![(0, 0, 3), (1, 1, TOP - 2)]),
    ),
    (
        Call::Apply(Function::RightProduct(1 << 63)),
        &[((2, 2), entries![(0, 0, 2), (1, 1, 3)])],
        ((2, 2), entries![(1, 1, 1 << 63)]),
    ),
    (
        Call::Apply(Function::Row),
        &[((LIMIT, 2), entries![(0, 0, 2), (LAST, 0, 3), (1, 1, 3)])],
        ((LIMIT, 2), entries![(LAST, 0, LAST_VALUE), (1, 1, 1)]),
    ),
    (
        Call::Apply(Function::Column),
        &[((2, LIMIT), entries![(0, 0, 2), (1, 1, 3), (0, LAST, 3)])],
        ((2, LIMIT), entries![(1, 1, 1), (0, LAST, LAST_VALUE)]),
    ),
    (Call::Apply(Function::Row), &[((0, 0), &[])], ((0, 0), &[])),
];

/// Rows and columns in another order, some left out and some repeated; none; rows in order, some and all; columns without
/// entries before them; the last of the largest sides; and columns at some places of their list alone, or at none.
const EXTRACTED: &[Case<'static>] = &[
    (
        Call::Extract(&[3, 0, 0], &[3, 1, 3, 0]),
        &[GIVEN],
        (
            (3, 4),
            entries![(0, 0, 7), (0, 1, 4), (0, 2, 7), (1, 3, 1), (2, 3, 1)],
        ),
    ),
    (
        Call::Extract(&[0, 1, 2, 3], &[4, 0, 3]),
        &[GIVEN],
        (
            (4, 3),
            entries![(0, 0, 8), (0, 1, 1), (2, 1, 2), (2, 2, 6), (3, 2, 7)],
        ),
    ),
    (
        Call::Extract(&[0, 2, 1, 3], &[1, 4]),
        &[GIVEN],
        ((4, 2), entries![(2, 0, 3), (3, 0, 4), (0, 1, 8)]),
    ),
    (Call::Extract(&[], &[1, 1]), &[GIVEN], ((0, 2), &[])),
    (Call::Extract(&[2], &[]), &[GIVEN], ((1, 0), &[])),
    (Call::Extract(&[], &[]), &[((0, 0), &[])], ((0, 0), &[])),
    (
        Call::Extract(&[LAST, 0], &[0, LAST]),
        &[((LIMIT, LIMIT), entries![(LAST, 0, 1), (LAST, LAST, TOP)])],
        ((2, 2), entries![(0, 0, 1), (0, 1, TOP)]),
    ),
    (
        Call::Extract(&[0, 2, 3], &[4, 0, 0, 3]),
        &[GIVEN],
        (
            (3, 4),
            entries![
                (0, 0, 8),
                (0, 1, 1),
                (1, 1, 2),
                (0, 2, 1),
                (1, 2, 2),
                (1, 3, 6),
                (2, 3, 7)
            ],
        ),
    ),
    (
        Call::Extract(&[0, LAST], &[0, LAST]),
        &[((LIMIT, LIMIT), entries![(LAST, 0, 1), (LAST, LAST, TOP)])],
        ((2, 2), entries![(1, 0, 1), (1, 1, TOP)]),
    ),
    (
        Call::ExtractBetween(&[0, 2, 3], &[4, 0, 0, 3], 1, 3),
        &[GIVEN],
        ((3, 4), entries![(0, 1, 1), (1, 1, 2), (0, 2, 1), (1, 2, 2)]),
    ),
    (
        Call::ExtractBetween(&[3, 0], &[4, 0, 3], 2, 3),
        &[GIVEN],
        ((2, 3), entries![(0, 2, 7)]),
    ),
    (
        Call::ExtractBetween(&[0, 1, 2, 3], &[4, 0, 3], 0, 1),
        &[GIVEN],
        ((4, 3), entries![(0, 0, 8)]),
    ),
    (
        Call::ExtractBetween(&[1], &[1, 1], 1, 1),
        &[GIVEN],
        ((1, 2), &[]),
    ),
    (
        Call::ExtractRows(&[0, 2, 3]),
        &[GIVEN],
        (
            (3, 5),
            entries![
                (0, 0, 1),
                (1, 0, 2),
                (2, 1, 4),
                (0, 2, 5),
                (1, 3, 6),
                (2, 3, 7),
                (0, 4, 8)
            ],
        ),
    ),
    (Call::ExtractRows(&[0, 1, 2, 3]), &[GIVEN], GIVEN),
    (
        Call::ExtractRows(&[3, 0, 0]),
        &[GIVEN],
        (
            (3, 5),
            entries![
                (1, 0, 1),
                (2, 0, 1),
                (0, 1, 4),
                (1, 2, 5),
                (2, 2, 5),
                (0, 3, 7),
                (1, 4, 8),
                (2, 4, 8)
            ],
        ),
    ),
    (
        Call::ExtractColumns(&[2, 0, 1]),
        &[((2, 3), entries![(1, 1, 5), (0, 2, 6)])],
        ((2, 3), entries![(0, 0, 6), (1, 2, 5)]),
    ),
    (
        Call::ExtractColumns(&[LAST, LAST]),
        &[((LIMIT, LIMIT), entries![(LAST, 0, 1), (LAST, LAST, TOP)])],
        ((LIMIT, 2), entries![(LAST, 0, TOP), (LAST, 1, TOP)]),
    ),
];

/// Each entry of the first block becomes a scaled copy of the second, without products that are zero; sides of 0; and the
/// most rows that a block can have.
const KRONECKER: &[Case<'static>] = &[
    (
        Call::Kronecker,
        &[((2, 2), entries![(1, 0, 3), (0, 1, 2)]), SECOND],
        (
            (4, 6),
            entries![(2, 0, 3), (3, 0, 6), (3, 2, 1 << 63), (0, 3, 2), (1, 3, 4)],
        ),
    ),
    (Call::Kronecker, &[CORNER, ((0, 3), &[])], ((0, 6), &[])),
    (Call::Kronecker, &[CORNER, ((2, 3), &[])], ((4, 6), &[])),
    (
        Call::Kronecker,
        &[
            ((1, 2), entries![(0, 1, TOP)]),
            ((LIMIT, 1), entries![(0, 0, 2), (LAST, 0, 3)]),
        ],
        ((LIMIT, 2), entries![(0, 1, TOP - 1), (LAST, 1, TOP - 2)]),
    ),
];

/// A part inside, which loses and gains entries; one at the end; the whole; none; and the corner of the largest sides.
const ASSIGNED: &[Case<'static>] = &[
    (
        Call::Assign((1, 1)),
        &[GIVEN, SECOND],
        (
            (4, 5),
            entries![
                (0, 0, 1),
                (2, 0, 2),
                (1, 1, 1),
                (2, 1, 2),
                (3, 1, 4),
                (0, 2, 5),
                (2, 3, 1 << 63),
                (3, 3, 7),
                (0, 4, 8)
            ],
        ),
    ),
    (
        Call::Assign((2, 3)),
        &[GIVEN, CORNER],
        (
            (4, 5),
            entries![
                (0, 0, 1),
                (2, 0, 2),
                (1, 1, 3),
                (3, 1, 4),
                (0, 2, 5),
                (0, 4, 8),
                (3, 4, 5)
            ],
        ),
    ),
    // columns before, in and after the part, with rows above, in and below it, and one that the part alone has
    (
        Call::Assign((2, 1)),
        &[
            (
                (6, 4),
                entries![
                    (0, 0, 1),
                    (3, 0, 2),
                    (5, 0, 3),
                    (0, 1, 4),
                    (1, 1, 5),
                    (2, 1, 6),
                    (3, 1, 7),
                    (4, 1, 8),
                    (5, 1, 9),
                    (2, 3, 10)
                ],
            ),
            ((2, 2), entries![(0, 0, 20), (1, 1, 21)]),
        ],
        (
            (6, 4),
            entries![
                (0, 0, 1),
                (3, 0, 2),
                (5, 0, 3),
                (0, 1, 4),
                (1, 1, 5),
                (2, 1, 20),
                (4, 1, 8),
                (5, 1, 9),
                (3, 2, 21),
                (2, 3, 10)
            ],
        ),
    ),
    (Call::Assign((0, 0)), &[GIVEN, ((4, 5), &[])], ((4, 5), &[])),
    (Call::Assign((4, 5)), &[GIVEN, ((0, 0), &[])], GIVEN),
    (
        Call::Assign((LAST, LAST)),
        &[
            ((LIMIT, LIMIT), entries![(LAST, 0, 1), (LAST, LAST, TOP)]),
            ((1, 1), entries![(0, 0, 9)]),
        ],
        ((LIMIT, LIMIT), entries![(LAST, 0, 1), (LAST, LAST, 9)]),
    ),
];

/// Rows backwards, one alone, such that no entry is in, and one repeated; and rows alone.
const REORDERED: &[Case<'static>] = &[
    (
        Call::Extract(&[3, 2, 1, 0], &[0, 1, 2, 3, 4]),
        &[GIVEN],
        (
            (4, 5),
            entries![
                (1, 0, 2),
                (3, 0, 1),
                (0, 1, 4),
                (2, 1, 3),
                (3, 2, 5),
                (0, 3, 7),
                (1, 3, 6),
                (3, 4, 8)
            ],
        ),
    ),
    (
        Call::Extract(&[2], &[3, 0, 3]),
        &[GIVEN],
        ((1, 3), entries![(0, 0, 6), (0, 1, 2), (0, 2, 6)]),
    ),
    (Call::Extract(&[2, 1], &[2, 4]), &[GIVEN], ((2, 2), &[])),
    (
        Call::Extract(&[1, 0, 3, 1], &[1, 0]),
        &[GIVEN],
        ((4, 2), entries![(0, 0, 3), (2, 0, 4), (3, 0, 3), (1, 1, 1)]),
    ),
    (
        Call::ExtractRows(&[3, 0, 2]),
        &[GIVEN],
        (
            (3, 5),
            entries![
                (1, 0, 1),
                (2, 0, 2),
                (0, 1, 4),
                (1, 2, 5),
                (0, 3, 7),
                (2, 3, 6),
                (1, 4, 8)
            ],
        ),
    ),
];

/// A part at each of the other corners; one without entries; one column, and one row; no columns, and no rows; all entries
/// replaced; and a part of a block without entries.
const BORDERS: &[Case<'static>] = &[
    (
        Call::Assign((0, 0)),
        &[GIVEN, CORNER],
        (
            (4, 5),
            entries![
                (2, 0, 2),
                (1, 1, 5),
                (3, 1, 4),
                (0, 2, 5),
                (2, 3, 6),
                (3, 3, 7),
                (0, 4, 8)
            ],
        ),
    ),
    (
        Call::Assign((0, 3)),
        &[GIVEN, CORNER],
        (
            (4, 5),
            entries![
                (0, 0, 1),
                (2, 0, 2),
                (1, 1, 3),
                (3, 1, 4),
                (0, 2, 5),
                (2, 3, 6),
                (3, 3, 7),
                (1, 4, 5)
            ],
        ),
    ),
    (
        Call::Assign((2, 0)),
        &[GIVEN, CORNER],
        (
            (4, 5),
            entries![
                (0, 0, 1),
                (1, 1, 3),
                (3, 1, 5),
                (0, 2, 5),
                (2, 3, 6),
                (3, 3, 7),
                (0, 4, 8)
            ],
        ),
    ),
    (
        Call::Assign((2, 0)),
        &[GIVEN, ((2, 2), &[])],
        (
            (4, 5),
            entries![
                (0, 0, 1),
                (1, 1, 3),
                (0, 2, 5),
                (2, 3, 6),
                (3, 3, 7),
                (0, 4, 8)
            ],
        ),
    ),
    (
        Call::Assign((0, 1)),
        &[GIVEN, ((4, 1), entries![(2, 0, 9)])],
        (
            (4, 5),
            entries![
                (0, 0, 1),
                (2, 0, 2),
                (2, 1, 9),
                (0, 2, 5),
                (2, 3, 6),
                (3, 3, 7),
                (0, 4, 8)
            ],
        ),
    ),
    (
        Call::Assign((2, 0)),
        &[GIVEN, ((1, 5), entries![(0, 1, 9), (0, 3, 10)])],
        (
            (4, 5),
            entries![
                (0, 0, 1),
                (1, 1, 3),
                (2, 1, 9),
                (3, 1, 4),
                (0, 2, 5),
                (2, 3, 10),
                (3, 3, 7),
                (0, 4, 8)
            ],
        ),
    ),
    (Call::Assign((1, 5)), &[GIVEN, ((2, 0), &[])], GIVEN),
    (Call::Assign((4, 1)), &[GIVEN, ((0, 2), &[])], GIVEN),
    (
        Call::Assign((0, 0)),
        &[GIVEN, ((4, 5), entries![(1, 0, 9), (3, 4, 10)])],
        ((4, 5), entries![(1, 0, 9), (3, 4, 10)]),
    ),
    (
        Call::Assign((1, 2)),
        &[((4, 5), &[]), CORNER],
        ((4, 5), entries![(2, 3, 5)]),
    ),
];

const TABLES: &[&[Case<'static>]] = &[
    SELECTED, DIAGONALS, REPLACED, EXTRACTED, KRONECKER, ASSIGNED,
];

const MORE_TABLES: &[&[Case<'static>]] = &[REORDERED, BORDERS];

#[test]
fn selections_have_the_right_entries(rt: HostRuntime) {
    assert!(rt; are_right(rt.alloc(), TABLES));
}

/// Passes whichever single allocation is refused (`rt try --test --fail-alloc N`, for each N in turn).
#[test]
fn refused_memory_is_reported(rt: HostRuntime) {
    assert!(rt; are_right_or_refused(rt.alloc(), TABLES));
}

#[test]
fn reordered_rows_and_borders_have_the_right_entries(rt: HostRuntime) {
    assert!(rt; are_right(rt.alloc(), MORE_TABLES));
}

/// Passes whichever single allocation is refused.
#[test]
fn refused_memory_at_borders_is_reported(rt: HostRuntime) {
    assert!(rt; are_right_or_refused(rt.alloc(), MORE_TABLES));
}

/// How many rows and columns the long block has: a prime, so the first so many multiples of a number that isn't 0 are all rows.
const SIDE: u32 = 101;

/// Whether the long block has an entry at a place, as it has at two of three.
fn has_entry(row: u32, column: u32) -> bool {
    (row % 7 + column % 5) % 3 != 0
}

/// The entries of the long block in listed rows and columns.
fn long_part(alloc: Global, rows: &[u32], cols: &[u32]) -> Result<Vec<Entry>, AllocError> {
    let mut entries = Vec::new(alloc);
    let mut j = 0u32;
    for column in cols {
        let mut i = 0u32;
        for row in rows {
            if has_entry(*row, *column) {
                let value = 1 + 1000 * u64::from(*row) + u64::from(*column);
                entries.push(entry(i, j, value))?;
            }
            i = i.wrapping_add(1);
        }
        j = j.wrapping_add(1);
    }
    Ok(entries)
}

/// The first multiples of a number, modulo the side of the long block.
fn multiples(alloc: Global, count: u32, factor: u32) -> Result<Vec<u32>, AllocError> {
    let mut numbers = Vec::new(alloc);
    for n in 0..count {
        numbers.push(n.wrapping_mul(factor) % SIDE)?;
    }
    Ok(numbers)
}

/// Whether listed rows and columns of the long block are found.
fn are_found(alloc: Global, rows: (u32, u32), cols: (u32, u32)) -> Result<bool, SampleFault> {
    let all = multiples(alloc, SIDE, 1)?;
    let whole = long_part(alloc, &all, &all)?;
    let some_rows = multiples(alloc, rows.0, rows.1)?;
    let some_cols = multiples(alloc, cols.0, cols.1)?;
    let part = long_part(alloc, &some_rows, &some_cols)?;
    let given: &[Given<'_>] = &[((SIDE, SIDE), &whole)];
    let call = Call::Extract(&some_rows, &some_cols);
    let is_part = is_right(alloc, &(call, given, ((rows.0, cols.0), &part)))?;
    Ok(is_part)
}

/// How many rows and of which number they are multiples, and the same of columns: in any order, backwards, in order, as
/// many as are sorted by insertion and one more, and one row again and again.
const LISTED: &[((u32, u32), (u32, u32))] = &[
    ((101, 37), (101, 12)),
    ((101, 100), (50, 2)),
    ((50, 37), (101, 100)),
    ((40, 2), (30, 3)),
    ((30, 55), (20, 1)),
    ((31, 55), (20, 1)),
    ((32, 55), (20, 1)),
    ((3, 0), (10, 9)),
    ((150, 37), (20, 5)),
];

/// Whether each of these parts of the long block is found.
fn all_are_found(alloc: Global, parts: &[((u32, u32), (u32, u32))]) -> Result<bool, SampleFault> {
    for (rows, cols) in parts {
        if !are_found(alloc, *rows, *cols)? {
            return Ok(false);
        }
    }
    Ok(true)
}

/// Passes whichever single allocation is refused.
#[test]
fn thousands_of_entries_in_listed_rows_are_found(rt: HostRuntime) {
    assert!(rt; is_right_or_refused(all_are_found(rt.alloc(), LISTED)));
}

/// How many columns the block has into which a part is assigned, with seven entries in each, and its part, with two.
const MANY: u32 = 1000;

const HALF: u32 = 500;

/// The entries of that block with its part of three rows at a corner replaced.
fn long_assigned(alloc: Global, corner: (u32, u32)) -> Result<Vec<Entry>, AllocError> {
    let mut entries = Vec::new(alloc);
    for column in 0..MANY {
        for row in 0u32..7 {
            let inner = row.wrapping_sub(corner.0);
            if inner >= 3 || column.wrapping_sub(corner.1) >= HALF {
                entries.push(entry(row, column, 1 + u64::from(row)))?;
            } else if inner != 1 {
                entries.push(entry(row, column, 20 + u64::from(inner)))?;
            }
        }
    }
    Ok(entries)
}

/// The entries of the part.
fn long_inset(alloc: Global) -> Result<Vec<Entry>, AllocError> {
    let mut entries = Vec::new(alloc);
    for column in 0..HALF {
        entries.push(entry(0, column, 20))?;
        entries.push(entry(2, column, 22))?;
    }
    Ok(entries)
}

/// Whether the part is assigned at a corner of the long block.
fn is_assigned(alloc: Global, corner: (u32, u32)) -> Result<bool, SampleFault> {
    let whole = block::<PlusTimes>(alloc, 7, MANY, &long_assigned(alloc, (7, MANY))?)?;
    let part = block::<PlusTimes>(alloc, 3, HALF, &long_inset(alloc)?)?;
    let wanted = long_assigned(alloc, corner)?;
    let assign = Computation::Selection(Selection::Assign(corner));
    is_computed(compute(alloc, assign, &[&whole, &part]), &wanted)
}

/// The corners of the long block, and a place inside it.
const PLACES: &[(u32, u32)] = &[(0, 0), (4, 0), (0, HALF), (4, HALF), (2, 250)];

/// Whether the part is assigned at each place.
fn all_assigned(alloc: Global, places: &[(u32, u32)]) -> Result<bool, SampleFault> {
    for corner in places {
        if !is_assigned(alloc, *corner)? {
            return Ok(false);
        }
    }
    Ok(true)
}

/// Passes whichever single allocation is refused.
#[test]
fn thousands_of_entries_are_assigned(rt: HostRuntime) {
    assert!(rt; is_right_or_refused(all_assigned(rt.alloc(), PLACES)));
}
