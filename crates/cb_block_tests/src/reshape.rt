//! Worked examples, with ample memory and with each allocation refused in turn.
ghost use Rattle.std.specs.Prelude.{◌≤◌};

use crate::calls::{Call, Case, Given, are_right, are_right_or_refused, is_right};
use crate::samples::is_right_or_refused;
use cb_matrix::{Entry, LIMIT};
use cb_samples::{SampleFault, entries, entry};
use std::alloc::{AllocError, Global};

/// The last row and the last column of the largest sides.
const LAST: u32 = LIMIT - 1;

/// Two by two.
const FIRST: Given<'static> = ((2, 2), entries![(0, 0, 1), (0, 1, 2), (1, 1, 3)]);

/// Entries in and around rows 1 to 2 of columns 1 to 3.
const SCATTERED: &[Entry] = entries![
    (1, 0, 1),
    (0, 1, 2),
    (1, 1, 3),
    (2, 1, 4),
    (3, 1, 5),
    (3, 2, 6),
    (2, 3, 7),
    (1, 4, 8)
];

/// The same by row and then by column.
const BY_ROW: &[Entry] = entries![
    (1, 0, 2),
    (0, 1, 1),
    (1, 1, 3),
    (4, 1, 8),
    (1, 2, 4),
    (3, 2, 7),
    (1, 3, 5),
    (2, 3, 6)
];

/// Three corners of the largest sides.
const CORNERS: Given<'static> = (
    (LIMIT, LIMIT),
    entries![(LAST, 0, 2), (0, LAST, 3), (LAST, LAST, 4)],
);

/// Two by two; four rows, for which entries are sorted by counting, and 2,147,483,647, for which they are compared; blocks
/// without entries; and the largest sides, which cost no more than the entries.
const TRANSPOSES: &[Case<'static>] = &[
    (
        Call::Transpose,
        &[FIRST],
        ((2, 2), entries![(0, 0, 1), (1, 0, 2), (1, 1, 3)]),
    ),
    (Call::Transpose, &[((4, 5), SCATTERED)], ((5, 4), BY_ROW)),
    (
        Call::Transpose,
        &[((LIMIT, 5), SCATTERED)],
        ((5, LIMIT), BY_ROW),
    ),
    (
        Call::Transpose,
        &[((3, 1), entries![(0, 0, 1), (2, 0, 2)])],
        ((1, 3), entries![(0, 0, 1), (0, 2, 2)]),
    ),
    (Call::Transpose, &[((0, 0), &[])], ((0, 0), &[])),
    (Call::Transpose, &[((0, 1), &[])], ((1, 0), &[])),
    (Call::Transpose, &[((1, 0), &[])], ((0, 1), &[])),
    (Call::Transpose, &[((1, 1), &[])], ((1, 1), &[])),
    (Call::Transpose, &[((LIMIT, 2), &[])], ((2, LIMIT), &[])),
    (
        Call::Transpose,
        &[CORNERS],
        (
            (LIMIT, LIMIT),
            entries![(LAST, 0, 3), (0, LAST, 2), (LAST, LAST, 4)],
        ),
    ),
];

/// Parts with one entry and with several, the whole block, an empty part, and the last place of the largest sides.
const PARTS: &[Case<'static>] = &[
    (
        Call::Cut((0, 1), (1, 2)),
        &[FIRST],
        ((1, 1), entries![(0, 0, 2)]),
    ),
    (
        Call::Cut((1, 3), (1, 4)),
        &[((4, 5), SCATTERED)],
        ((2, 3), entries![(0, 0, 3), (1, 0, 4), (1, 2, 7)]),
    ),
    // columns with rows before the part, in it and after it, in it alone, before it alone, and after it alone
    (
        Call::Cut((2, 6), (1, 5)),
        &[(
            (9, 6),
            entries![
                (3, 0, 1),
                (0, 1, 2),
                (1, 1, 3),
                (2, 1, 4),
                (5, 1, 5),
                (6, 1, 6),
                (8, 1, 7),
                (3, 2, 8),
                (4, 2, 9),
                (0, 3, 10),
                (1, 3, 11),
                (6, 4, 12),
                (5, 5, 13)
            ],
        )],
        ((4, 4), entries![(0, 0, 4), (3, 0, 5), (1, 1, 8), (2, 1, 9)]),
    ),
    (Call::Cut((0, 2), (0, 2)), &[FIRST], FIRST),
    (Call::Cut((1, 1), (0, 2)), &[FIRST], ((0, 2), &[])),
    (Call::Cut((0, 2), (2, 2)), &[FIRST], ((2, 0), &[])),
    (
        Call::Cut((0, LIMIT), (0, 2)),
        &[((LIMIT, 2), &[])],
        ((LIMIT, 2), &[]),
    ),
    (
        Call::Cut((LAST, LIMIT), (LAST, LIMIT)),
        &[CORNERS],
        ((1, 1), entries![(0, 0, 4)]),
    ),
    // whole columns: some in the middle, those without entries, the first one, and the last one of the largest sides
    (
        Call::Cut((0, 4), (1, 4)),
        &[((4, 5), SCATTERED)],
        (
            (4, 3),
            entries![
                (0, 0, 2),
                (1, 0, 3),
                (2, 0, 4),
                (3, 0, 5),
                (3, 1, 6),
                (2, 2, 7)
            ],
        ),
    ),
    (
        Call::Cut((0, LIMIT), (1, LAST)),
        &[CORNERS],
        ((LIMIT, LAST - 1), &[]),
    ),
    (
        Call::Cut((0, LIMIT), (0, 1)),
        &[CORNERS],
        ((LIMIT, 1), entries![(LAST, 0, 2)]),
    ),
    (
        Call::Cut((0, LIMIT), (LAST, LIMIT)),
        &[CORNERS],
        ((LIMIT, 1), entries![(0, 0, 3), (LAST, 0, 4)]),
    ),
];

/// One entry and several, a block without columns, one without entries, and the last place of the largest sides.
const PLACES: &[Case<'static>] = &[
    (
        Call::Place((2, 2), (1, 1)),
        &[((1, 1), entries![(0, 0, 2)])],
        ((2, 2), entries![(1, 1, 2)]),
    ),
    (
        Call::Place((9, 9), (7, 5)),
        &[((2, 3), entries![(0, 0, 3), (1, 0, 4), (1, 2, 7)])],
        ((9, 9), entries![(7, 5, 3), (8, 5, 4), (8, 7, 7)]),
    ),
    (Call::Place((2, 2), (0, 2)), &[((2, 0), &[])], ((2, 2), &[])),
    (
        Call::Place((LIMIT, 2), (0, 0)),
        &[((LIMIT, 2), &[])],
        ((LIMIT, 2), &[]),
    ),
    (
        Call::Place((LIMIT, LIMIT), (LAST, LAST)),
        &[((1, 1), entries![(0, 0, 4)])],
        ((LIMIT, LIMIT), entries![(LAST, LAST, 4)]),
    ),
];

const TABLES: &[&[Case<'static>]] = &[TRANSPOSES, PARTS, PLACES];

#[test]
fn transposes_parts_and_places(rt: HostRuntime) {
    assert!(rt; are_right(rt.alloc(), TABLES));
}

/// Passes whichever single allocation is refused (`rt try --test --fail-alloc N`, for each N in turn): the result is
/// right, or the error is want of memory.
#[test]
fn refused_memory_is_reported(rt: HostRuntime) {
    assert!(rt; are_right_or_refused(rt.alloc(), TABLES));
}

/// How many columns the long block has, with three entries in each.
const MANY: u32 = 1000;

/// The entries of the long block in a range of columns, moved so that row 0 and the first of these columns come to a corner.
fn long_part(alloc: Global, cols: (u32, u32), corner: (u32, u32)) -> Result<Vec<Entry>, AllocError>
    requires range { cols.0 ≤ cols.1 }
    requires end { cols.1 ≤ MANY }
    requires row { corner.0 ≤ MANY }
    requires column { corner.1 ≤ MANY }
{
    let mut entries = Vec::new(alloc);
    for column in cols.0..cols.1 {
        let place = column - cols.0 + corner.1;
        let value = 1 + u64::from(column);
        entries.push(entry(corner.0, place, value))?;
        entries.push(entry(1 + corner.0, place, 3 * value))?;
        entries.push(entry(3 + corner.0, place, 2 * value))?;
    }
    Ok(entries)
}

/// Whether a range of columns is cut from the long block, placed in a larger shape, and cut from there again.
fn moves(alloc: Global, cols: (u32, u32)) -> Result<bool, SampleFault>
    requires range { cols.0 ≤ cols.1 }
    requires end { cols.1 ≤ MANY }
{
    let width = cols.1 - cols.0;
    let whole = long_part(alloc, (0, MANY), (0, 0))?;
    let part = long_part(alloc, cols, (0, 0))?;
    let moved = long_part(alloc, cols, (1, 7))?;
    let (long, short, larger) = (
        ((4, MANY), whole.as_slice()),
        ((4, width), part.as_slice()),
        ((9, 2 * MANY), moved.as_slice()),
    );
    let is_cut = is_right(alloc, &(Call::Cut((0, 4), cols), &[long], short))?;
    let is_placed = is_right(
        alloc,
        &(Call::Place((9, 2 * MANY), (1, 7)), &[short], larger),
    )?;
    let place = (7, 7 + width);
    let is_cut_again = is_right(alloc, &(Call::Cut((1, 5), place), &[larger], short))?;
    Ok(is_cut && is_placed && is_cut_again)
}

/// All columns, none, the first, the last, and some between.
const RANGES: &[(u32, u32)] = &[
    (0, MANY),
    (500, 500),
    (0, 1),
    (MANY - 1, MANY),
    (1, 999),
    (250, 750),
];

/// Whether each range of columns moves.
fn all_move(alloc: Global, ranges: &[(u32, u32)]) -> Result<bool, SampleFault> {
    for cols in ranges {
        if cols.0 > cols.1 || cols.1 > MANY || !moves(alloc, *cols)? {
            return Ok(false);
        }
    }
    Ok(true)
}

/// Passes whichever single allocation is refused.
#[test]
fn thousands_of_entries_move(rt: HostRuntime) {
    assert!(rt; is_right_or_refused(all_move(rt.alloc(), RANGES)));
}
