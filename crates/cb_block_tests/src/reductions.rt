//! Sums of rows, of columns and of all values, with ample memory and with each allocation refused in turn.
ghost use Rattle.std.specs.Prelude.{◌<◌, ◌≤◌, ◌^◌};

use crate::calls::{Call, Case, Given, are_right, are_right_or_refused};
use crate::samples::{has_entries, is_right_or_refused};
use cb_matrix::{Entry, LIMIT};
use cb_reshape::{row_sums, total};
use cb_samples::{SampleFault, block, entries, entry};
use cb_semirings::PlusTimes;
use std::alloc::{AllocError, Global};

/// The last row and the last column of the largest sides.
const LAST: u32 = LIMIT - 1;

/// Entries of one row and of one column.
const GIVEN: Given<'static> = (
    (5, 4),
    entries![(0, 0, 1), (2, 0, 4), (0, 1, 2), (2, 3, 7), (3, 3, 8)],
);

/// Sums of a column and of a row that are 2^64, which is zero.
const TALL: Given<'static> = ((2, 2), entries![(0, 0, u64::MAX), (1, 0, 1), (1, 1, 1)]);

const WIDE: Given<'static> = ((1, 2), entries![(0, 0, u64::MAX), (0, 1, 1)]);

/// The largest sides, which cost no more than the entries.
const FAR: Given<'static> = (
    (LIMIT, LIMIT),
    entries![(LAST, 0, 2), (0, LAST, 3), (LAST, LAST, 4)],
);

/// Without entries too.
const SUMS: &[Case<'static>] = &[
    (
        Call::RowSums,
        &[GIVEN],
        ((5, 1), entries![(0, 0, 3), (2, 0, 11), (3, 0, 8)]),
    ),
    (
        Call::ColumnSums,
        &[GIVEN],
        ((1, 4), entries![(0, 0, 5), (0, 1, 2), (0, 3, 15)]),
    ),
    (
        Call::RowSums,
        &[TALL],
        ((2, 1), entries![(0, 0, u64::MAX), (1, 0, 2)]),
    ),
    (Call::ColumnSums, &[TALL], ((1, 2), entries![(0, 1, 1)])),
    (Call::RowSums, &[WIDE], ((1, 1), &[])),
    (Call::ColumnSums, &[WIDE], WIDE),
    (Call::RowSums, &[((0, 0), &[])], ((0, 1), &[])),
    (Call::ColumnSums, &[((0, 0), &[])], ((1, 0), &[])),
    (Call::RowSums, &[((3, 0), &[])], ((3, 1), &[])),
    (Call::ColumnSums, &[((3, 0), &[])], ((1, 0), &[])),
    (Call::RowSums, &[((0, 3), &[])], ((0, 1), &[])),
    (Call::ColumnSums, &[((0, 3), &[])], ((1, 3), &[])),
    (
        Call::RowSums,
        &[FAR],
        ((LIMIT, 1), entries![(0, 0, 3), (LAST, 0, 6)]),
    ),
    (
        Call::ColumnSums,
        &[FAR],
        ((1, LIMIT), entries![(0, 0, 2), (0, LAST, 7)]),
    ),
];

#[test]
fn entries_are_added_up(rt: HostRuntime) {
    assert!(rt; are_right(rt.alloc(), &[SUMS]));
}

/// The numbers of rows of blocks of 3,000 entries. Up to 12,003 the sums are added up in a list of all rows.
const TALL_SIDES: &[u32] = &[100, 3_001, 12_003, 12_004, LIMIT];

/// Thirty columns of a hundred entries each, in the rows that are multiples of `step`.
fn spread(alloc: Global, step: u32) -> Result<Vec<Entry>, AllocError>
    requires { step ≤ 21474836 }
{
    let mut entries = Vec::with_capacity(alloc, 3_000)?;
    for column in 0..30u32 {
        for n in 0..100u32 {
            entries.push(entry(n * step, column, 1 + u64::from(column + n)))?;
        }
    }
    Ok(entries)
}

/// The sums of its rows: 30 times 1 + n in row n of a hundred, and the sum of the numbers below 30.
fn sums_of_spread(alloc: Global, step: u32) -> Result<Vec<Entry>, AllocError>
    requires { step ≤ 21474836 }
{
    let mut entries = Vec::with_capacity(alloc, 100)?;
    for n in 0..100u32 {
        entries.push(entry(n * step, 0, 30 * (1 + u64::from(n)) + 435))?;
    }
    Ok(entries)
}

/// Whether the rows of a block of 3,000 entries and this many rows have the right sums.
fn has_row_sums(alloc: Global, rows: u32) -> Result<bool, SampleFault>
    requires { rows < 2 ^ 31 }
{
    let step = rows / 100;
    let whole = block::<PlusTimes>(alloc, rows, 30, &spread(alloc, step)?)?;
    let sums = row_sums(alloc, &whole)?;
    Ok(has_entries(&sums, &sums_of_spread(alloc, step)?) && sums.shape().rows() == rows)
}

/// Passes whichever single allocation is refused.
#[test]
fn many_entries_are_added_up_by_row(rt: HostRuntime) {
    for rows in TALL_SIDES {
        if *rows <= LIMIT {
            assert!(rt; is_right_or_refused(has_row_sums(rt.alloc(), *rows)));
        }
    }
}

/// Whether the sum of all values is this one.
fn has_total(alloc: Global, given: &Given<'_>, wanted: u64) -> Result<bool, SampleFault> {
    let (sides, entries) = given;
    let whole = block::<PlusTimes>(alloc, sides.0, sides.1, entries)?;
    Ok(total(&whole) == wanted)
}

#[test]
fn all_values_have_a_sum(rt: HostRuntime) {
    for (given, wanted) in &[(GIVEN, 22), (WIDE, 0), (FAR, 9)] {
        assert!(rt; has_total(rt.alloc(), given, *wanted) == Ok(true));
    }
}

/// Passes whichever single allocation is refused (`rt try --test --fail-alloc N`, for each N in turn): the call reports
/// it, or its result is right.
#[test]
fn refused_memory_is_reported(rt: HostRuntime) {
    assert!(rt; are_right_or_refused(rt.alloc(), &[SUMS]));
}
