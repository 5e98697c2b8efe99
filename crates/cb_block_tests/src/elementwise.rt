//! Worked examples, with ample memory and with each allocation refused in turn.
use crate::calls::{Call, Case, Given, are_right, are_right_or_refused};
use crate::samples::{is_computed, is_right_or_refused};
use cb_matrix::{Entry, LIMIT, Test};
use cb_operations::{Computation, Operation};
use cb_samples::{SampleFault, block, entries, entry};
use cb_semirings::PlusTimes;
use cb_serial::compute;
use std::alloc::{AllocError, Global};

const TOP: u64 = u64::MAX;

/// The last row and the last column of the largest sides.
const LAST: u32 = LIMIT - 1;

/// The operands of the worked examples, two by two.
const FIRST: Given<'static> = ((2, 2), entries![(0, 0, 1), (0, 1, 2), (1, 1, 3)]);

const SECOND: Given<'static> = ((2, 2), entries![(1, 0, 4), (0, 1, 1)]);

/// A block to mask.
const GIVEN: Given<'static> = ((2, 2), entries![(0, 0, 8), (1, 0, 12), (0, 1, 1)]);

const DIAGONAL: Given<'static> = ((2, 2), entries![(0, 0, 9), (1, 1, 9)]);

const NONE: Given<'static> = ((2, 2), &[]);

/// Two columns of large values.
const LARGE: Given<'static> = ((2, 1), entries![(0, 0, TOP), (1, 0, 1 << 32)]);

const LARGER: Given<'static> = ((2, 1), entries![(0, 0, 1), (1, 0, 1 << 32)]);

const FAR: Given<'static> = ((LIMIT, LIMIT), entries![(LAST, 0, 2), (LAST, LAST, 3)]);

const FARTHER: Given<'static> = ((LIMIT, LIMIT), entries![(0, LAST, 4), (LAST, LAST, 5)]);

const FAR_NONE: Given<'static> = ((LIMIT, LIMIT), &[]);

const SUMS_AND_PRODUCTS: &[Case<'static>] = &[
    (
        Call::Add,
        &[FIRST, SECOND],
        ((2, 2), entries![(0, 0, 1), (1, 0, 4), (0, 1, 3), (1, 1, 3)]),
    ),
    (Call::Times, &[FIRST, SECOND], ((2, 2), entries![(0, 1, 2)])),
    // results that are zero aren't stored
    (
        Call::Add,
        &[LARGE, LARGER],
        ((2, 1), entries![(1, 0, 1 << 33)]),
    ),
    (
        Call::Times,
        &[LARGE, LARGER],
        ((2, 1), entries![(0, 0, TOP)]),
    ),
    // the largest sides, which cost no more than the entries
    (
        Call::Add,
        &[FAR, FARTHER],
        (
            (LIMIT, LIMIT),
            entries![(LAST, 0, 2), (0, LAST, 4), (LAST, LAST, 8)],
        ),
    ),
    (
        Call::Times,
        &[FAR, FARTHER],
        ((LIMIT, LIMIT), entries![(LAST, LAST, 15)]),
    ),
    // no entries
    (Call::Add, &[FAR_NONE, FAR_NONE], FAR_NONE),
    (Call::Times, &[((1, 0), &[]), ((1, 0), &[])], ((1, 0), &[])),
];

const MASKS: &[Case<'static>] = &[
    (Call::Mask, &[FIRST, SECOND], ((2, 2), entries![(0, 1, 2)])),
    (
        Call::Mask,
        &[GIVEN, DIAGONAL],
        ((2, 2), entries![(0, 0, 8)]),
    ),
    (Call::Mask, &[GIVEN, NONE], NONE),
    (
        Call::Exclude,
        &[FIRST, SECOND],
        ((2, 2), entries![(0, 0, 1), (1, 1, 3)]),
    ),
    (Call::Exclude, &[GIVEN, NONE], GIVEN),
    (
        Call::Mask,
        &[FAR, FARTHER],
        ((LIMIT, LIMIT), entries![(LAST, LAST, 3)]),
    ),
    (
        Call::Exclude,
        &[FAR, FARTHER],
        ((LIMIT, LIMIT), entries![(LAST, 0, 2)]),
    ),
    (Call::Mask, &[((0, 1), &[]), ((0, 1), &[])], ((0, 1), &[])),
    (
        Call::Exclude,
        &[((1, 0), &[]), ((1, 0), &[])],
        ((1, 0), &[]),
    ),
];

/// Columns that both blocks have, and that one of them has alone: first, last, and several in a row. In column 3 their rows
/// alternate, and the left block's go on; in column 4 the right block's go on; the sum of column 5 is zero.
const LEFT: Given<'static> = (
    (6, 8),
    entries![
        (0, 0, 1),
        (5, 1, 2),
        (0, 3, 1),
        (2, 3, 2),
        (3, 3, 3),
        (5, 3, 4),
        (0, 4, 5),
        (1, 5, TOP),
        (2, 6, 6)
    ],
);

const RIGHT: Given<'static> = (
    (6, 8),
    entries![
        (1, 2, 10),
        (1, 3, 20),
        (2, 3, 30),
        (4, 3, 40),
        (2, 4, 50),
        (3, 4, 60),
        (1, 5, 1),
        (0, 7, 70)
    ],
);

const NEITHER: Given<'static> = ((6, 8), &[]);

const BOTH_ADDED: Given<'static> = (
    (6, 8),
    entries![
        (0, 0, 1),
        (5, 1, 2),
        (1, 2, 10),
        (0, 3, 1),
        (1, 3, 20),
        (2, 3, 32),
        (3, 3, 3),
        (4, 3, 40),
        (5, 3, 4),
        (0, 4, 5),
        (2, 4, 50),
        (3, 4, 60),
        (2, 6, 6),
        (0, 7, 70)
    ],
);

const COLUMNS: &[Case<'static>] = &[
    (Call::Add, &[LEFT, RIGHT], BOTH_ADDED),
    (Call::Add, &[RIGHT, LEFT], BOTH_ADDED),
    (
        Call::Times,
        &[LEFT, RIGHT],
        ((6, 8), entries![(2, 3, 60), (1, 5, TOP)]),
    ),
    (
        Call::Mask,
        &[LEFT, RIGHT],
        ((6, 8), entries![(2, 3, 2), (1, 5, TOP)]),
    ),
    (
        Call::Mask,
        &[RIGHT, LEFT],
        ((6, 8), entries![(2, 3, 30), (1, 5, 1)]),
    ),
    (
        Call::Exclude,
        &[LEFT, RIGHT],
        (
            (6, 8),
            entries![
                (0, 0, 1),
                (5, 1, 2),
                (0, 3, 1),
                (3, 3, 3),
                (5, 3, 4),
                (0, 4, 5),
                (2, 6, 6)
            ],
        ),
    ),
    (
        Call::Exclude,
        &[RIGHT, LEFT],
        (
            (6, 8),
            entries![
                (1, 2, 10),
                (1, 3, 20),
                (4, 3, 40),
                (2, 4, 50),
                (3, 4, 60),
                (0, 7, 70)
            ],
        ),
    ),
    // one block has no entries
    (Call::Add, &[LEFT, NEITHER], LEFT),
    (Call::Add, &[NEITHER, LEFT], LEFT),
    (Call::Times, &[LEFT, NEITHER], NEITHER),
    (Call::Times, &[NEITHER, LEFT], NEITHER),
    (Call::Mask, &[NEITHER, LEFT], NEITHER),
    (Call::Exclude, &[NEITHER, LEFT], NEITHER),
    // no entry is left
    (
        Call::Add,
        &[
            ((2, 1), entries![(0, 0, TOP)]),
            ((2, 1), entries![(0, 0, 1)]),
        ],
        ((2, 1), &[]),
    ),
    (Call::Exclude, &[LEFT, LEFT], NEITHER),
];

/// A column with 48 even rows. In a column that is far longer than the other, rows are searched: here if the other has two.
const EVEN: Given<'static> = (
    (100, 1),
    entries![
        (0, 0, 1),
        (2, 0, 2),
        (4, 0, 3),
        (6, 0, 4),
        (8, 0, 5),
        (10, 0, 6),
        (12, 0, 7),
        (14, 0, 8),
        (16, 0, 9),
        (18, 0, 10),
        (20, 0, 11),
        (22, 0, 12),
        (24, 0, 13),
        (26, 0, 14),
        (28, 0, 15),
        (30, 0, 16),
        (32, 0, 17),
        (34, 0, 18),
        (36, 0, 19),
        (38, 0, 20),
        (40, 0, 21),
        (42, 0, 22),
        (44, 0, 23),
        (46, 0, 24),
        (48, 0, 25),
        (50, 0, 26),
        (52, 0, 27),
        (54, 0, 28),
        (56, 0, 29),
        (58, 0, 30),
        (60, 0, 31),
        (62, 0, 32),
        (64, 0, 33),
        (66, 0, 34),
        (68, 0, 35),
        (70, 0, 36),
        (72, 0, 37),
        (74, 0, 38),
        (76, 0, 39),
        (78, 0, 40),
        (80, 0, 41),
        (82, 0, 42),
        (84, 0, 43),
        (86, 0, 44),
        (88, 0, 45),
        (90, 0, 46),
        (92, 0, 47),
        (94, 0, 48)
    ],
);

/// The first and the last of these rows; one between two of them, and one of them; one past them; one more of them.
const ENDS: Given<'static> = ((100, 1), entries![(0, 0, 10), (94, 0, 20)]);

const MIDDLE: Given<'static> = ((100, 1), entries![(41, 0, 10), (60, 0, 20)]);

const PAST: Given<'static> = ((100, 1), entries![(95, 0, 10)]);

const THREE: Given<'static> = ((100, 1), entries![(1, 0, 10), (60, 0, 20), (94, 0, 30)]);

const FAR_LONGER: &[Case<'static>] = &[
    (
        Call::Times,
        &[EVEN, ENDS],
        ((100, 1), entries![(0, 0, 10), (94, 0, 960)]),
    ),
    (
        Call::Times,
        &[ENDS, EVEN],
        ((100, 1), entries![(0, 0, 10), (94, 0, 960)]),
    ),
    (
        Call::Times,
        &[EVEN, MIDDLE],
        ((100, 1), entries![(60, 0, 620)]),
    ),
    (
        Call::Times,
        &[MIDDLE, EVEN],
        ((100, 1), entries![(60, 0, 620)]),
    ),
    (Call::Times, &[EVEN, PAST], ((100, 1), &[])),
    (Call::Times, &[PAST, EVEN], ((100, 1), &[])),
    (
        Call::Times,
        &[EVEN, THREE],
        ((100, 1), entries![(60, 0, 620), (94, 0, 1440)]),
    ),
    (
        Call::Times,
        &[THREE, EVEN],
        ((100, 1), entries![(60, 0, 620), (94, 0, 1440)]),
    ),
    (
        Call::Mask,
        &[EVEN, ENDS],
        ((100, 1), entries![(0, 0, 1), (94, 0, 48)]),
    ),
    (
        Call::Mask,
        &[MIDDLE, EVEN],
        ((100, 1), entries![(60, 0, 20)]),
    ),
    (
        Call::Exclude,
        &[MIDDLE, EVEN],
        ((100, 1), entries![(41, 0, 10)]),
    ),
];

/// Those that are dropped are strictly below, strictly above, or equal.
const PRUNED: &[Case<'static>] = &[
    (
        Call::Prune(Test::Above(1)),
        &[FIRST],
        ((2, 2), entries![(0, 0, 1)]),
    ),
    (
        Call::Prune(Test::Above(2)),
        &[FIRST],
        ((2, 2), entries![(0, 0, 1), (0, 1, 2)]),
    ),
    (
        Call::Prune(Test::Below(2)),
        &[FIRST],
        ((2, 2), entries![(0, 1, 2), (1, 1, 3)]),
    ),
    (Call::Prune(Test::Below(0)), &[FIRST], FIRST),
    (
        Call::Prune(Test::Equal(2)),
        &[FIRST],
        ((2, 2), entries![(0, 0, 1), (1, 1, 3)]),
    ),
    (Call::Prune(Test::Above(0)), &[FIRST], NONE),
    (
        Call::Prune(Test::Above(2)),
        &[FAR],
        ((LIMIT, LIMIT), entries![(LAST, 0, 2)]),
    ),
    (Call::Prune(Test::Below(1)), &[((0, 1), &[])], ((0, 1), &[])),
    (Call::Prune(Test::Below(1)), &[FAR_NONE], FAR_NONE),
];

/// Columns of which one lies wholly in front of the other: in adjacent rows, and with rows between. In the last column the first
/// row of one is the last of the other.
const UPPER: Given<'static> = (
    (8, 3),
    entries![
        (0, 0, 1),
        (1, 0, 2),
        (2, 0, 3),
        (1, 1, 4),
        (0, 2, 5),
        (3, 2, 6)
    ],
);

const LOWER: Given<'static> = (
    (8, 3),
    entries![
        (3, 0, 10),
        (6, 0, 20),
        (7, 0, 30),
        (7, 1, 40),
        (3, 2, 50),
        (5, 2, 60)
    ],
);

const BOTH_LAYERS: Given<'static> = (
    (8, 3),
    entries![
        (0, 0, 1),
        (1, 0, 2),
        (2, 0, 3),
        (3, 0, 10),
        (6, 0, 20),
        (7, 0, 30),
        (1, 1, 4),
        (7, 1, 40),
        (0, 2, 5),
        (3, 2, 56),
        (5, 2, 60)
    ],
);

const APART: &[Case<'static>] = &[
    (Call::Add, &[UPPER, LOWER], BOTH_LAYERS),
    (Call::Add, &[LOWER, UPPER], BOTH_LAYERS),
    (
        Call::Times,
        &[UPPER, LOWER],
        ((8, 3), entries![(3, 2, 300)]),
    ),
    (Call::Mask, &[LOWER, UPPER], ((8, 3), entries![(3, 2, 50)])),
    (
        Call::Exclude,
        &[UPPER, LOWER],
        (
            (8, 3),
            entries![(0, 0, 1), (1, 0, 2), (2, 0, 3), (1, 1, 4), (0, 2, 5)],
        ),
    ),
    (
        Call::Exclude,
        &[LOWER, UPPER],
        (
            (8, 3),
            entries![(3, 0, 10), (6, 0, 20), (7, 0, 30), (7, 1, 40), (5, 2, 60)],
        ),
    ),
];

const TABLES: &[&[Case<'static>]] = &[SUMS_AND_PRODUCTS, MASKS, COLUMNS, FAR_LONGER, PRUNED, APART];

#[test]
fn sums_products_masks_and_prunings(rt: HostRuntime) {
    assert!(rt; are_right(rt.alloc(), TABLES));
}

/// Passes whichever single allocation is refused (`rt try --test --fail-alloc N`, for each N in turn): the result is
/// right, or the error is want of memory.
#[test]
fn refused_memory_is_reported(rt: HostRuntime) {
    assert!(rt; are_right_or_refused(rt.alloc(), TABLES));
}

/// How many columns the layers have.
const MANY: u32 = 1000;

/// Entries in some rows of each column.
fn layer(alloc: Global, rows: (u32, u32)) -> Result<Vec<Entry>, AllocError> {
    let mut entries = Vec::new(alloc);
    for column in 0..MANY {
        for row in rows.0..rows.1 {
            entries.push(entry(row, column, 1 + u64::from(row)))?;
        }
    }
    Ok(entries)
}

/// Whether two layers, of which one lies wholly in front of the other in each column, are added in both orders.
fn layers_are_added(alloc: Global) -> Result<bool, SampleFault> {
    let upper = block::<PlusTimes>(alloc, 7, MANY, &layer(alloc, (0, 3))?)?;
    let lower = block::<PlusTimes>(alloc, 7, MANY, &layer(alloc, (3, 7))?)?;
    let both = layer(alloc, (0, 7))?;
    let add = Computation::Operation(Operation::Add);
    let are_right = is_computed(compute(alloc, add, &[&upper, &lower]), &both)?;
    let are_turned_right = is_computed(compute(alloc, add, &[&lower, &upper]), &both)?;
    Ok(are_right && are_turned_right)
}

/// Passes whichever single allocation is refused.
#[test]
fn thousands_of_entries_are_added(rt: HostRuntime) {
    assert!(rt; is_right_or_refused(layers_are_added(rt.alloc())));
}
