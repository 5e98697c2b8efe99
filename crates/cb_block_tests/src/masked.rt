//! Products under masks and outside them: worked examples, with ample memory and with each allocation refused in turn.
use crate::calls::{Call, Case, Given, are_right, are_right_or_refused};
use cb_matrix::{Entry, LIMIT};
use cb_samples::entries;

const LAST: u32 = LIMIT - 1;

/// Two by two operands, whose product has 8, 12 below it, and 1 beside it.
const LEFT: Given<'static> = ((2, 2), entries![(0, 0, 1), (0, 1, 2), (1, 1, 3)]);

const RIGHT: Given<'static> = ((2, 2), entries![(1, 0, 4), (0, 1, 1)]);

const PRODUCT: Given<'static> = ((2, 2), entries![(0, 0, 8), (1, 0, 12), (0, 1, 1)]);

const NONE: Given<'static> = ((2, 2), &[]);

/// An entry at every place.
const ALL: Given<'static> = ((2, 2), entries![(0, 0, 1), (1, 0, 1), (0, 1, 1), (1, 1, 1)]);

/// The same operands, with a third column that has no entries, and a mask with an entry where the product has one, and two
/// where it has none.
const WIDE: &[Given<'static>] = &[
    LEFT,
    ((2, 3), entries![(1, 0, 4), (0, 1, 1)]),
    ((2, 3), entries![(1, 0, 9), (1, 1, 9), (0, 2, 9)]),
];

/// A sum that wraps to zero, and a product that does.
const SUM: &[Given<'static>] = &[
    (
        (3, 2),
        entries![(0, 0, 1), (2, 0, 1), (0, 1, u64::MAX), (1, 1, 5)],
    ),
    ((2, 1), entries![(0, 0, 1), (1, 0, 1)]),
    ((3, 1), entries![(0, 0, 1), (1, 0, 1)]),
];

const TERM: &[Given<'static>] = &[
    ((3, 1), entries![(0, 0, 1 << 63), (2, 0, 3)]),
    ((1, 2), entries![(0, 1, 2)]),
    ((3, 2), entries![(0, 1, 1), (2, 1, 1)]),
];

/// The largest sides.
const FAR: &[Given<'static>] = &[
    ((LIMIT, LIMIT), entries![(0, LAST, 7), (LAST, LAST, 5)]),
    ((LIMIT, LIMIT), entries![(LAST, 4, 3), (LAST, LAST, 2)]),
    (
        (LIMIT, LIMIT),
        entries![(5, 4, 1), (LAST, 4, 1), (0, LAST, 1)],
    ),
];

/// A column that is long compared with the mask's.
const LONG: &[Given<'static>] = &[
    (
        (40, 2),
        entries![
            (0, 0, 1),
            (1, 0, 2),
            (2, 0, 3),
            (3, 0, 4),
            (4, 0, 5),
            (5, 0, 6),
            (6, 0, 7),
            (7, 0, 8),
            (8, 0, 9),
            (9, 0, 10),
            (10, 0, 11),
            (11, 0, 12),
            (12, 0, 13),
            (13, 0, 14),
            (14, 0, 15),
            (15, 0, 16),
            (16, 0, 17),
            (17, 0, 18),
            (18, 0, 19),
            (19, 0, 20),
            (20, 0, 21),
            (22, 0, 22),
            (23, 0, 23),
            (24, 0, 24),
            (25, 0, 25),
            (26, 0, 26),
            (27, 0, 27),
            (28, 0, 28),
            (29, 0, 29),
            (30, 0, 30),
            (31, 0, 31),
            (32, 0, 32),
            (33, 0, 33),
            (34, 0, 34),
            (20, 1, 100),
            (21, 1, 200)
        ],
    ),
    ((2, 1), entries![(0, 0, 10), (1, 0, 1)]),
    ((40, 1), entries![(20, 0, 1), (21, 0, 1)]),
];

const OUTSIDE_LONG: &[Entry] = entries![
    (0, 0, 10),
    (1, 0, 20),
    (2, 0, 30),
    (3, 0, 40),
    (4, 0, 50),
    (5, 0, 60),
    (6, 0, 70),
    (7, 0, 80),
    (8, 0, 90),
    (9, 0, 100),
    (10, 0, 110),
    (11, 0, 120),
    (12, 0, 130),
    (13, 0, 140),
    (14, 0, 150),
    (15, 0, 160),
    (16, 0, 170),
    (17, 0, 180),
    (18, 0, 190),
    (19, 0, 200),
    (22, 0, 220),
    (23, 0, 230),
    (24, 0, 240),
    (25, 0, 250),
    (26, 0, 260),
    (27, 0, 270),
    (28, 0, 280),
    (29, 0, 290),
    (30, 0, 300),
    (31, 0, 310),
    (32, 0, 320),
    (33, 0, 330),
    (34, 0, 340)
];

/// A triangle and an edge. The square of the graph, masked by the graph, counts the triangles on each edge in both
/// directions.
const TRIANGLE: Given<'static> = (
    (4, 4),
    entries![
        (1, 0, 1),
        (2, 0, 1),
        (0, 1, 1),
        (2, 1, 1),
        (0, 2, 1),
        (1, 2, 1),
        (3, 2, 1),
        (2, 3, 1)
    ],
);

const UNDER: &[Case<'static>] = &[
    (Call::MultiplyMasked, &[LEFT, RIGHT, NONE], NONE),
    (Call::MultiplyMasked, &[LEFT, RIGHT, ALL], PRODUCT),
    (Call::MultiplyMasked, WIDE, ((2, 3), entries![(1, 0, 12)])),
    (Call::MultiplyMasked, SUM, ((3, 1), entries![(1, 0, 5)])),
    (Call::MultiplyMasked, TERM, ((3, 2), entries![(2, 1, 6)])),
    (
        Call::MultiplyMasked,
        FAR,
        ((LIMIT, LIMIT), entries![(LAST, 4, 15), (0, LAST, 14)]),
    ),
    (
        Call::MultiplyMasked,
        LONG,
        ((40, 1), entries![(20, 0, 310), (21, 0, 200)]),
    ),
    (
        Call::MultiplyMasked,
        &[TRIANGLE, TRIANGLE, TRIANGLE],
        (
            (4, 4),
            entries![
                (1, 0, 1),
                (2, 0, 1),
                (0, 1, 1),
                (2, 1, 1),
                (0, 2, 1),
                (1, 2, 1)
            ],
        ),
    ),
];

const OUTSIDE: &[Case<'static>] = &[
    (Call::MultiplyOutside, &[LEFT, RIGHT, NONE], PRODUCT),
    (Call::MultiplyOutside, &[LEFT, RIGHT, ALL], NONE),
    (
        Call::MultiplyOutside,
        WIDE,
        ((2, 3), entries![(0, 0, 8), (0, 1, 1)]),
    ),
    (Call::MultiplyOutside, SUM, ((3, 1), entries![(2, 0, 1)])),
    (Call::MultiplyOutside, TERM, ((3, 2), &[])),
    (
        Call::MultiplyOutside,
        FAR,
        ((LIMIT, LIMIT), entries![(0, 4, 21), (LAST, LAST, 10)]),
    ),
    (Call::MultiplyOutside, LONG, ((40, 1), OUTSIDE_LONG)),
    (
        Call::MultiplyOutside,
        &[TRIANGLE, TRIANGLE, TRIANGLE],
        (
            (4, 4),
            entries![
                (0, 0, 2),
                (3, 0, 1),
                (1, 1, 2),
                (3, 1, 1),
                (2, 2, 3),
                (0, 3, 1),
                (1, 3, 1),
                (3, 3, 1)
            ],
        ),
    ),
];

const TABLES: &[&[Case<'static>]] = &[UNDER, OUTSIDE];

#[test]
fn products_under_masks_and_outside_them(rt: HostRuntime) {
    assert!(rt; are_right(rt.alloc(), TABLES));
}

/// Passes whichever single allocation is refused (`rt try --test --fail-alloc N`, for each N in turn).
#[test]
fn a_refused_masked_product_reports_memory(rt: HostRuntime) {
    assert!(rt; are_right_or_refused(rt.alloc(), TABLES));
}
