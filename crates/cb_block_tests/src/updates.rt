//! Blocks updated under masks, products of transposes, and powers: worked rows, with ample memory and with each allocation
//! refused in turn.
use crate::calls::{Call, Case, Given, are_right, are_right_or_refused};
use cb_matrix::LIMIT;
use cb_samples::entries;
use cb_selections::WriteBack;

const TOP: u64 = u64::MAX;

const LAST: u32 = LIMIT - 1;

/// The new values take the place of the old ones.
const WRITE: WriteBack = WriteBack {
    complement: false,
    accumulate: false,
    replace: false,
};

/// They are added to the old ones.
const ADD: WriteBack = WriteBack {
    accumulate: true,
    ..WRITE
};

/// They take the place of the old ones, and other old entries are dropped.
const REPLACE: WriteBack = WriteBack {
    replace: true,
    ..WRITE
};

/// They are added to the old ones, and other old entries are dropped.
const ADD_AND_REPLACE: WriteBack = WriteBack {
    replace: true,
    ..ADD
};

/// The same under a complemented mask.
const WRITE_BESIDE: WriteBack = WriteBack {
    complement: true,
    ..WRITE
};

const ADD_BESIDE: WriteBack = WriteBack {
    complement: true,
    ..ADD
};

const REPLACE_BESIDE: WriteBack = WriteBack {
    complement: true,
    ..REPLACE
};

const ADD_AND_REPLACE_BESIDE: WriteBack = WriteBack {
    complement: true,
    ..ADD_AND_REPLACE
};

/// Two by three: the first row is old and the first column new, so that both, one and neither is there.
const OLD: Given<'static> = ((2, 3), entries![(0, 0, TOP), (0, 1, 2), (0, 2, 3)]);

const NEW: Given<'static> = ((2, 3), entries![(0, 0, 1), (1, 0, 4), (0, 1, 5)]);

/// The places of the mask: both, only the old, only the new, and neither of them.
const MASK: Given<'static> = ((2, 3), entries![(0, 0, 7), (1, 0, 7), (1, 1, 7), (0, 2, 7)]);

/// Two by three without entries.
const BLANK: Given<'static> = ((2, 3), &[]);

/// Each way to write under the mask and without one. A sum that is zero, 2^64, isn't stored.
const UPDATES: &[Case<'static>] = &[
    (
        Call::Update(WRITE),
        &[OLD, NEW, MASK],
        ((2, 3), entries![(0, 0, 1), (1, 0, 4), (0, 1, 2)]),
    ),
    (
        Call::Update(ADD),
        &[OLD, NEW, MASK],
        ((2, 3), entries![(1, 0, 4), (0, 1, 2), (0, 2, 3)]),
    ),
    (
        Call::Update(REPLACE),
        &[OLD, NEW, MASK],
        ((2, 3), entries![(0, 0, 1), (1, 0, 4)]),
    ),
    (
        Call::Update(ADD_AND_REPLACE),
        &[OLD, NEW, MASK],
        ((2, 3), entries![(1, 0, 4), (0, 2, 3)]),
    ),
    (
        Call::Update(WRITE_BESIDE),
        &[OLD, NEW, MASK],
        ((2, 3), entries![(0, 0, TOP), (0, 1, 5), (0, 2, 3)]),
    ),
    (
        Call::Update(ADD_BESIDE),
        &[OLD, NEW, MASK],
        ((2, 3), entries![(0, 0, TOP), (0, 1, 7), (0, 2, 3)]),
    ),
    (
        Call::Update(REPLACE_BESIDE),
        &[OLD, NEW, MASK],
        ((2, 3), entries![(0, 1, 5)]),
    ),
    (
        Call::Update(ADD_AND_REPLACE_BESIDE),
        &[OLD, NEW, MASK],
        ((2, 3), entries![(0, 1, 7)]),
    ),
    (Call::Update(WRITE), &[OLD, NEW], NEW),
    (
        Call::Update(ADD_AND_REPLACE),
        &[OLD, NEW],
        ((2, 3), entries![(1, 0, 4), (0, 1, 7), (0, 2, 3)]),
    ),
    (Call::Update(ADD_BESIDE), &[OLD, NEW], OLD),
    (Call::Update(REPLACE_BESIDE), &[OLD, NEW], BLANK),
    (
        Call::Update(WRITE),
        &[OLD, BLANK, MASK],
        ((2, 3), entries![(0, 1, 2)]),
    ),
    (Call::Update(ADD), &[OLD, NEW, ((2, 3), &[])], OLD),
    (
        Call::Update(WRITE),
        &[((0, 0), &[]), ((0, 0), &[]), ((0, 0), &[])],
        ((0, 0), &[]),
    ),
    (
        Call::Update(WRITE),
        &[
            ((LIMIT, LIMIT), entries![(LAST, 0, 1), (LAST, LAST, 2)]),
            ((LIMIT, LIMIT), entries![(LAST, 0, 3), (LAST, LAST, TOP)]),
            ((LIMIT, LIMIT), entries![(LAST, LAST, 1)]),
        ],
        ((LIMIT, LIMIT), entries![(LAST, 0, 1), (LAST, LAST, TOP)]),
    ),
];

/// Two by three.
const WIDE: Given<'static> = ((2, 3), entries![(0, 0, 2), (1, 1, 3), (0, 2, 5)]);

/// Sides of 0 and the largest sides too.
const PRODUCTS: &[Case<'static>] = &[
    (
        Call::MultiplyTurned(false, true),
        &[WIDE, NEW],
        ((2, 2), entries![(0, 0, 2), (1, 0, 15), (0, 1, 8)]),
    ),
    (
        Call::MultiplyTurned(true, false),
        &[WIDE, NEW],
        (
            (3, 3),
            entries![(0, 0, 2), (1, 0, 12), (2, 0, 5), (0, 1, 10), (2, 1, 25)],
        ),
    ),
    (
        Call::MultiplyTurned(true, true),
        &[
            ((2, 1), entries![(1, 0, 9)]),
            ((3, 2), entries![(0, 0, 1), (2, 1, 4)]),
        ],
        ((1, 3), entries![(0, 2, 36)]),
    ),
    (
        Call::MultiplyTurned(true, false),
        &[((0, 2), &[]), ((0, 3), &[])],
        ((2, 3), &[]),
    ),
    (
        Call::MultiplyTurned(false, true),
        &[
            ((LIMIT, LIMIT), entries![(LAST, 0, 6)]),
            ((LIMIT, LIMIT), entries![(LAST, 0, TOP)]),
        ],
        ((LIMIT, LIMIT), entries![(LAST, LAST, TOP - 5)]),
    ),
];

/// Two paths from 0 to 3, and an edge from there to 4.
const PATHS: Given<'static> = (
    (5, 5),
    entries![(0, 1, 1), (0, 2, 1), (1, 3, 1), (2, 3, 1), (3, 4, 1)],
);

/// One factor, two, three, four; sides of 0; the largest sides; and values modulo 2^64.
const POWERS: &[Case<'static>] = &[
    (Call::Power(1), &[PATHS], PATHS),
    (
        Call::Power(2),
        &[PATHS],
        ((5, 5), entries![(0, 3, 2), (1, 4, 1), (2, 4, 1)]),
    ),
    (Call::Power(3), &[PATHS], ((5, 5), entries![(0, 4, 2)])),
    (Call::Power(4), &[PATHS], ((5, 5), &[])),
    (Call::Power(9), &[((0, 0), &[])], ((0, 0), &[])),
    (
        Call::Power(5),
        &[((LIMIT, LIMIT), entries![(LAST, LAST, TOP)])],
        ((LIMIT, LIMIT), entries![(LAST, LAST, TOP)]),
    ),
    (
        Call::Power(2),
        &[((1, 1), entries![(0, 0, TOP)])],
        ((1, 1), entries![(0, 0, 1)]),
    ),
    (
        Call::Power(4),
        &[((2, 2), entries![(0, 0, 1), (0, 1, 1), (1, 1, 1)])],
        ((2, 2), entries![(0, 0, 1), (0, 1, 4), (1, 1, 1)]),
    ),
];

const TABLES: &[&[Case<'static>]] = &[UPDATES, PRODUCTS, POWERS];

#[test]
fn updates_turned_products_and_powers(rt: HostRuntime) {
    assert!(rt; are_right(rt.alloc(), TABLES));
}

/// Passes whichever single allocation is refused (`rt try --test --fail-alloc N`, for each N in turn).
#[test]
fn refused_memory_is_reported(rt: HostRuntime) {
    assert!(rt; are_right_or_refused(rt.alloc(), TABLES));
}
