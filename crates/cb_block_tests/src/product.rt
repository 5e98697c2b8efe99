//! Worked examples, with ample memory and with each allocation refused in turn.
ghost use Rattle.std.specs.Prelude.{◌≡◌, true};
ghost use Rattle.cb_product.specs.SeveralProducts.{MakeShape};

use crate::calls::{Call, Case, are_right, are_right_or_refused, is_right};
use crate::matrix::matrix;
use crate::samples::has_entries;
use cb_dcsc::{Block, BlockFault};
use cb_matrix::{Entry, LIMIT, Matrix, Shape};
use cb_product::{Factors, multiply_all_into, multiply_into};
use cb_samples::{SampleFault, block, entries, entry};
use cb_semirings::PlusTimes;
use std::alloc::{AllocError, Global};

/// The last row and the last column of the largest sides.
const LAST: u32 = LIMIT - 1;

/// Entries in columns 1, 3, 4 and 6 alone.
const GAPPED: &'static [Entry] = entries![
    (1, 1, 10),
    (0, 3, 30),
    (2, 3, 31),
    (4, 4, 40),
    (3, 6, 60)
];

/// Three columns that share row 1.
const MEETING: &'static [Entry] = entries![
    (1, 0, 1),
    (3, 0, 2),
    (0, 1, 4),
    (1, 1, 8),
    (1, 2, 16),
    (4, 2, 32)
];

const SUMS_OF_MEETING: &'static [Entry] = entries![(0, 0, 4), (1, 0, 25), (3, 0, 2), (4, 0, 32)];

/// One entry in each of eight rows.
const EIGHT: &[Entry] = entries![
    (0, 0, 1),
    (1, 0, 1),
    (2, 0, 1),
    (3, 0, 1),
    (4, 0, 1),
    (5, 0, 1),
    (6, 0, 1),
    (7, 0, 1)
];

const SUMS_OF_GAPPED: &[Entry] = entries![
    (0, 0, 30),
    (1, 0, 10),
    (2, 0, 31),
    (3, 0, 60),
    (4, 0, 40)
];

const PRODUCTS: &[Case<'static>] = &[
    // two by two
    (
        Call::Multiply,
        &[
            ((2, 2), entries![(0, 0, 1), (0, 1, 2), (1, 1, 3)]),
            ((2, 2), entries![(1, 0, 4), (0, 1, 1)]),
        ],
        ((2, 2), entries![(0, 0, 8), (1, 0, 12), (0, 1, 1)]),
    ),
    // a sum that is zero
    (
        Call::Multiply,
        &[
            (
                (3, 2),
                entries![(0, 0, 1), (2, 0, 1), (0, 1, u64::MAX), (1, 1, 5)],
            ),
            ((2, 1), entries![(0, 0, 1), (1, 0, 1)]),
        ],
        ((3, 1), entries![(1, 0, 5), (2, 0, 1)]),
    ),
    // a sum that is zero, until a third product is added
    (
        Call::Multiply,
        &[
            (
                (2, 3),
                entries![(0, 0, 1), (0, 1, u64::MAX), (1, 1, 7), (0, 2, 5)],
            ),
            ((3, 1), entries![(0, 0, 1), (1, 0, 1), (2, 0, 1)]),
        ],
        ((2, 1), entries![(0, 0, 5), (1, 0, 7)]),
    ),
    // the largest sides, which cost no more than the entries
    (
        Call::Multiply,
        &[
            ((LIMIT, LIMIT), entries![(0, LAST, 7), (LAST, LAST, 5)]),
            ((LIMIT, LIMIT), entries![(LAST, 4, 3)]),
        ],
        ((LIMIT, LIMIT), entries![(0, 4, 21), (LAST, 4, 15)]),
    ),
    // columns that select one column and are scaled copies of it, where 2 times 2^63 is zero
    (
        Call::Multiply,
        &[
            ((3, 2), entries![(0, 0, 1 << 63), (2, 0, 3), (1, 1, 9)]),
            ((2, 2), entries![(0, 0, 2), (1, 1, 5)]),
        ],
        ((3, 2), entries![(2, 0, 6), (1, 1, 45)]),
    ),
    // one column of the largest sides
    (
        Call::Multiply,
        &[
            ((LIMIT, LIMIT), entries![(0, 7, 4), (LAST, LAST, 3)]),
            ((LIMIT, 1), entries![(LAST, 0, 2)]),
        ],
        ((LIMIT, 1), entries![(LAST, 0, 6)]),
    ),
    // with 5 rows the products are summed row by row, with 2,147,483,647 the columns are joined
    (
        Call::Multiply,
        &[
            ((5, 3), MEETING),
            ((3, 1), entries![(0, 0, 1), (1, 0, 1), (2, 0, 1)]),
        ],
        ((5, 1), SUMS_OF_MEETING),
    ),
    (
        Call::Multiply,
        &[
            ((LIMIT, 3), MEETING),
            ((3, 1), entries![(0, 0, 1), (1, 0, 1), (2, 0, 1)]),
        ],
        ((LIMIT, 1), SUMS_OF_MEETING),
    ),
    // neither block has entries
    (
        Call::Multiply,
        &[((2, 3), &[]), ((3, 4), &[])],
        ((2, 4), &[]),
    ),
    // a column that has entries, and columns without entries before, between and after those that do: each product
    // looks up one of them
    (
        Call::Multiply,
        &[((5, 8), GAPPED), ((8, 1), entries![(3, 0, 1)])],
        ((5, 1), entries![(0, 0, 30), (2, 0, 31)]),
    ),
    (
        Call::Multiply,
        &[((5, 8), GAPPED), ((8, 1), entries![(0, 0, 1)])],
        ((5, 1), &[]),
    ),
    (
        Call::Multiply,
        &[((5, 8), GAPPED), ((8, 1), entries![(5, 0, 1)])],
        ((5, 1), &[]),
    ),
    (
        Call::Multiply,
        &[((5, 8), GAPPED), ((8, 1), entries![(7, 0, 1)])],
        ((5, 1), &[]),
    ),
    // no rows or no columns
    (
        Call::Multiply,
        &[((0, 0), &[]), ((0, 0), &[])],
        ((0, 0), &[]),
    ),
    (
        Call::Multiply,
        &[((0, 3), &[]), ((3, 2), &[])],
        ((0, 2), &[]),
    ),
    (
        Call::Multiply,
        &[((2, 0), &[]), ((0, 3), &[])],
        ((2, 3), &[]),
    ),
    (
        Call::Multiply,
        &[((2, 3), &[]), ((3, 0), &[])],
        ((2, 0), &[]),
    ),
    // eight columns are looked up: with 8 the index is an array of starts, with 2,147,483,647 it is a hash table
    (
        Call::Multiply,
        &[((5, 8), GAPPED), ((8, 1), EIGHT)],
        ((5, 1), SUMS_OF_GAPPED),
    ),
    (
        Call::Multiply,
        &[((5, LIMIT), GAPPED), ((LIMIT, 1), EIGHT)],
        ((5, 1), SUMS_OF_GAPPED),
    ),
];

#[test]
fn products_of_plus_times(rt: HostRuntime) {
    assert!(rt; are_right(rt.alloc(), &[PRODUCTS]));
}

/// This many entries of one column, whose rows are `step` apart.
fn rows_apart(
    alloc: Global,
    step: u32,
    count: u32,
    column: u32,
    value: u64,
) -> Result<Vec<Entry>, AllocError> {
    let mut entries = Vec::new(alloc);
    for n in 0..count {
        entries.push(entry(n.wrapping_mul(step), column, value))?;
    }
    Ok(entries)
}

/// Entries in columns that are 200,000,000 apart.
const FAR_APART: &'static [Entry] = entries![
    (0, 0, 1),
    (1, 200_000_000, 2),
    (2, 400_000_000, 3),
    (3, 600_000_000, 4),
    (4, 800_000_000, 5),
    (5, 1_000_000_000, 6),
    (6, 1_200_000_000, 7),
    (7, 1_400_000_000, 8)
];

/// Whether columns that are 25,000,000 apart are looked up correctly in a block where one in eight of them has an entry.
fn finds_one_in_eight(alloc: Global) -> Result<bool, SampleFault> {
    let asked = rows_apart(alloc, 25_000_000, 64, 5, 3)?;
    let wanted = entries![
        (0, 5, 3),
        (1, 5, 6),
        (2, 5, 9),
        (3, 5, 12),
        (4, 5, 15),
        (5, 5, 18),
        (6, 5, 21),
        (7, 5, 24)
    ];
    let sides = (LIMIT, LIMIT);
    let operands = [(sides, FAR_APART), (sides, asked.as_slice())];
    is_right(alloc, &(Call::Multiply, &operands, (sides, wanted)))
}

#[test]
fn the_hash_table_finds_columns_with_and_without_entries(rt: HostRuntime) {
    assert!(rt; finds_one_in_eight(rt.alloc()) == Ok(true));
}

/// Ten columns, each with these entries.
fn ten_columns(alloc: Global, rows: &[(u32, u64)]) -> Result<Vec<Entry>, AllocError> {
    let mut entries = Vec::new(alloc);
    for column in 0..10 {
        for (row, value) in rows {
            entries.push(entry(*row, column, *value))?;
        }
    }
    Ok(entries)
}

/// Rows at both ends of the words of a bitmap, one of them twice.
const MARKED: &'static [Entry] = entries![
    (0, 0, 1),
    (64, 0, 2),
    (127, 0, 4),
    (199, 0, 8),
    (63, 1, 16),
    (64, 1, 32),
    (128, 1, 64)
];

/// Whether each of ten columns of a product has its rows in order.
fn has_marked_rows(alloc: Global) -> Result<bool, SampleFault> {
    let right = ten_columns(alloc, &[(0, 1), (1, 1)])?;
    let sums = [(0, 1), (63, 16), (64, 34), (127, 4), (128, 64), (199, 8)];
    let product = ten_columns(alloc, &sums)?;
    let operands = [((200, 2), MARKED), ((2, 10), right.as_slice())];
    let wanted = ((200, 10), product.as_slice());
    is_right(alloc, &(Call::Multiply, &operands, wanted))
}

/// The first columns are joined, the last are summed.
#[test]
fn marked_rows_come_in_order(rt: HostRuntime) {
    assert!(rt; has_marked_rows(rt.alloc()) == Ok(true));
}

/// A column with an entry in every third row, and two with entries at both ends of groups of 4,096 rows.
fn far_apart(alloc: Global) -> Result<Vec<Entry>, AllocError> {
    let mut entries = Vec::new(alloc);
    for n in 0..6666u32 {
        entries.push(entry(n.wrapping_mul(3), 0, u64::from(n) + 1))?;
    }
    for (row, column, value) in [
        (4095, 1, 2),
        (4096, 1, 3),
        (8191, 1, 5),
        (8191, 2, 7),
        (12288, 2, 11),
        (19999, 2, 13),
    ] {
        entries.push(entry(row, column, value))?;
    }
    Ok(entries)
}

/// Columns that select one column, two, and all three.
const FAR: &[Entry] = entries![
    (0, 0, 1),
    (1, 1, 2),
    (2, 1, 3),
    (0, 2, 1),
    (1, 2, 4),
    (2, 2, 5),
    (1, 3, 6),
    (2, 3, 7)
];

/// The first column has so many products that the others are summed row by row, in few groups of rows or in all.
#[test]
fn marked_rows_far_apart_come_in_order(rt: HostRuntime) {
    assert!(rt; is_plain_far_apart(rt.alloc()) == Ok(true));
}

/// Two factors, a block, and the sum of their product and the block.
#[derive(Clone, Copy)]
struct Added<'a> {
    sides: [u32; 3],
    left: &'a [Entry],
    right: &'a [Entry],
    own: &'a [Entry],
    sum: &'a [Entry],
}

/// Whether the product of two blocks is added to the third; or, if memory is refused, whether the third is handed back
/// unchanged.
fn adds(
    alloc: Global,
    left: &Block<PlusTimes>,
    right: &Block<PlusTimes>,
    own: Block<PlusTimes>,
    added: &Added<'_>,
) -> Result<bool, bool> {
    let (outer, inner) = (left.shape(), right.shape());
    if outer.cols() != inner.rows() || own.shape() != outer.with_columns_of(inner) {
        return Ok(false);
    }
    match multiply_into(alloc, left, right, own) {
        Ok(sum) => Ok(has_entries(&sum, added.sum)),
        Err((same, _)) => Err(has_entries(&same, added.own)),
    }
}

/// The same for a row.
fn is_sum(alloc: Global, added: &Added<'_>) -> Result<Result<bool, bool>, SampleFault> {
    let [rows, inner, cols] = added.sides;
    let left = block(alloc, rows, inner, added.left)?;
    let right = block(alloc, inner, cols, added.right)?;
    let own = block(alloc, rows, cols, added.own)?;
    Ok(adds(alloc, &left, &right, own, added))
}

/// A column with one term; one with none; one that selects a column without entries; and one of two terms, where a sum is
/// zero.
const WITHOUT_TERMS: Added<'static> = Added {
    sides: [6, 3, 4],
    left: entries![(1, 0, 2), (4, 0, 3), (2, 2, 5)],
    right: entries![(0, 0, 10), (1, 2, 7), (0, 3, 1), (2, 3, 1)],
    own: entries![
        (0, 0, 1),
        (4, 0, 6),
        (3, 1, 8),
        (5, 1, 9),
        (1, 2, 4),
        (2, 2, u64::MAX),
        (2, 3, u64::MAX - 4)
    ],
    sum: entries![
        (0, 0, 1),
        (1, 0, 20),
        (4, 0, 36),
        (3, 1, 8),
        (5, 1, 9),
        (1, 2, 4),
        (2, 2, u64::MAX),
        (1, 3, 2),
        (4, 3, 3)
    ],
};

/// One column scaled by 2, by 3 and by 1. It is added to a column with which a row becomes zero, to none, and to one of
/// other rows. 2 times 2^63 is zero.
const ONE_TERM: Added<'static> = Added {
    sides: [8, 1, 3],
    left: entries![(0, 0, 1), (2, 0, 1 << 63), (5, 0, 7)],
    right: entries![(0, 0, 2), (0, 1, 3), (0, 2, 1)],
    own: entries![(2, 0, 4), (5, 0, u64::MAX - 13), (1, 2, 6), (7, 2, 9)],
    sum: entries![
        (0, 0, 2),
        (2, 0, 4),
        (0, 1, 3),
        (2, 1, 1 << 63),
        (5, 1, 21),
        (0, 2, 1),
        (1, 2, 6),
        (2, 2, 1 << 63),
        (5, 2, 7),
        (7, 2, 9)
    ],
};

const SMALL: Added<'static> = Added {
    sides: [2, 2, 3],
    left: entries![(0, 0, 1), (0, 1, 2), (1, 1, 3)],
    right: entries![(0, 0, 10), (1, 0, 100), (0, 2, 3)],
    own: entries![(0, 0, 5), (1, 0, 5), (1, 1, 7)],
    sum: entries![(0, 0, 215), (1, 0, 305), (1, 1, 7), (0, 2, 3)],
};

const SUMS: &[Added<'static>] = &[
    SMALL,
    // a factor without entries: nothing is added
    Added {
        sides: [2, 2, 2],
        left: &[],
        right: entries![(1, 0, 4)],
        own: entries![(0, 1, 7)],
        sum: entries![(0, 1, 7)],
    },
    Added {
        sides: [2, 2, 2],
        left: entries![(0, 0, 1)],
        right: &[],
        own: entries![(0, 1, 7)],
        sum: entries![(0, 1, 7)],
    },
    // two by two, where a sum is zero
    Added {
        sides: [2, 2, 2],
        left: entries![(0, 0, 1), (0, 1, 2), (1, 1, 3)],
        right: entries![(1, 0, 4), (0, 1, 1)],
        own: entries![(0, 1, u64::MAX), (1, 1, 5)],
        sum: entries![(0, 0, 8), (1, 0, 12), (1, 1, 5)],
    },
    // a tall block, which is merged in and has columns of its own
    Added {
        sides: [LIMIT, 2, 3],
        left: entries![(5, 0, 2), (9, 0, 3), (9, 1, 4)],
        right: entries![(0, 1, 10), (1, 1, 100)],
        own: entries![(7, 0, 1), (5, 1, 1), (8, 1, 1), (3, 2, 1)],
        sum: entries![(7, 0, 1), (5, 1, 21), (8, 1, 1), (9, 1, 430), (3, 2, 1)],
    },
    WITHOUT_TERMS,
    ONE_TERM,
    // with 2,147,483,647 rows the columns are joined; with a few the products are summed row by row
    Added {
        sides: [LIMIT, 3, 4],
        ..WITHOUT_TERMS
    },
    Added {
        sides: [LIMIT, 1, 3],
        ..ONE_TERM
    },
];

#[test]
fn products_that_are_added(rt: HostRuntime) {
    for added in SUMS {
        assert!(rt; is_sum(rt.alloc(), added) == Ok(Ok(true)));
    }
}

/// Thirty columns of 45 entries each, spread over this many rows, of which columns share many.
fn spread(alloc: Global, rows: u32) -> Result<Vec<Entry>, AllocError> {
    let step = rows / 46;
    let mut entries = Vec::new(alloc);
    for column in 0..30u32 {
        for n in 0..45u32 {
            let row = n.wrapping_mul(step).wrapping_add(column % 7);
            entries.push(entry(row, column, 1 + u64::from(column ^ n)))?;
        }
    }
    Ok(entries)
}

/// A column that selects all thirty, one that selects three, and one that selects one.
fn named(alloc: Global) -> Result<Vec<Entry>, AllocError> {
    let mut entries = Vec::new(alloc);
    for row in 0..30u32 {
        entries.push(entry(row, 0, u64::from(row) + 2))?;
    }
    for (row, column, value) in [(4, 1, 3), (9, 1, 1 << 63), (11, 1, 5), (7, 2, 9)] {
        entries.push(entry(row, column, value))?;
    }
    Ok(entries)
}

/// The product of two matrices by the definition, row by column.
fn plain_product(
    alloc: Global,
    sides: [u32; 3],
    left: &[Entry],
    right: &[Entry],
) -> Result<Matrix<PlusTimes>, SampleFault> {
    let [rows, inner, cols] = sides;
    let a = matrix(alloc, rows, inner, left)?;
    let b = matrix(alloc, inner, cols, right)?;
    match Matrix::plain_product(alloc, &a, &b) {
        Ok(product) => Ok(product),
        Err(_) => Err(SampleFault::Shape),
    }
}

/// The sum of two lists of entries.
fn plain_sum(
    alloc: Global,
    rows: u32,
    cols: u32,
    product: &[Entry],
    own: &[Entry],
) -> Result<Matrix<PlusTimes>, SampleFault> {
    let mut both = product.to_vec(alloc)?;
    both.extend_from_slice(own)?;
    matrix(alloc, rows, cols, &both)
}

/// Whether the product of two blocks and its sum with a third are these.
fn are(
    alloc: Global,
    sides: [u32; 3],
    given: [&[Entry]; 3],
    product: &[Entry],
    sum: &[Entry],
) -> Result<bool, SampleFault> {
    let [rows, inner, cols] = sides;
    let [left, right, own] = given;
    let operands = [((rows, inner), left), ((inner, cols), right)];
    let is_product = is_right(alloc, &(Call::Multiply, &operands, ((rows, cols), product)))?;
    let added = Added {
        sides,
        left,
        right,
        own,
        sum,
    };
    Ok(is_product && is_sum(alloc, &added)? == Ok(true))
}

/// Whether they agree with the definition.
fn are_plain(alloc: Global, sides: [u32; 3], given: [&[Entry]; 3]) -> Result<bool, SampleFault> {
    let [left, right, own] = given;
    let product = plain_product(alloc, sides, left, right)?;
    let sum = plain_sum(alloc, sides[0], sides[2], product.entries(), own)?;
    are(alloc, sides, given, product.entries(), sum.entries())
}

const FEW: &[Entry] = entries![(0, 0, 7), (1, 0, 8), (0, 1, 5), (3, 3, 1)];

/// Whether they agree with this many rows.
fn is_plain_among(alloc: Global, rows: u32) -> Result<bool, SampleFault> {
    let left = spread(alloc, rows)?;
    let right = named(alloc)?;
    are_plain(alloc, [rows, 30, 4], [&left, &right, FEW])
}

/// Whether they agree with groups of rows far apart.
fn is_plain_far_apart(alloc: Global) -> Result<bool, SampleFault> {
    let left = far_apart(alloc)?;
    are_plain(alloc, [20000, 3, 4], [&left, FAR, FEW])
}

/// Six columns whose rows overlap. The first has this many entries, the others 19 each. Neighbours are 1 and -1, and so are
/// the values that columns have in the same row.
fn overlapping(alloc: Global, first: u32) -> Result<Vec<Entry>, AllocError> {
    let mut entries = Vec::new(alloc);
    for column in 0..6 {
        let count = if column == 0 { first } else { 19 };
        for n in 0..count.min(20) {
            let row = 2 * column + n;
            let value = if n % 2 == 0 { 1 } else { u64::MAX };
            let signed = if column % 2 == 0 {
                value
            } else {
                value.wrapping_neg()
            };
            entries.push(entry(row, column, signed))?;
        }
    }
    Ok(entries)
}

/// Five columns that name the first two, three, .. of these.
fn naming(alloc: Global) -> Result<Vec<Entry>, AllocError> {
    let mut entries = Vec::new(alloc);
    for column in 0..5 {
        for row in 0..column + 2 {
            entries.push(entry(row, column, 1))?;
        }
    }
    Ok(entries)
}

/// Whether they agree where five terms have 76 products and these, to which a third block adds one: columns with few
/// products are joined, others added in the sparse accumulator.
fn is_plain_of(alloc: Global, first: u32) -> Result<bool, SampleFault> {
    let left = overlapping(alloc, first)?;
    let right = naming(alloc)?;
    are_plain(alloc, [32, 6, 5], [&left, &right, FEW])
}

#[test]
fn few_overlapping_columns_give_the_plain_product(rt: HostRuntime) {
    assert!(rt; is_plain_of(rt.alloc(), 19) == Ok(true));
    assert!(rt; is_plain_of(rt.alloc(), 20) == Ok(true));
}

/// Two factors: the left one has this many columns.
#[derive(Clone, Copy)]
struct Pair<'a> {
    inner: u32,
    left: &'a [Entry],
    right: &'a [Entry],
}

/// Three pairs of factors, a block, and the sum of their products and the block.
#[derive(Clone, Copy)]
struct AllAdded<'a> {
    rows: u32,
    cols: u32,
    first: Pair<'a>,
    second: Pair<'a>,
    third: Pair<'a>,
    own: &'a [Entry],
    sum: &'a [Entry],
}

/// The two blocks of a pair.
type Blocks = (Block<PlusTimes>, Block<PlusTimes>);

/// Whether two blocks have a product of this shape.
fn make_shape(shape: Shape, blocks: &Blocks) -> bool
    ensures { result ≡ true → MakeShape shape (blocks.now.0, blocks.now.1) }
{
    let (outer, inner) = (blocks.0.shape(), blocks.1.shape());
    outer.cols() == inner.rows() && shape == outer.with_columns_of(inner)
}

/// Whether the products of three pairs of blocks are added to a block; or, if memory is refused, whether the block is handed
/// back unchanged.
fn adds_all(
    alloc: Global,
    (first, second, third): (&Blocks, &Blocks, &Blocks),
    own: Block<PlusTimes>,
    added: &AllAdded<'_>,
) -> Result<bool, bool> {
    let shape = own.shape();
    if !make_shape(shape, first) || !make_shape(shape, second) || !make_shape(shape, third) {
        return Ok(false);
    }
    let products = [
        Factors {
            left: &first.0,
            right: &first.1,
        },
        Factors {
            left: &second.0,
            right: &second.1,
        },
        Factors {
            left: &third.0,
            right: &third.1,
        },
    ];
    match multiply_all_into(alloc, &products, own) {
        Ok(sum) => Ok(has_entries(&sum, added.sum)),
        Err((same, _)) => Err(has_entries(&same, added.own)),
    }
}

/// The blocks of a pair in a sum with this many rows and columns.
fn blocks_of(alloc: Global, rows: u32, cols: u32, pair: Pair<'_>) -> Result<Blocks, SampleFault> {
    let left = block(alloc, rows, pair.inner, pair.left)?;
    let right = block(alloc, pair.inner, cols, pair.right)?;
    Ok((left, right))
}

/// The same for a row.
fn is_sum_of_all(alloc: Global, added: &AllAdded<'_>) -> Result<Result<bool, bool>, SampleFault> {
    let (rows, cols) = (added.rows, added.cols);
    let first = blocks_of(alloc, rows, cols, added.first)?;
    let second = blocks_of(alloc, rows, cols, added.second)?;
    let third = blocks_of(alloc, rows, cols, added.third)?;
    let own = block(alloc, rows, cols, added.own)?;
    Ok(adds_all(alloc, (&first, &second, &third), own, added))
}

const NO_TERMS: Pair<'static> = Pair {
    inner: 1,
    left: &[],
    right: &[],
};

const SMALL_FIRST: Pair<'static> = Pair {
    inner: 2,
    left: entries![(0, 0, 1), (0, 1, 2), (1, 1, 3)],
    right: entries![(1, 0, 4), (0, 1, 1)],
};

const SMALL_SECOND: Pair<'static> = Pair {
    inner: 1,
    left: entries![(0, 0, 1), (1, 0, 5)],
    right: entries![(0, 0, 2)],
};

const SMALL_THIRD: Pair<'static> = Pair {
    inner: 1,
    left: entries![(0, 0, 3)],
    right: entries![(0, 1, 2)],
};

const SMALL_PAIRS: AllAdded<'static> = AllAdded {
    rows: 2,
    cols: 2,
    first: SMALL_FIRST,
    second: SMALL_SECOND,
    third: SMALL_THIRD,
    own: entries![(0, 1, u64::MAX), (1, 1, 5)],
    sum: entries![(0, 0, 10), (1, 0, 22), (0, 1, 6), (1, 1, 5)],
};

const SUMS_OF_ALL: &[AllAdded<'static>] = &[
    SMALL_PAIRS,
    // one product has no terms
    AllAdded {
        third: NO_TERMS,
        sum: entries![(0, 0, 10), (1, 0, 22), (1, 1, 5)],
        ..SMALL_PAIRS
    },
    // two have none
    AllAdded {
        first: NO_TERMS,
        third: NO_TERMS,
        sum: entries![(0, 0, 2), (1, 0, 10), (0, 1, u64::MAX), (1, 1, 5)],
        ..SMALL_PAIRS
    },
    // a left factor has no entries, and a right one
    AllAdded {
        first: Pair {
            left: &[],
            ..SMALL_FIRST
        },
        second: Pair {
            right: &[],
            ..SMALL_SECOND
        },
        sum: entries![(0, 1, 5), (1, 1, 5)],
        ..SMALL_PAIRS
    },
    // none has terms
    AllAdded {
        first: NO_TERMS,
        second: NO_TERMS,
        third: NO_TERMS,
        sum: entries![(0, 1, u64::MAX), (1, 1, 5)],
        ..SMALL_PAIRS
    },
];

#[test]
fn several_products_that_are_added(rt: HostRuntime) {
    for added in SUMS_OF_ALL {
        assert!(rt; is_sum_of_all(rt.alloc(), added) == Ok(Ok(true)));
    }
}

const SECOND: Pair<'static> = Pair {
    inner: 1,
    left: entries![(3, 0, 4), (45, 0, 9)],
    right: entries![(0, 1, 6), (0, 3, 1)],
};

const THIRD: Pair<'static> = Pair {
    inner: 1,
    left: entries![(45, 0, 2), (46, 0, 1)],
    right: entries![(0, 3, 5)],
};

/// A list of entries plus the product of a pair, by the definition.
fn plain_sum_with(
    alloc: Global,
    rows: u32,
    own: &[Entry],
    pair: Pair<'_>,
) -> Result<Matrix<PlusTimes>, SampleFault> {
    let product = plain_product(alloc, [rows, pair.inner, 4], pair.left, pair.right)?;
    plain_sum(alloc, rows, 4, product.entries(), own)
}

/// Whether three products that are added to a block with this many rows agree with the definition.
fn are_all_plain_among(alloc: Global, rows: u32) -> Result<bool, SampleFault> {
    let left = spread(alloc, rows)?;
    let right = named(alloc)?;
    let first = Pair {
        inner: 30,
        left: &left,
        right: &right,
    };
    let once = plain_sum_with(alloc, rows, FEW, first)?;
    let twice = plain_sum_with(alloc, rows, once.entries(), SECOND)?;
    let sum = plain_sum_with(alloc, rows, twice.entries(), THIRD)?;
    let added = AllAdded {
        rows,
        cols: 4,
        first,
        second: SECOND,
        third: THIRD,
        own: FEW,
        sum: sum.entries(),
    };
    Ok(is_sum_of_all(alloc, &added)? == Ok(true))
}

/// The first and the third column have terms of the first product, one has terms of the first two, and the last has terms of
/// the last two. With 5,000 rows all are added up in the sparse accumulator; with 2,147,483,647 each product is joined to
/// those before it.
#[test]
fn several_products_at_once_are_the_plain_ones(rt: HostRuntime) {
    for rows in [5000, LIMIT] {
        assert!(rt; are_all_plain_among(rt.alloc(), rows) == Ok(true));
    }
}

/// Whether all products are added; or, if memory is refused, whether the block is handed back unchanged.
fn is_sum_of_all_or_refused(alloc: Global, added: &AllAdded<'_>) -> bool {
    match is_sum_of_all(alloc, added) {
        Ok(Ok(is_right)) => is_right,
        Ok(Err(is_back)) => is_back,
        Err(fault) => fault == SampleFault::Block(BlockFault::Memory),
    }
}

/// Passes whichever single allocation is refused.
#[test]
fn a_refused_sum_of_several_products_hands_the_block_back(rt: HostRuntime) {
    for added in SUMS_OF_ALL {
        assert!(rt; is_sum_of_all_or_refused(rt.alloc(), added));
    }
}

/// With 5,000 rows the first two columns are computed by the sparse accumulator; with 2,147,483,647 one is computed by the
/// heap and one by joining. The third has one term, and the last has none. Each way agrees with the definition, also when
/// the product is added to a block.
#[test]
fn each_way_gives_the_plain_product(rt: HostRuntime) {
    for rows in [5000, LIMIT] {
        assert!(rt; is_plain_among(rt.alloc(), rows) == Ok(true));
    }
}

/// Passes whichever single allocation is refused (`rt try --test --fail-alloc N`, for each N in turn): the result is
/// right, or the error is want of memory.
#[test]
fn a_refused_product_reports_memory(rt: HostRuntime) {
    assert!(rt; are_right_or_refused(rt.alloc(), &[PRODUCTS]));
}

/// Whether a product is added; or, if memory is refused, whether the block is handed back unchanged.
fn is_sum_or_refused(alloc: Global, added: &Added<'_>) -> bool {
    match is_sum(alloc, added) {
        Ok(Ok(is_right)) => is_right,
        Ok(Err(is_back)) => is_back,
        Err(fault) => fault == SampleFault::Block(BlockFault::Memory),
    }
}

/// The same for a product that is added to a block.
#[test]
fn a_refused_product_hands_the_block_back(rt: HostRuntime) {
    for added in SUMS {
        assert!(rt; is_sum_or_refused(rt.alloc(), added));
    }
}
