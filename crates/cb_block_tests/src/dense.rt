//! Worked examples.
use cb_dcsc::Block;
use cb_dense::{add_product, add_product_of_columns};
use cb_matrix::{Entry, LIMIT};
use cb_samples::{SampleFault, block, entries};
use cb_semirings::PlusTimes;
use std::alloc::Global;

const TOP: u64 = u64::MAX;

/// The last column of the largest sides.
const LAST: u32 = LIMIT - 1;

/// Sums; a block with a row for each sum; a vector; and the sums with the product of the block and
/// the vector added.
struct Case {
    sums: &'static [u64],
    rows: u32,
    columns: u32,
    block: &'static [Entry],
    vector: &'static [Entry],
    wanted: &'static [u64],
}

/// Whether adding the product of a block and a vector to sums makes these.
fn adds(
    sums: &mut [u64],
    matrix: &Block<PlusTimes>,
    vector: &Block<PlusTimes>,
    wanted: &[u64],
) -> bool {
    let (shape, column) = (matrix.shape(), vector.shape());
    if shape.cols() != column.rows() || column.cols() != 1 || sums.len() != shape.rows() as usize {
        return false;
    }
    add_product(sums, matrix, vector);
    *sums == *wanted
}

/// Whether a case is right.
fn is_added(alloc: Global, case: &Case) -> Result<bool, SampleFault> {
    let matrix = block::<PlusTimes>(alloc, case.rows, case.columns, case.block)?;
    let vector = block::<PlusTimes>(alloc, case.columns, 1, case.vector)?;
    let mut sums = case.sums.to_vec(alloc)?;
    Ok(adds(&mut sums, &matrix, &vector, case.wanted))
}

/// Whether adding the product of the columns before a place, and then that of the others, makes these sums.
fn adds_in_two(
    sums: &mut [u64],
    matrix: &Block<PlusTimes>,
    vector: &Block<PlusTimes>,
    place: usize,
    wanted: &[u64],
) -> bool {
    let (shape, column) = (matrix.shape(), vector.shape());
    if shape.cols() != column.rows() || column.cols() != 1 || sums.len() != shape.rows() as usize {
        return false;
    }
    let all = matrix.columns();
    let place = place.min(all);
    add_product_of_columns(sums, matrix, vector, 0, place);
    add_product_of_columns(sums, matrix, vector, place, all);
    *sums == *wanted
}

/// Whether a case is right in two parts, at whatever place it is divided.
fn is_added_in_two(alloc: Global, case: &Case) -> Result<bool, SampleFault> {
    let matrix = block::<PlusTimes>(alloc, case.rows, case.columns, case.block)?;
    let vector = block::<PlusTimes>(alloc, case.columns, 1, case.vector)?;
    for place in 0..4 {
        let mut sums = case.sums.to_vec(alloc)?;
        if !adds_in_two(&mut sums, &matrix, &vector, place, case.wanted) {
            return Ok(false);
        }
    }
    Ok(true)
}

/// Four rows and five columns, two of them without entries:
///
/// ```text
/// 1 . . 5 .
/// . . 3 . .
/// 2 . 4 . .
/// . . . . .
/// ```
const GAPPED: &'static [Entry] = entries![(0, 0, 1), (2, 0, 2), (1, 2, 3), (2, 2, 4), (0, 3, 5)];

/// With and without empty columns before, between and after those that have entries; a sum that is zero; vectors without
/// entries, with one in each row, and with one in each of the first rows; and 2,147,483,647 columns, two of them with entries.
const CASES: &[Case] = &[
    Case {
        sums: &[0, 0, 0, 0],
        rows: 4,
        columns: 5,
        block: GAPPED,
        vector: entries![(0, 0, 10), (1, 0, 7), (2, 0, 100), (4, 0, 9)],
        wanted: &[10, 300, 420, 0],
    },
    Case {
        sums: &[1, 2, 3, 4],
        rows: 4,
        columns: 5,
        block: GAPPED,
        vector: entries![(1, 0, 7), (3, 0, 2), (4, 0, 8)],
        wanted: &[11, 2, 3, 4],
    },
    Case {
        sums: &[1, 2, 3, 4],
        rows: 4,
        columns: 5,
        block: GAPPED,
        vector: entries![(2, 0, 6), (3, 0, 1)],
        wanted: &[6, 20, 27, 4],
    },
    Case {
        sums: &[TOP - 9, 2, 3, 4],
        rows: 4,
        columns: 5,
        block: GAPPED,
        vector: entries![(0, 0, 10)],
        wanted: &[0, 2, 23, 4],
    },
    Case {
        sums: &[1, 2, 3, 4],
        rows: 4,
        columns: 5,
        block: GAPPED,
        vector: &[],
        wanted: &[1, 2, 3, 4],
    },
    Case {
        sums: &[1, 2, 3, 4],
        rows: 4,
        columns: 5,
        block: GAPPED,
        vector: entries![(0, 0, 10), (1, 0, 7), (2, 0, 100), (3, 0, 3), (4, 0, 9)],
        wanted: &[26, 302, 423, 4],
    },
    Case {
        sums: &[1, 2, 3, 4],
        rows: 4,
        columns: 5,
        block: GAPPED,
        vector: entries![(0, 0, 10), (1, 0, 7), (3, 0, 2)],
        wanted: &[21, 2, 23, 4],
    },
    Case {
        sums: &[1, 1],
        rows: 2,
        columns: LIMIT,
        block: entries![(1, 7, 4), (0, LAST, 3)],
        vector: entries![(LAST, 0, 2)],
        wanted: &[7, 1],
    },
];

#[test]
fn products_are_added_to_what_is_there(rt: HostRuntime) {
    for case in CASES {
        assert!(rt; is_added(rt.alloc(), case) == Ok(true));
    }
}

#[test]
fn products_of_some_columns_add_up_to_that_of_all(rt: HostRuntime) {
    for case in CASES {
        assert!(rt; is_added_in_two(rt.alloc(), case) == Ok(true));
    }
}
