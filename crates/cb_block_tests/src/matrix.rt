//! Worked examples, with ample memory and with each allocation refused in turn.
use cb_matrix::{Entry, EntryFault, LIMIT, Matrix, ProductFault, Shape};
use cb_samples::{SampleFault, are_values, entries, entry, shape};
use cb_semirings::{MinPlus, PlusFirst, PlusTimes, Semiring};
use std::alloc::{AllocError, Global};
use std::test::Fail;

/// The last row and the last column of the largest sides.
const LAST: u32 = LIMIT - 1;

/// The matrix of this many rows and columns with the sums of these entries.
pub(crate) fn matrix<S: Semiring>(
    alloc: Global,
    rows: u32,
    cols: u32,
    entries: &[Entry],
) -> Result<Matrix<S>, SampleFault> {
    if !are_values::<S>(entries) {
        return Err(SampleFault::Value);
    }
    let shape = shape(rows, cols)?;
    match Matrix::from_entries(alloc, shape, entries) {
        Ok(matrix) => Ok(matrix),
        Err(_) => Err(SampleFault::Shape),
    }
}

/// Two factors and the entries of their product. The sides are the rows of the first, the columns of the first, which are
/// the rows of the second, and the columns of the second.
struct Factors {
    sides: [u32; 3],
    left: &'static [Entry],
    right: &'static [Entry],
    product: &'static [Entry],
}

/// Whether the product of two matrices has these entries and this shape.
fn makes<S: Semiring>(
    alloc: Global,
    left: &Matrix<S>,
    right: &Matrix<S>,
    shape: Shape,
    product: &[Entry],
) -> bool {
    match Matrix::plain_product(alloc, left, right) {
        Ok(made) => made.shape() == shape && made.entries() == product,
        Err(_) => false,
    }
}

/// Whether the product of two matrices is the expected one.
fn is_product<S: Semiring>(alloc: Global, factors: &Factors) -> Result<bool, SampleFault> {
    let [rows, inner, cols] = factors.sides;
    let outer = shape(rows, cols)?;
    let left = matrix::<S>(alloc, rows, inner, factors.left)?;
    let right = matrix::<S>(alloc, inner, cols, factors.right)?;
    Ok(makes(alloc, &left, &right, outer, factors.product))
}

/// Two by two; no rows and columns; three different sides; the largest sides, which cost no more than the entries; and a
/// product and a sum that are zero and aren't stored.
const OF_PLUS_TIMES: &[Factors] = &[
    Factors {
        sides: [2, 2, 2],
        left: entries![(0, 0, 1), (0, 1, 2), (1, 1, 3)],
        right: entries![(0, 1, 1), (1, 0, 4)],
        product: entries![(0, 0, 8), (1, 0, 12), (0, 1, 1)],
    },
    Factors {
        sides: [0, 0, 0],
        left: &[],
        right: &[],
        product: &[],
    },
    Factors {
        sides: [3, 2, 1],
        left: entries![(2, 0, 5), (0, 1, 3)],
        right: entries![(1, 0, 7)],
        product: entries![(0, 0, 21)],
    },
    Factors {
        sides: [LIMIT; 3],
        left: entries![(0, LAST, 7)],
        right: entries![(LAST, 4, 3)],
        product: entries![(0, 4, 21)],
    },
    Factors {
        sides: [1, 1, 1],
        left: entries![(0, 0, 1 << 32)],
        right: entries![(0, 0, 1 << 32)],
        product: &[],
    },
    Factors {
        sides: [1, 2, 1],
        left: entries![(0, 0, 1), (0, 1, u64::MAX)],
        right: entries![(0, 0, 1), (1, 0, 1)],
        product: &[],
    },
];

#[test]
fn plain_products(rt: HostRuntime) {
    for factors in OF_PLUS_TIMES {
        assert!(rt; is_product::<PlusTimes>(rt.alloc(), factors) == Ok(true));
    }
}

/// The product of two values is the one from the first matrix, so it tells the factors apart.
const OF_PLUS_FIRST: Factors = Factors {
    sides: [2, 2, 2],
    left: entries![(0, 0, 2), (0, 1, 3), (1, 1, 4)],
    right: entries![(0, 0, 5), (1, 0, 6), (1, 1, 7)],
    product: entries![(0, 0, 5), (1, 0, 4), (0, 1, 3), (1, 1, 4)],
};

#[test]
fn factors_are_told_apart(rt: HostRuntime) {
    assert!(rt; is_product::<PlusFirst>(rt.alloc(), &OF_PLUS_FIRST) == Ok(true));
}

/// Whether a matrix and its copy have these entries.
fn has_entries<S: Semiring>(made: &Matrix<S>, wanted: &[Entry]) -> Result<bool, AllocError> {
    let copy = made.try_clone()?;
    Ok(copy.shape() == made.shape() && made.entries() == wanted && copy.entries() == wanted)
}

/// Whether a slice of entries makes a matrix with these entries, or why it makes none.
fn slice_makes<S: Semiring>(
    alloc: Global,
    shape: Shape,
    given: &[Entry],
    wanted: &[Entry],
) -> Result<bool, EntryFault> {
    if !are_values::<S>(given) {
        return Ok(false);
    }
    let made = Matrix::<S>::from_entries(alloc, shape, given)?;
    Ok(has_entries(&made, wanted)?)
}

/// The same of a list that is moved in.
fn list_makes<S: Semiring>(
    alloc: Global,
    shape: Shape,
    given: &[Entry],
    wanted: &[Entry],
) -> Result<bool, EntryFault> {
    if !are_values::<S>(given) {
        return Ok(false);
    }
    let made = Matrix::<S>::from_vec(shape, given.to_vec(alloc)?)?;
    Ok(has_entries(&made, wanted)?)
}

/// Whether entries, as a slice and as a list, make a matrix of one row and two columns with these entries, or give this
/// fault.
fn both_make<S: Semiring>(
    alloc: Global,
    given: &[Entry],
    wanted: &[Entry],
    answer: Result<bool, EntryFault>,
) -> bool {
    let Some(sides) = Shape::new(1, 2) else {
        return false;
    };
    slice_makes::<S>(alloc, sides, given, wanted) == answer
        && list_makes::<S>(alloc, sides, given, wanted) == answer
}

#[test]
fn doubles_are_added_by_the_semiring(rt: HostRuntime) {
    let twice: &[Entry] = entries![(0, 0, 3), (0, 0, 4)];
    let (alloc, right) = (rt.alloc(), Ok(true));
    assert!(rt; both_make::<PlusTimes>(alloc, twice, entries![(0, 0, 7)], right));
    assert!(rt; both_make::<MinPlus>(alloc, twice, entries![(0, 0, 3)], right));
}

#[test]
fn the_first_entry_outside_is_named(rt: HostRuntime) {
    let given: &[Entry] = entries![(0, 0, 3), (0, 2, 4), (2, 0, 5)];
    let named = Err(EntryFault::Place(1));
    assert!(rt; both_make::<PlusTimes>(rt.alloc(), given, given, named));
    assert!(rt; Shape::new(LIMIT, LIMIT + 1).is_none());
}

/// Whether a matrix times itself is refused for its shape.
fn has_no_square(alloc: Global, matrix: &Matrix<PlusTimes>) -> bool {
    let square = Matrix::plain_product(alloc, matrix, matrix);
    square.err() == Some(ProductFault::Shapes)
}

#[test]
fn shapes_that_do_not_meet_have_no_product(rt: HostRuntime) -> Result<(), Fail> {
    let wide = Matrix::<PlusTimes>::empty(rt.alloc(), shape(2, 3)?);
    assert!(rt; has_no_square(rt.alloc(), &wide) && wide.is_empty());
    Ok(())
}

/// The value at a place, if the place is inside the matrix.
fn looked_up(matrix: &Matrix<MinPlus>, row: u32, column: u32) -> Option<u64> {
    if row < matrix.rows() && column < matrix.cols() {
        Some(matrix.get(row, column))
    } else {
        None
    }
}

/// Places of a matrix of three rows and four columns, and their values. The first three have entries.
const PLACES: &[(u32, u32, Option<u64>)] = &[
    (0, 1, Some(5)),
    (2, 1, Some(6)),
    (1, 3, Some(7)),
    (1, 1, Some(u64::MAX)),
    (2, 3, Some(u64::MAX)),
    (3, 1, None),
    (0, 4, None),
];

/// Whether each place has the expected value.
fn has_places(matrix: &Matrix<MinPlus>) -> bool {
    for (row, column, value) in PLACES {
        if looked_up(matrix, *row, *column) != *value {
            return false;
        }
    }
    true
}

/// Whether its entries are numbered by column and then by row.
fn is_counted(matrix: &Matrix<MinPlus>) -> bool {
    matrix.len() == 3
        && matrix.entry_at(0) == entry(0, 1, 5)
        && matrix.entry_at(2) == entry(1, 3, 7)
}

#[test]
fn a_matrix_is_looked_up_by_places_and_walked(rt: HostRuntime) -> Result<(), Fail> {
    let given: &[Entry] = entries![(2, 1, 6), (0, 1, 5), (1, 3, 7)];
    let matrix = matrix::<MinPlus>(rt.alloc(), 3, 4, given)?;
    assert!(rt; has_places(&matrix) && is_counted(&matrix));
    Ok(())
}

/// The diagonal of ones, out of order, with more entries than a sort can handle without memory.
fn mixed_diagonal() -> [Entry; 24] {
    let mut given = [entry(0, 0, 1); 24];
    for index in 0..24u32 {
        let place = index * 7 % 24;
        given[index as usize] = entry(place, place, 1);
    }
    given
}

/// The same in order.
fn diagonal() -> [Entry; 24] {
    let mut ordered = [entry(0, 0, 1); 24];
    for index in 0..24u32 {
        ordered[index as usize] = entry(index, index, 1);
    }
    ordered
}

/// Whether the square of the diagonal is the diagonal; or why it was refused.
fn is_its_square(alloc: Global, side: Shape, given: &[Entry]) -> Result<bool, ProductFault> {
    if !are_values::<PlusTimes>(given) {
        return Ok(false);
    }
    let Ok(matrix) = Matrix::<PlusTimes>::from_entries(alloc, side, given) else {
        return Err(ProductFault::Memory);
    };
    let square = Matrix::plain_product(alloc, &matrix, &matrix)?;
    Ok(square.entries() == matrix.entries())
}

/// Every call that takes memory. If memory is refused, the call reports that and nothing else.
#[test]
fn refused_memory_is_reported(rt: HostRuntime) -> Result<(), Fail> {
    let (side, given, wanted) = (shape(24, 24)?, mixed_diagonal(), diagonal());
    for made in [
        slice_makes::<PlusTimes>(rt.alloc(), side, &given, &wanted),
        list_makes::<PlusTimes>(rt.alloc(), side, &given, &wanted),
    ] {
        assert!(rt; made == Ok(true) || made == Err(EntryFault::Memory));
    }
    let square = is_its_square(rt.alloc(), side, &given);
    assert!(rt; square == Ok(true) || square == Err(ProductFault::Memory));
    Ok(())
}
