//! Which numbers of letters are capacities of lanes.
use cb_letters::Capacity;

/// A number of letters, the capacity of that many, if there is one, and the nearest capacity.
type Row = (usize, Option<usize>, usize);

const ROWS: &[Row] = &[
    (0, None, 1),
    (1, Some(1), 1),
    (2, Some(2), 2),
    (64, Some(64), 64),
    (65, Some(65), 64),
    (usize::MAX, Some(usize::MAX), 64),
];

/// The number of letters of the capacity of this many, if there is one.
fn capacity_of(letters: usize) -> Option<usize> {
    let capacity = Capacity::new(letters)?;
    Some(capacity.get())
}

/// Whether each row is right.
fn are_capacities(rows: &[Row]) -> bool {
    let mut as_expected = true;
    for (letters, capacity, nearest) in rows {
        as_expected &= capacity_of(*letters) == *capacity;
        as_expected &= Capacity::nearest(*letters).get() == *nearest;
    }
    as_expected
}

#[test]
fn lanes_hold_at_least_one_letter(rt: HostRuntime) {
    assert!(rt; are_capacities(ROWS));
}
