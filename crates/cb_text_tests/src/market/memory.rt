//! If memory is refused, the calls say so; otherwise their results are right. These tests are also run with each
//! allocation refused in turn.
use super::matrices::{LEVELS, is_list};
use cb_market::{Kind, ReadFault, read};
use cb_market_pages::text;
use cb_semirings::{OrAnd, PlusTimes, Semiring};
use std::alloc::Global;

/// Whether a text is read and written again as `wanted`; or whether memory is refused, with a line up to the one past the
/// last if it is while reading.
fn right_or_memory<S: Semiring>(alloc: Global, given: &[u8], wanted: &[u8], last: u64) -> bool {
    match read::<S>(alloc, given) {
        Ok(matrix) => match text(alloc, &matrix) {
            Ok(found) => found.as_slice() == wanted,
            Err(_) => true,
        },
        Err(ReadFault { line, kind }) => kind == Kind::Memory && 1 <= line && line <= last,
    }
}

/// A text, the text of the matrix that it reads as, and the line past its last.
type Row<'a> = (&'a [u8], &'a [u8], u64);

/// Whether each text is read and written as it should be, or memory is refused.
fn all_right_or_memory<S: Semiring>(alloc: Global, rows: &[Row<'_>]) -> bool {
    for (given, wanted, last) in rows {
        if !right_or_memory::<S>(alloc, given, wanted, *last) {
            return false;
        }
    }
    true
}

const SORTED: &[u8] =
    b"%%MatrixMarket matrix coordinate integer general\n2 2 3\n1 1 1\n1 2 2\n2 2 3\n";

const NUMBERS: &[Row<'static>] = &[
    (SORTED, SORTED, 6),
    (
        b"%%MatrixMarket matrix coordinate integer general\n2 2 2\n2 1 1\n2 1 4\n",
        b"%%MatrixMarket matrix coordinate integer general\n2 2 1\n2 1 5\n",
        5,
    ),
    (
        b"%%MatrixMarket MATRIX Coordinate INTEGER General\r\n%\r\n\r\n3 3 3\r\n1 3 +5\r\n\t2 1 007\r\n3 2 -1",
        b"%%MatrixMarket matrix coordinate integer general\n3 3 3\n2 1 7\n3 2 18446744073709551615\n1 3 5\n",
        8,
    ),
];

const PATTERNS: &[Row<'static>] = &[(
    b"%%MatrixMarket matrix coordinate pattern symmetric\n3 3 2\n2 1\n3 3\n",
    b"%%MatrixMarket matrix coordinate pattern general\n3 3 3\n2 1\n1 2\n3 3\n",
    5,
)];

#[test]
fn is_refused_or_read(rt: HostRuntime) {
    assert!(rt; all_right_or_memory::<PlusTimes>(rt.alloc(), NUMBERS));
    assert!(rt; all_right_or_memory::<OrAnd>(rt.alloc(), PATTERNS));
}

#[test]
fn is_refused_or_written(rt: HostRuntime) {
    let answer = is_list(rt.alloc(), &LEVELS);
    assert!(rt; answer == Ok(true) || answer == Err(Kind::Memory));
}
