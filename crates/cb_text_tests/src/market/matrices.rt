//! Texts that read as a matrix.
use super::pages::joined;
use cb_market::{Kind, ReadFault, read};
use cb_market_pages::{LineForm, TextPages, text};
use cb_semirings::{MinPlus, OrAnd, PlusTimes, Semiring};
use std::alloc::{AllocError, Global};

/// Reads a text, and writes the matrix again.
fn again<S: Semiring>(alloc: Global, given: &[u8]) -> Result<Vec<u8>, Kind> {
    match read::<S>(alloc, given) {
        Ok(matrix) => text(alloc, &matrix).map_err(|_| Kind::Memory),
        Err(fault) => Err(fault.kind),
    }
}

/// Whether a text reads as the matrix whose text is `wanted`.
fn reads_as<S: Semiring>(alloc: Global, given: &[u8], wanted: &[u8]) -> bool {
    match again::<S>(alloc, given) {
        Ok(bytes) => bytes.as_slice() == wanted,
        Err(_) => false,
    }
}

/// A text, and the text of the matrix that it reads as.
type Row<'a> = (&'a [u8], &'a [u8]);

/// Whether each text reads as it should.
fn all_read_as<S: Semiring>(alloc: Global, rows: &[Row<'_>]) -> bool {
    for (given, wanted) in rows {
        if !reads_as::<S>(alloc, given, wanted) {
            return false;
        }
    }
    true
}

const NONE: &[u8] = b"%%MatrixMarket matrix coordinate integer general\n1 1 0\n";

const TOP: &[u8] =
    b"%%MatrixMarket matrix coordinate integer general\n1 1 1\n1 1 18446744073709551615\n";

const NUMBERS: &[Row<'static>] = &[
    // entries of one place are added up
    (
        b"%%MatrixMarket matrix coordinate integer general\n1 1 2\n1 1 3\n1 1 4\n",
        b"%%MatrixMarket matrix coordinate integer general\n1 1 1\n1 1 7\n",
    ),
    // no zero is stored
    (
        b"%%MatrixMarket matrix coordinate integer general\n1 1 1\n1 1 0\n",
        NONE,
    ),
    (
        b"%%MatrixMarket matrix coordinate integer general\n1 1 2\n1 1 1\n1 1 -1\n",
        NONE,
    ),
    // the greatest value
    (TOP, TOP),
    // mixed case, signs, tabs, comments, empty lines, carriage returns, and a last line without a line feed
    (
        b"%%MatrixMarket MATRIX Coordinate INTEGER General\r\n%\r\n\r\n3 3 3\r\n1 3 +5\r\n\t2 1 007\r\n3 2 -1",
        b"%%MatrixMarket matrix coordinate integer general\n3 3 3\n2 1 7\n3 2 18446744073709551615\n1 3 5\n",
    ),
    // entries are mirrored
    (
        b"%%MatrixMarket matrix coordinate integer symmetric\n2 2 2\n1 1 5\n2 1 3\n",
        b"%%MatrixMarket matrix coordinate integer general\n2 2 3\n1 1 5\n2 1 3\n1 2 3\n",
    ),
    (
        b"%%MatrixMarket matrix coordinate integer skew-symmetric\n2 2 1\n2 1 3\n",
        b"%%MatrixMarket matrix coordinate integer general\n2 2 2\n2 1 3\n1 2 18446744073709551613\n",
    ),
    (
        b"%%MatrixMarket matrix coordinate integer skew-symmetric\n2 2 2\n2 1 3\n2 1 -3\n",
        b"%%MatrixMarket matrix coordinate integer general\n2 2 0\n",
    ),
];

const ZERO: &[u8] = b"%%MatrixMarket matrix coordinate integer general\n1 1 1\n1 1 0\n";

const GREATEST: &[u8] =
    b"%%MatrixMarket matrix coordinate integer general\n1 1 1\n1 1 18446744073709551614\n";

/// The least of one place; a 0, which is stored, with and without a sign; and the greatest value.
const WEIGHTS: &[Row<'static>] = &[
    (
        b"%%MatrixMarket matrix coordinate integer general\n1 1 2\n1 1 3\n1 1 4\n",
        b"%%MatrixMarket matrix coordinate integer general\n1 1 1\n1 1 3\n",
    ),
    (ZERO, ZERO),
    (
        b"%%MatrixMarket matrix coordinate integer general\n1 1 1\n1 1 -0\n",
        ZERO,
    ),
    (GREATEST, GREATEST),
];

/// Without values.
const PATTERNS: &[Row<'static>] = &[
    (
        b"%%MatrixMarket matrix coordinate integer general\n1 1 2\n1 1 3\n1 1 4\n",
        b"%%MatrixMarket matrix coordinate pattern general\n1 1 1\n1 1\n",
    ),
    (
        b"%%MatrixMarket matrix coordinate pattern symmetric\n3 3 2\n2 1\n3 3\n",
        b"%%MatrixMarket matrix coordinate pattern general\n3 3 3\n2 1\n1 2\n3 3\n",
    ),
];

#[test]
fn are_read_and_written_again(rt: HostRuntime) {
    assert!(rt; all_read_as::<PlusTimes>(rt.alloc(), NUMBERS));
    assert!(rt; all_read_as::<MinPlus>(rt.alloc(), WEIGHTS));
    assert!(rt; all_read_as::<OrAnd>(rt.alloc(), PATTERNS));
}

/// A header, a size line for one entry, and a line with many equal digits between `before` and `after`.
fn long_line(alloc: Global, before: &[u8], digit: u8, after: &[u8]) -> Result<Vec<u8>, AllocError> {
    let mut text = Vec::from_slice(
        alloc,
        b"%%MatrixMarket matrix coordinate integer general\n1 1 1\n",
    )?;
    text.extend_from_slice(before)?;
    for _ in 0..100_000 {
        text.push(digit)?;
    }
    text.extend_from_slice(after)?;
    Ok(text)
}

/// Whether a text is refused with this fault at its third line.
fn is_refused(alloc: Global, given: &[u8], kind: Kind) -> bool {
    match read::<PlusTimes>(alloc, given) {
        Ok(_) => false,
        Err(fault) => fault == ReadFault { line: 3, kind },
    }
}

/// Whether an index of many digits is refused.
fn refuses_a_long_index(alloc: Global) -> Result<bool, AllocError> {
    let index = long_line(alloc, b"", b'9', b" 1 5\n")?;
    Ok(is_refused(alloc, &index, Kind::IndexRange))
}

/// Whether a value with many leading zeros is read.
fn reads_a_long_value(alloc: Global) -> Result<bool, AllocError> {
    let zeros = long_line(alloc, b"1 1 ", b'0', b"7\n")?;
    let wanted = b"%%MatrixMarket matrix coordinate integer general\n1 1 1\n1 1 7\n";
    Ok(reads_as::<PlusTimes>(alloc, &zeros, wanted))
}

/// Numbers can have any length, and no memory is taken for entries that are only announced.
#[test]
fn have_long_numbers(rt: HostRuntime) {
    let many = b"%%MatrixMarket matrix coordinate integer general\n1 1 2147483647\n";
    assert!(rt; is_refused(rt.alloc(), many, Kind::MissingEntries));
    assert!(rt; refuses_a_long_index(rt.alloc()) == Ok(true));
    assert!(rt; reads_a_long_value(rt.alloc()) == Ok(true));
}

/// Reads a text, and writes a line for each entry of it, with the number of its vertex and its value.
fn of_vertices(alloc: Global, given: &[u8]) -> Result<Vec<u8>, Kind> {
    match read::<MinPlus>(alloc, given) {
        Ok(levels) => {
            let lines = TextPages::lines_in(&levels, LineForm::RowAndValue);
            match joined(alloc, lines) {
                Ok((bytes, _)) => Ok(bytes),
                Err(AllocError) => Err(Kind::Memory),
            }
        }
        Err(fault) => Err(fault.kind),
    }
}

/// Levels of four vertices, of which one has none, and the list of them.
pub(crate) const LEVELS: Row<'static> = (
    b"%%MatrixMarket matrix coordinate integer general\n4 1 3\n1 1 0\n2 1 1\n3 1 2\n",
    b"1 0\n2 1\n3 2\n",
);

/// Whether a text is written as this list, or how the call fails.
pub(crate) fn is_list(alloc: Global, row: &Row<'_>) -> Result<bool, Kind> {
    let (given, wanted) = row;
    let found = of_vertices(alloc, given)?;
    Ok(found.as_slice() == *wanted)
}

#[test]
fn of_vertices_have_no_header(rt: HostRuntime) {
    assert!(rt; is_list(rt.alloc(), &LEVELS) == Ok(true));
}
