//! The first faults of texts.
use cb_market::Kind::*;
use cb_market::{Kind, ReadFault, read};
use cb_semirings::{MinPlus, OrAnd, PlusTimes, Semiring};
use std::alloc::Global;
use std::fmt::InlineText;

/// The first fault of a text, or none.
fn fault<S: Semiring>(alloc: Global, text: &[u8]) -> Option<(u64, Kind)> {
    match read::<S>(alloc, text) {
        Ok(_) => None,
        Err(fault) => Some((fault.line, fault.kind)),
    }
}

/// A text, and the line and kind of its first fault.
type Row<'a> = (&'a [u8], u64, Kind);

/// Whether each text has its fault.
fn have_faults<S: Semiring>(alloc: Global, rows: &[Row<'_>]) -> bool {
    for (text, line, kind) in rows {
        if fault::<S>(alloc, text) != Some((*line, *kind)) {
            return false;
        }
    }
    true
}

/// Texts with a fault in the header or the size line, and the line and kind of that fault.
const HEADERS_AND_SIZES: &[Row<'static>] = &[
    (b"", 1, BadHeader),
    (
        b"%%matrixmarket matrix coordinate integer general\n",
        1,
        BadHeader,
    ),
    (
        b" %%MatrixMarket matrix coordinate integer general\n1 1 0\n",
        1,
        BadHeader,
    ),
    (b"%%MatrixMarket matrix coordinate integer\n", 1, BadHeader),
    (
        b"%%MatrixMarket matrix coordinate real general\n1 1 0\n",
        1,
        Unsupported,
    ),
    (
        b"%%MatrixMarket matrix array integer general\n1 1\n",
        1,
        Unsupported,
    ),
    (
        b"%%MatrixMarket matrix coordinate pattern skew-symmetric\n1 1 0\n",
        1,
        Unsupported,
    ),
    (
        b"%%MatrixMarket matrix coordinate integer general\n",
        2,
        BadSize,
    ),
    (
        b"%%MatrixMarket matrix coordinate integer general\n2 2\n",
        2,
        BadSize,
    ),
    (
        b"%%MatrixMarket matrix coordinate integer general\n2147483648 1 0\n",
        2,
        TooLarge,
    ),
    (
        b"%%MatrixMarket matrix coordinate integer symmetric\n2 3 0\n",
        2,
        NotSquare,
    ),
    (
        b"%%MatrixMarket matrix coordinate integer skew-symmetric\n2 3 0\n",
        2,
        NotSquare,
    ),
];

#[test]
fn of_the_header_and_the_size(rt: HostRuntime) {
    assert!(rt; have_faults::<PlusTimes>(rt.alloc(), HEADERS_AND_SIZES));
}

/// Texts with a fault in the entries, and the line and kind of that fault.
const ENTRIES: &[Row<'static>] = &[
    (
        b"%%MatrixMarket matrix coordinate integer general\n2 2 1\n1 1 5 6\n",
        3,
        BadLine,
    ),
    (
        b"%%MatrixMarket matrix coordinate integer general\n2 2 1\n+1 1 5\n",
        3,
        BadNumber,
    ),
    (
        b"%%MatrixMarket matrix coordinate integer general\n2 2 1\n1 1 x\n",
        3,
        BadNumber,
    ),
    (
        b"%%MatrixMarket matrix coordinate integer general\n2 2 1\n0 1 5\n",
        3,
        IndexRange,
    ),
    (
        b"%%MatrixMarket matrix coordinate integer general\n2 2 1\n1 99999999999999999999 5\n",
        3,
        IndexRange,
    ),
    (
        b"%%MatrixMarket matrix coordinate integer general\n1 1 1\n1 1 18446744073709551616\n",
        3,
        ValueRange,
    ),
    (
        b"%%MatrixMarket matrix coordinate integer general\n2 2 2\n1 1 12",
        4,
        MissingEntries,
    ),
    (
        b"%%MatrixMarket matrix coordinate integer general\n1 1 2\n1 1 1\n1 1 2\n1 1 3\n",
        5,
        ExtraEntry,
    ),
    (
        b"%%MatrixMarket matrix coordinate integer skew-symmetric\n2 2 1\n1 1 x\n",
        3,
        BadNumber,
    ),
    (
        b"%%MatrixMarket matrix coordinate integer skew-symmetric\n2 2 1\n1 1 0\n",
        3,
        OnDiagonal,
    ),
    (
        b"%%MatrixMarket matrix coordinate integer skew-symmetric\n2 2 1\n1 2 5\n",
        3,
        AboveDiagonal,
    ),
];

#[test]
fn of_entries(rt: HostRuntime) {
    assert!(rt; have_faults::<PlusTimes>(rt.alloc(), ENTRIES));
}

const SKEW: &[u8] = b"%%MatrixMarket matrix coordinate integer skew-symmetric\n2 2 1\n2 1 3\n";

/// Numbers that aren't values of min-plus, and an entry that has no negative there.
const WEIGHTS: &[Row<'static>] = &[
    (
        b"%%MatrixMarket matrix coordinate integer general\n1 1 1\n1 1 -1\n",
        3,
        ValueRange,
    ),
    (
        b"%%MatrixMarket matrix coordinate integer general\n1 1 1\n1 1 18446744073709551615\n",
        3,
        ValueRange,
    ),
    (SKEW, 1, Unsupported),
];

const PATTERNS: &[Row<'static>] = &[
    (
        b"%%MatrixMarket matrix coordinate pattern symmetric\n3 3 1\n2 3\n",
        3,
        AboveDiagonal,
    ),
    (SKEW, 1, Unsupported),
];

#[test]
fn of_other_semirings(rt: HostRuntime) {
    assert!(rt; have_faults::<MinPlus>(rt.alloc(), WEIGHTS));
    assert!(rt; have_faults::<OrAnd>(rt.alloc(), PATTERNS));
}

/// The value of the only place of the 1 by 1 matrix that a text reads as, or the first fault of the text.
fn value(alloc: Global, text: &[u8]) -> Result<Option<u64>, (u64, Kind)> {
    match read::<PlusTimes>(alloc, text) {
        Ok(matrix) => {
            if matrix.shape().rows() != 1 || matrix.shape().cols() != 1 {
                return Ok(None);
            }
            Ok(Some(matrix.get(0, 0)))
        }
        Err(fault) => Err((fault.line, fault.kind)),
    }
}

/// What a prefix of this length of the text below reads as.
fn of_beginning(length: usize) -> Result<Option<u64>, (u64, Kind)> {
    match length {
        0..=41 => Err((1, BadHeader)),
        42..=47 => Err((1, Unsupported)),
        48..=53 => Err((2, BadSize)),
        54..=55 => Err((3, MissingEntries)),
        56..=59 => Err((3, BadLine)),
        60 => Ok(Some(1)),
        _ => Ok(Some(12)),
    }
}

/// Whether each prefix of a text is read or refused as it should be.
fn has_prefixes(alloc: Global, text: &[u8]) -> bool {
    for length in 0..=text.len() {
        if value(alloc, &text[..length]) != of_beginning(length) {
            return false;
        }
    }
    true
}

/// Every prefix of a text is read or refused.
#[test]
fn of_every_prefix(rt: HostRuntime) {
    let text = b"%%MatrixMarket matrix coordinate integer general\n1 1 1\n1 1 12\n";
    assert!(rt; text.len() == 62 && has_prefixes(rt.alloc(), text));
}

/// Whether a kind of fault is displayed as these words.
fn is_shown_as(kind: Kind, words: &str) -> bool {
    let shown: InlineText<64> = InlineText::of(kind);
    shown.as_str() == words
}

const WORDS: &[(Kind, &str)] = &[
    (BadHeader, "not a Matrix Market header"),
    (Unsupported, "header not supported"),
    (BadSize, "bad size line"),
    (TooLarge, "number too large"),
    (NotSquare, "matrix not square"),
    (BadLine, "wrong number of words"),
    (BadNumber, "not a whole number"),
    (IndexRange, "index out of range"),
    (AboveDiagonal, "entry above the diagonal"),
    (ValueRange, "value out of range"),
    (ExtraEntry, "more entries than announced"),
    (MissingEntries, "fewer entries than announced"),
    (Memory, "out of memory"),
    (OnDiagonal, "entry on the diagonal"),
];

/// Whether each kind of fault is displayed as its words.
fn are_shown(rows: &[(Kind, &str)]) -> bool {
    for (kind, words) in rows {
        if !is_shown_as(*kind, words) {
            return false;
        }
    }
    true
}

#[test]
fn in_words(rt: HostRuntime) {
    assert!(rt; are_shown(WORDS));
    let fault = ReadFault {
        line: 3,
        kind: BadNumber,
    };
    let shown: InlineText<64> = InlineText::of(fault);
    assert!(rt; shown.as_str() == "line 3: not a whole number");
}
