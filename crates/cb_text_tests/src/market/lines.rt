//! The line of an entry, at the borders of the ways in which it is read: by how many digits its numbers have, what stands
//! around them, and how many bytes of the text follow.
use cb_market::{Kind, read};
use cb_matrix::Entry;
use cb_semirings::PlusTimes;
use std::alloc::{AllocError, Global};

const HEADER: &[u8] =
    b"%%MatrixMarket matrix coordinate integer general\n2147483647 2147483647 1\n";

/// A row, a column and a value, as they are written.
type Words<'a> = (&'a [u8], &'a [u8], &'a [u8]);

/// What stands before the row, between the words and after the value.
type Form<'a> = (&'a [u8], &'a [u8], &'a [u8]);

const FORMS: &[Form<'static>] = &[
    (b"", b" ", b"\n"),
    (b"", b" ", b"\r\n"),
    (b"", b" ", b" \n"),
    (b"", b"  ", b"\n"),
    (b"", b"\t", b"\n"),
    (b" ", b" ", b"\n"),
    (b"\n%\n", b" ", b"\n"),
];

/// The end of a text whose last line has no line feed.
const OPEN_ENDED: Form<'static> = (b"", b" ", b"");

/// A comment of 40 bytes.
const COMMENT: &[u8] = b"%123456789012345678901234567890123456789";

/// A text of one entry in this form, and a comment of this many bytes after it.
fn text(
    alloc: Global,
    form: &Form<'_>,
    words: &Words<'_>,
    comment: &[u8],
) -> Result<Vec<u8>, AllocError> {
    let mut text = Vec::from_slice(alloc, HEADER)?;
    text.extend_from_slice(form.0)?;
    text.extend_from_slice(words.0)?;
    text.extend_from_slice(form.1)?;
    text.extend_from_slice(words.1)?;
    text.extend_from_slice(form.1)?;
    text.extend_from_slice(words.2)?;
    text.extend_from_slice(form.2)?;
    text.extend_from_slice(comment)?;
    Ok(text)
}

/// Whether a text is read as this entry alone, or has a fault of this kind.
fn is_answered(alloc: Global, text: &[u8], answer: &Result<Entry, Kind>) -> bool {
    match read::<PlusTimes>(alloc, text) {
        Ok(block) => block.len() == 1 && *answer == Ok(block.entry_at(0)),
        Err(fault) => *answer == Err(fault.kind),
    }
}

/// Whether a text of these words in this form has this answer, with a comment after it.
fn is_right(
    alloc: Global,
    form: &Form<'_>,
    words: &Words<'_>,
    comment: &[u8],
    answer: &Result<Entry, Kind>,
) -> bool {
    match text(alloc, form, words, comment) {
        Ok(bytes) => is_answered(alloc, &bytes, answer),
        Err(_) => false,
    }
}

/// Whether these words have this answer in each form, with a comment of each length after them.
fn is_right_in_each_form(alloc: Global, words: &Words<'_>, answer: &Result<Entry, Kind>) -> bool {
    for form in FORMS {
        for length in 0..=COMMENT.len() {
            if !is_right(alloc, form, words, &COMMENT[..length], answer) {
                return false;
            }
        }
    }
    is_right(alloc, &OPEN_ENDED, words, b"", answer)
}

/// Whether each of these words are a value of this number, in row 1 and column 1.
fn are_values(alloc: Global, rows: &[(&[u8], u64)]) -> bool {
    for (word, value) in rows {
        let answer = Ok(Entry {
            row: 0,
            column: 0,
            value: *value,
        });
        if !is_right_in_each_form(alloc, &(b"1", b"1", *word), &answer) {
            return false;
        }
    }
    true
}

/// Values of 1 to 20 digits, with zeros in front and with signs.
const VALUES: &[(&[u8], u64)] = &[
    (b"1", 1),
    (b"12", 12),
    (b"123", 123),
    (b"1234", 1234),
    (b"12345", 12345),
    (b"123456", 123456),
    (b"1234567", 1234567),
    (b"12345678", 12345678),
    (b"123456789", 123456789),
    (b"1234567890", 1234567890),
    (b"12345678901", 12345678901),
    (b"123456789012", 123456789012),
    (b"1234567890123", 1234567890123),
    (b"12345678901234", 12345678901234),
    (b"123456789012345", 123456789012345),
    (b"1234567890123456", 1234567890123456),
    (b"12345678901234567", 12345678901234567),
    (b"123456789012345678", 123456789012345678),
    (b"1234567890123456789", 1234567890123456789),
    (b"12345678901234567890", 12345678901234567890),
    (b"99999999", 99999999),
    (b"100000000", 100000000),
    (b"9999999999999999999", 9999999999999999999),
    (b"18446744073709551615", 18446744073709551615),
    (b"00000001", 1),
    (b"000000001", 1),
    (b"00000000000000000000000000000000000000012", 12),
    (b"+12345678", 12345678),
    (b"-1", 18446744073709551615),
];

#[test]
fn values_may_have_any_length(rt: HostRuntime) {
    assert!(rt; are_values(rt.alloc(), VALUES));
}

/// Whether each of these words is a row, and a column, of this number.
fn are_places(alloc: Global, rows: &[(&[u8], u32)]) -> bool {
    for (word, place) in rows {
        let answer = Ok(Entry {
            row: *place,
            column: *place,
            value: 7,
        });
        if !is_right_in_each_form(alloc, &(*word, *word, b"7"), &answer) {
            return false;
        }
    }
    true
}

/// Rows or columns of 1 to 10 digits and with zeros in front, and their numbers counted from 0.
const PLACES: &[(&[u8], u32)] = &[
    (b"9", 8),
    (b"98", 97),
    (b"987", 986),
    (b"9876", 9875),
    (b"98765", 98764),
    (b"987654", 987653),
    (b"9876543", 9876542),
    (b"98765432", 98765431),
    (b"99999999", 99999998),
    (b"100000000", 99999999),
    (b"2147483647", 2147483646),
    (b"00000010", 9),
    (b"000000010", 9),
];

#[test]
fn places_may_have_any_length(rt: HostRuntime) {
    assert!(rt; are_places(rt.alloc(), PLACES));
}

/// Whether each line has its fault.
fn have_faults(alloc: Global, rows: &[(Words<'_>, Kind)]) -> bool {
    for (words, kind) in rows {
        if !is_right_in_each_form(alloc, words, &Err(*kind)) {
            return false;
        }
    }
    true
}

/// Lines with a fault: the bytes before and after the digits, digits with a high bit, and numbers that are out of range.
const FAULTS: &[(Words<'static>, Kind)] = &[
    ((b"1/", b"1", b"1"), Kind::BadNumber),
    ((b"1", b"1:", b"1"), Kind::BadNumber),
    ((b"1", b"1", b"1/"), Kind::BadNumber),
    ((b"1", b"1", b":"), Kind::BadNumber),
    ((b"\xb1", b"1", b"1"), Kind::BadNumber),
    ((b"1", b"1\x31\xb1", b"1"), Kind::BadNumber),
    ((b"1", b"1", b"\x00"), Kind::BadNumber),
    ((b"+1", b"1", b"1"), Kind::BadNumber),
    ((b"1", b"-1", b"1"), Kind::BadNumber),
    ((b"1", b"1", b"+"), Kind::BadNumber),
    ((b"12345678x", b"1", b"1"), Kind::BadNumber),
    ((b"1", b"123456789x", b"1"), Kind::BadNumber),
    ((b"1", b"", b"1"), Kind::BadLine),
    ((b"1 1", b"1", b"1"), Kind::BadLine),
    ((b"1", b"1", b"1 1"), Kind::BadLine),
    ((b"0", b"1", b"1"), Kind::IndexRange),
    ((b"1", b"00000000", b"1"), Kind::IndexRange),
    ((b"2147483648", b"1", b"1"), Kind::IndexRange),
    ((b"1", b"18446744073709551617", b"1"), Kind::IndexRange),
    ((b"1", b"1", b"18446744073709551616"), Kind::ValueRange),
    ((b"1", b"1", b"184467440737095516150"), Kind::ValueRange),
];

#[test]
fn lines_have_their_fault(rt: HostRuntime) {
    assert!(rt; have_faults(rt.alloc(), FAULTS));
}
