//! The lines of a column, page by page, in rounds and as an answer.
use crate::market::pages;
use crate::writing::rounds;
use cb_dcsc::Block;
use cb_job_ends::faults::JobFault;
use cb_job_ends::sinks::WriterSink;
use cb_job_output::answers::{Answer, put_answer};
use cb_job_output::rounds::Form;
use cb_market_pages::{LineForm, TextPages};
use cb_matrix::Entry;
use cb_samples::{block, entry};
use cb_semirings::{MinPlus, PlusTimes, Semiring};
use std::alloc::{AllocError, Global};
use std::thread::Threads;

/// The number of rows of a column, the most that there can be.
const ROWS: u32 = 2_147_483_647;

/// Entries of a column, the form of their lines, and these.
struct Row {
    entries: &'static [Entry],
    form: LineForm,
    lines: &'static [u8],
}

/// Entries of three vertices, among them the first and the last one.
const THREE: &[Entry] = &[
    Entry {
        row: 0,
        column: 0,
        value: 3,
    },
    Entry {
        row: 4,
        column: 0,
        value: 0,
    },
    Entry {
        row: 2_147_483_646,
        column: 0,
        value: 18_446_744_073_709_551_614,
    },
];

/// An entry with the largest value.
const LARGEST: &[Entry] = &[Entry {
    row: 8,
    column: 0,
    value: 18_446_744_073_709_551_615,
}];

const DISTANCES: &[Row] = &[
    Row {
        entries: THREE,
        form: LineForm::RowAndValue,
        lines: b"1 3\n5 0\n2147483647 18446744073709551614\n",
    },
    Row {
        entries: THREE,
        form: LineForm::RowAndVertex,
        lines: b"1 4\n5 1\n2147483647 18446744073709551615\n",
    },
    Row {
        entries: THREE,
        form: LineForm::Place,
        lines: b"1 1\n5 1\n2147483647 1\n",
    },
    Row {
        entries: THREE,
        form: LineForm::PlaceAndValue,
        lines: b"1 1 3\n5 1 0\n2147483647 1 18446744073709551614\n",
    },
    Row {
        entries: &[],
        form: LineForm::RowAndValue,
        lines: b"",
    },
];

const COUNTS: &[Row] = &[
    Row {
        entries: LARGEST,
        form: LineForm::RowAndValue,
        lines: b"9 18446744073709551615\n",
    },
    Row {
        entries: LARGEST,
        form: LineForm::RowAndVertex,
        lines: b"9 18446744073709551616\n",
    },
];

/// Whether the pages of a column are these lines, on so many pages.
fn are_pages<S: Semiring>(
    alloc: Global,
    column: &Block<S>,
    form: LineForm,
    lines: &[u8],
    wanted: usize,
) -> Result<bool, AllocError> {
    let (bytes, count) = pages::joined(alloc, TextPages::lines_in(column, form))?;
    Ok(count == wanted && bytes.as_slice() == lines)
}

/// Whether the rounds of a column in shares of this many lines are these lines, in so many shares, two a round.
fn are_shares<R: Threads + Sync>(
    rt: &R,
    alloc: Global,
    column: &Block<PlusTimes>,
    form: LineForm,
    lines: usize,
    wanted: &[u8],
    shares: usize,
) -> Result<bool, JobFault> {
    let round = Form {
        threads: 2,
        shares: 2,
        lines,
    };
    let (bytes, count) = rounds::joined(rt, alloc, round, TextPages::lines_in(column, form))?;
    Ok(count == shares && bytes.as_slice() == wanted)
}

/// Whether the entries of each row have its lines.
fn are_lines<S: Semiring>(alloc: Global, rows: &[Row]) -> bool {
    for row in rows {
        let Ok(column) = block::<S>(alloc, ROWS, 1, row.entries) else {
            return false;
        };
        let pages = usize::from(!row.lines.is_empty());
        if are_pages(alloc, &column, row.form, row.lines, pages) != Ok(true) {
            return false;
        }
    }
    true
}

#[test]
fn have_lines_of_each_form(rt: HostRuntime) {
    assert!(rt; are_lines::<MinPlus>(rt.alloc(), DISTANCES));
    assert!(rt; are_lines::<PlusTimes>(rt.alloc(), COUNTS));
}

/// Whether the lines with the largest value are made by shares too.
fn are_largest_shares<R: Threads + Sync>(rt: &R, alloc: Global) -> Option<bool> {
    let column = block::<PlusTimes>(alloc, ROWS, 1, LARGEST).ok()?;
    for row in COUNTS {
        if are_shares(rt, alloc, &column, row.form, 1, row.lines, 1) != Ok(true) {
            return Some(false);
        }
    }
    Some(true)
}

#[test]
fn have_the_largest_number_in_shares(rt: HostRuntime) {
    assert!(&rt; are_largest_shares(&rt, rt.alloc()) == Some(true));
}

/// A column of the vertices from number 10,000 on, this many of them, with values from 1 to 8.
fn long_column<S: Semiring>(alloc: Global, count: u32) -> Option<Block<S>> {
    let mut entries = Vec::new(alloc);
    for n in 0..count {
        let row = n.saturating_add(9_999);
        let value = u64::from(n % 8) + 1;
        entries.push(entry(row, 0, value)).ok()?;
    }
    block::<S>(alloc, 100_000, 1, &entries).ok()
}

/// The lines of that column, each of eight bytes, with this added to each value.
fn written_out(alloc: Global, count: u32, added: u64) -> Option<Vec<u8>> {
    let mut text = Vec::new(alloc);
    for n in 0..count {
        let vertex = n.saturating_add(10_000);
        let value = (u64::from(n % 8) + 1).saturating_add(added);
        let line = format!(in alloc; "{vertex} {value}\n").ok()?;
        text.extend_from_slice(line.as_bytes()).ok()?;
    }
    Some(text)
}

/// The forms of a column's lines, and what each adds to a value.
const FORMS: &[(LineForm, u64)] = &[(LineForm::RowAndValue, 0), (LineForm::RowAndVertex, 1)];

/// Numbers of lines, and of pages: a page has room for 8,185 lines of eight bytes.
const PAGES: &[(u32, usize)] = &[
    (0, 0),
    (1, 1),
    (8_184, 1),
    (8_185, 1),
    (8_186, 2),
    (16_370, 2),
    (16_371, 3),
];

/// Whether a column with this many lines has so many pages, in each form.
fn has_pages(alloc: Global, count: u32, wanted: usize) -> Option<bool> {
    let column = long_column::<MinPlus>(alloc, count)?;
    for (form, added) in FORMS {
        let text = written_out(alloc, count, *added)?;
        if !are_pages(alloc, &column, *form, &text, wanted).ok()? {
            return Some(false);
        }
    }
    Some(true)
}

/// Whether each column of these has its pages.
fn have_pages(alloc: Global, rows: &[(u32, usize)]) -> bool {
    for (count, wanted) in rows {
        if has_pages(alloc, *count, *wanted) != Some(true) {
            return false;
        }
    }
    true
}

#[test]
fn follow_on_pages(rt: HostRuntime) {
    assert!(rt; have_pages(rt.alloc(), PAGES));
}

/// Numbers of lines, those of a share at most, and numbers of shares: a share has 16,384 lines at most.
const SHARES: &[(u32, usize, usize)] = &[
    (999, 1_000, 1),
    (1_000, 1_000, 1),
    (1_001, 1_000, 2),
    (4_000, 1_000, 4),
    (4_001, 1_000, 5),
    (16_383, 20_000, 1),
    (16_384, 20_000, 1),
    (16_385, 20_000, 2),
];

/// Whether a column with this many lines has so many shares, in each form.
fn has_shares<R: Threads + Sync>(
    rt: &R,
    alloc: Global,
    count: u32,
    lines: usize,
    wanted: usize,
) -> Option<bool> {
    let column = long_column::<PlusTimes>(alloc, count)?;
    for (form, added) in FORMS {
        let text = written_out(alloc, count, *added)?;
        if !are_shares(rt, alloc, &column, *form, lines, &text, wanted).ok()? {
            return Some(false);
        }
    }
    Some(true)
}

/// Whether each column of these has its shares.
fn have_shares<R: Threads + Sync>(rt: &R, alloc: Global, rows: &[(u32, usize, usize)]) -> bool {
    for (count, lines, wanted) in rows {
        if has_shares(rt, alloc, *count, *lines, *wanted) != Some(true) {
            return false;
        }
    }
    true
}

#[test]
fn follow_in_shares(rt: HostRuntime) {
    assert!(&rt; have_shares(&rt, rt.alloc(), SHARES));
}

/// What this many threads write of an answer.
fn put_by<R: Threads + Sync>(
    rt: &R,
    alloc: Global,
    threads: u32,
    answer: Answer<MinPlus>,
) -> Option<Vec<u8>> {
    let mut out = WriterSink::new(Vec::new(alloc));
    put_answer(rt, alloc, threads, answer, &mut out).ok()?;
    Some(out.into_inner())
}

/// Whether this many threads write a column with this many lines, in each form.
fn is_put<R: Threads + Sync>(rt: &R, alloc: Global, threads: u32, count: u32) -> Option<bool> {
    for (form, added) in FORMS {
        let column = long_column::<MinPlus>(alloc, count)?;
        let text = written_out(alloc, count, *added)?;
        let put = put_by(rt, alloc, threads, Answer::Column(column, *form))?;
        if put.as_slice() != text.as_slice() {
            return Some(false);
        }
    }
    Some(true)
}

/// Whether this many threads write a column of counts with this many lines.
fn is_counted<R: Threads + Sync>(rt: &R, alloc: Global, threads: u32, count: u32) -> Option<bool> {
    let column = long_column::<PlusTimes>(alloc, count)?;
    let text = written_out(alloc, count, 0)?;
    let put = put_by(rt, alloc, threads, Answer::Counts(column))?;
    Some(put.as_slice() == text.as_slice())
}

/// Numbers of lines: one thread writes 4,096 and fewer.
const ANSWERS: &[u32] = &[0, 1, 4_095, 4_096, 4_097, 20_000];

/// Whether columns with so many lines are written by one thread to four.
fn are_put<R: Threads + Sync>(rt: &R, alloc: Global, counts: &[u32]) -> bool {
    for count in counts {
        for threads in 1..=4 {
            if is_put(rt, alloc, threads, *count) != Some(true) {
                return false;
            }
            if is_counted(rt, alloc, threads, *count) != Some(true) {
                return false;
            }
        }
    }
    true
}

#[test]
fn are_put_whole(rt: HostRuntime) {
    assert!(&rt; are_put(&rt, rt.alloc(), ANSWERS));
}
