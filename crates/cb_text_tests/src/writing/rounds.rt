//! The rounds of a text: together they are the whole text.
use crate::market::pages::{EMPTY, FAR, GIVEN};
use cb_dcsc::Block;
use cb_job_ends::faults::JobFault;
use cb_job_ends::sinks::WriterSink;
use cb_job_output::output::{put_in_rounds, put_text_and_lines};
use cb_job_output::rounds::Form;
use cb_job_threads::gates::Gate;
use cb_layout::{DistributedMatrix, Grid};
use cb_market::{Kind, read_distributed};
use cb_market_pages::{TextPages, text};
use cb_matrix::{Entry, Matrix, Shape};
use cb_samples::are_values;
use cb_semirings::PlusTimes;
use std::alloc::Global;
use std::sync::atomic::{AtomicUsize, Ordering};
use std::thread::Threads;

/// A gate that counts the shares that pass it.
#[derive(Drop)]
struct Counter {
    passed: AtomicUsize,
}

impl Gate for Counter {
    fn pass(&self, _share: usize) {
        self.passed.fetch_add(1, Ordering::SeqCst);
    }
}

/// What is written of a text in rounds of this form, and how many shares threads took.
pub(crate) fn joined<R: Threads + Sync>(
    rt: &R,
    alloc: Global,
    form: Form,
    left: TextPages<'_, PlusTimes>,
) -> Result<(Vec<u8>, usize), JobFault> {
    let gate = Counter {
        passed: AtomicUsize::new(0),
    };
    let mut out = WriterSink::new(Vec::new(alloc));
    put_in_rounds(rt, alloc, form, left, &gate, &mut out)?;
    Ok((out.into_inner(), gate.passed.load(Ordering::SeqCst)))
}

/// Whether the rounds of a matrix over a grid are this text, by one to five threads, with a few lines a share or many.
fn are_text<R: Threads + Sync>(
    rt: &R,
    alloc: Global,
    matrix: &DistributedMatrix<PlusTimes>,
    wanted: &[u8],
) -> Result<bool, JobFault> {
    for threads in 1..=5 {
        for lines in [1, 2, 3, 1_000] {
            let form = Form {
                threads,
                shares: 3,
                lines,
            };
            let (bytes, _) = joined(rt, alloc, form, TextPages::new(matrix))?;
            if bytes.as_slice() != wanted {
                return Ok(false);
            }
        }
    }
    Ok(true)
}

/// Whether a text that is read over the grid of this side is written in rounds as the same text.
fn read_and_joined<R: Threads + Sync>(
    rt: &R,
    alloc: Global,
    side: u32,
    given: &[u8],
) -> Result<bool, Kind> {
    let Ok(grid) = Grid::new(side) else {
        return Err(Kind::TooLarge);
    };
    match read_distributed::<PlusTimes>(alloc, &grid, given) {
        Ok(matrix) => are_text(rt, alloc, &matrix, given).map_err(|_| Kind::Memory),
        Err(fault) => Err(fault.kind),
    }
}

/// Whether texts are, on the grids of sides 1 to 3.
fn are_on_each_grid<R: Threads + Sync>(rt: &R, alloc: Global, texts: &[&[u8]]) -> bool {
    for given in texts {
        for side in 1..=3 {
            if read_and_joined(rt, alloc, side, given) != Ok(true) {
                return false;
            }
        }
    }
    true
}

#[test]
fn are_the_text_on_each_grid(rt: HostRuntime) {
    assert!(&rt; are_on_each_grid(&rt, rt.alloc(), &[GIVEN, FAR, EMPTY]));
}

/// A matrix of two columns, with this many entries in the second.
fn long_column(alloc: Global, count: u32) -> Option<Matrix<PlusTimes>> {
    let mut entries = Vec::new(alloc);
    let first = Entry {
        row: 2,
        column: 0,
        value: 1,
    };
    entries.push(first).ok()?;
    for row in 0..count {
        let value = u64::from(row) + 1;
        let column = 1;
        entries.push(Entry { row, column, value }).ok()?;
    }
    if !are_values::<PlusTimes>(&entries) {
        return None;
    }
    Matrix::from_entries(alloc, Shape::new(100_000, 2)?, &entries).ok()
}

/// Whether the text of a matrix over a grid is written in this many shares of this many lines, two a round.
fn are_shares<R: Threads + Sync>(
    rt: &R,
    alloc: Global,
    blocks: &DistributedMatrix<PlusTimes>,
    whole: &[u8],
    lines: usize,
    shares: usize,
) -> Result<bool, JobFault> {
    let form = Form {
        threads: 2,
        shares: 2,
        lines,
    };
    let (bytes, count) = joined(rt, alloc, form, TextPages::new(blocks))?;
    Ok(count == shares && bytes.as_slice() == whole)
}

/// Whether the text of 9,001 entries over the grid of this side is written in shares of 1,000 lines, and of 4,501. Each is
/// taken by a thread once.
fn are_long_shares<R: Threads + Sync>(rt: &R, alloc: Global, side: u32) -> Option<bool> {
    let grid = Grid::new(side).ok()?;
    let matrix = long_column(alloc, 9_000)?;
    let block = Block::<PlusTimes>::from_ordered(alloc, matrix.shape(), matrix.entries()).ok()?;
    let whole = text(alloc, &block).ok()?;
    let blocks = DistributedMatrix::scatter(alloc, grid, &matrix).ok()?;
    let many = are_shares(rt, alloc, &blocks, &whole, 1_000, 10).ok()?;
    let two = are_shares(rt, alloc, &blocks, &whole, 4_501, 2).ok()?;
    Some(many && two)
}

/// A column continues in the next share and in the next round.
#[test]
fn follow_one_another(rt: HostRuntime) {
    for side in [1, 3] {
        assert!(&rt; are_long_shares(&rt, rt.alloc(), side) == Some(true));
    }
}

/// The text of a matrix over a grid and a line after it, as this many threads write them to a sink.
fn put_by<R: Threads + Sync>(
    rt: &R,
    alloc: Global,
    threads: u32,
    blocks: &DistributedMatrix<PlusTimes>,
) -> Option<Vec<u8>> {
    let mut out = WriterSink::new(Vec::new(alloc));
    let text = TextPages::new(blocks);
    put_text_and_lines(rt, alloc, threads, text, LINE, &mut out).ok()?;
    Some(out.into_inner())
}

/// A line after a text.
const LINE: &[u8] = b"% end\n";

/// Whether 100,001 entries and a line after them are written whole by one thread to four.
fn are_put_whole<R: Threads + Sync>(rt: &R, alloc: Global) -> Option<bool> {
    let matrix = long_column(alloc, 100_000)?;
    let block = Block::<PlusTimes>::from_ordered(alloc, matrix.shape(), matrix.entries()).ok()?;
    let mut whole = text(alloc, &block).ok()?;
    whole.extend_from_slice(LINE).ok()?;
    let blocks = DistributedMatrix::scatter(alloc, Grid::single(), &matrix).ok()?;
    for threads in 1..=4 {
        if put_by(rt, alloc, threads, &blocks)?.as_slice() != whole.as_slice() {
            return Some(false);
        }
    }
    Some(true)
}

#[test]
fn are_put_in_order(rt: HostRuntime) {
    assert!(&rt; are_put_whole(&rt, rt.alloc()) == Some(true));
}

/// Numbers of entries and of threads, and the form that a round then has: its threads, its shares, and their lines.
const FORMS: &[(usize, usize, usize, usize, usize)] = &[
    (0, 4, 1, 1, 4_096),
    (3, 0, 0, 1, 4_096),
    (20_000, 1, 1, 4, 5_000),
    (5_000, 4, 2, 2, 4_096),
    (20_000, 4, 4, 5, 4_096),
    (200_000, 4, 4, 16, 12_500),
    (1_000_000, 4, 4, 16, 16_384),
];

/// There are four shares for each thread, unless the entries are fewer, and no thread without a share.
#[test]
fn have_shares_for_each_thread(rt: HostRuntime) {
    for (entries, given, threads, shares, lines) in FORMS {
        let form = Form::for_entries(*entries, *given);
        assert!(rt; (form.threads, form.shares, form.lines) == (*threads, *shares, *lines));
    }
}

/// Whether the text of 11 entries is written whole by two threads that have no sheets, and how many shares they took.
fn is_written_without_sheets<R: Threads + Sync>(rt: &R, alloc: Global) -> Option<(bool, usize)> {
    let matrix = long_column(alloc, 10)?;
    let block = Block::<PlusTimes>::from_ordered(alloc, matrix.shape(), matrix.entries()).ok()?;
    let whole = text(alloc, &block).ok()?;
    let blocks = DistributedMatrix::scatter(alloc, Grid::single(), &matrix).ok()?;
    let form = Form {
        threads: 2,
        shares: 0,
        lines: 2,
    };
    let (bytes, taken) = joined(rt, alloc, form, TextPages::new(&blocks)).ok()?;
    Some((bytes.as_slice() == whole.as_slice(), taken))
}

/// A share that no thread takes is written by the thread that writes to the sink.
#[test]
fn a_share_that_nobody_takes_is_written_too(rt: HostRuntime) {
    assert!(&rt; is_written_without_sheets(&rt, rt.alloc()) == Some((true, 0)));
}

/// Whether a text is written as itself, or memory is refused.
fn is_joined_or_refused<R: Threads + Sync>(rt: &R, alloc: Global, given: &[u8]) -> bool {
    match read_and_joined(rt, alloc, 2, given) {
        Ok(is_text) => is_text,
        Err(kind) => kind == Kind::Memory,
    }
}

/// Also run with each allocation refused in turn.
#[test]
fn are_refused_or_joined(rt: HostRuntime) {
    assert!(&rt; is_joined_or_refused(&rt, rt.alloc(), GIVEN));
}
