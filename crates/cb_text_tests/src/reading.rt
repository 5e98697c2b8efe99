//! Texts read in pieces of one line or several, and texts that were loaded in parts.
ghost use Rattle.std.specs.Prelude.{◌≡◌, IfSome, vec_len};

use crate::meetings::{Delay, Meeting};
use cb_dcsc::Block;
use cb_job_ends::texts::Text;
use cb_job_inputs::operands::read_operands;
use cb_job_inputs::reading::{Pieces, read_in_pieces, read_side_by_side};
use cb_job_threads::gates::{Gate, OpenGate};
use cb_layout::{DistributedMatrix, Grid};
use cb_market::{Kind, ReadFault, parted, read};
use cb_market_pages::text;
use cb_operations::Operands;
use cb_semirings::PlusTimes;
use std::alloc::{AllocError, Global};
use std::thread::Threads;

/// Into how many pieces each text is cut.
const COUNTS: [u32; 4] = [2, 3, 7, 64];

/// At most this many pieces, however short, for three threads.
fn short(most: u32) -> Pieces {
    Pieces {
        most,
        least_bytes: 1,
        threads: 3,
    }
}

/// These bytes as a text in one part.
fn whole(alloc: Global, given: &[u8]) -> Option<Text> {
    let bytes = Vec::from_slice(alloc, given).ok()?;
    Some(Text::whole(alloc, bytes))
}

/// These bytes as a text in this many parts, at least two. Each but the last ends with a line.
fn in_parts(alloc: Global, count: u32, given: &[u8]) -> Option<Text> {
    let mut first = Vec::with_capacity(alloc, given.len()).ok()?;
    let mut rest = Vec::new(alloc);
    let mut left = given;
    for after in (1..count).rev() {
        let (part, others) = parted(left, left.len() / (after as usize + 1));
        if after + 1 == count {
            first.extend_from_slice(part).ok()?;
        } else {
            rest.push(Vec::from_slice(alloc, part).ok()?).ok()?;
        }
        left = others;
    }
    rest.push(Vec::from_slice(alloc, left).ok()?).ok()?;
    Text::of_parts(first, rest)
}

/// The text of a matrix over a grid.
fn written(alloc: Global, matrix: &DistributedMatrix<PlusTimes>) -> Option<Vec<u8>> {
    let whole = matrix.gather(alloc).ok()?;
    let block = Block::<PlusTimes>::from_ordered(alloc, whole.shape(), whole.entries()).ok()?;
    text(alloc, &block).ok()
}

/// Reads a text on one thread, and writes the matrix again.
fn on_one_thread(alloc: Global, given: &[u8]) -> Option<Vec<u8>> {
    let Ok(matrix) = read::<PlusTimes>(alloc, given) else {
        return None;
    };
    text(alloc, &matrix).ok()
}

/// Reads a text in at most this many pieces, or in its parts, over a grid of this side, and writes the matrix again.
fn in_pieces<R: Threads + Sync>(
    rt: &R,
    alloc: Global,
    side: u32,
    most: u32,
    given: Option<Text>,
) -> Option<Vec<u8>> {
    let Ok(grid) = Grid::new(side) else {
        return None;
    };
    let Some(matrix) = read_in_pieces::<PlusTimes, R, OpenGate>(
        rt,
        alloc,
        &grid,
        short(most),
        &OpenGate,
        &given?,
    ) else {
        return None;
    };
    let bytes = written(alloc, &matrix);
    matrix.free(rt, alloc);
    bytes
}

/// Whether a text is read in pieces, on several grids, with the same result as on one thread.
fn is_read_in_pieces<R: Threads + Sync>(rt: &R, alloc: Global, given: &[u8]) -> bool {
    let Some(wanted) = on_one_thread(alloc, given) else {
        return false;
    };
    for side in [1, 2, 5] {
        for most in COUNTS {
            match in_pieces(rt, alloc, side, most, whole(alloc, given)) {
                Some(bytes) if bytes.as_slice() == wanted.as_slice() => {}
                _ => return false,
            }
        }
    }
    true
}

/// Whether a text is read as loaded in parts, without being cut, with the same result as on one thread.
fn is_read_in_parts<R: Threads + Sync>(rt: &R, alloc: Global, given: &[u8]) -> bool {
    let Some(wanted) = on_one_thread(alloc, given) else {
        return false;
    };
    for count in COUNTS {
        match in_pieces(rt, alloc, 2, 1, in_parts(alloc, count, given)) {
            Some(bytes) if bytes.as_slice() == wanted.as_slice() => {}
            _ => return false,
        }
    }
    true
}

/// Texts with one entry or more, with and without values.
const TEXTS: &[&[u8]] = &[
    b"%%MatrixMarket matrix coordinate integer general\n5 4 6\n1 1 7\n5 1 10\n2 2 18446744073709551615\n4 2 3\n1 4 99999\n3 4 1\n",
    b"%%MatrixMarket matrix coordinate integer general\n3 3 3\n2 1 7\n3 3 1\n1 3 5\n",
    b"%%MatrixMarket matrix coordinate integer general\n2 2 3\n1 1 1\n2 2 3\n2 2 4\n",
    b"%%MatrixMarket matrix coordinate integer general\n2 2 4\n1 1 1\n2 1 -1\n2 1 1\n2 2 0\n",
    b"%%MatrixMarket MATRIX Coordinate INTEGER General\r\n%\r\n\r\n3 3 3\r\n1 3 +5\r\n%\r\n\r\n\t2 1 007\r\n3 2 -1",
    b"%%MatrixMarket matrix coordinate integer general\n9 9 3\n\n\n% 1 1 1\n1 1 2\n\n% none\n\n3 1 2\n9 9 9\n\n\n%\n",
    b"%%MatrixMarket matrix coordinate integer general\n1 1 1\n1 1 00000000000000000000000000000000000000000000000000000000000000000007\n",
    b"%%MatrixMarket matrix coordinate integer symmetric\n3 3 3\n1 1 5\n2 1 3\n3 2 4\n",
    b"%%MatrixMarket matrix coordinate integer skew-symmetric\n3 3 2\n2 1 3\n3 1 4\n",
    b"%%MatrixMarket matrix coordinate pattern general\n3 100 3\n2 1\n1 100\n3 100\n",
    b"%%MatrixMarket matrix coordinate pattern symmetric\n3 3 2\n2 1\n3 3\n",
];

/// Whether each text is.
fn all_are_read_in_pieces<R: Threads + Sync>(rt: &R, alloc: Global, texts: &[&[u8]]) -> bool {
    for given in texts {
        if !is_read_in_pieces(rt, alloc, given) {
            return false;
        }
    }
    true
}

#[test]
fn are_read_in_pieces(rt: HostRuntime) {
    assert!(&rt; all_are_read_in_pieces(&rt, rt.alloc(), TEXTS));
}

/// Appends the last three digits of a number and a byte.
fn put(text: &mut Vec<u8>, number: u32, end: u8) -> Result<(), AllocError> {
    let below = number % 1000;
    text.push(b'0' + (below / 100) as u8)?;
    text.push(b'0' + (below / 10 % 10) as u8)?;
    text.push(b'0' + (below % 10) as u8)?;
    text.push(end)?;
    Ok(())
}

/// A text of 900 entries: ten times 90 of one column, where each column is `step` after the one before.
fn long_text(alloc: Global, step: u32) -> Result<Vec<u8>, AllocError> {
    let mut text = Vec::from_slice(
        alloc,
        b"%%MatrixMarket matrix coordinate integer general\n99 99 900\n",
    )?;
    for number in 0u32..900 {
        put(&mut text, number % 90 + 1, b' ')?;
        put(&mut text, (number / 90).wrapping_mul(step) % 90 + 1, b' ')?;
        put(&mut text, number, b'\n')?;
    }
    Ok(text)
}

/// Whether a long text is read in pieces, and in parts.
fn is_long_text_read<R: Threads + Sync>(
    rt: &R,
    alloc: Global,
    step: u32,
) -> Result<bool, AllocError> {
    let given = long_text(alloc, step)?;
    Ok(is_read_in_pieces(rt, alloc, &given) && is_read_in_parts(rt, alloc, &given))
}

/// Entries that ascend, and entries that start over in the same column.
#[test]
fn may_be_long(rt: HostRuntime) {
    for step in [1, 7, 0] {
        assert!(&rt; is_long_text_read(&rt, rt.alloc(), step) == Ok(true));
    }
}

/// A text of 143,360 entries, 512 of each column: if it is cut in three, the second piece has more than 8,192 of them for each of
/// two blocks on a grid of side 2, in which the first piece has entries too.
fn full_text(alloc: Global) -> Result<Vec<u8>, AllocError> {
    let mut text = Vec::from_slice(
        alloc,
        b"%%MatrixMarket matrix coordinate pattern general\n512 280 143360\n",
    )?;
    for number in 0u32..143_360 {
        put(&mut text, number % 512 + 1, b' ')?;
        put(&mut text, number / 512 + 1, b'\n')?;
    }
    Ok(text)
}

/// Whether the first of the texts is read in four pieces by two threads, through a gate.
fn is_read<R: Threads + Sync, G: Gate>(rt: &R, alloc: Global, gate: &G) -> Option<bool> {
    let given = TEXTS[0];
    let pieces = Pieces {
        most: 4,
        least_bytes: 1,
        threads: 2,
    };
    let text = whole(alloc, given)?;
    let matrix = read_in_pieces::<PlusTimes, R, G>(
        rt,
        alloc,
        &Grid::single(),
        pieces,
        gate,
        &text,
    )?;
    Some(written(alloc, &matrix)?.as_slice() == on_one_thread(alloc, given)?.as_slice())
}

/// Whether two threads take pieces at the same time.
fn meet<R: Threads + Sync>(rt: &R, alloc: Global) -> Option<bool> {
    let gate = Meeting::new();
    let is_right = is_read(rt, alloc, &gate)?;
    Some(is_right && gate.have_met())
}

#[test]
fn two_pieces_are_read_at_once(rt: HostRuntime) {
    assert!(&rt; meet(&rt, rt.alloc()) == Some(true));
}

/// Whether one thread takes all other pieces while the first is delayed.
fn takes_the_others<R: Threads + Sync>(rt: &R, alloc: Global) -> Option<bool> {
    let gate = Delay::new(3);
    let is_right = is_read(rt, alloc, &gate)?;
    Some(is_right && gate.were_taken())
}

/// A thread that is held up doesn't hold up the pieces that it didn't take.
#[test]
fn a_free_thread_takes_the_pieces_of_a_slow_one(rt: HostRuntime) {
    assert!(&rt; takes_the_others(&rt, rt.alloc()) == Some(true));
}

/// Whether a text is read right if no thread takes a piece.
fn are_read_by_the_caller<R: Threads + Sync>(rt: &R, alloc: Global) -> Option<bool> {
    let given = TEXTS[0];
    let pieces = Pieces {
        most: 4,
        least_bytes: 1,
        threads: 0,
    };
    let text = whole(alloc, given)?;
    let gate = &OpenGate;
    let matrix = read_in_pieces::<PlusTimes, R, OpenGate>(
        rt,
        alloc,
        &Grid::single(),
        pieces,
        gate,
        &text,
    )?;
    Some(written(alloc, &matrix)?.as_slice() == on_one_thread(alloc, given)?.as_slice())
}

#[test]
fn pieces_that_nobody_takes_are_read_too(rt: HostRuntime) {
    assert!(&rt; are_read_by_the_caller(&rt, rt.alloc()) == Some(true));
}

/// Pieces with so many entries that threads append them, one for each of two blocks. The matrix is freed by threads too.
#[test]
fn may_have_many_entries(rt: HostRuntime) {
    let given = full_text(rt.alloc());
    assert!(&rt; matches!(&given, Ok(text) if is_read_in_pieces(&rt, rt.alloc(), text)));
}

/// Whether two long texts are read, each with the same result as on one thread.
fn are_both_read<R: Threads + Sync>(rt: &R, alloc: Global, given: &[u8]) -> bool {
    let (Some(wanted), Some(texts)) = (on_one_thread(alloc, given), twice(alloc, given)) else {
        return false;
    };
    match read_operands::<PlusTimes, R>(rt, alloc, &Grid::single(), 2, texts) {
        Ok(Operands::Two(left, right)) => {
            has_text(alloc, &left, &wanted) && has_text(alloc, &right, &wanted)
        }
        _ => false,
    }
}

/// These bytes as two texts.
fn twice(alloc: Global, given: &[u8]) -> Option<Vec<Text>>
    ensures { IfSome result (λ texts. vec_len texts ≡ 2) }
{
    let mut texts = Vec::new(alloc);
    texts.push(whole(alloc, given)?).ok()?;
    texts.push(whole(alloc, given)?).ok()?;
    Some(texts)
}

/// Whether a matrix has this text.
fn has_text(alloc: Global, matrix: &DistributedMatrix<PlusTimes>, wanted: &[u8]) -> bool {
    match written(alloc, matrix) {
        Some(bytes) => bytes.as_slice() == wanted,
        None => false,
    }
}

/// Two texts that are long enough to be read at once.
#[test]
fn may_be_two(rt: HostRuntime) {
    let given = full_text(rt.alloc());
    assert!(&rt; matches!(&given, Ok(text) if are_both_read(&rt, rt.alloc(), text)));
}

/// The line and the kind of the first fault of a text that is read in at most this many pieces, or in its parts.
fn fault<R: Threads + Sync>(
    rt: &R,
    alloc: Global,
    most: u32,
    given: Option<Text>,
) -> Option<(u64, Kind)> {
    let Ok(grid) = Grid::new(2) else {
        return None;
    };
    match read_side_by_side::<PlusTimes, R>(rt, alloc, &grid, short(most), given?) {
        Ok(_) => None,
        Err(ReadFault { line, kind }) => Some((line, kind)),
    }
}

/// Texts with a fault in the header, the size line, one of the pieces or the number of entries.
const FAULTS: &[(&[u8], u64, Kind)] = &[
    (b"", 1, Kind::BadHeader),
    (
        b"%%MatrixMarket matrix coordinate integer general\n2 2\n",
        2,
        Kind::BadSize,
    ),
    (
        b"%%MatrixMarket matrix coordinate integer general\n2 2 0\n\n1 1 1\n2 2 2\n",
        4,
        Kind::ExtraEntry,
    ),
    (
        b"%%MatrixMarket matrix coordinate integer general\n2 2 3\n1 1 1\n2 2 2\n",
        5,
        Kind::MissingEntries,
    ),
    (
        b"%%MatrixMarket matrix coordinate integer general\n2 2 3\n1 1 1\n2 2 x\n3 1 1\n",
        4,
        Kind::BadNumber,
    ),
    (
        b"%%MatrixMarket matrix coordinate integer general\n2 2 3\n1 1 1\n% 2\n2 2 1\n3 1 1\n",
        6,
        Kind::IndexRange,
    ),
    (
        b"%%MatrixMarket matrix coordinate integer symmetric\n2 2 3\n1 1 1\n2 2 1\n1 2 1\n",
        5,
        Kind::AboveDiagonal,
    ),
];

/// Whether each text has its fault, in as many pieces and in as many parts as are tried.
fn have_faults<R: Threads + Sync>(rt: &R, alloc: Global, rows: &[(&[u8], u64, Kind)]) -> bool {
    for (given, line, kind) in rows {
        for most in COUNTS {
            let wanted = Some((*line, *kind));
            if fault(rt, alloc, most, whole(alloc, given)) != wanted
                || fault(rt, alloc, 1, in_parts(alloc, most, given)) != wanted
            {
                return false;
            }
        }
    }
    true
}

#[test]
fn have_their_first_fault(rt: HostRuntime) {
    assert!(&rt; have_faults(&rt, rt.alloc(), FAULTS));
}

/// Whether a text is read correctly in three pieces or in its parts, or memory is refused.
fn right_or_memory<R: Threads + Sync>(
    rt: &R,
    alloc: Global,
    given: Option<Text>,
    wanted: &[u8],
) -> bool {
    let (Ok(grid), Some(given)) = (Grid::new(2), given) else {
        return true;
    };
    match read_side_by_side::<PlusTimes, R>(rt, alloc, &grid, short(3), given) {
        Ok(matrix) => match written(alloc, &matrix) {
            Some(bytes) => bytes.as_slice() == wanted,
            None => true,
        },
        Err(ReadFault { kind, .. }) => kind == Kind::Memory,
    }
}

/// Also run with each allocation refused in turn.
#[test]
fn are_refused_or_read(rt: HostRuntime) {
    let sorted = b"%%MatrixMarket matrix coordinate integer general\n2 2 3\n1 1 1\n1 2 2\n2 2 3\n";
    assert!(&rt; right_or_memory(&rt, rt.alloc(), whole(rt.alloc(), sorted), sorted));
    assert!(&rt; right_or_memory(&rt, rt.alloc(), in_parts(rt.alloc(), 2, sorted), sorted));
    let mixed = b"%%MatrixMarket matrix coordinate integer general\n2 2 3\n1 1 1\n2 2 3\n1 2 2\n";
    assert!(&rt; right_or_memory(&rt, rt.alloc(), whole(rt.alloc(), mixed), sorted));
    assert!(&rt; right_or_memory(&rt, rt.alloc(), in_parts(rt.alloc(), 2, mixed), sorted));
}
