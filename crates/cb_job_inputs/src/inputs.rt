//! Reads the texts of a job. Each text is read in pieces by `threads` threads, in at most two for each, and dropped once it is
//! read. Two long texts are read at once, each in at most one piece for each thread, or for each part in which it was loaded. So
//! while one is joined the other's pieces have the processors.
ghost use Rattle.std.specs.Prelude.{◌≡◌, ℕ, ◌≤◌, List, ◌∷◌, [], drop, vec_len, IfOk, IfErr, IfSome, OnOk};
ghost use Rattle.std.specs.Thread.{IsSync};
ghost use Rattle.cb_market_lines.specs.Reads.{Reads};
ghost use Rattle.cb_job_inputs.specs.Inputs.{AreMatrices, IsFirstReadFault, IsReadFault, IsTextFault, IsTextRead, IsThirdOf, arithmetic_at};
ghost use Rattle.cb_job_ends.specs.Texts.{text_at};

use crate::reading::{Pieces, read_side_by_side};
use cb_bases::Based;
use cb_job_ends::faults::JobFault;
use cb_job_ends::texts::Text;
use cb_layout::{DistributedMatrix, Grid};
use cb_market::{Kind, ReadFault};
use cb_semirings::Semiring;
use std::alloc::Global;
use std::thread::{Threads, join};

/// The fewest bytes of a piece.
const LEAST_BYTES: usize = 262_144;

/// Reads the text at position `which` into the blocks of a grid. It is cut in two pieces for each thread, so that a thread which
/// gets no processor for a while leaves more to the others.
pub fn read_text<S: Based + Send + Sync, R: Threads + Sync>(
    rt: &R,
    alloc: Global,
    grid: &Grid,
    threads: u32,
    which: usize,
    text: Text,
) -> Result<DistributedMatrix<S>, JobFault>
    ensures ok { IfOk result (λ m. Reads S.arithmetic text m.matrix) }
    ensures side { IfOk result (λ m. m.side ≡ grid.now.side) }
    ensures fault { IfErr result (IsTextFault S.arithmetic which text) }
{
    let most = if threads > 1 {
        threads.saturating_mul(2)
    } else {
        1
    };
    let read = read_in_at_most::<S::Base, R>(rt, alloc, grid, most, threads, which, text);
    over::<S>(alloc, which, read)
}

/// What was read of the text at position `which` over the base of a semiring, over the semiring. No entry is copied: it takes
/// memory for one block header per rank. If that is refused, the fault is at the first line.
fn over<S: Based>(
    alloc: Global,
    which: usize,
    read: Result<DistributedMatrix<S::Base>, JobFault>,
) -> Result<DistributedMatrix<S>, JobFault>
    ensures { (side : ℕ) (text : List ℕ) → IsTextRead S.Base.arithmetic side which text read → IsTextRead S.arithmetic side which text result }
{
    let matrix = read?;
    let _shape = matrix.shape();
    match matrix.recast(alloc) {
        Ok(matrix) => Ok(matrix),
        Err(_) => Err(JobFault::Read {
            which,
            fault: ReadFault {
                line: 1,
                kind: Kind::Memory,
            },
        }),
    }
}

/// Reads the text at position `which` into the blocks of a grid, in at most this many pieces.
fn read_in_at_most<S: Semiring + Send + Sync, R: Threads + Sync>(
    rt: &R,
    alloc: Global,
    grid: &Grid,
    most: u32,
    threads: u32,
    which: usize,
    text: Text,
) -> Result<DistributedMatrix<S>, JobFault>
    ensures { IsTextRead S.arithmetic grid.now.side which text result }
{
    let pieces = Pieces {
        most,
        least_bytes: LEAST_BYTES,
        threads,
    };
    match read_side_by_side::<S, R>(rt, alloc, grid, pieces, text) {
        Ok(matrix) => Ok(matrix),
        Err(fault) => Err(JobFault::Read { which, fault }),
    }
}

/// Reads the only text into the blocks of a grid.
pub fn read_one<S: Based + Send + Sync, R: Threads + Sync>(
    rt: &R,
    alloc: Global,
    grid: &Grid,
    threads: u32,
    mut texts: Vec<Text>,
) -> Result<DistributedMatrix<S>, JobFault>
    requires { vec_len texts ≡ 1 }
    ensures ok { IfOk result (λ m. AreMatrices S.arithmetic texts.items (m.matrix ∷ [])) }
    ensures only { IfOk result (λ m. Reads S.arithmetic (text_at texts.items 0) m.matrix) }
    ensures side { IfOk result (λ m. m.side ≡ grid.now.side) }
    ensures fault { IfErr result (IsReadFault S.arithmetic texts.items) }
{
    let text = texts.remove(0);
    read_text(rt, alloc, grid, threads, 0, text)
}

/// Reads the first two texts of a list, each over its own semiring, into the blocks of a grid. Both are taken out.
fn read_both<S: Based + Send + Sync, T: Based + Send + Sync, R: Threads + Sync>(
    rt: &R,
    alloc: Global,
    grid: &Grid,
    threads: u32,
    texts: &mut Vec<Text>,
) -> Result<(DistributedMatrix<S>, DistributedMatrix<T>), JobFault>
    requires { 2 ≤ vec_len texts.old }
    ensures first { IfOk result (λ p. Reads S.arithmetic (text_at texts.old.items 0) p.0.matrix) }
    ensures second { IfOk result (λ p. Reads T.arithmetic (text_at texts.old.items 1) p.1.matrix) }
    ensures sides { IfOk result (λ p. (p.0.side ≡ grid.now.side) × (p.1.side ≡ grid.now.side)) }
    ensures rest { OnOk result (texts.new.items ≡ drop 2 texts.old.items) }
    ensures fault { IfErr result (IsFirstReadFault (arithmetic_at S.arithmetic T.arithmetic) texts.old.items) }
{
    let first = texts.remove(0);
    let second = texts.remove(0);
    if threads > 1 && is_long(&first) && is_long(&second) {
        let (left, right) = read_at_once::<S, T, R>(rt, alloc, grid, threads, first, second);
        return Ok((left?, right?));
    }
    let left = read_text::<S, R>(rt, alloc, grid, threads, 0, first)?;
    let right = read_text::<T, R>(rt, alloc, grid, threads, 1, second)?;
    Ok((left, right))
}

/// Whether a text has the bytes of two pieces, or more.
fn is_long(text: &Text) -> bool {
    let (first, rest) = text.parts();
    !rest.is_empty() || first.len() >= 2 * LEAST_BYTES
}

/// Reads the first two texts of a job, the second in a thread of its own. Each is read in pieces, by half of the threads.
fn read_at_once<S: Based + Send + Sync, T: Based + Send + Sync, R: Threads + Sync>(
    rt: &R,
    alloc: Global,
    grid: &Grid,
    threads: u32,
    first: Text,
    second: Text,
) -> (
    Result<DistributedMatrix<S>, JobFault>,
    Result<DistributedMatrix<T>, JobFault>,
)
    ensures first { IfOk result.0 (λ m. Reads S.arithmetic first m.matrix) }
    ensures second { IfOk result.1 (λ m. Reads T.arithmetic second m.matrix) }
    ensures first_side { IfOk result.0 (λ m. m.side ≡ grid.now.side) }
    ensures second_side { IfOk result.1 (λ m. m.side ≡ grid.now.side) }
    ensures first_fault { IfErr result.0 (IsTextFault S.arithmetic 0 first) }
    ensures second_fault { IfErr result.1 (IsTextFault T.arithmetic 1 second) }
{
    let (left, right) = read_bases_at_once::<S::Base, T::Base, R>(
        rt, alloc, grid, threads, first, second,
    );
    (over::<S>(alloc, 0, left), over::<T>(alloc, 1, right))
}

/// The same over the bases of their semirings.
fn read_bases_at_once<S: Semiring + Send + Sync, T: Semiring + Send + Sync, R: Threads + Sync>(
    rt: &R,
    alloc: Global,
    grid: &Grid,
    threads: u32,
    first: Text,
    second: Text,
) -> (
    Result<DistributedMatrix<S>, JobFault>,
    Result<DistributedMatrix<T>, JobFault>,
)
    ensures first { IsTextRead S.arithmetic grid.now.side 0 first result.0 }
    ensures second { IsTextRead T.arithmetic grid.now.side 1 second result.1 }
{
    let half = threads.div_ceil(2);
    let (right, left) = join(
        rt,
        || -> Result<DistributedMatrix<T>, JobFault>
            requires { IsSync R.row }
            ensures { IsTextRead T.arithmetic grid.entry.now.side 1 second result }
        { read_in_at_most::<T, R>(rt, alloc, grid, threads, half, 1, second) },
        || -> Result<DistributedMatrix<S>, JobFault>
            requires { IsSync R.row }
            ensures { IsTextRead S.arithmetic grid.entry.now.side 0 first result }
        { read_in_at_most::<S, R>(rt, alloc, grid, threads, half, 0, first) },
    );
    (left, right)
}

/// Reads two or three texts into the blocks of a grid, the first over a semiring and the others over one of their own.
pub fn read_beside<S: Based + Send + Sync, T: Based + Send + Sync, R: Threads + Sync>(
    rt: &R,
    alloc: Global,
    grid: &Grid,
    threads: u32,
    mut texts: Vec<Text>,
) -> Result<
    (
        DistributedMatrix<S>,
        DistributedMatrix<T>,
        Option<DistributedMatrix<T>>,
    ),
    JobFault,
>
    requires some { 2 ≤ vec_len texts }
    requires few { vec_len texts ≤ 3 }
    ensures first { IfOk result (λ p. Reads S.arithmetic (text_at texts.items 0) p.0.matrix) }
    ensures second { IfOk result (λ p. Reads T.arithmetic (text_at texts.items 1) p.1.matrix) }
    ensures third { IfOk result (λ p. IsThirdOf T.arithmetic texts.items p.2) }
    ensures sides { IfOk result (λ p. (p.0.side ≡ grid.now.side) × (p.1.side ≡ grid.now.side) × IfSome p.2 (λ m. m.side ≡ grid.now.side)) }
    ensures fault { IfErr result (IsFirstReadFault (arithmetic_at S.arithmetic T.arithmetic) texts.items) }
{
    let (first, second) = read_both::<S, T, R>(rt, alloc, grid, threads, &mut texts)?;
    if texts.is_empty() {
        return Ok((first, second, None));
    }
    let text = texts.remove(0);
    let third = read_text(rt, alloc, grid, threads, 2, text)?;
    Ok((first, second, Some(third)))
}
