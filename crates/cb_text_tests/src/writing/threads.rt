//! Shares are written at the same time, by whoever is free.
use crate::meetings::{Delay, Meeting};
use cb_job_ends::sinks::WriterSink;
use cb_job_output::output::put_in_rounds;
use cb_job_output::rounds::Form;
use cb_job_threads::gates::Gate;
use cb_layout::Grid;
use cb_market::read_distributed;
use cb_market_pages::TextPages;
use cb_semirings::PlusTimes;
use std::alloc::Global;
use std::thread::Threads;

/// The text of a matrix of four entries.
const FOUR: &[u8] =
    b"%%MatrixMarket matrix coordinate integer general\n2 2 4\n1 1 1\n2 1 4\n1 2 2\n2 2 3\n";

/// Whether the text of four entries is written by two threads in one round of shares of this many lines, through a gate.
fn is_written<R: Threads + Sync, G: Gate>(
    rt: &R,
    alloc: Global,
    lines: usize,
    gate: &G,
) -> Option<bool> {
    let matrix = read_distributed::<PlusTimes>(alloc, &Grid::single(), FOUR).ok()?;
    let form = Form {
        threads: 2,
        shares: 4,
        lines,
    };
    let mut out = WriterSink::new(Vec::new(alloc));
    put_in_rounds(rt, alloc, form, TextPages::new(&matrix), gate, &mut out).ok()?;
    Some(out.into_inner().as_slice() == FOUR)
}

/// Whether the two threads that write two shares are at the gate at the same time.
fn meet<R: Threads + Sync>(rt: &R, alloc: Global) -> Option<bool> {
    let gate = Meeting::new();
    let is_text = is_written(rt, alloc, 2, &gate)?;
    Some(is_text && gate.have_met())
}

#[test]
fn two_shares_are_written_at_once(rt: HostRuntime) {
    assert!(&rt; meet(&rt, rt.alloc()) == Some(true));
}

/// Whether one thread takes all other shares while the first is delayed.
fn takes_the_others<R: Threads + Sync>(rt: &R, alloc: Global) -> Option<bool> {
    let gate = Delay::new(3);
    let is_text = is_written(rt, alloc, 1, &gate)?;
    Some(is_text && gate.were_taken())
}

/// A thread that is held up doesn't hold up the shares that it didn't take.
#[test]
fn a_free_thread_takes_the_shares_of_a_slow_one(rt: HostRuntime) {
    assert!(&rt; takes_the_others(&rt, rt.alloc()) == Some(true));
}
