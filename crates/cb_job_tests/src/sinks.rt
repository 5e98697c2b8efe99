//! Writers that accept a few bytes at a time, that fail, and that accept no more.
use cb_job_ends::faults::JobFault;
use cb_job_ends::sinks::{Sink, WriterSink};
use cb_job_output::output::put_text_and_lines;
use cb_layout::{DistributedMatrix, Grid};
use cb_market::{ReadFault, read_distributed};
use cb_market_pages::TextPages;
use cb_semirings::PlusTimes;
use std::io::{self, Write};
use std::thread::Threads;

const PRODUCT: &str =
    "%%MatrixMarket matrix coordinate integer general\n2 2 3\n1 1 8\n2 1 12\n1 2 1\n";

const LINES: &str = "% posted 0 1 0 3\n% took 0 1 0 3\n";

/// How many bytes the product and the lines have.
const SIZE: usize = 106;

/// A writer that accepts at most `step` bytes at a time, and `room` in all. Then it fails or, with `stops`, returns that it
/// accepted none.
#[derive(Drop)]
struct Short {
    room: usize,
    step: usize,
    stops: bool,
    bytes: Vec<u8>,
}

impl Write for Short {
    fn write(&mut self, bytes: &[u8]) -> io::Result<usize> {
        let count = bytes.len().min(self.room).min(self.step);
        if count == 0 && !self.stops {
            return Err(io::Error::from(io::ErrorKind::BrokenPipe));
        }
        self.bytes.extend_from_slice(&bytes[..count])?;
        self.room -= count;
        Ok(count)
    }

    fn flush(&mut self) -> io::Result<()> {
        Ok(())
    }
}

/// Whether these are the first bytes of the product and the lines after it, and this many.
fn are_first(bytes: &[u8], count: usize) -> bool {
    let product = PRODUCT.as_bytes();
    let are_first = match bytes.strip_prefix(product) {
        Some(after) => LINES.as_bytes().starts_with(after),
        None => product.starts_with(bytes),
    };
    bytes.len() == count && are_first
}

/// Whether a writer gets as much of the product and the lines as it has room for, by this many threads, and fails only if
/// that isn't all.
fn gets_its_part<R: Threads + Sync + AllocGlobal>(
    rt: &R,
    threads: u32,
    product: &DistributedMatrix<PlusTimes>,
    writer: Short,
) -> bool {
    let (count, is_cut) = (writer.room.min(SIZE), writer.room < SIZE);
    let mut out = WriterSink::new(writer);
    let text = TextPages::new(product);
    let answer = put_text_and_lines(rt, rt.alloc(), threads, text, LINES.as_bytes(), &mut out);
    let wanted = if is_cut {
        Err(JobFault::Output)
    } else {
        Ok(())
    };
    let has_ended_so = answer == wanted && out.failed() == is_cut;
    has_ended_so && are_first(&out.into_inner().bytes, count)
}

/// Whether each writer with this room gets its part: writers that accept one byte at a time, a few, or any number, by one
/// thread and by two.
fn get_their_part<R: Threads + Sync + AllocGlobal>(rt: &R, room: usize) -> Result<bool, ReadFault> {
    let product = read_distributed(rt.alloc(), &Grid::single(), PRODUCT.as_bytes())?;
    for (step, stops) in [(1, true), (7, false), (usize::MAX, false)] {
        for threads in [1, 2] {
            let bytes = Vec::new(rt.alloc());
            let writer = Short {
                room,
                step,
                stops,
                bytes,
            };
            if !gets_its_part(rt, threads, &product, writer) {
                return Ok(false);
            }
        }
    }
    Ok(true)
}

#[test]
fn get_what_they_have_room_for(rt: HostRuntime) {
    assert!(rt; PRODUCT.len() + LINES.len() == SIZE);
    // in the product, in the lines after it, or all
    for room in [0, 1, 40, 73, 74, 75, 105, 106, usize::MAX] {
        assert!(rt; matches!(get_their_part(&rt, room), Ok(true)), "{room}");
    }
}
