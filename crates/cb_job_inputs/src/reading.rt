//! Matrix Market texts, read by several threads.
//!
//! A text, or each part of a text that was loaded in parts, is cut in pieces where lines end. Threads take the pieces, each the
//! next that nobody has taken, and read them straight into blocks of a grid as long as their entries ascend. Neighbours are
//! then joined block by block, and what they make with its neighbours, until one piece is left. If no piece has a fault and all
//! announced entries are there, the joined piece has the matrix. Otherwise, and if memory is refused,
//! [`cb_market::read_distributed`] reads the text again on one thread and reports the first fault.
//!
//! If a thread isn't available, the caller's thread does its work. Besides the text, the memory is that of the blocks and,
//! while two pieces are joined, a second copy of the later one.
ghost use Rattle.std.specs.Prelude.{◌≡◌, IfOk, IfErr, IfSome};
ghost use Rattle.cb_market_lines.specs.Faults.{first_fault, IsAnswer, IsLineOf};
ghost use Rattle.cb_market_lines.specs.Reads.{Reads, IsFaultOrMatrix};
ghost use Rattle.cb_job_inputs.specs.TextPieces.{AreCut, AreInOrder, IsMatrixOf};

use crate::joining::join_places;
use crate::pieces::Cut;
pub use crate::pieces::Pieces;
use crate::places::{Places, read_all};
use cb_job_ends::texts::Text;
use cb_job_threads::gates::{Gate, OpenGate};
use cb_job_threads::turns::Turns;
use cb_layout::{DistributedMatrix, Grid};
use cb_market::{ReadFault, read_distributed};
use cb_semirings::Semiring;
use std::alloc::Global;
use std::thread;
use std::thread::Threads;

/// Reads a text as a matrix in the blocks of a grid, or returns its first fault, as [`cb_market::read_distributed`] does.
/// Several threads read its pieces.
///
/// Each piece is read once. Then most entries are copied once, to join those of the pieces before them: more often only where a
/// text doesn't go through the columns of blocks evenly. A text with a fault is read twice.
pub fn read_side_by_side<S: Semiring + Send + Sync, R: Threads + Sync>(
    rt: &R,
    alloc: Global,
    grid: &Grid,
    pieces: Pieces,
    text: Text,
) -> Result<DistributedMatrix<S>, ReadFault>
    ensures ok { IfOk result (λ m. Reads S.arithmetic text m.matrix) }
    ensures side { IfOk result (λ m. m.side ≡ grid.now.side) }
    ensures fault { IfErr result (IsAnswer (first_fault S.arithmetic text)) }
    ensures line { IfErr result (IsLineOf 1 text) }
    ensures law { IsFaultOrMatrix S.arithmetic text }
{
    let gate = &OpenGate;
    if let Some(matrix) = read_in_pieces::<S, R, OpenGate>(rt, alloc, grid, pieces, gate, &text) {
        free(rt, alloc, text);
        return Ok(matrix);
    }
    let bytes = text.into_bytes();
    read_distributed::<S>(alloc, grid, &bytes)
}

/// The fewest bytes of a text that are freed by several threads.
const FREED_APART: usize = 4_194_304;

/// Frees the memory of a text: of a long one in parts by a thread for each. To take pages back keeps the system busy for a
/// fifth of the time that it takes to load them.
fn free<R: Threads + Sync>(rt: &R, alloc: Global, text: Text) {
    let (first, mut parts) = text.into_parts();
    let each = first.len();
    // If there is no room for it, it is freed here.
    let _ = parts.push(first);
    let threads = parts.len();
    if threads < 2 || each.saturating_mul(threads) < FREED_APART {
        return;
    }
    thread::for_each_mut(rt, &mut parts, threads, &|_, part| *part = Vec::new(alloc));
}

/// Reads a text as a matrix in the blocks of a grid, in two pieces or more. Who takes a piece to read it passes the gate. None
/// if there would be fewer pieces, if the text has a fault, or if memory is refused; and if a part of the text but the last
/// doesn't end with a line.
pub fn read_in_pieces<S: Semiring + Send + Sync, R: Threads + Sync, G: Gate>(
    rt: &R,
    alloc: Global,
    grid: &Grid,
    pieces: Pieces,
    gate: &G,
    text: &Text,
) -> Option<DistributedMatrix<S>>
    ensures reads { IfSome result (λ m. Reads S.arithmetic text.now m.matrix) }
    ensures side { IfSome result (λ m. m.side ≡ grid.now.side) }
{
    let Some(cut) = Cut::of::<S>(alloc, grid, pieces, text) else {
        return None;
    };
    let turns = Turns::new(gate);
    let threads = cut.pieces.len().min(pieces.threads as usize);
    let places = read_all::<S, R, G>(rt, threads, &cut, &turns)?;
    matrix_of(rt, &cut, places)
}

/// Joins the pieces of a text, and returns their matrix if there are as many entries as announced.
fn matrix_of<S: Semiring + Send + Sync, R: Threads + Sync>(
    rt: &R,
    cut: &Cut<'_>,
    places: Places<S>,
) -> Option<DistributedMatrix<S>>
    requires ends { AreCut cut.now.pieces.items }
    requires order { AreInOrder S.arithmetic cut.now.reading cut.now.pieces.items places.items }
    ensures { IfSome result (IsMatrixOf S.arithmetic cut.now.reading cut.now.pieces.items) }
{
    let whole = join_places(rt, cut, places)?;
    if whole.lines() != cut.reading.announced() {
        return None;
    }
    whole.into_blocks(cut.reading.alloc).ok()
}
