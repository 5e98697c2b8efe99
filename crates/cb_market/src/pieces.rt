//! Pieces of the entries of a text, read independently.
//!
//! A text is cut where lines end. Its entries are those of its pieces, in order. If no piece has a fault and together they
//! have as many entries as are announced, the text has no fault. Faults aren't reported here: the whole text has to be
//! read to find the first.
ghost use Rattle.std.specs.Prelude.{◌≡◌, ◌++◌, ◌+◌, ◌≤◌, true, length, IsTrue, IfOk, IfSome, OnSome};
ghost use Rattle.cb_matrix.specs.Values.{collected};
ghost use Rattle.cb_market_lines.specs.Lines.{lines, kept};
ghost use Rattle.cb_market_lines.specs.Checks.{is_shape};
ghost use Rattle.cb_market.specs.Gathered.{AreSamePlaces};
ghost use Rattle.cb_market.specs.Pieces.{joined, is_whole, AreFaultless, given_in, IsPart};

use crate::entries::remaining_entries;
use crate::gathered::Gathered;
use cb_layout::{DistributedMatrix, Grid};
use cb_market_lines::scanner::Scanner;
use cb_market_lines::{Header, Size};
use cb_matrix::Shape;
use cb_semirings::Semiring;
use std::alloc::{AllocError, Global};
use std::marker::Model;
use std::thread::Threads;

/// The entries of a piece of a text, in blocks as long as they ascend, and the number of lines that had one.
#[derive(Drop)]
pub struct Piece<S: Semiring> {
    entries: Gathered<S>,
    lines: u32,
}

impl<S: Semiring> Model for Piece<S> {
    ghost use Rattle.cb_market.specs.Pieces.{Part};

    ghost Value = { Part };

    ghost view = { λ a. record { side = a.entries.side; shape = a.entries.shape; lines = a.lines; entries = a.entries.entries } };
}

/// Cuts a text after the last line feed before an offset, or at its start if there is none.
pub fn parted<'a>(text: &'a [u8], place: usize) -> (&'a [u8], &'a [u8])
    requires { place ≤ length text.now }
    ensures whole { is_whole result.0.now ≡ true }
    ensures both { result.0.now ++ result.1.now ≡ text.now }
{
    let mut end = place;
    while end > 0 {
        if text[end - 1] == b'\n' {
            break;
        }
        end -= 1;
    }
    (&text[..end], &text[end..])
}

/// Reads the entries of a piece of a text. It takes room for `room` entries, which may be more than the piece has if other
/// pieces are to be appended. None if a line has a fault, if there are more entries than are announced, or if memory is
/// refused. The piece is read in one pass. Entries that don't ascend are then sorted, so that the final sort finds sorted
/// runs.
pub fn read_piece<S: Semiring>(
    alloc: Global,
    grid: Grid,
    header: Header,
    size: Size,
    room: usize,
    piece: &[u8],
) -> Option<Piece<S>>
    requires { IsTrue (is_shape header.symmetry size.shape) }
    ensures { IfSome result (λ p. IsPart S.arithmetic header size.shape grid.side piece.now p) }
{
    let Ok(mut entries) = Gathered::start(alloc, grid, size.shape, room) else {
        return None;
    };
    let Some(lines) = read_lines::<S>(alloc, &mut entries, header, size, piece) else {
        return None;
    };
    Piece { entries, lines }.sorted()
}

/// Reads the entries of all lines of a piece and adds them to `entries`. Returns how many lines had one.
fn read_lines<S: Semiring>(
    alloc: Global,
    entries: &mut Gathered<S>,
    header: Header,
    size: Size,
    piece: &[u8],
) -> Option<u32>
    requires same_shape { entries.old.shape ≡ size.shape }
    requires shape { IsTrue (is_shape header.symmetry size.shape) }
    ensures faultless { OnSome result (AreFaultless S.arithmetic header size.shape (kept (lines piece.now))) }
    ensures count { IfSome result (λ n. n ≡ length (kept (lines piece.now))) }
    ensures given { OnSome result (entries.new.entries ≡ entries.old.entries ++ given_in S.arithmetic header (kept (lines piece.now))) }
    ensures side { entries.new.side ≡ entries.old.side }
    ensures shape { entries.new.shape ≡ size.shape }
{
    let announced = size.count;
    let mut scanner = Scanner::new(piece);
    match remaining_entries::<S>(&mut scanner, alloc, entries, header, size) {
        Ok(missing) => Some(announced - missing),
        Err(_) => None,
    }
}

impl<S: Semiring> Piece<S> {
    /// Sorts the entries by column and then by row. None if memory is refused.
    fn sorted(self) -> Option<Self>
        ensures places { IfSome result (λ p. AreSamePlaces p.entries self.entries) }
        ensures rest { IfSome result (λ p. (p.side ≡ self.side) × (p.shape ≡ self.shape) × (p.lines ≡ self.lines)) }
    {
        let lines = self.lines;
        match self.entries.sorted() {
            Ok(entries) => Some(Piece { entries, lines }),
            Err(_) => None,
        }
    }

    /// Returns how many lines had an entry.
    pub fn lines(&self) -> u32
        ensures { result ≡ self.now.lines }
    {
        self.lines
    }

    /// Adds up the entries of each place, and returns the matrix in the blocks of the grid.
    pub fn into_blocks(self, alloc: Global) -> Result<DistributedMatrix<S>, AllocError>
        ensures { IfOk result (λ m. m ≡ record { side = self.side; matrix = collected S.arithmetic self.shape self.entries }) }
    {
        self.entries.into_blocks(alloc)
    }
}

impl<S: Semiring + Send + Sync> Piece<S> {
    /// Appends the next piece. If memory is refused, or if there are 2^32 lines or more, both are dropped. The cost is
    /// proportional to the entries of the second piece, or to those of both if they don't ascend.
    pub fn append<R: Threads + Sync>(self, rt: &R, alloc: Global, next: Self) -> Option<Self>
        requires side { next.side ≡ self.side }
        requires shape { next.shape ≡ self.shape }
        ensures { IfSome result (λ p. p ≡ joined self next) }
    {
        let Some(lines) = self.lines.checked_add(next.lines) else {
            return None;
        };
        match self.entries.append(rt, alloc, next.entries) {
            Ok(entries) => Some(Piece { entries, lines }),
            Err(_) => None,
        }
    }
}
