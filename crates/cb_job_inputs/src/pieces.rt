//! A text, cut in pieces where lines end.
ghost use Rattle.std.specs.Prelude.{◌≡◌, ◌<◌, ◌++◌, ℕ, List, true, All, IfSome, OnOk, IfOk, length, get_or};
ghost use Rattle.cb_market.specs.Pieces.{IsOpening, MayFollow, is_whole};
ghost use Rattle.cb_job_inputs.specs.TextPieces.{AreCut, IsCutOf, IsRead, in_a_row};
ghost use Rattle.cb_job_ends.specs.Texts.{joined};

use cb_job_ends::texts::Text;
use cb_layout::Grid;
use cb_market::{Header, Opening, Piece, Size, parted, read_piece, room_for_entries};
use cb_semirings::Semiring;
use std::alloc::{AllocError, Global};
use std::marker::Model;

/// Into how many pieces a text is cut, and how many threads read them.
#[derive(Clone, Copy)]
pub struct Pieces {
    /// The most pieces.
    pub most: u32,
    /// The least bytes of a piece. Lines stay whole, so a piece can have fewer.
    pub least_bytes: usize,
    /// How many threads read them, while the caller's waits: no more than there are pieces.
    pub threads: u32,
}

impl Pieces {
    /// Returns into how many pieces this many bytes are cut.
    fn of(&self, bytes: usize) -> u32 {
        let fitting = bytes / self.least_bytes.max(1);
        fitting.min(self.most as usize) as u32
    }

    /// Returns the same for each of this many parts.
    fn for_each(&self, parts: usize) -> Pieces {
        let each = self.most as usize / parts.max(1);
        Pieces {
            most: each as u32,
            least_bytes: self.least_bytes,
            threads: self.threads,
        }
    }
}

/// How the entries of a text are read.
#[derive(Drop)]
pub(crate) struct Reading {
    pub(crate) alloc: Global,
    grid: Grid,
    header: Header,
    size: Size,
}

impl Model for Reading {
    ghost use Rattle.std.specs.Prelude.{IsTrue};
    ghost use Rattle.cb_market_lines.specs.Checks.{is_shape};
    ghost use Rattle.cb_job_inputs.specs.TextPieces.{Reading};

    ghost Value = { Reading };

    ghost view = { λ p. record { header = p.header; size = p.size; side = p.grid.side } };

    ghost invariant = { λ p. IsTrue (is_shape p.header.symmetry p.size.shape) };
}

impl Reading {
    /// Returns how many blocks of the grid are side by side.
    fn side(&self) -> usize {
        self.grid.side() as usize
    }

    /// Returns how many entries are announced.
    pub(crate) fn announced(&self) -> u32
        ensures { result ≡ self.now.size.count }
    {
        self.size.count
    }

    /// Returns how many entries to take room for: as many as are announced, but no more than this many bytes can hold.
    fn room_for(&self, bytes: usize) -> usize {
        room_for_entries(self.header, self.size.count, bytes.min(usize::MAX - 1))
    }

    /// Reads a piece of the entries of a text, with room for this many.
    fn read<S: Semiring>(&self, room: usize, lines: &[u8]) -> Option<Piece<S>>
        ensures { IfSome result (IsRead S.arithmetic self.now lines.now) }
    {
        read_piece::<S>(self.alloc, self.grid, self.header, self.size, room, lines)
    }
}

/// A piece of a text. In contracts it is its bytes.
#[derive(Drop)]
pub(crate) struct Lines<'a> {
    bytes: &'a [u8],
}

impl<'a> Model for Lines<'a> {
    ghost use Rattle.std.specs.Prelude.{List, ℕ};

    ghost Value = { List ℕ };

    ghost view = { λ l. l.bytes.now };
}

/// The entries of a text in pieces.
#[derive(Drop)]
pub(crate) struct Cut<'a> {
    pub(crate) reading: Reading,
    pub(crate) pieces: Vec<Lines<'a>>,
}

impl<'a> Cut<'a> {
    /// Cuts the entries of a text. None if there would be one piece, if a part of the text but the last doesn't end with a
    /// line, if the text has a fault before its entries, or if memory is refused.
    pub(crate) fn of<S: Semiring>(
        alloc: Global,
        grid: &Grid,
        pieces: Pieces,
        text: &'a Text,
    ) -> Option<Cut<'a>>
        ensures { IfSome result (λ cut. IsCutOf S.arithmetic text.now grid.now.side cut.reading cut.pieces.items) }
    {
        let (first, rest) = text.parts();
        let Some(opening) = Opening::of::<S>(first) else {
            return None;
        };
        let reading = Reading {
            alloc,
            grid: *grid,
            header: opening.header,
            size: opening.size,
        };
        let entries = opening.entries;
        if !may_follow(first, entries, rest) {
            return None;
        }
        let Some(pieces) = cut_parts(alloc, pieces, entries, rest) else {
            return None;
        };
        if pieces.len() < 2 {
            return None;
        }
        Some(Cut { reading, pieces })
    }

    /// Reads the piece with a number. It takes room for its entries and for those that will be appended to it.
    pub(crate) fn read<S: Semiring>(&self, number: usize) -> Option<Piece<S>>
        requires { number < length self.now.pieces.items }
        ensures { IfSome result (λ p. (d : List ℕ) → IsRead S.arithmetic self.now.reading (get_or self.now.pieces.items number d) p) }
    {
        self.reading
            .read::<S>(self.room(number), self.pieces[number].bytes)
    }

    /// Returns how many pieces are joined in turn: as many as have the entries of one column of blocks, if these are equal.
    pub(crate) fn in_turn(&self) -> usize {
        self.pieces.len().div_ceil(self.reading.side().max(1))
    }

    /// Returns how many entries to take room for in the piece with a number: its own; and if others are joined to it, those of the
    /// pieces up to the next number that has as many twos as factors. It begins a group if these are more than half of one.
    fn room(&self, number: usize) -> usize {
        let pieces = match number {
            0 => self.pieces.len(),
            _ => 1 << number.trailing_zeros(),
        };
        let begins_group = number == 0 || pieces > self.in_turn() / 2;
        let pieces = if begins_group { pieces } else { 1 };
        let mut bytes = 0usize;
        for piece in self.pieces.iter().skip(number).take(pieces) {
            bytes = bytes.saturating_add(piece.bytes.len());
        }
        self.reading.room_for(bytes)
    }
}

/// Whether more parts may follow a text and its end: there are none, or both end with a line.
fn may_follow(text: &[u8], end: &[u8], rest: &[Vec<u8>]) -> bool
    ensures { result ≡ true → MayFollow text.now end.now (joined rest.now) }
{
    rest.is_empty() || ends_with_line(text) && ends_with_line(end)
}

/// Whether a text is empty or ends with a line feed.
fn ends_with_line(text: &[u8]) -> bool
    ensures { result ≡ true → is_whole text.now ≡ true }
{
    match text.len().checked_sub(1) {
        Some(last) => text[last] == b'\n',
        None => true,
    }
}

/// Cuts the entries of a text in pieces. None if a part but the last doesn't end with a line, or if memory is refused.
fn cut_parts<'a>(
    alloc: Global,
    pieces: Pieces,
    entries: &'a [u8],
    rest: &'a [Vec<u8>],
) -> Option<Vec<Lines<'a>>>
    ensures all { IfSome result (λ v. in_a_row v.items ≡ entries.now ++ joined rest.now) }
    ensures ends { IfSome result (λ v. AreCut v.items) }
{
    let each = pieces.for_each(rest.len() + 1);
    let mut cut = Vec::new(alloc);
    let mut last = entries;
    for part in rest {
        if !ends_with_line(last) {
            return None;
        }
        push_all(&mut cut, each.of(last.len()), last).ok()?;
        last = part;
    }
    let end = push_parted(&mut cut, each.of(last.len()), last).ok()?;
    cut.push(Lines { bytes: end }).ok()?;
    Some(cut)
}

/// Appends a part that ends with a line, in this many pieces.
fn push_all<'a>(cut: &mut Vec<Lines<'a>>, count: u32, part: &'a [u8]) -> Result<(), AllocError>
    requires ends { All (λ p. is_whole p ≡ true) cut.old.items }
    requires whole { is_whole part.now ≡ true }
    ensures all { OnOk result (in_a_row cut.new.items ≡ in_a_row cut.old.items ++ part.now) }
    ensures ends { OnOk result (All (λ p. is_whole p ≡ true) cut.new.items) }
{
    let end = push_parted(cut, count, part)?;
    cut.push(Lines { bytes: end })?;
    Ok(())
}

/// Appends a part in this many pieces, except for the last piece, which it returns.
fn push_parted<'a>(
    cut: &mut Vec<Lines<'a>>,
    count: u32,
    part: &'a [u8],
) -> Result<&'a [u8], AllocError>
    requires ends { All (λ p. is_whole p ≡ true) cut.old.items }
    ensures all { IfOk result (λ end. in_a_row cut.new.items ++ end.now ≡ in_a_row cut.old.items ++ part.now) }
    ensures ends { OnOk result (All (λ p. is_whole p ≡ true) cut.new.items) }
    ensures last { IfOk result (λ end. is_whole part.now ≡ true → is_whole end.now ≡ true) }
{
    let mut left = part;
    let mut pieces = count;
    while pieces > 1 {
        let (bytes, others) = parted(left, left.len() / pieces as usize);
        cut.push(Lines { bytes })?;
        left = others;
        pieces -= 1;
    }
    Ok(left)
}
