//! Texts of matrices: a process reads a piece of one, and writes the lines of some columns.
ghost use Rattle.std.specs.Prelude.{◌≡◌, ◌⊎◌, [], ◌∷◌, string_bytes, IfOk, IfErr, OnErr};
ghost use Rattle.cb_market_pages.specs.Sheets.{lines_of};
ghost use Rattle.cb_market_pages.specs.Text.{head_of, header_line, number_line};
ghost use Rattle.cb_rank_process.specs.Processes.{IsLackAt};
ghost use Rattle.cb_rank_process.specs.Texts.{BeginsReading, HasCount, HasHead, IsPieceOf, IsReadFault, WritesLines};

use crate::faults::ProcessFault;
use crate::processes::{Kept, Process};
use cb_bases::Based;
use cb_dcsc::Block;
use cb_grid::Grid;
use cb_market::{Opening, read_piece, room_for_entries};
use cb_market_pages::{TextPages, text_of_pages};
use cb_matrix::Shape;
use cb_plan::{RankStore, SharedBlock};
use cb_plan_transfers::pieces_plan;
use cb_semirings::Semiring;
use std::alloc::{AllocError, Global};

/// How many lines of a piece had an entry, and how many entries the text announces.
#[repr(C)]
#[derive(Clone, Copy)]
pub struct LineCounts {
    pub lines: u32,
    pub announced: u32,
}

/// The entries of a piece of a text, whose opening is given apart, as a block of the whole shape.
fn read_block<S: Semiring>(
    alloc: Global,
    opening: &[u8],
    piece: &[u8],
) -> Result<(Block<S>, LineCounts), ProcessFault>
    ensures piece { IfOk result (λ read. IsPieceOf S.arithmetic opening.now piece.now read.0 read.1) }
    ensures fault { IfErr result (λ f. (f ≡ ProcessFault.Text) ⊎ (f ≡ ProcessFault.Memory)) }
{
    let Some(opening) = Opening::of::<S>(opening) else {
        return Err(ProcessFault::Text);
    };
    if !opening.entries.is_empty() {
        return Err(ProcessFault::Text);
    }
    let bytes = piece.len().min(usize::MAX - 1);
    let room = room_for_entries(opening.header, opening.size.count, bytes);
    let grid = Grid::single();
    let Some(read) = read_piece::<S>(alloc, grid, opening.header, opening.size, room, piece) else {
        return Err(ProcessFault::Text);
    };
    let counts = LineCounts {
        lines: read.lines(),
        announced: opening.size.count,
    };
    let matrix = read.into_blocks(alloc)?;
    Ok((matrix.into_block(), counts))
}

/// The lines of the entries of a block.
fn block_lines<S: Semiring>(alloc: Global, block: &Block<S>) -> Result<Vec<u8>, AllocError>
    ensures { IfOk result (λ text. text.items ≡ lines_of S.arithmetic block.now.entries) }
{
    let room = block.len().saturating_mul(16);
    text_of_pages(alloc, TextPages::lines_of(block), room)
}

/// The same, over the base of its semiring. If memory is refused, the block comes back.
fn written<S: Based>(
    alloc: Global,
    block: SharedBlock<S>,
) -> Result<Vec<u8>, (SharedBlock<S>, AllocError)>
    ensures lines { IfOk result (λ text. text.items ≡ lines_of S.arithmetic block.entries) }
    ensures back { IfErr result (λ refused. refused.0 ≡ block) }
{
    let block = over_base::<S>(block.into_block()?);
    match block_lines(alloc, &block) {
        Ok(lines) => Ok(lines),
        Err(error) => Err((SharedBlock::new(over::<S>(block)), error)),
    }
}

/// The header of a text without values, or with them, and its line feed.
fn header(is_pattern: bool) -> &'static [u8]
    ensures { result.now ≡ header_line is_pattern }
{
    if is_pattern {
        b"%%MatrixMarket matrix coordinate pattern general\n"
    } else {
        b"%%MatrixMarket matrix coordinate integer general\n"
    }
}

/// The size line of a matrix of this shape with this many entries.
fn size_line(alloc: Global, shape: Shape, entries: u64) -> Result<String, AllocError>
    ensures { IfOk result (λ line. string_bytes line ≡ number_line (shape.rows ∷ shape.cols ∷ entries ∷ [])) }
{
    let (rows, cols) = (shape.rows(), shape.cols());
    format!(in alloc; "{rows} {cols} {entries}\n")
}

/// The head of a text: the header and the size line.
fn head_text(
    alloc: Global,
    is_pattern: bool,
    shape: Shape,
    entries: u64,
) -> Result<Vec<u8>, AllocError>
    ensures { IfOk result (λ head. head.items ≡ head_of is_pattern shape entries) }
{
    let size = size_line(alloc, shape, entries)?;
    let mut head = Vec::from_slice(alloc, header(is_pattern))?;
    head.extend_from_slice(size.as_bytes())?;
    Ok(head)
}

/// A block over the base of a semiring, over the semiring. Nothing is copied.
fn over<S: Based>(block: Block<S::Base>) -> Block<S>
    ensures { result ≡ block }
{
    let _shape = block.shape();
    block.recast::<S>()
}

/// A block over the base of its semiring. Nothing is copied.
fn over_base<S: Based>(block: Block<S>) -> Block<S::Base>
    ensures { result ≡ block }
{
    let _shape = block.shape();
    block.recast::<S::Base>()
}

impl<S: Based> Process<S> {
    /// Reads a piece of a text, and begins to bring the entries of all pieces to their owners. [`Process::end`] then keeps this
    /// process's block of the matrix.
    ///
    /// `opening` is the text as far as the size line, and nothing more; `piece` is some whole lines after it. Each process of the
    /// grid reads other lines. If no piece has a fault, and as many lines of all pieces have an entry as are announced, the text
    /// has no fault, and what is kept is this process's block of its matrix.
    pub fn read(
        &mut self,
        alloc: Global,
        opening: &[u8],
        piece: &[u8],
    ) -> Result<LineCounts, ProcessFault>
        ensures begins { IfOk result (λ counts. BeginsReading S.arithmetic S.Base.arithmetic opening.now piece.now counts self.old self.new) }
        ensures fault { IfErr result (IsReadFault self.old) }
        ensures unchanged { OnErr result (self.new ≡ self.old) }
    {
        if !self.is_free() {
            return Err(ProcessFault::NotNow);
        }
        let (block, counts) = read_block::<S::Base>(alloc, opening, piece)?;
        let shape = block.shape();
        let (plan, slot) = pieces_plan(alloc, &self.grid, shape)?;
        let mut store = RankStore::new(alloc)?;
        store.put(0, over::<S>(block));
        self.begin(alloc, &plan, slot, shape, store)?;
        Ok(counts)
    }

    /// How many entries this process has of the matrix in a register.
    pub fn entry_count(&self, register: u32) -> Result<u64, ProcessFault>
        ensures { IfOk result (λ n. HasCount self.now register n) }
    {
        match self.kept(register) {
            Some(kept) => Ok(kept.block.len() as u64),
            None => Err(ProcessFault::Absent),
        }
    }

    /// The head of the text of the matrix in a register, which has this many entries in all: the header and the size line. With
    /// the lines of all columns after it, in order, it is the text of the matrix.
    pub fn head(&self, alloc: Global, register: u32, entries: u64) -> Result<Vec<u8>, ProcessFault>
        ensures head { IfOk result (λ text. HasHead S.arithmetic self.now register entries text.items) }
        ensures fault { IfErr result (IsLackAt self.now register) }
    {
        let Some(kept) = self.kept(register) else {
            return Err(ProcessFault::Absent);
        };
        let head = head_text(alloc, S::writes_pattern(), kept.shape, entries)?;
        Ok(head)
    }

    /// The lines of the columns in a register, which gives them up. Refused, nothing changes.
    pub fn lines(&mut self, alloc: Global, register: u32) -> Result<Vec<u8>, ProcessFault>
        ensures lines { IfOk result (λ text. WritesLines S.arithmetic register self.old text.items self.new) }
        ensures fault { IfErr result (IsLackAt self.old register) }
        ensures unchanged { OnErr result (self.new ≡ self.old) }
    {
        let Some(kept) = self.take_out(register) else {
            return Err(ProcessFault::Absent);
        };
        let Kept { shape, block } = kept;
        match written(alloc, block) {
            Ok(lines) => Ok(lines),
            Err((block, _error)) => {
                self.put(register, Kept { shape, block });
                Err(ProcessFault::Memory)
            }
        }
    }
}
