//! A letter that is to be sent, with its lists where they lie.
ghost use Rattle.std.specs.Prelude.{◌≡◌, IfOk, IfErr};
ghost use Rattle.cb_matrix.specs.Sparse.{IsMatrix};
ghost use Rattle.cb_lists.specs.Lists.{AreStarts, HasLists};
ghost use Rattle.cb_messages.specs.Messages.{head_of, IsSentAs, HasStarts};

use crate::heads::Head;
use cb_dcsc::Block;
use cb_letters::{Body, Letter};
use cb_lists::{Columns, starts_of};
use cb_plan::SharedBlock;
use cb_semirings::Semiring;
use std::alloc::{AllocError, Global};
use std::marker::Model;

/// A letter to be sent. Its lists stay where they are as long as it lives.
#[derive(Drop)]
pub struct Message<S: Semiring> {
    letter: Letter<SharedBlock<S>>,
    starts: Vec<u64>,
}

impl<S: Semiring> Model for Message<S> {
    ghost use Rattle.cb_letters.specs.declared.Letter.{Letter};
    ghost use Rattle.cb_matrix.specs.Sparse.{Sparse};
    ghost use Rattle.cb_messages.specs.Messages.{HasStarts};

    ghost Value = { Letter Sparse };

    ghost view = { λ m. m.letter };

    ghost invariant = { λ m. HasStarts m.letter.body m.starts.items };
}

impl<S: Semiring> Message<S> {
    /// A letter to be sent. A sheet's list of starts is made, which takes eight bytes for each column that has entries; if
    /// memory for it is refused, the letter comes back.
    pub fn new(
        alloc: Global,
        letter: Letter<SharedBlock<S>>,
    ) -> Result<Message<S>, (Letter<SharedBlock<S>>, AllocError)>
        ensures letter { IfOk result (λ message. message ≡ letter) }
        ensures back { IfErr result (λ refused. refused.0 ≡ letter) }
    {
        match starts_in(alloc, &letter.body) {
            Ok(starts) => Ok(Message { letter, starts }),
            Err(error) => Err((letter, error)),
        }
    }

    /// The head.
    pub fn head(&self) -> Head
        ensures { result ≡ head_of self.now }
    {
        Head::of(&self.letter)
    }

    /// The lists of the sheet, where they lie; without a sheet, empty ones.
    pub fn lists<'a>(&'a self) -> Columns<'a>
        ensures { IsSentAs S.arithmetic self.now (head_of self.now) result }
    {
        match &self.letter.body {
            Body::Sheet(block) => lent(block, &self.starts),
            _ => nothing(),
        }
    }
}

/// The starts of a sheet's columns.
fn starts_in<S: Semiring>(
    alloc: Global,
    body: &Body<SharedBlock<S>>,
) -> Result<Vec<u64>, AllocError>
    ensures { IfOk result (λ starts. HasStarts body.now starts.items) }
{
    match body {
        Body::Sheet(block) => starts_of(alloc, block),
        _ => Ok(Vec::new(alloc)),
    }
}

/// The lists of a block, with these starts.
fn lent<'a, S: Semiring>(block: &'a Block<S>, starts: &'a [u64]) -> Columns<'a>
    requires { AreStarts block.now.entries starts.now }
    ensures lists { HasLists block.now result }
    ensures matrix { IsMatrix S.arithmetic block.now }
{
    let shape = block.shape();
    Columns {
        nrows: shape.rows(),
        ncols: shape.cols(),
        kind: 0,
        wide: 1,
        columns: block.column_numbers(),
        starts32: &[],
        starts64: starts,
        rows: block.row_numbers(),
        values: block.values(),
    }
}

/// Empty lists, of no rows and no columns.
fn nothing<'a>() -> Columns<'a> {
    Columns {
        nrows: 0,
        ncols: 0,
        kind: 0,
        wide: 1,
        columns: &[],
        starts32: &[],
        starts64: &[],
        rows: &[],
        values: &[],
    }
}
