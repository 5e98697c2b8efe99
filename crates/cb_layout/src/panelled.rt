//! A matrix in panels side by side.
ghost use Rattle.std.specs.Prelude.{◌≡◌, ◌≢◌, ◌↔◌, ◌<◌, ◌≤◌, ◌+◌, [], ◌∷◌, ◌++◌, length, vec_len, vec_capacity, All, IfOk, OnOk, OnErr, IsTrue};
ghost use Rattle.cb_semirings.specs.Arithmetic.{IsValue};
ghost use Rattle.cb_matrix.specs.Sparse.{IsMatrix, at, value_at};
ghost use Rattle.cb_matrix.specs.Values.{empty_matrix};
ghost use Rattle.cb_dcsc.specs.Columns.{with_entries};
ghost use Rattle.cb_layout.specs.Panels.{entries_of_panels, side_by_side, whole_of};

use crate::Segments;
use crate::distributed::recast_blocks;
use crate::freeing::free_blocks;
use crate::whole::Whole;
use cb_dcsc::Block;
use cb_matrix::{LIMIT, Shape};
use cb_semirings::Semiring;
use std::alloc::{AllocError, Global};
use std::marker::Model;
use std::mem::{replace, swap};
use std::thread::Threads;

/// A matrix in panels: blocks of the whole shape, of which each has the entries of some columns, after those of the panels
/// before it. Threads that each make a panel leave such a matrix without a copy. Contracts see the whole matrix.
#[derive(Drop)]
pub struct PanelledMatrix<S: Semiring> {
    /// The number of entries that all panels store.
    len: usize,
    /// The panel with the first columns, which takes no memory beside its own.
    first: Block<S>,
    /// The panels after it.
    others: Vec<Block<S>>,
}

impl<S: Semiring> Model for PanelledMatrix<S> {
    ghost use Rattle.std.specs.Prelude.{◌≡◌, ◌∷◌, length};
    ghost use Rattle.cb_matrix.specs.Sparse.{Sparse};
    ghost use Rattle.cb_layout.specs.Panels.{entries_of_panels, side_by_side, ArePanels};

    ghost Value = { Sparse };

    ghost view = { λ a. side_by_side a.first.shape (a.first ∷ a.others.items) };

    ghost invariant = { λ a. ArePanels S.arithmetic a.first.shape (a.first ∷ a.others.items) × (a.len ≡ length (entries_of_panels (a.first ∷ a.others.items))) };
}

impl<S: Semiring> PanelledMatrix<S> {
    /// This block as a single panel. No entry is copied, and no memory is taken.
    pub fn from_block(alloc: Global, block: Block<S>) -> Self
        ensures { result ≡ block }
    {
        PanelledMatrix {
            len: block.len(),
            first: block,
            others: Vec::new(alloc),
        }
    }

    /// Appends the entries of another matrix of the same shape, which must all come after its own, and leaves the other without
    /// entries. No entry is copied. If memory is refused, both stay as they were.
    pub fn append(&mut self, alloc: Global, other: &mut Self) -> Result<(), AllocError>
        requires shape { other.old.shape ≡ self.old.shape }
        requires matrix { IsMatrix S.arithmetic (with_entries self.old other.old.entries) }
        ensures ok { OnOk result (self.new ≡ with_entries self.old other.old.entries) }
        ensures other_ok { OnOk result (other.new ≡ empty_matrix other.old.shape) }
        ensures err { OnErr result (self.new ≡ self.old) }
        ensures other_err { OnErr result (other.new ≡ other.old) }
    {
        if self.len == 0 {
            swap(self, other);
            return Ok(());
        }
        if other.len == 0 {
            return Ok(());
        }
        self.append_some(alloc, other)
    }

    /// The same for two matrices that have entries.
    fn append_some(&mut self, alloc: Global, other: &mut Self) -> Result<(), AllocError>
        requires shape { other.old.shape ≡ self.old.shape }
        requires matrix { IsMatrix S.arithmetic (with_entries self.old other.old.entries) }
        ensures ok { OnOk result (self.new ≡ with_entries self.old other.old.entries) }
        ensures other_ok { OnOk result (other.new ≡ empty_matrix other.old.shape) }
        ensures err { OnErr result (self.new ≡ self.old) }
        ensures other_err { OnErr result (other.new ≡ other.old) }
    {
        let shape = other.shape();
        prove!(shape.rows() <= LIMIT);
        prove!(shape.cols() <= LIMIT);
        self.others.reserve(other.others.len() + 1)?;
        let first = replace(&mut other.first, Block::empty(alloc, shape));
        push_panels(&mut self.others, first, &mut other.others);
        self.len += other.len;
        other.len = 0;
        Ok(())
    }

    /// The whole matrix in one block: its only panel, or a copy of all panels.
    pub fn whole(&self) -> Result<Whole<'_, Block<S>>, AllocError>
        ensures { IfOk result (λ whole. whole_of whole ≡ self.now) }
    {
        if self.others.is_empty() {
            return Ok(Whole::Lent(&self.first));
        }
        Ok(Whole::Made(self.to_block()?))
    }

    /// A copy of the whole matrix in one block.
    pub fn to_block(&self) -> Result<Block<S>, AllocError>
        ensures { IfOk result (λ block. block ≡ self.now) }
    {
        let mut block = self.first.try_clone()?;
        block.reserve(self.len - block.len())?;
        append_copies(&mut block, &self.others)?;
        Ok(block)
    }

    /// The whole matrix in one block. The entries of all panels but the first are copied; each panel is dropped as soon as
    /// it is copied. If memory is refused, the matrix is dropped.
    pub fn into_block(self) -> Result<Block<S>, AllocError>
        ensures { IfOk result (λ block. block ≡ self) }
    {
        let PanelledMatrix { len, first, others } = self;
        let mut block = first;
        block.reserve(len - block.len())?;
        append_panels(&mut block, others)?;
        Ok(block)
    }

    /// The same matrix over another semiring. Its stored values must be nonzero values of that semiring too. No entry is
    /// copied: it takes memory for one block header per panel. If that is refused, the matrix is dropped.
    pub fn recast<T: Semiring>(self, alloc: Global) -> Result<PanelledMatrix<T>, AllocError>
        requires values { All (λ e. IsValue T.arithmetic e.value × (e.value ≢ T.arithmetic.zero)) self.entries }
        ensures { IfOk result (λ m. m ≡ self) }
    {
        Ok(PanelledMatrix {
            len: self.len,
            first: self.first.recast(),
            others: recast_blocks(alloc, self.others)?,
        })
    }

    /// Its numbers of rows and columns. The contract also says that the stored entries are inside this shape, ascend by
    /// column and then row, and aren't zero.
    pub fn shape(&self) -> Shape
        ensures shape { result ≡ self.now.shape }
        ensures matrix { IsMatrix S.arithmetic self.now }
    {
        self.first.shape()
    }

    /// The number of stored entries.
    pub fn len(&self) -> usize
        ensures { result ≡ length self.now.entries }
    {
        self.len
    }

    /// Whether no entry is stored.
    pub fn is_empty(&self) -> bool
        ensures { IsTrue result ↔ (self.now.entries ≡ []) }
    {
        self.len == 0
    }

    /// The value at a place: the semiring's zero if it has no entry or is outside the shape. Costs two binary searches for each
    /// panel.
    pub fn get(&self, row: u32, column: u32) -> u64
        ensures { result ≡ at S.arithmetic self.now row column }
    {
        let value = self.first.get(row, column);
        if value == S::zero() {
            value_in(&self.others, row, column)
        } else {
            value
        }
    }

    /// The panels, from the first columns on: the first, and those after it.
    pub fn panels(&self) -> (&Block<S>, &[Block<S>])
        ensures panels { side_by_side self.now.shape (result.0.now ∷ result.1.now) ≡ self.now }
        ensures shapes { All (λ panel. panel.shape ≡ self.now.shape) (result.0.now ∷ result.1.now) }
    {
        (&self.first, &self.others)
    }

    /// The stored entries, column by column.
    pub fn segments(&self) -> Segments<'_, S>
        ensures { result ≡ self.now.entries }
    {
        Segments::over_panels(&self.first, &self.others)
    }
}

impl<S: Semiring + Send> PanelledMatrix<S> {
    /// Frees the matrix, as dropping it does. If it has many entries, each panel is freed by a thread of its own.
    pub fn free<R: Threads + Sync>(self, rt: &R, alloc: Global) {
        let PanelledMatrix { len, first, others } = self;
        let mut panels = others;
        // Without memory for this, the caller's thread frees the first panel.
        let _first = panels.push(first);
        free_blocks(rt, alloc, len, &mut panels);
    }
}

/// Moves a panel and those after it to the end of a list that has room for them.
fn push_panels<S: Semiring>(panels: &mut Vec<Block<S>>, first: Block<S>, others: &mut Vec<Block<S>>)
    requires { vec_len panels.old + (vec_len others.old + 1) ≤ vec_capacity panels.old }
    ensures panels { panels.new.items ≡ panels.old.items ++ first ∷ others.old.items }
    ensures others { others.new.items ≡ [] }
{
    panels.push_reserved(first);
    let Ok(()) = panels.append(others) else {
        unreachable!()
    };
}

/// Appends the entries of panels to a block of their shape, one panel after the other.
fn append_panels<S: Semiring>(block: &mut Block<S>, panels: Vec<Block<S>>) -> Result<(), AllocError>
    requires shapes { All (λ panel. panel.shape ≡ block.old.shape) panels.items }
    requires matrix { IsMatrix S.arithmetic (with_entries block.old (entries_of_panels panels.items)) }
    ensures { OnOk result (block.new ≡ with_entries block.old (entries_of_panels panels.items)) }
{
    for mut panel in panels {
        block.append(&mut panel)?;
    }
    Ok(())
}

/// Appends copies of the entries of panels to a block of their shape, one panel after the other.
fn append_copies<S: Semiring>(block: &mut Block<S>, panels: &[Block<S>]) -> Result<(), AllocError>
    requires shapes { All (λ panel. panel.shape ≡ block.old.shape) panels.now }
    requires matrix { IsMatrix S.arithmetic (with_entries block.old (entries_of_panels panels.now)) }
    ensures { OnOk result (block.new ≡ with_entries block.old (entries_of_panels panels.now)) }
{
    for panel in panels {
        let mut copy = panel.try_clone()?;
        block.append(&mut copy)?;
    }
    Ok(())
}

/// The value at a place of the first panel that has an entry there, or zero if none has.
fn value_in<S: Semiring>(panels: &[Block<S>], row: u32, column: u32) -> u64
    requires { All (λ e. e.value ≢ S.arithmetic.zero) (entries_of_panels panels.now) }
    ensures { result ≡ value_at S.arithmetic.zero (entries_of_panels panels.now) row column }
{
    for panel in panels {
        let value = panel.get(row, column);
        if value != S::zero() {
            return value;
        }
    }
    S::zero()
}
