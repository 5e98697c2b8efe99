//! Searches in graphs: a process has its blocks of two columns, the numbers of the vertices so far and those that fell in the last
//! round.
//!
//! A round multiplies the transposed matrix of the graph by the numbers that fell, in min-plus, by the plan of an operation
//! ([`Process::operate`]). Then each process [settles](Process::settle) its own block of what that reached, alone. The search has
//! ended when no process has an entry of the numbers that fell.
ghost use Rattle.std.specs.Prelude.{◌≡◌, ◌<◌, ◌≤◌, ◌*◌, ◌/◌, ◌%◌, IfSome, IfNone, IfOk, IfErr, OnOk, OnErr};
ghost use Rattle.cb_semirings.specs.Tables.{min_plus};
ghost use Rattle.cb_grid.specs.Parts.{part};
ghost use Rattle.cb_search_columns.specs.SearchColumns.{source_column};
ghost use Rattle.cb_rank_process.specs.Processes.{register_at};
ghost use Rattle.cb_rank_process.specs.VertexNumbers.{BeginsSearch, IsPartFault, IsSearchFault, IsSettleFault, IsSettled, IsVertexFault, IsWeighFault, MakesRound, Settles, Weighs, WeighsBits, WritesPart, WritesVertices, kept_of};

use crate::faults::ProcessFault;
use crate::processes::{Kept, Process};
use cb_dcsc::Block;
use cb_elementwise::add;
use cb_market_pages::{LineForm, TextPages, text_of_pages};
use cb_matrix::Shape;
use cb_plan::SharedBlock;
use cb_reshape::{cut, place};
use cb_search_columns::{lower_values, source_column};
use cb_searches::column_shape;
use cb_semirings::{MinPlus, OrAnd, Semiring};
use std::alloc::{AllocError, Global};

impl<S: Semiring> Process<S> {
    /// The rows and the columns of this rank's part of a shape. None if the grid has no such rank.
    fn part(&self, shape: Shape) -> Option<((u32, u32), (u32, u32))>
        ensures rows { IfSome result (λ p. p.0 ≡ part self.now.side shape.rows (self.now.me / self.now.side)) }
        ensures cols { IfSome result (λ p. p.1 ≡ part self.now.side shape.cols (self.now.me % self.now.side)) }
        ensures none { IfNone result (self.now.side * self.now.side ≤ self.now.me) }
    {
        let side = self.grid.side();
        let me = u32::from(self.me);
        if me >= side * side {
            return None;
        }
        let rows = self.grid.range(shape.rows(), me / side);
        let cols = self.grid.range(shape.cols(), me % side);
        Some((rows, cols))
    }

    /// The lines of the vertices that this process has of the column in a register: the number of each in the whole column,
    /// counted from 1, and its value. The lines of all processes, in order, are the column's: the processes of the first column
    /// of the grid have them all.
    ///
    /// Costs a few instructions for each entry, and memory for a copy of the entries besides the text.
    #[tactic(auto, using(cb_plan_parts::proofs::PartStarts::start_rises, cb_plan_parts::proofs::PartStarts::start_within))]
    pub fn vertex_lines(&self, alloc: Global, register: u32) -> Result<Vec<u8>, ProcessFault>
        ensures lines { IfOk result (λ text. WritesVertices S.arithmetic register self.now text.items) }
        ensures part { IfOk result (λ text. WritesPart S.arithmetic register self.now text.items) }
        ensures fault { IfErr result (IsVertexFault register self.now) }
    {
        let Some(kept) = self.kept(register) else {
            return Err(ProcessFault::Absent);
        };
        let Some((rows, cols)) = self.part(kept.shape) else {
            return Err(ProcessFault::Absent);
        };
        let block: &Block<S> = &kept.block;
        let shape = block.shape();
        if shape.rows() != rows.1 - rows.0 || shape.cols() != cols.1 - cols.0 {
            return Err(ProcessFault::Absent);
        }
        let whole = place(alloc, block, kept.shape, (rows.0, cols.0))?;
        let room = whole.len().saturating_mul(16);
        let pages = TextPages::lines_in(&whole, LineForm::RowAndValue);
        let text = text_of_pages(alloc, pages, room)?;
        Ok(text)
    }
}

impl Process<MinPlus> {
    /// This process's block of the column in which only the source has a number, with as many rows as this shape.
    fn first_numbers(
        &self,
        alloc: Global,
        shape: Shape,
        source: u32,
    ) -> Result<Kept<MinPlus>, ProcessFault>
        requires { source < shape.rows }
        ensures numbers { IfOk result (λ kept. kept ≡ kept_of min_plus self.now (source_column shape.rows source)) }
        ensures fault { IfErr result (IsPartFault self.now) }
    {
        let whole = column_shape(shape);
        let Some((rows, cols)) = self.part(whole) else {
            return Err(ProcessFault::Absent);
        };
        let column = source_column(alloc, shape, source)?;
        let block = cut(alloc, &column, rows, cols)?;
        Ok(Kept {
            shape: whole,
            block: SharedBlock::new(block),
        })
    }

    /// Begins a search in the graph of the square matrix in a register, which may be transposed: two registers get this process's
    /// blocks of the numbers, and of those that fell, of which only the source has one, 0. Refused, nothing changes.
    ///
    /// The fault is `Shapes` if the matrix isn't square, and `Absent` if it is but the source is no vertex of it.
    pub fn begin_search(
        &mut self,
        alloc: Global,
        graph: u32,
        source: u32,
        known: u32,
        fell: u32,
    ) -> Result<(), ProcessFault>
        ensures begins { OnOk result (BeginsSearch graph source known fell self.old self.new) }
        ensures fault { IfErr result (IsSearchFault graph source known fell self.old) }
        ensures unchanged { OnErr result (self.new ≡ self.old) }
    {
        if !self.has_register(known) || !self.has_register(fell) {
            return Err(ProcessFault::Absent);
        }
        let Some(kept) = self.kept(graph) else {
            return Err(ProcessFault::Absent);
        };
        let shape = kept.shape;
        if shape.rows() != shape.cols() {
            return Err(ProcessFault::Shapes);
        }
        if source >= shape.rows() {
            return Err(ProcessFault::Absent);
        }
        let numbers = self.first_numbers(alloc, shape, source)?;
        let fallen = self.first_numbers(alloc, shape, source)?;
        self.put(known, numbers);
        self.put(fell, fallen);
        Ok(())
    }

    /// The sum of two blocks, and the values of the second that are below those of the first.
    fn settled(
        &self,
        alloc: Global,
        known: u32,
        reached: u32,
    ) -> Result<(Kept<MinPlus>, Kept<MinPlus>), ProcessFault>
        ensures settled { IfOk result (λ p. IsSettled known reached self.now p.0 p.1) }
        ensures fault { IfErr result (IsSettleFault known reached self.now) }
    {
        let (Some(numbers), Some(values)) = (self.kept(known), self.kept(reached)) else {
            return Err(ProcessFault::Absent);
        };
        let (left, right): (&Block<MinPlus>, &Block<MinPlus>) = (&numbers.block, &values.block);
        if left.shape() != right.shape() {
            return Err(ProcessFault::Shapes);
        }
        let sum = add(alloc, left, right)?;
        let lower = lower_values(alloc, left, right)?;
        let sum = Kept {
            shape: numbers.shape,
            block: SharedBlock::new(sum),
        };
        let lower = Kept {
            shape: values.shape,
            block: SharedBlock::new(lower),
        };
        Ok((sum, lower))
    }

    /// Ends a round of a search, alone: takes over the values of what was reached that are below the numbers so far. The register
    /// of the numbers gets the new ones, and that of what was reached gets those that fell. Refused, nothing changes.
    ///
    /// If the numbers are those of a search after k rounds, and what was reached is the product of the transposed matrix of the
    /// graph and the column of those that fell, they are then those of the search after one more round; and if then no process has
    /// an entry of those that fell, they are the distances.
    ///
    /// Costs a few instructions for each entry of the two blocks, and two binary searches for each that was reached.
    pub fn settle(&mut self, alloc: Global, known: u32, reached: u32) -> Result<(), ProcessFault>
        ensures settles { OnOk result (Settles known reached self.old self.new) }
        ensures round { OnOk result (MakesRound known reached self.old self.new) }
        ensures fault { IfErr result (IsSettleFault known reached self.old) }
        ensures unchanged { OnErr result (self.new ≡ self.old) }
    {
        let (numbers, fell) = self.settled(alloc, known, reached)?;
        self.put(known, numbers);
        self.put(reached, fell);
        Ok(())
    }
}

/// A block of bits as one of weights. Nothing is copied.
#[tactic(auto, using(cb_searches::proofs::UnitWeights::weights_stored))]
fn weighed(block: Block<OrAnd>) -> Block<MinPlus>
    ensures { result ≡ block }
{
    let _shape = block.shape();
    block.recast()
}

impl Process<OrAnd> {
    /// Moves the matrix in a register to the same register of a process over min-plus, in which each of its entries weighs 1. Refused,
    /// nothing changes. The block is copied only if another register shares its lists.
    pub fn weigh(
        &mut self,
        register: u32,
        weights: &mut Process<MinPlus>,
    ) -> Result<(), ProcessFault>
        ensures weighs { OnOk result (Weighs register self.old weights.old weights.new) }
        ensures bits { OnOk result (WeighsBits register self.old weights.old weights.new) }
        ensures fault { IfErr result (IsWeighFault register self.old weights.old) }
        ensures unchanged { OnErr result (self.new ≡ self.old) }
        ensures same { OnErr result (weights.new ≡ weights.old) }
    {
        if !weights.has_register(register) {
            return Err(ProcessFault::Absent);
        }
        let Some(kept) = self.take_out(register) else {
            return Err(ProcessFault::Absent);
        };
        let Kept { shape, block } = kept;
        let _rows = shape.rows();
        match block.into_block() {
            Ok(block) => {
                let block = SharedBlock::new(weighed(block));
                weights.put(register, Kept { shape, block });
                Ok(())
            }
            Err((block, _error)) => {
                self.put(register, Kept { shape, block });
                Err(ProcessFault::Memory)
            }
        }
    }
}
