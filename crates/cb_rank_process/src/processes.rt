//! A process: its matrices, and the plan that it does.
ghost use Rattle.std.specs.Prelude.{◌≡◌, ◌↔◌, replicate, Some, None, IsTrue, IfSome, IfNone, IfOk, IfErr, OnOk, OnErr};
ghost use Rattle.cb_rank_process.specs.Processes.{register_at, new_process, IsFree, IsStartFault, Starts};
ghost use Rattle.cb_rank_process.specs.Kept.{Keeps, IsEndFault};

use crate::faults::ProcessFault;
use cb_grid::Grid;
use cb_letters::Letter;
use cb_matrix::Shape;
use cb_plan::{CheckedPlan, RankStore, SharedBlock};
use cb_rank_driven::{DrivenRank, NoBlock, StartFault};
use cb_semirings::Semiring;
use std::alloc::{AllocError, Global};
use std::marker::Model;

/// How many matrices a process keeps at once.
pub const REGISTERS: u32 = 4;

/// A matrix that is cut over the grid: its shape, and the block of this process. Or, of an answer in the order of its text,
/// some columns, in the whole shape.
#[derive(Drop)]
pub(crate) struct Kept<S: Semiring> {
    pub(crate) shape: Shape,
    pub(crate) block: SharedBlock<S>,
}

impl<S: Semiring> Model for Kept<S> {
    ghost use Rattle.cb_rank_process.specs.Processes.{KeptView};

    ghost Value = { KeptView };

    ghost view = { λ kept. record { shape = kept.shape; block = kept.block } };
}

/// A plan that is being done, and where it leaves a block of a matrix of this shape.
#[derive(Drop)]
pub(crate) struct Task<S: Semiring> {
    pub(crate) rank: DrivenRank<S>,
    pub(crate) slot: u16,
    pub(crate) shape: Shape,
}

impl<S: Semiring> Model for Task<S> {
    ghost use Rattle.cb_rank_process.specs.Processes.{TaskView};

    ghost Value = { TaskView };

    ghost view = { λ task. record { rank = task.rank; slot = task.slot; shape = task.shape } };
}

/// One process of a grid: rank `me`.
#[derive(Drop)]
pub struct Process<S: Semiring> {
    pub(crate) grid: Grid,
    pub(crate) me: u16,
    pub(crate) registers: Vec<Option<Kept<S>>>,
    pub(crate) task: Option<Task<S>>,
    /// A letter that was posted, but not handed out, since memory was refused.
    pub(crate) unsent: Option<Letter<SharedBlock<S>>>,
}

impl<S: Semiring> Model for Process<S> {
    ghost use Rattle.cb_rank_process.specs.Processes.{ProcessView, IsOf, process_view};

    ghost Value = { ProcessView };

    ghost view = { λ x. process_view x.grid.side x.me x.registers.items x.task x.unsent };

    ghost invariant = { λ x. IsOf x.me x.task };
}

impl<S: Semiring> Process<S> {
    /// Rank `me` of the grid of this side. It keeps nothing yet, and does no plan.
    pub fn open(alloc: Global, side: u32, me: u32) -> Result<Process<S>, ProcessFault>
        ensures { IfOk result (λ x. x ≡ new_process side me) }
    {
        let Ok(grid) = Grid::new(side) else {
            return Err(ProcessFault::Absent);
        };
        if me >= u32::from(grid.ranks()) {
            return Err(ProcessFault::Absent);
        }
        Ok(Process {
            grid,
            me: me as u16,
            registers: empty_registers(alloc)?,
            task: None,
            unsent: None,
        })
    }

    /// Whether a plan may be begun.
    pub(crate) fn is_free(&self) -> bool
        ensures { IsTrue result ↔ IsFree self.now }
    {
        self.task.is_none() && self.unsent.is_none()
    }

    /// What a register has.
    pub(crate) fn kept(&self, register: u32) -> Option<&Kept<S>>
        ensures some { IfSome result (λ kept. register_at self.now register ≡ Some kept.now) }
        ensures none { IfNone result (register_at self.now register ≡ None) }
    {
        match self.registers.get(register as usize) {
            Some(Some(kept)) => Some(kept),
            _ => None,
        }
    }

    /// Begins a plan, with these slots of this rank.
    pub(crate) fn begin(
        &mut self,
        alloc: Global,
        plan: &CheckedPlan,
        slot: u16,
        shape: Shape,
        store: RankStore<S>,
    ) -> Result<(), ProcessFault>
        ensures started { OnOk result (Starts plan.now slot shape store self.old self.new) }
        ensures fault { IfErr result (IsStartFault plan.now self.old.me store) }
        ensures unchanged { OnErr result (self.new ≡ self.old) }
    {
        match DrivenRank::start(alloc, plan, self.me, store) {
            Ok(rank) => {
                self.task = Some(Task { rank, slot, shape });
                Ok(())
            }
            Err(StartFault::Unfit) => Err(ProcessFault::Absent),
            Err(StartFault::Memory) => Err(ProcessFault::Memory),
        }
    }

    /// Ends the plan, if all its halves are done, and keeps the block that it leaves in a register.
    ///
    /// If the plan brings each process of the grid its part of a result, from what they began with, each did its own part of the
    /// plan, and on each lane the letters taken are the first of those posted, then that is this process's part of the result, or
    /// else a rank is named that was refused memory. The result is an operation's answer, of which each gets its block; the sum of
    /// the pieces of a matrix that they read, likewise; or a matrix, of which each gets its panel.
    pub fn end(&mut self, register: u32) -> Result<(), ProcessFault>
        ensures keeps { OnOk result (Keeps S.arithmetic self.old register self.new) }
        ensures lost { IfErr result (IsEndFault S.arithmetic self.old) }
    {
        if register as usize >= self.registers.len() {
            return Err(ProcessFault::Absent);
        }
        let Some(task) = self.task.take() else {
            return Err(ProcessFault::NotNow);
        };
        let Task { rank, slot, shape } = task;
        let _next = rank.want();
        match rank.finish(slot) {
            Ok(block) => {
                let block = SharedBlock::new(block);
                self.registers[register as usize] = Some(Kept { shape, block });
                Ok(())
            }
            Err(NoBlock::NotDone(rank)) => {
                self.task = Some(Task { rank, slot, shape });
                Err(ProcessFault::NotNow)
            }
            Err(NoBlock::Empty) => Err(ProcessFault::Absent),
            Err(NoBlock::Lost(origin)) => Err(ProcessFault::Lost(origin)),
            Err(NoBlock::Memory) => Err(ProcessFault::Memory),
        }
    }
}

/// Registers without matrices.
fn empty_registers<S: Semiring>(alloc: Global) -> Result<Vec<Option<Kept<S>>>, AllocError>
    ensures { IfOk result (λ registers. registers.items ≡ replicate REGISTERS None) }
{
    let mut registers = Vec::with_capacity(alloc, REGISTERS as usize)?;
    for _ in 0..REGISTERS {
        registers.push(None)?;
    }
    Ok(registers)
}
