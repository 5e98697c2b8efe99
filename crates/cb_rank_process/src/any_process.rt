//! A process and a message over whichever semiring, each as one type.
use crate::faults::ProcessFault;
use crate::processes::Process;
use crate::texts::LineCounts;
use cb_lists::Columns;
use cb_messages::{Head, Message};
use cb_operations::Operation;
use cb_rank::Want;
use cb_semirings::{
    MaxFirst, MaxMin, MaxPlus, MaxSecond, MinFirst, MinMax, MinPlus, MinSecond, OrAnd, PlusFirst,
    PlusMin, PlusPair, PlusSecond, PlusTimes, Semiring, SemiringName, over_semiring,
};
use std::alloc::Global;

/// A process over one of the semirings, on the heap, or what is left of one that was freed.
#[derive(Drop)]
pub enum AnyProcess {
    PlusTimes(Box<Process<PlusTimes>>),
    MinPlus(Box<Process<MinPlus>>),
    OrAnd(Box<Process<OrAnd>>),
    MaxMin(Box<Process<MaxMin>>),
    PlusPair(Box<Process<PlusPair>>),
    PlusMin(Box<Process<PlusMin>>),
    PlusFirst(Box<Process<PlusFirst>>),
    PlusSecond(Box<Process<PlusSecond>>),
    MinFirst(Box<Process<MinFirst>>),
    MinSecond(Box<Process<MinSecond>>),
    MaxFirst(Box<Process<MaxFirst>>),
    MaxSecond(Box<Process<MaxSecond>>),
    MaxPlus(Box<Process<MaxPlus>>),
    MinMax(Box<Process<MinMax>>),
    Freed,
}

/// A message over one of the semirings.
#[derive(Drop)]
pub enum AnyMessage {
    PlusTimes(Message<PlusTimes>),
    MinPlus(Message<MinPlus>),
    OrAnd(Message<OrAnd>),
    MaxMin(Message<MaxMin>),
    PlusPair(Message<PlusPair>),
    PlusMin(Message<PlusMin>),
    PlusFirst(Message<PlusFirst>),
    PlusSecond(Message<PlusSecond>),
    MinFirst(Message<MinFirst>),
    MinSecond(Message<MinSecond>),
    MaxFirst(Message<MaxFirst>),
    MaxSecond(Message<MaxSecond>),
    MaxPlus(Message<MaxPlus>),
    MinMax(Message<MinMax>),
}

/// What is made of a process or a message, over any semiring, and of a process that was freed.
macro_rules! over_any {
    ($kind:ident, $any:expr, $one:ident => $made:expr $(, $freed:ident => $otherwise:expr)?) => {
        match $any {
            $kind::PlusTimes($one) => $made,
            $kind::MinPlus($one) => $made,
            $kind::OrAnd($one) => $made,
            $kind::MaxMin($one) => $made,
            $kind::PlusPair($one) => $made,
            $kind::PlusMin($one) => $made,
            $kind::PlusFirst($one) => $made,
            $kind::PlusSecond($one) => $made,
            $kind::MinFirst($one) => $made,
            $kind::MinSecond($one) => $made,
            $kind::MaxFirst($one) => $made,
            $kind::MaxSecond($one) => $made,
            $kind::MaxPlus($one) => $made,
            $kind::MinMax($one) => $made,
            $($kind::$freed => $otherwise,)?
        }
    };
}

/// What a process does, over any semiring. One that was freed does nothing.
macro_rules! over_process {
    ($any:expr, $process:ident => $done:expr) => {
        over_any!(AnyProcess, $any, $process => $done, Freed => Err(ProcessFault::Absent))
    };
}

/// Opens a process over one semiring.
fn open_over<S: Semiring>(alloc: Global, side: u32, me: u32) -> Result<AnyProcess, ProcessFault>
where
    AnyProcess: From<Box<Process<S>>>,
{
    let process = Process::<S>::open(alloc, side, me)?;
    match Box::new(alloc, process) {
        Ok(process) => Ok(AnyProcess::from(process)),
        Err(_) => Err(ProcessFault::Memory),
    }
}

/// Does a Post or a Shut over one semiring.
fn post_over<S: Semiring>(
    alloc: Global,
    process: &mut Process<S>,
) -> Result<AnyMessage, ProcessFault>
where
    AnyMessage: From<Message<S>>,
{
    let message = process.post(alloc)?;
    Ok(AnyMessage::from(message))
}

/// A process over min-plus with the matrix that another one over or-and had in a register, in which each entry weighs 1.
fn weights_of(
    alloc: Global,
    bits: &mut Process<OrAnd>,
    register: u32,
) -> Result<Box<Process<MinPlus>>, ProcessFault> {
    if !bits.is_free() {
        return Err(ProcessFault::NotNow);
    }
    let weights = Process::open(alloc, bits.grid.side(), u32::from(bits.me))?;
    let Ok(mut weights) = Box::new(alloc, weights) else {
        return Err(ProcessFault::Memory);
    };
    bits.weigh(register, &mut weights)?;
    Ok(weights)
}

impl AnyProcess {
    /// Rank `me` of the grid of this side, over the semiring of a name.
    pub fn open(
        alloc: Global,
        semiring: SemiringName,
        side: u32,
        me: u32,
    ) -> Result<AnyProcess, ProcessFault> {
        over_semiring!(semiring, open_over::<_>(alloc, side, me))
    }

    /// Reads a piece of a text, and begins to bring its entries to their owners: [`Process::read`].
    pub fn read(
        &mut self,
        alloc: Global,
        opening: &[u8],
        piece: &[u8],
    ) -> Result<LineCounts, ProcessFault> {
        over_process!(self, process => process.read(alloc, opening, piece))
    }

    /// Begins an operation on the matrices in the first registers: [`Process::operate`].
    pub fn operate(&mut self, alloc: Global, operation: Operation) -> Result<(), ProcessFault> {
        over_process!(self, process => process.operate(alloc, operation))
    }

    /// Begins to bring a matrix into the order of its text: [`Process::gather_columns`].
    pub fn gather_columns(&mut self, alloc: Global, register: u32) -> Result<(), ProcessFault> {
        over_process!(self, process => process.gather_columns(alloc, register))
    }

    /// Copies the matrix in a register to another one: [`Process::copy`].
    pub fn copy(&mut self, alloc: Global, from: u32, to: u32) -> Result<(), ProcessFault> {
        over_process!(self, process => process.copy(alloc, from, to))
    }

    /// Becomes a process over min-plus with the matrix in a register, in which each entry weighs 1: [`Process::weigh`]. Only a
    /// process over or-and does, and while it does no plan.
    pub fn weigh(&mut self, alloc: Global, register: u32) -> Result<(), ProcessFault> {
        let AnyProcess::OrAnd(bits) = self else {
            return Err(ProcessFault::Absent);
        };
        let weights = weights_of(alloc, bits, register)?;
        *self = AnyProcess::MinPlus(weights);
        Ok(())
    }

    /// Begins a search in the graph of a matrix: [`Process::begin_search`]. Only a process over min-plus does.
    pub fn begin_search(
        &mut self,
        alloc: Global,
        graph: u32,
        source: u32,
        known: u32,
        fell: u32,
    ) -> Result<(), ProcessFault> {
        match self {
            AnyProcess::MinPlus(process) => process.begin_search(alloc, graph, source, known, fell),
            _ => Err(ProcessFault::Absent),
        }
    }

    /// Ends a round of a search: [`Process::settle`]. Only a process over min-plus does.
    pub fn settle(&mut self, alloc: Global, known: u32, reached: u32) -> Result<(), ProcessFault> {
        match self {
            AnyProcess::MinPlus(process) => process.settle(alloc, known, reached),
            _ => Err(ProcessFault::Absent),
        }
    }

    /// The lines of the vertices of a column: [`Process::vertex_lines`].
    pub fn vertex_lines(&self, alloc: Global, register: u32) -> Result<Vec<u8>, ProcessFault> {
        over_process!(self, process => process.vertex_lines(alloc, register))
    }

    /// The next half of the plan: [`Process::want`].
    pub fn want(&self) -> Want {
        over_any!(AnyProcess, self, process => process.want(), Freed => Want::Done)
    }

    /// Does a Post or a Shut, and hands out its letter: [`Process::post`].
    pub fn post(&mut self, alloc: Global) -> Result<AnyMessage, ProcessFault> {
        over_process!(self, process => post_over(alloc, process))
    }

    /// Does a Take or an End with what arrived: [`Process::take`].
    pub fn take(
        &mut self,
        alloc: Global,
        head: &Head,
        lists: &Columns,
    ) -> Result<(), ProcessFault> {
        over_process!(self, process => process.take(alloc, head, lists))
    }

    /// Does a Work: [`Process::work`].
    pub fn work(&mut self) -> Result<(), ProcessFault> {
        over_process!(self, process => process.work())
    }

    /// Ends the plan, and keeps the block that it leaves: [`Process::end`].
    pub fn end(&mut self, register: u32) -> Result<(), ProcessFault> {
        over_process!(self, process => process.end(register))
    }

    /// Frees all that the process has. The other calls then do nothing.
    pub fn clear(&mut self) {
        *self = AnyProcess::Freed;
    }

    /// How many entries this process has of a matrix: [`Process::entry_count`].
    pub fn entry_count(&self, register: u32) -> Result<u64, ProcessFault> {
        over_process!(self, process => process.entry_count(register))
    }

    /// The head of the text of a matrix: [`Process::head`].
    pub fn head(
        &self,
        alloc: Global,
        register: u32,
        entries: u64,
    ) -> Result<Vec<u8>, ProcessFault> {
        over_process!(self, process => process.head(alloc, register, entries))
    }

    /// The lines of some columns: [`Process::lines`].
    pub fn lines(&mut self, alloc: Global, register: u32) -> Result<Vec<u8>, ProcessFault> {
        over_process!(self, process => process.lines(alloc, register))
    }
}

impl AnyMessage {
    /// The head.
    pub fn head(&self) -> Head {
        over_any!(AnyMessage, self, message => message.head())
    }

    /// The lists, where they lie.
    pub fn lists<'a>(&'a self) -> Columns<'a> {
        over_any!(AnyMessage, self, message => message.lists())
    }
}
