//! All processes of a grid, and the messages between them.
use cb_bases::Based;
use cb_messages::Message;
use cb_operations::Operation;
use cb_rank::Want;
use cb_rank_process::{Process, opening_length};
use cb_semirings::{MinPlus, OrAnd, SemiringName};
use std::alloc::Global;

/// The most rounds in which each process does at most one half.
const ROUNDS: u32 = 100_000;

/// The processes of a grid, and the messages that were posted and not taken, oldest first.
#[derive(Drop)]
pub(crate) struct Crew<S: Based> {
    semiring: SemiringName,
    pub(crate) processes: Vec<Process<S>>,
    messages: Vec<Message<S>>,
    /// How many messages of a lane there may be at once.
    room: usize,
}

impl<S: Based> Crew<S> {
    /// The processes of the grid of this side, over the semiring of this name.
    pub(crate) fn open(
        alloc: Global,
        semiring: SemiringName,
        side: u32,
        room: usize,
    ) -> Option<Crew<S>> {
        let mut processes = Vec::new(alloc);
        for me in 0..side.saturating_mul(side) {
            let process = Process::open(alloc, side, me).ok()?;
            processes.push(process).ok()?;
        }
        Some(Crew {
            semiring,
            processes,
            messages: Vec::new(alloc),
            room,
        })
    }

    /// How many messages of a lane there are.
    fn count(&self, from: u16, to: u16) -> usize {
        let mut count = 0usize;
        for message in &self.messages {
            let head = message.head();
            if head.from == u32::from(from) && head.to == u32::from(to) {
                count = count.saturating_add(1);
            }
        }
        count
    }

    /// The place of the oldest message of a lane.
    fn oldest(&self, from: u16, to: u16) -> Option<usize> {
        for n in 0..self.messages.len() {
            let head = self.messages[n].head();
            if head.from == u32::from(from) && head.to == u32::from(to) {
                return Some(n);
            }
        }
        None
    }

    /// Posts a message of a process, if there is room on its lane. None if it is refused.
    fn post(&mut self, alloc: Global, me: u16, to: u16) -> Option<bool> {
        if self.count(me, to) >= self.room {
            return Some(false);
        }
        let process = self.processes.get_mut(usize::from(me))?;
        let message = process.post(alloc).ok()?;
        self.messages.push(message).ok()?;
        Some(true)
    }

    /// Hands a process the oldest message of a lane, if there is one. None if it is refused.
    fn take(&mut self, alloc: Global, me: u16, from: u16) -> Option<bool> {
        let Some(n) = self.oldest(from, me) else {
            return Some(false);
        };
        let message = self.messages.get(n)?;
        let process = self.processes.get_mut(usize::from(me))?;
        process.take(alloc, &message.head(), &message.lists()).ok()?;
        drop_at(&mut self.messages, n);
        Some(true)
    }

    /// Does the next half of a process, if it can be done now, and says whether it was. None if a call is refused.
    fn step(&mut self, alloc: Global, me: u16) -> Option<bool> {
        let process = self.processes.get_mut(usize::from(me))?;
        match process.want() {
            Want::Post(to) => self.post(alloc, me, to),
            Want::Shut(to) => self.post(alloc, me, to),
            Want::Take(from) => self.take(alloc, me, from),
            Want::End(from) => self.take(alloc, me, from),
            Want::Work => {
                process.work().ok()?;
                Some(true)
            }
            Want::Done => Some(false),
        }
    }

    /// Lets each process do a half, if it can, and says whether one did.
    fn round(&mut self, alloc: Global) -> Option<bool> {
        let mut has_moved = false;
        for me in 0u16..64 {
            if usize::from(me) < self.processes.len() && self.step(alloc, me)? {
                has_moved = true;
            }
        }
        Some(has_moved)
    }

    /// Does a plan, and keeps what it leaves in a register of each process. None if it can't be done.
    fn finish(&mut self, alloc: Global, register: u32) -> Option<()> {
        for _ in 0..ROUNDS {
            if !self.round(alloc)? {
                break;
            }
        }
        for n in 0..self.processes.len() {
            self.processes[n].end(register).ok()?;
        }
        Some(())
    }

    /// Reads a text in pieces, a process each. None if it has a fault.
    pub(crate) fn read(&mut self, alloc: Global, register: u32, text: &[u8]) -> Option<()> {
        let start = opening_length(self.semiring, text)?;
        if start > text.len() {
            return None;
        }
        let (opening, entries) = text.split_at(start);
        let mut rest = entries;
        let mut lines = 0u64;
        let mut announced = 0u64;
        for n in 0..self.processes.len() {
            let left = self.processes.len() - n;
            let (piece, after) = cut(rest, rest.len() / left, left == 1);
            rest = after;
            let counts = self.processes[n].read(alloc, opening, piece).ok()?;
            lines = lines.saturating_add(u64::from(counts.lines));
            announced = u64::from(counts.announced);
        }
        if lines != announced {
            return None;
        }
        self.finish(alloc, register)
    }

    /// Computes an operation, and keeps the answer in a register.
    fn compute(&mut self, alloc: Global, operation: Operation, register: u32) -> Option<()> {
        for n in 0..self.processes.len() {
            self.processes[n].operate(alloc, operation).ok()?;
        }
        self.finish(alloc, register)
    }

    /// Computes an operation, and keeps the answer in register 0.
    pub(crate) fn operate(&mut self, alloc: Global, operation: Operation) -> Option<()> {
        self.compute(alloc, operation, 0)
    }

    /// The text of the matrix in a register.
    pub(crate) fn text(&mut self, alloc: Global, side: u32, register: u32) -> Option<Vec<u8>> {
        for n in 0..self.processes.len() {
            self.processes[n].gather_columns(alloc, register).ok()?;
        }
        self.finish(alloc, register)?;
        let mut entries = 0u64;
        for process in &self.processes {
            entries = entries.saturating_add(process.entry_count(register).ok()?);
        }
        let first = self.processes.get(0)?;
        let mut text = first.head(alloc, register, entries).ok()?;
        for j in 0..side {
            for i in 0..side {
                let rank = i.saturating_mul(side).saturating_add(j);
                let process = self.processes.get_mut(rank as usize)?;
                let lines = process.lines(alloc, register).ok()?;
                text.extend_from_slice(&lines).ok()?;
            }
        }
        Some(text)
    }
}

impl Crew<OrAnd> {
    /// Moves the matrix in register 0 to processes over min-plus.
    pub(crate) fn weigh(&mut self, weights: &mut Crew<MinPlus>) -> Option<()> {
        for n in 0..self.processes.len() {
            let process = weights.processes.get_mut(n)?;
            self.processes[n].weigh(0, process).ok()?;
        }
        Some(())
    }
}

/// The registers of a search: what fell, the edges, and the numbers.
const FELL: u32 = 1;

const EDGES: u32 = 2;

const KNOWN: u32 = 3;

impl Crew<MinPlus> {
    /// Begins a search in the graph in register 0.
    fn begin(&mut self, alloc: Global, source: u32) -> Option<()> {
        for n in 0..self.processes.len() {
            self.processes[n]
                .begin_search(alloc, 0, source, KNOWN, FELL)
                .ok()?;
        }
        self.compute(alloc, Operation::Transpose, EDGES)
    }

    /// Makes a round, and says whether a number fell in the one before.
    fn make_round(&mut self, alloc: Global) -> Option<bool> {
        let mut fallen = 0u64;
        for process in &self.processes {
            fallen = fallen.saturating_add(process.entry_count(FELL).ok()?);
        }
        if fallen == 0 {
            return Some(false);
        }
        for n in 0..self.processes.len() {
            self.processes[n].copy(alloc, EDGES, 0).ok()?;
        }
        self.compute(alloc, Operation::MultiplyVector, FELL)?;
        for n in 0..self.processes.len() {
            self.processes[n].settle(alloc, KNOWN, FELL).ok()?;
        }
        Some(true)
    }

    /// The lines of the distances from a source, in the graph in register 0.
    pub(crate) fn distances(&mut self, alloc: Global, source: u32) -> Option<Vec<u8>> {
        self.begin(alloc, source)?;
        for _ in 0..ROUNDS {
            if !self.make_round(alloc)? {
                break;
            }
        }
        let mut text = Vec::new(alloc);
        for process in &self.processes {
            let lines = process.vertex_lines(alloc, KNOWN).ok()?;
            text.extend_from_slice(&lines).ok()?;
        }
        Some(text)
    }
}

/// Drops the message at a place, if there is one.
fn drop_at<S: Based>(messages: &mut Vec<Message<S>>, n: usize) {
    if n < messages.len() {
        messages.remove(n);
    }
}

/// The lines before a place, with the line in which it is, and those after it; or all lines.
fn cut<'a>(text: &'a [u8], place: usize, all: bool) -> (&'a [u8], &'a [u8]) {
    if all {
        return (text, &[]);
    }
    for n in 0..text.len() {
        if n >= place && text[n] == b'\n' {
            return (&text[..n + 1], &text[n + 1..]);
        }
    }
    (text, &[])
}
