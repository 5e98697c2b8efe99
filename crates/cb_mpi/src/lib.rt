//! One process of a run by several, for a program that carries letters between them, as by MPI: `mpi/cbgrid_mpi.c`.
//!
//! C holds a process and messages by pointers ([`OwnedProcess`], [`OwnedMessage`]). A call that changes a process takes its pointer, and
//! gives it back in `out`. Each call checks whether its turn has come, and if not returns a code and changes nothing. So C may make
//! calls in any order: a wrong one is refused, and breaks no promise. No call waits, starts a thread or takes a lock.
//!
//! A call returns 0 if it is done, and otherwise the code of a fault: 1 if another call is next, 2 for a letter that isn't awaited
//! or is broken, 3 for what isn't there (a semiring, a grid, a rank, an operation, a register or its matrix, a vertex, a process that
//! was freed), 4 for a text with a fault, 5 for shapes that don't agree or a graph's matrix that isn't square, 6 for a block that was
//! lost when memory was refused at a rank, 7 if memory was refused.
//!
//! `semiring` is a number of `cb_semirings::SemiringName`: 0 (plus-times), 1 (min-plus), 2 (or-and), 3 (max-min), and so on.
#![tactic(auto)]

ghost use Rattle.std.specs.Prelude.{IsSome};

mod codes;
mod message_handles;
mod process_handles;

use cb_lists::Columns;
use cb_messages::Head;
use cb_operations::Operation;
use cb_rank_process::{AnyProcess, LineCounts, Outgoing, ProcessFault, opening_length, text_fault};
use cb_semirings::{NAMES, SemiringName};
use codes::{DONE, code, code_of, number_of};
use message_handles::{borrowed_message, hand_message_out, take_message_back};
pub use message_handles::{LentMessage, OwnedMessage};
use process_handles::{borrowed, hand_out, take_back};
pub use process_handles::{LentProcess, OwnedProcess};
use std::alloc::Global;

/// Some bytes.
#[repr(C)]
#[derive(Clone, Copy)]
pub struct Bytes {
    pub bytes: &'static [u8],
}

/// The name of the semiring of a number. The code is 3 if there is no such semiring.
#[unsafe(no_mangle)]
pub extern "C" fn cbgrid_semiring_name(semiring: u32, out: &mut Bytes) -> u32 {
    match NAMES.get(semiring as usize) {
        Some(name) => {
            *out = Bytes {
                bytes: name.as_bytes(),
            };
            DONE
        }
        None => code_of(ProcessFault::Absent),
    }
}

/// A process over the semiring of a number.
fn opened(alloc: Global, semiring: u32, side: u32, me: u32) -> Result<AnyProcess, ProcessFault> {
    match SemiringName::numbered(semiring) {
        Some(name) => AnyProcess::open(alloc, name, side, me),
        None => Err(ProcessFault::Absent),
    }
}

/// Opens a process: rank `me` of the grid of this side, over a semiring.
#[unsafe(no_mangle)]
pub extern "C" fn cbgrid_process_open(
    alloc: Global,
    semiring: u32,
    side: u32,
    me: u32,
    out: &mut OwnedProcess,
) -> u32 {
    let process = match opened(alloc, semiring, side, me) {
        Ok(process) => process,
        Err(fault) => return code_of(fault),
    };
    match Box::new(alloc, process) {
        Ok(on_heap) => {
            *out = hand_out(Box::leak(on_heap));
            DONE
        }
        Err(_) => code_of(ProcessFault::Memory),
    }
}

/// Frees what a process holds. The caller then frees the memory at the pointer.
#[unsafe(no_mangle)]
pub extern "C" fn cbgrid_process_clear(process: OwnedProcess, out: &mut OwnedProcess)
    requires { IsSome process.kept }
{
    let process = take_back(process);
    process.clear();
    *out = hand_out(process);
}

/// How many bytes of a text come before its first entry. Some first lines of the text do in place of the whole. The code is 4 if
/// there is no size line in them, or a fault before its end.
#[unsafe(no_mangle)]
pub extern "C" fn cbgrid_text_opening(semiring: u32, text: &[u8], out: &mut usize) -> u32 {
    let Some(name) = SemiringName::numbered(semiring) else {
        return code_of(ProcessFault::Absent);
    };
    match opening_length(name, text) {
        Some(length) => {
            *out = length;
            DONE
        }
        None => code_of(ProcessFault::Text),
    }
}

/// Looks for the first fault of a whole text. The code is 0 if it has none; 4 if it has one, and then `line` gets its line, and
/// `words` what is wrong there.
#[unsafe(no_mangle)]
pub extern "C" fn cbgrid_text_fault(
    alloc: Global,
    semiring: u32,
    text: &[u8],
    line: &mut u64,
    words: &mut Bytes,
) -> u32 {
    let Some(name) = SemiringName::numbered(semiring) else {
        return code_of(ProcessFault::Absent);
    };
    match text_fault(alloc, name, text) {
        Some(fault) => {
            *line = fault.line;
            *words = Bytes {
                bytes: fault.words.as_bytes(),
            };
            if fault.is_memory {
                code_of(ProcessFault::Memory)
            } else {
                code_of(ProcessFault::Text)
            }
        }
        None => DONE,
    }
}

/// Reads a piece of a text, and begins to bring the entries of all pieces to their owners.
#[unsafe(no_mangle)]
pub extern "C" fn cbgrid_process_read(
    alloc: Global,
    process: OwnedProcess,
    opening: &[u8],
    piece: &[u8],
    counts: &mut LineCounts,
    out: &mut OwnedProcess,
) -> u32
    requires { IsSome process.kept }
{
    let process = take_back(process);
    let read = process.read(alloc, opening, piece);
    *out = hand_out(process);
    match read {
        Ok(read) => {
            *counts = read;
            DONE
        }
        Err(fault) => code_of(fault),
    }
}

/// Begins an operation on the matrices in the first registers: 0 multiply, 1 multiply under a mask, 2 multiply by a vector,
/// 3 transpose, 4 row sums, 5 column sums, 6 add, 7 times, 8 prune below a value, 9 above it, 10 equal to it.
#[unsafe(no_mangle)]
pub extern "C" fn cbgrid_process_operate(
    alloc: Global,
    process: OwnedProcess,
    operation: u32,
    value: u64,
    out: &mut OwnedProcess,
) -> u32
    requires { IsSome process.kept }
{
    let process = take_back(process);
    let begun = match Operation::numbered(operation, value) {
        Some(operation) => process.operate(alloc, operation),
        None => Err(ProcessFault::Absent),
    };
    *out = hand_out(process);
    code(begun)
}

/// Begins to bring the matrix in a register into the order of its text.
#[unsafe(no_mangle)]
pub extern "C" fn cbgrid_process_gather(
    alloc: Global,
    process: OwnedProcess,
    register: u32,
    out: &mut OwnedProcess,
) -> u32
    requires { IsSome process.kept }
{
    let process = take_back(process);
    let begun = process.gather_columns(alloc, register);
    *out = hand_out(process);
    code(begun)
}

/// Copies the matrix in a register to another one.
#[unsafe(no_mangle)]
pub extern "C" fn cbgrid_process_copy(
    alloc: Global,
    process: OwnedProcess,
    from: u32,
    to: u32,
    out: &mut OwnedProcess,
) -> u32
    requires { IsSome process.kept }
{
    let process = take_back(process);
    let copied = process.copy(alloc, from, to);
    *out = hand_out(process);
    code(copied)
}

/// A process over or-and becomes one over min-plus, with the matrix in a register, in which each entry weighs 1. The code is 3 if it
/// is over another semiring.
#[unsafe(no_mangle)]
pub extern "C" fn cbgrid_process_weigh(
    alloc: Global,
    process: OwnedProcess,
    register: u32,
    out: &mut OwnedProcess,
) -> u32
    requires { IsSome process.kept }
{
    let process = take_back(process);
    let weighed = process.weigh(alloc, register);
    *out = hand_out(process);
    code(weighed)
}

/// Begins a search from a vertex, counted from 0, in the graph of the matrix in register `graph`, over min-plus: the registers `known`
/// and `fell` get the numbers of the vertices, and those that fell. The code is 5 if the matrix isn't square, and 3 if it has no such vertex.
#[unsafe(no_mangle)]
pub extern "C" fn cbgrid_process_begin_search(
    alloc: Global,
    process: OwnedProcess,
    graph: u32,
    source: u32,
    known: u32,
    fell: u32,
    out: &mut OwnedProcess,
) -> u32
    requires { IsSome process.kept }
{
    let process = take_back(process);
    let begun = process.begin_search(alloc, graph, source, known, fell);
    *out = hand_out(process);
    code(begun)
}

/// Ends a round of a search, alone: the register `known` gets the numbers after it, and `reached` those of them that fell.
#[unsafe(no_mangle)]
pub extern "C" fn cbgrid_process_settle(
    alloc: Global,
    process: OwnedProcess,
    known: u32,
    reached: u32,
    out: &mut OwnedProcess,
) -> u32
    requires { IsSome process.kept }
{
    let process = take_back(process);
    let settled = process.settle(alloc, known, reached);
    *out = hand_out(process);
    code(settled)
}

/// The lines of the vertices that the process has of the column in a register. The bytes belong to the caller, unless there are none.
#[unsafe(no_mangle)]
pub extern "C" fn cbgrid_process_vertex_lines(
    alloc: Global,
    process: LentProcess,
    register: u32,
    lines: &mut Bytes,
) -> u32 {
    match borrowed(process).vertex_lines(alloc, register) {
        Ok(made) => {
            *lines = Bytes { bytes: made.leak() };
            DONE
        }
        Err(fault) => code_of(fault),
    }
}

/// What the process wants: 0 nothing more, 1 to post, 2 to take, 3 to work, 4 to shut a lane, 5 to take a close mark. `other` gets
/// the rank at the lane's other end.
#[unsafe(no_mangle)]
pub extern "C" fn cbgrid_process_want(process: LentProcess, other: &mut u32) -> u32 {
    let (number, rank) = number_of(borrowed(process).want());
    *other = u32::from(rank);
    number
}

/// Does a Post or a Shut, and hands out its letter. If memory is refused, the next call hands it out.
#[unsafe(no_mangle)]
pub extern "C" fn cbgrid_process_post(
    alloc: Global,
    process: OwnedProcess,
    message: &mut OwnedMessage,
    out: &mut OwnedProcess,
) -> u32
    requires { IsSome process.kept }
{
    let process = take_back(process);
    let posted = process.post(alloc);
    *out = hand_out(process);
    let posted = match posted {
        Ok(posted) => posted,
        Err(fault) => return code_of(fault),
    };
    match Box::new(alloc, Outgoing::new(posted)) {
        Ok(on_heap) => {
            *message = hand_message_out(Box::leak(on_heap));
            DONE
        }
        Err(_) => code_of(ProcessFault::Memory),
    }
}

/// The head of a message, and its lists where they lie.
#[unsafe(no_mangle)]
pub extern "C" fn cbgrid_message_parts(
    message: LentMessage,
    head: &mut Head,
    lists: &mut Columns<'static>,
) -> u32 {
    match borrowed_message(message).parts() {
        Some((its_head, its_lists)) => {
            *head = its_head;
            *lists = its_lists;
            DONE
        }
        None => code_of(ProcessFault::Absent),
    }
}

/// Frees what a message holds. The caller then frees the memory at the pointer.
#[unsafe(no_mangle)]
pub extern "C" fn cbgrid_message_clear(message: OwnedMessage, out: &mut OwnedMessage)
    requires { IsSome message.kept }
{
    let message = take_message_back(message);
    message.clear();
    *out = hand_message_out(message);
}

/// Does a Take or an End with what has arrived.
#[unsafe(no_mangle)]
pub extern "C" fn cbgrid_process_take(
    alloc: Global,
    process: OwnedProcess,
    head: &Head,
    lists: &Columns,
    out: &mut OwnedProcess,
) -> u32
    requires { IsSome process.kept }
{
    let process = take_back(process);
    let taken = process.take(alloc, head, lists);
    *out = hand_out(process);
    code(taken)
}

/// Does a Work.
#[unsafe(no_mangle)]
pub extern "C" fn cbgrid_process_work(process: OwnedProcess, out: &mut OwnedProcess) -> u32
    requires { IsSome process.kept }
{
    let process = take_back(process);
    let done = process.work();
    *out = hand_out(process);
    code(done)
}

/// Ends the plan, and keeps the block that it leaves in a register. If the block was lost, `origin` gets the rank.
#[unsafe(no_mangle)]
pub extern "C" fn cbgrid_process_end(
    process: OwnedProcess,
    register: u32,
    origin: &mut u32,
    out: &mut OwnedProcess,
) -> u32
    requires { IsSome process.kept }
{
    let process = take_back(process);
    let ended = process.end(register);
    *out = hand_out(process);
    if let Err(ProcessFault::Lost(rank)) = &ended {
        *origin = u32::from(*rank);
    }
    code(ended)
}

/// How many entries the process has of the matrix in a register.
#[unsafe(no_mangle)]
pub extern "C" fn cbgrid_process_count(process: LentProcess, register: u32, out: &mut u64) -> u32 {
    match borrowed(process).entry_count(register) {
        Ok(count) => {
            *out = count;
            DONE
        }
        Err(fault) => code_of(fault),
    }
}

/// The head of the text of the matrix in a register, which has this many entries in all. Its bytes belong to the caller.
#[unsafe(no_mangle)]
pub extern "C" fn cbgrid_process_head(
    alloc: Global,
    process: LentProcess,
    register: u32,
    entries: u64,
    out: &mut Bytes,
) -> u32 {
    match borrowed(process).head(alloc, register, entries) {
        Ok(head) => {
            *out = Bytes { bytes: head.leak() };
            DONE
        }
        Err(fault) => code_of(fault),
    }
}

/// The lines of the columns in a register, which gives them up. The bytes belong to the caller, unless there are none.
#[unsafe(no_mangle)]
pub extern "C" fn cbgrid_process_lines(
    alloc: Global,
    process: OwnedProcess,
    register: u32,
    lines: &mut Bytes,
    out: &mut OwnedProcess,
) -> u32
    requires { IsSome process.kept }
{
    let process = take_back(process);
    let made = process.lines(alloc, register);
    *out = hand_out(process);
    match made {
        Ok(made) => {
            *lines = Bytes { bytes: made.leak() };
            DONE
        }
        Err(fault) => code_of(fault),
    }
}
