//! Refused calls leave a process as it was.
use crate::crews::Crew;
use cb_operations::Operation;
use cb_rank_process::{Process, ProcessFault};
use cb_semirings::{PlusTimes, SemiringName};
use std::alloc::Global;

const ROW: &[u8] = b"%%MatrixMarket matrix coordinate integer general
1 2 2
1 1 3
1 2 4
";

const SUM: &[u8] = b"%%MatrixMarket matrix coordinate integer general
1 2 2
1 1 6
1 2 8
";

const LINES: &[u8] = b"1 1 3
1 2 4
";

const HEAD: &[u8] = b"%%MatrixMarket matrix coordinate integer general
1 2 2
";

/// A grid of one process, which has the row in its first two registers.
fn crew(alloc: Global) -> Option<Crew<PlusTimes>> {
    let mut crew = Crew::<PlusTimes>::open(alloc, SemiringName::PlusTimes, 1, 1)?;
    crew.read(alloc, 0, ROW)?;
    crew.read(alloc, 1, ROW)?;
    Some(crew)
}

/// Whether a process has the entries of the row in its first two registers.
fn has_rows(process: &Process<PlusTimes>) -> bool {
    matches!(process.entry_count(0), Ok(2)) && matches!(process.entry_count(1), Ok(2))
}

/// Whether a process keeps the operands of an operation that is refused, and then does another on them.
fn keeps_operands(alloc: Global) -> Option<bool> {
    let mut crew = crew(alloc)?;
    let process = crew.processes.get_mut(0)?;
    let refused = process.operate(alloc, Operation::Multiply);
    if !matches!(refused, Err(ProcessFault::Shapes)) || !has_rows(process) {
        return Some(false);
    }
    crew.operate(alloc, Operation::Add)?;
    let text = crew.text(alloc, 1, 0)?;
    Some(text.as_slice() == SUM)
}

#[test]
fn operands_are_kept_if_their_shapes_do_not_agree(rt: HostRuntime) {
    assert!(rt; keeps_operands(rt.alloc()) == Some(true));
}

/// Whether an operation that is begun takes its operands, and no others.
fn takes_operands(alloc: Global) -> Option<bool> {
    let mut crew = crew(alloc)?;
    let process = crew.processes.get_mut(0)?;
    process.operate(alloc, Operation::Transpose).ok()?;
    Some(
        matches!(process.entry_count(0), Err(ProcessFault::Absent))
            && matches!(process.entry_count(1), Ok(2)),
    )
}

#[test]
fn an_operation_takes_its_operands_alone(rt: HostRuntime) {
    assert!(rt; takes_operands(rt.alloc()) == Some(true));
}

/// Whether an operation begins, if not at the first call, which changes nothing if memory is refused, then at the second.
fn adds(alloc: Global) -> Option<bool> {
    let mut crew = crew(alloc)?;
    let process = crew.processes.get_mut(0)?;
    match process.operate(alloc, Operation::Add) {
        Ok(()) => Some(true),
        Err(ProcessFault::Memory) => {
            Some(has_rows(process) && process.operate(alloc, Operation::Add).is_ok())
        }
        Err(_) => Some(false),
    }
}

#[test]
fn an_operation_that_is_refused_memory_changes_nothing(rt: HostRuntime) {
    assert!(rt; adds(rt.alloc()) != Some(false));
}

/// The same of bringing a matrix into the order of its text.
fn gathers(alloc: Global) -> Option<bool> {
    let mut crew = crew(alloc)?;
    let process = crew.processes.get_mut(0)?;
    match process.gather_columns(alloc, 1) {
        Ok(()) => Some(true),
        Err(ProcessFault::Memory) => {
            Some(has_rows(process) && process.gather_columns(alloc, 1).is_ok())
        }
        Err(_) => Some(false),
    }
}

#[test]
fn gathering_that_is_refused_memory_changes_nothing(rt: HostRuntime) {
    assert!(rt; gathers(rt.alloc()) != Some(false));
}

/// The lines of the row, from the second call if the first is refused memory. None if that changed anything.
fn lines(alloc: Global, process: &mut Process<PlusTimes>) -> Option<Vec<u8>> {
    match process.lines(alloc, 1) {
        Ok(lines) => Some(lines),
        Err(ProcessFault::Memory) => {
            if !has_rows(process) {
                return None;
            }
            process.lines(alloc, 1).ok()
        }
        Err(_) => None,
    }
}

/// Whether a process writes the lines of a matrix once, and gives it up.
fn writes(alloc: Global) -> Option<bool> {
    let mut crew = crew(alloc)?;
    let process = crew.processes.get_mut(0)?;
    let Some(written) = lines(alloc, process) else {
        return Some(false);
    };
    Some(
        written.as_slice() == LINES
            && matches!(process.lines(alloc, 1), Err(ProcessFault::Absent))
            && matches!(process.entry_count(0), Ok(2)),
    )
}

#[test]
fn lines_that_are_refused_memory_change_nothing(rt: HostRuntime) {
    assert!(rt; writes(rt.alloc()) != Some(false));
}

/// Whether a process writes the header and the size line of a matrix.
fn begins(alloc: Global) -> Option<bool> {
    let crew = crew(alloc)?;
    let process = crew.processes.get(0)?;
    let head = process.head(alloc, 1, 2).ok()?;
    Some(head.as_slice() == HEAD)
}

#[test]
fn a_head_has_the_shape_and_the_number_of_entries(rt: HostRuntime) {
    assert!(rt; begins(rt.alloc()) == Some(true));
}
