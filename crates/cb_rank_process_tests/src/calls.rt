//! Calls that come at the wrong time, or ask for what isn't there.
use crate::crews::Crew;
use cb_operations::Operation;
use cb_rank::Want;
use cb_rank_process::{Process, ProcessFault, REGISTERS, opening_length, text_fault};
use cb_semirings::{PlusTimes, SemiringName};
use std::alloc::Global;

const OPENING: &[u8] = b"%%MatrixMarket matrix coordinate integer general
2 2 1
";

const ENTRY: &[u8] = b"2 1 7
";

/// Rank 0 of the grid of side 2, over plus-times.
fn process(alloc: Global) -> Option<Process<PlusTimes>> {
    Process::open(alloc, 2, 0).ok()
}

/// Whether a process without a plan refuses what belongs to one.
fn refuses_halves(alloc: Global) -> Option<bool> {
    let mut process = process(alloc)?;
    Some(
        process.want() == Want::Done
            && matches!(process.work(), Err(ProcessFault::NotNow))
            && matches!(process.post(alloc), Err(ProcessFault::NotNow))
            && matches!(process.end(0), Err(ProcessFault::NotNow))
            && matches!(process.end(REGISTERS), Err(ProcessFault::Absent)),
    )
}

#[test]
fn without_a_plan_there_are_no_halves(rt: HostRuntime) {
    assert!(rt; refuses_halves(rt.alloc()) == Some(true));
}

const BOTH: &[u8] = b"%%MatrixMarket matrix coordinate integer general
2 2 1
2 1 7
";

/// Whether an opening is refused that has no size line, or goes on after it, and then begins nothing.
fn refuses_openings(alloc: Global) -> Option<bool> {
    let mut process = process(alloc)?;
    Some(
        matches!(process.read(alloc, b"", ENTRY), Err(ProcessFault::Text))
            && matches!(process.read(alloc, BOTH, b""), Err(ProcessFault::Text))
            && process.want() == Want::Done
            && process.read(alloc, OPENING, b"").is_ok(),
    )
}

#[test]
fn an_opening_ends_with_its_size_line(rt: HostRuntime) {
    assert!(rt; refuses_openings(rt.alloc()) == Some(true));
}

/// Whether a process with a plan refuses to begin another, and to end this one early.
fn refuses_another(alloc: Global) -> Option<bool> {
    let mut process = process(alloc)?;
    let counts = process.read(alloc, OPENING, ENTRY).ok()?;
    Some(
        counts.lines == 1
            && counts.announced == 1
            && matches!(
                process.read(alloc, OPENING, ENTRY),
                Err(ProcessFault::NotNow)
            )
            && matches!(
                process.operate(alloc, Operation::Multiply),
                Err(ProcessFault::NotNow)
            )
            && matches!(process.gather_columns(alloc, 0), Err(ProcessFault::NotNow))
            && matches!(process.end(0), Err(ProcessFault::NotNow))
            && process.want() == Want::Work,
    )
}

#[test]
fn one_plan_at_a_time(rt: HostRuntime) {
    assert!(rt; refuses_another(rt.alloc()) == Some(true));
}

/// Whether a process refuses what isn't there.
fn refuses_absent(alloc: Global) -> Option<bool> {
    let mut process = process(alloc)?;
    let is_absent = matches!(
        process.operate(alloc, Operation::Transpose),
        Err(ProcessFault::Absent)
    );
    Some(
        is_absent
            && matches!(process.gather_columns(alloc, 4), Err(ProcessFault::Absent))
            && matches!(process.entry_count(1), Err(ProcessFault::Absent))
            && matches!(process.lines(alloc, 1), Err(ProcessFault::Absent))
            && matches!(process.head(alloc, 1, 0), Err(ProcessFault::Absent)),
    )
}

#[test]
fn an_empty_register_has_no_matrix(rt: HostRuntime) {
    assert!(rt; refuses_absent(rt.alloc()) == Some(true));
}

/// Whether there is no such rank or grid.
fn is_absent(alloc: Global, side: u32, me: u32) -> bool {
    let opened = Process::<PlusTimes>::open(alloc, side, me);
    matches!(opened, Err(ProcessFault::Absent))
}

#[test]
fn a_rank_is_one_of_a_grid(rt: HostRuntime) {
    assert!(rt; is_absent(rt.alloc(), 0, 0));
    assert!(rt; is_absent(rt.alloc(), 65, 0));
    assert!(rt; is_absent(rt.alloc(), 2, 4));
    assert!(rt; !is_absent(rt.alloc(), 2, 3));
}

/// Whether operands whose shapes don't agree are refused.
fn refuses_shapes(alloc: Global) -> Option<bool> {
    let row: &[u8] = b"%%MatrixMarket matrix coordinate integer general
1 2 0
";
    let mut crew = Crew::<PlusTimes>::open(alloc, SemiringName::PlusTimes, 1, 1)?;
    crew.read(alloc, 0, row)?;
    crew.read(alloc, 1, row)?;
    let process = crew.processes.get_mut(0)?;
    Some(matches!(
        process.operate(alloc, Operation::Multiply),
        Err(ProcessFault::Shapes)
    ))
}

#[test]
fn shapes_have_to_agree(rt: HostRuntime) {
    assert!(rt; refuses_shapes(rt.alloc()) == Some(true));
}

/// The line and the words of a text's first fault.
fn fault(alloc: Global, text: &[u8]) -> Option<(u64, &'static str)> {
    let fault = text_fault(alloc, SemiringName::PlusPair, text)?;
    Some((fault.line, fault.words))
}

#[test]
fn a_text_has_an_opening_and_a_first_fault(rt: HostRuntime) {
    let alloc = rt.alloc();
    assert!(rt; opening_length(SemiringName::PlusMin, OPENING) == Some(OPENING.len()));
    assert!(rt; opening_length(SemiringName::PlusMin, ENTRY).is_none());
    assert!(rt; fault(alloc, ENTRY) == Some((1, "not a Matrix Market header")));
    assert!(rt; fault(alloc, OPENING) == Some((3, "fewer entries than announced")));
}
