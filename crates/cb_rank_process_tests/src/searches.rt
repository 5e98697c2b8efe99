//! Levels and distances, over grids of several sides.
use crate::crews::Crew;
use cb_rank_process::ProcessFault;
use cb_semirings::{MinPlus, OrAnd, SemiringName};
use std::alloc::Global;

// The graph of examples/roads.mtx: vertex 5 leads to others, and no edge leads to it.
const ROADS: &[u8] = b"%%MatrixMarket matrix coordinate integer general
5 5 6
1 2 7
1 3 2
3 2 4
2 4 1
3 4 9
5 1 3
";

// A loop at the source, an edge of value 0, and a path that goes back and forth in the numbering.
const PATH: &[u8] = b"%%MatrixMarket matrix coordinate integer general
7 7 7
4 4 3
4 1 0
1 7 18446744073709551613
7 2 1
2 6 1
4 3 5
3 4 5
";

const ROW: &[u8] = b"%%MatrixMarket matrix coordinate integer general
1 2 1
1 2 4
";

/// The lines of the distances in the graph of a text. None if there are none.
fn distances(alloc: Global, side: u32, text: &[u8], source: u32) -> Option<Vec<u8>> {
    let mut crew = Crew::<MinPlus>::open(alloc, SemiringName::MinPlus, side, 1)?;
    crew.read(alloc, 0, text)?;
    crew.distances(alloc, source)
}

/// The lines of the levels in the graph of a text. None if there are none.
fn levels(alloc: Global, side: u32, text: &[u8], source: u32) -> Option<Vec<u8>> {
    let mut bits = Crew::<OrAnd>::open(alloc, SemiringName::OrAnd, side, 1)?;
    bits.read(alloc, 0, text)?;
    let mut crew = Crew::<MinPlus>::open(alloc, SemiringName::MinPlus, side, 1)?;
    bits.weigh(&mut crew)?;
    crew.distances(alloc, source)
}

/// Whether the distances, or the levels, have these lines on the grids of sides 1 to 3.
fn found(alloc: Global, of_levels: bool, text: &[u8], source: u32, wanted: &[u8]) -> bool {
    for side in 1..4 {
        let lines = if of_levels {
            levels(alloc, side, text, source)
        } else {
            distances(alloc, side, text, source)
        };
        match lines {
            Some(lines) => {
                if lines.as_slice() != wanted {
                    return false;
                }
            }
            None => return false,
        }
    }
    true
}

#[test]
fn distances_on_roads(rt: HostRuntime) {
    let wanted: &[u8] = b"1 0\n2 6\n3 2\n4 7\n";
    assert!(rt; found(rt.alloc(), false, ROADS, 0, wanted));
}

#[test]
fn distances_from_a_vertex_that_no_edge_leads_to(rt: HostRuntime) {
    let wanted: &[u8] = b"1 3\n2 9\n3 5\n4 10\n5 0\n";
    assert!(rt; found(rt.alloc(), false, ROADS, 4, wanted));
}

#[test]
fn levels_on_roads(rt: HostRuntime) {
    let wanted: &[u8] = b"1 0\n2 1\n3 1\n4 2\n";
    assert!(rt; found(rt.alloc(), true, ROADS, 0, wanted));
}

#[test]
fn distances_end_below_infinity(rt: HostRuntime) {
    let wanted: &[u8] = b"1 0\n2 18446744073709551614\n7 18446744073709551613\n";
    assert!(rt; found(rt.alloc(), false, PATH, 0, wanted));
}

#[test]
fn an_edge_of_length_0_is_none_for_levels(rt: HostRuntime) {
    let wanted: &[u8] = b"3 1\n4 0\n";
    assert!(rt; found(rt.alloc(), true, PATH, 3, wanted));
}

/// Whether the calls of a search are refused where they have to be, and then leave the registers as they were.
fn refuses(alloc: Global) -> Option<bool> {
    let mut crew = Crew::<MinPlus>::open(alloc, SemiringName::MinPlus, 1, 1)?;
    crew.read(alloc, 0, ROW)?;
    crew.read(alloc, 1, ROADS)?;
    let process = crew.processes.get_mut(0)?;
    let oblong = process.begin_search(alloc, 0, 0, 2, 3);
    let no_vertex = process.begin_search(alloc, 1, 5, 2, 3);
    let no_graph = process.begin_search(alloc, 2, 0, 2, 3);
    let no_register = process.begin_search(alloc, 1, 0, 2, 4);
    let differ = process.settle(alloc, 0, 1);
    let no_copy = process.copy(alloc, 2, 3);
    let no_place = process.copy(alloc, 1, 4);
    let no_lines = process.vertex_lines(alloc, 3);
    Some(
        matches!(oblong, Err(ProcessFault::Shapes))
            && matches!(no_vertex, Err(ProcessFault::Absent))
            && matches!(no_graph, Err(ProcessFault::Absent))
            && matches!(no_register, Err(ProcessFault::Absent))
            && matches!(differ, Err(ProcessFault::Shapes))
            && matches!(no_copy, Err(ProcessFault::Absent))
            && matches!(no_place, Err(ProcessFault::Absent))
            && matches!(no_lines, Err(ProcessFault::Absent))
            && matches!(process.entry_count(0), Ok(1))
            && matches!(process.entry_count(1), Ok(6))
            && process.entry_count(2).is_err(),
    )
}

#[test]
fn a_search_that_cannot_be_is_refused(rt: HostRuntime) {
    assert!(rt; refuses(rt.alloc()) == Some(true));
}

/// Whether a round ends, if not at the first call, which changes nothing if memory is refused, then at the second.
fn settles(alloc: Global) -> Option<bool> {
    let mut crew = Crew::<MinPlus>::open(alloc, SemiringName::MinPlus, 1, 1)?;
    crew.read(alloc, 0, ROADS)?;
    let process = crew.processes.get_mut(0)?;
    process.begin_search(alloc, 0, 4, 2, 3).ok()?;
    if process.settle(alloc, 2, 3).is_err() {
        let is_kept = matches!(process.entry_count(2), Ok(1))
            && matches!(process.entry_count(3), Ok(1));
        if !is_kept || process.settle(alloc, 2, 3).is_err() {
            return Some(false);
        }
    }
    Some(matches!(process.entry_count(2), Ok(1)) && matches!(process.entry_count(3), Ok(0)))
}

#[test]
fn a_round_that_is_refused_memory_changes_nothing(rt: HostRuntime) {
    assert!(rt; settles(rt.alloc()) != Some(false));
}
