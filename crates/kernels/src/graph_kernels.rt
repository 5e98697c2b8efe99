//! Searches and counts on a graph of four vertices.
use crate::printing::{show, show_numbers};
use cb_dcsc::Block;
use cb_graphs::{column_degrees, components, row_degrees, triangles, triangles_of};
use cb_matrix::Entry;
use cb_samples::{block, entries};
use cb_searches::{
    distances, distances_from, distances_given, levels, levels_from, levels_given, parents,
};
use cb_semirings::{MinPlus, OrAnd};

/// Edges from 0 to 1, to 2 and to 3, and from 1 to 2.
const EDGES: &[Entry] = entries![(0, 1, 1), (0, 2, 1), (1, 2, 1), (0, 3, 1),];

/// Their lengths.
const LENGTHS: &[Entry] = entries![(0, 1, 1), (0, 2, 5), (1, 2, 2), (0, 3, 9),];

/// Vertex 1 has the number 4.
const GIVEN: &[Entry] = entries![(1, 0, 4)];

/// Walks from one vertex, and from initial values.
pub fn searches(rt: &HostRuntime) -> anyhow::Result<()> {
    let alloc = rt.alloc();
    let edges: Block<OrAnd> = block(alloc, 4, 4, EDGES)?;
    let lengths: Block<MinPlus> = block(alloc, 4, 4, LENGTHS)?;
    let given: Block<MinPlus> = block(alloc, 4, 1, GIVEN)?;
    show_numbers(rt, "levels, from 0", &levels(alloc, &edges, None, 0)?)?;
    show_numbers(
        rt,
        "distances, from 0",
        &distances(alloc, &lengths, None, 0)?,
    )?;
    show_numbers(rt, "parents, from 0", &parents(alloc, &edges, None, 0)?)?;
    show_numbers(
        rt,
        "levels_given, 4 at 1",
        &levels_given(alloc, &edges, &given)?,
    )?;
    show_numbers(
        rt,
        "distances_given, 4 at 1",
        &distances_given(alloc, &lengths, &given)?,
    )?;
    Ok(())
}

/// Walks from two vertices.
pub fn searches_from_several(rt: &HostRuntime) -> anyhow::Result<()> {
    let alloc = rt.alloc();
    let edges: Block<OrAnd> = block(alloc, 4, 4, EDGES)?;
    let lengths: Block<MinPlus> = block(alloc, 4, 4, LENGTHS)?;
    show_numbers(
        rt,
        "levels_from, 0 and 1",
        &levels_from(alloc, &edges, None, &[0, 1])?,
    )?;
    show_numbers(
        rt,
        "distances_from, 0 and 1",
        &distances_from(alloc, &lengths, None, &[0, 1])?,
    )?;
    Ok(())
}

/// Components, triangles and degrees.
pub fn counts(rt: &HostRuntime) -> anyhow::Result<()> {
    let alloc = rt.alloc();
    let edges: Block<OrAnd> = block(alloc, 4, 4, EDGES)?;
    show_numbers(rt, "components", &components(alloc, &edges)?)?;
    println!(rt; "triangles: {}", triangles(alloc, &edges)?)?;
    show_numbers(rt, "triangles_of", &triangles_of(alloc, &edges)?)?;
    show(rt, "row_degrees", &row_degrees(alloc, &edges)?)?;
    show(rt, "column_degrees", &column_degrees(alloc, &edges)?)?;
    Ok(())
}
