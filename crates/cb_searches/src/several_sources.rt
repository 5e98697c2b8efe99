//! Searches from several sources of one graph, with their results side by side.
//!
//! The block is transposed once, for all of them, unless the caller has its transpose.
ghost use Rattle.std.specs.Prelude.{◌≡◌, ℕ, ◌<◌, ◌≤◌, ◌++◌, length, map, slice_index, All, IfOk, IfSome, OnOk};
ghost use Rattle.cb_semirings.specs.Tables.{min_plus, or_and};
ghost use Rattle.cb_matrix.specs.Sparse.{Sparse, IsMatrix};
ghost use Rattle.cb_matrix.specs.Operations.{transposed};
ghost use Rattle.cb_searches.specs.Searches.{HasEdges};
ghost use Rattle.cb_searches.specs.SeveralSources.{AreDistancesFrom, AreLevelsFrom, in_column_of};

use crate::one_block::{levels, nearest_by_edges, weighted_edges};
use cb_dcsc::Block;
use cb_matrix::{Entry, LIMIT, Matrix, Shape};
use cb_semirings::{MinPlus, OrAnd};
use std::alloc::{AllocError, Global};

/// The distance of each vertex from each of some sources, in the graph of a square block: column j has the distances from
/// the jth source. Sources may come in any order, and more than once.
///
/// Costs one transpose, unless it is given as `turned`, and for each source a search as in [`distances`](crate::distances).
pub fn distances_from(
    alloc: Global,
    graph: &Block<MinPlus>,
    turned: Option<&Block<MinPlus>>,
    sources: &[u32],
) -> Result<Matrix<MinPlus>, AllocError>
    requires square { graph.now.shape.rows ≡ graph.now.shape.cols }
    requires turned { IfSome turned (λ t. t.now ≡ transposed min_plus graph.now) }
    requires sources { All (λ v. v < graph.now.shape.rows) sources.now }
    requires limit { length sources.now ≤ LIMIT }
    ensures distances { IfOk result (AreDistancesFrom graph.now sources.now) }
    ensures matrix { IfOk result (IsMatrix min_plus) }
{
    // For the proof alone: the contract of this call says that the block is a matrix.
    let _shape = graph.shape();
    if let Some(edges) = turned {
        return distance_columns(alloc, graph, edges, sources);
    }
    let edges = weighted_edges(alloc, graph)?;
    distance_columns(alloc, graph, &edges, sources)
}

/// The same, given the edges.
fn distance_columns(
    alloc: Global,
    graph: &Block<MinPlus>,
    edges: &Block<MinPlus>,
    sources: &[u32],
) -> Result<Matrix<MinPlus>, AllocError>
    requires edges { HasEdges edges.now graph.now }
    requires sources { All (λ v. v < graph.now.shape.rows) sources.now }
    requires limit { length sources.now ≤ LIMIT }
    ensures distances { IfOk result (AreDistancesFrom graph.now sources.now) }
    ensures matrix { IfOk result (IsMatrix min_plus) }
{
    let columns = columns_from(alloc, edges, sources)?;
    prove_eq!(columns.shape().rows(), graph.shape().rows());
    Ok(columns)
}

/// The level of each vertex from each of some sources, in the graph of a square block: column j has the levels from the
/// jth source.
///
/// Costs one transpose, unless it is given as `turned`, and for each source a search with it as in [`levels`](crate::levels).
pub fn levels_from(
    alloc: Global,
    graph: &Block<OrAnd>,
    turned: Option<&Block<OrAnd>>,
    sources: &[u32],
) -> Result<Matrix<MinPlus>, AllocError>
    requires square { graph.now.shape.rows ≡ graph.now.shape.cols }
    requires turned { IfSome turned (λ t. t.now ≡ transposed or_and graph.now) }
    requires sources { All (λ v. v < graph.now.shape.rows) sources.now }
    requires limit { length sources.now ≤ LIMIT }
    ensures levels { IfOk result (AreLevelsFrom graph.now sources.now) }
    ensures matrix { IfOk result (IsMatrix min_plus) }
{
    let shape = graph.shape();
    prove_eq!(shape.rows(), shape.cols());
    if let Some(turned) = turned {
        return level_columns(alloc, graph, turned, sources);
    }
    let turned = cb_reshape::transpose(alloc, graph)?;
    level_columns(alloc, graph, &turned, sources)
}

/// The levels from each source, side by side, in the graph of a square block, given its transpose too.
fn level_columns(
    alloc: Global,
    graph: &Block<OrAnd>,
    turned: &Block<OrAnd>,
    sources: &[u32],
) -> Result<Matrix<MinPlus>, AllocError>
    requires square { graph.now.shape.rows ≡ graph.now.shape.cols }
    requires turned { turned.now ≡ transposed or_and graph.now }
    requires sources { All (λ v. v < graph.now.shape.rows) sources.now }
    requires limit { length sources.now ≤ LIMIT }
    ensures { IfOk result (AreLevelsFrom graph.now sources.now) }
{
    let shape = shape_of(graph.shape().rows(), sources.len() as u32);
    let mut entries = Vec::new(alloc);
    for n in 0..sources.len() {
        let column = levels(alloc, graph, Some(turned), sources[n])?;
        append(&mut entries, column.entries(), n as u32)?;
    }
    Ok(Matrix::from_ordered(shape, entries))
}

/// The distances from each source, side by side, given the transposed matrix of the graph.
fn columns_from(
    alloc: Global,
    edges: &Block<MinPlus>,
    sources: &[u32],
) -> Result<Matrix<MinPlus>, AllocError>
    requires graph { (a : Sparse) × HasEdges edges.now a }
    requires sources { All (λ v. v < edges.now.shape.cols) sources.now }
    requires limit { length sources.now ≤ LIMIT }
    ensures { IfOk result (λ m. (a : Sparse) → HasEdges edges.now a → AreDistancesFrom a sources.now m) }
{
    let shape = shape_of(edges.shape().cols(), sources.len() as u32);
    let mut entries = Vec::new(alloc);
    for n in 0..sources.len() {
        let column = nearest_by_edges(alloc, edges, sources[n])?;
        append(&mut entries, column.entries(), n as u32)?;
    }
    Ok(Matrix::from_ordered(shape, entries))
}

/// Appends the entries of a column, with this column's number.
fn append(entries: &mut Vec<Entry>, column: &[Entry], number: u32) -> Result<(), AllocError>
    ensures { OnOk result (entries.new.items ≡ entries.old.items ++ map (in_column_of number) column.now) }
{
    for entry in column {
        entries.push(Entry {
            row: entry.row,
            column: number,
            value: entry.value,
        })?;
    }
    Ok(())
}

/// The shape with this many rows and columns.
fn shape_of(rows: u32, cols: u32) -> Shape
    requires rows { rows ≤ LIMIT }
    requires cols { cols ≤ LIMIT }
    ensures { result ≡ record { rows = rows; cols = cols } }
{
    Shape::new(rows, cols).unwrap()
}
