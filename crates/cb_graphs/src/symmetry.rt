//! Whether a block has each entry in both directions already, and a block that does.
//!
//! The columns are visited in ascending order. The counterpart of entry (i, j) is entry (j, i), in column i. As j ascends,
//! the counterparts in column i come in the order of its entries. So each has to be the first entry of its column that
//! hasn't been met, and a count of met entries for each column replaces a search.
ghost use Rattle.std.specs.Prelude.{◌≡◌, ◌≢◌, true, length, All, IfOk};
ghost use Rattle.cb_semirings.specs.Tables.{or_and};
ghost use Rattle.cb_matrix.specs.Sparse.{at};
ghost use Rattle.cb_graphs.specs.Components.{undirected, IsUndirected};
ghost use Rattle.cb_graphs.specs.Neighbours.{vertex_count};

use crate::neighbours::places;
use cb_dcsc::Block;
use cb_searches::Numbers;
use cb_semirings::OrAnd;
use std::alloc::{AllocError, Global};

/// Whether each entry of a square block has one in the other direction.
///
/// The contract only says what `true` means. After `false`, callers add the transpose, which is right for any block. Costs
/// a few instructions for each entry, up to the first without one.
pub(crate) fn is_undirected(alloc: Global, graph: &Block<OrAnd>) -> Result<bool, AllocError>
    requires { graph.now.shape.rows ≡ graph.now.shape.cols }
    ensures { IfOk result (λ b. b ≡ true → IsUndirected graph.now) }
{
    let places = places(alloc, graph)?;
    let mut met = vec![in alloc; 0usize; graph.columns()]?;
    Ok(all_meet(graph, &places, &mut met))
}

/// The sum of a block and its transpose, which has each entry in both directions.
pub(crate) fn both_ways(alloc: Global, graph: &Block<OrAnd>) -> Result<Block<OrAnd>, AllocError>
    requires square { graph.now.shape.rows ≡ graph.now.shape.cols }
    ensures { IfOk result (λ both. both ≡ undirected graph.now) }
{
    let turned = cb_reshape::transpose(alloc, graph)?;
    cb_elementwise::add(alloc, graph, &turned)
}

/// Whether each entry has one in the other direction.
fn all_meet(graph: &Block<OrAnd>, places: &Numbers, met: &mut [usize]) -> bool
    requires { length met.old ≡ vertex_count graph.now }
    ensures { result ≡ true → IsUndirected graph.now }
{
    // For the proof alone: the contract of this call says that the block is a matrix.
    let _shape = graph.shape();
    let columns = graph.column_numbers();
    for n in 0..columns.len() {
        let (rows, _ones) = graph.nth_column(n);
        if !meets_all(graph, places, met, columns[n], rows) {
            return false;
        }
    }
    true
}

/// Whether a row has entries in all of these columns, each the first of its column that hasn't been met.
fn meets_all(
    graph: &Block<OrAnd>,
    places: &Numbers,
    met: &mut [usize],
    row: u32,
    columns: &[u32],
) -> bool
    requires { length met.old ≡ vertex_count graph.now }
    ensures entries { result ≡ true → All (λ v. at or_and graph.now row v ≢ 0) columns.now }
    ensures as_many { length met.new ≡ length met.old }
{
    for column in columns {
        if !meets(graph, places, met, row, *column) {
            return false;
        }
    }
    true
}

/// Whether the first entry of a column that hasn't been met is in this row. Then it is met.
#[inline(always)]
fn meets(graph: &Block<OrAnd>, places: &Numbers, met: &mut [usize], row: u32, column: u32) -> bool
    requires { length met.old ≡ vertex_count graph.now }
    ensures entry { result ≡ true → at or_and graph.now row column ≢ 0 }
    ensures as_many { length met.new ≡ length met.old }
{
    // For the proof alone: the contract of this call says that the block is a matrix.
    let _shape = graph.shape();
    let place = places.number_of(column);
    if place >= graph.columns() as u64 {
        return false;
    }
    let place = place as usize;
    if graph.column_number(place) != column {
        return false;
    }
    let (rows, _ones) = graph.nth_column(place);
    let next = met[place];
    if next >= rows.len() {
        return false;
    }
    if rows[next] != row {
        return false;
    }
    met[place] = next + 1;
    true
}
