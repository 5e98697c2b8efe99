//! Parents in a breadth-first search.
//!
//! A parent of a vertex is one level nearer to the source and has an edge to it. An edge leads at most one level
//! farther, so once the levels are known, every nearer vertex with an edge to a vertex is a parent. Each column of the
//! block lists the sources of the edges to its vertex, ascending: the first one that is nearer is the least parent.
ghost use Rattle.std.specs.Prelude.{◌≡◌, ℕ, ◌<◌, IfOk, IfSome};
ghost use Rattle.cb_semirings.specs.Tables.{min_plus, or_and};
ghost use Rattle.cb_matrix.specs.Sparse.{IsMatrix, at};
ghost use Rattle.cb_matrix.specs.Operations.{transposed};
ghost use Rattle.cb_searches.specs.Walks.{column_shape};
ghost use Rattle.cb_searches.specs.Numbers.{number_at};
ghost use Rattle.cb_searches.specs.Parents.{AreParents, first_below, first_nearer};

use crate::breadth_first::level_numbers;
use crate::numbers::Numbers;
use crate::searches::column_shape;
use cb_dcsc::Block;
use cb_matrix::{Entry, Matrix};
use cb_semirings::{MinPlus, OrAnd};
use std::alloc::{AllocError, Global};

/// The least parent of each vertex in a breadth-first search from a source, in the graph of a square block: the least
/// vertex that is one level nearer and has an edge to it. The result is a column of parents, counted from 0; the source
/// and unreachable vertices aren't stored.
///
/// The levels cost what [`levels`](crate::levels) does, given the transpose as `turned` or not. Then each column that has entries is read up to the first row that
/// is nearer, with one look-up a row.
pub fn parents(
    alloc: Global,
    graph: &Block<OrAnd>,
    turned: Option<&Block<OrAnd>>,
    source: u32,
) -> Result<Matrix<MinPlus>, AllocError>
    requires square { graph.now.shape.rows ≡ graph.now.shape.cols }
    requires source { source < graph.now.shape.rows }
    requires turned { IfSome turned (λ t. t.now ≡ transposed or_and graph.now) }
    ensures parents { IfOk result (AreParents graph.now source) }
    ensures matrix { IfOk result (IsMatrix min_plus) }
{
    let shape = graph.shape();
    prove_eq!(shape.rows(), shape.cols());
    let known = level_numbers(alloc, graph, turned, source)?;
    let column = parent_column(alloc, graph, &known)?;
    prove_eq!(column.shape(), column_shape(shape));
    Ok(column)
}

/// For each vertex the first nearer one with an edge to it, as a column.
fn parent_column(
    alloc: Global,
    graph: &Block<OrAnd>,
    known: &Numbers,
) -> Result<Matrix<MinPlus>, AllocError>
    requires { graph.now.shape.rows ≡ graph.now.shape.cols }
    ensures shape { IfOk result (λ m. m.shape ≡ column_shape graph.now) }
    ensures values { IfOk result (λ m. (v : ℕ) → at min_plus m v 0 ≡ first_nearer graph.now (number_at known.now) v) }
{
    let shape = graph.shape();
    prove_eq!(shape.rows(), shape.cols());
    let columns = graph.column_numbers();
    let mut entries = Vec::new(alloc);
    for n in 0..columns.len() {
        let vertex = columns[n];
        let (rows, _ones) = graph.nth_column(n);
        let value = first_below(known, rows, known.number_of(vertex));
        if value != u64::MAX {
            entries.push(Entry {
                row: vertex,
                column: 0,
                value,
            })?;
        }
    }
    Ok(Matrix::from_ordered(column_shape(shape), entries))
}

/// The first vertex whose number is below this one, or else infinity.
fn first_below(known: &Numbers, vertices: &[u32], number: u64) -> u64
    ensures { result ≡ first_below (number_at known.now) number vertices.now }
{
    for vertex in vertices {
        if known.number_of(*vertex) < number {
            return u64::from(*vertex);
        }
    }
    u64::MAX
}
