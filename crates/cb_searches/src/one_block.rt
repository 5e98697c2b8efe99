//! The search in the graph of one block.
//!
//! For distances the block is transposed once. A few rounds, each by [`Search::round`], use the transposed block: they
//! read the edges in order, which is fastest while most vertices are a few edges away. Then the remaining vertices
//! [settle](crate::dijkstra) one after another, so long walks take no further rounds.
//!
//! Levels are found by a [breadth-first search](crate::breadth_first).
ghost use Rattle.std.specs.Prelude.{◌≡◌, ℕ, ◌<◌, IfOk, IfSome};
ghost use Rattle.cb_semirings.specs.Tables.{min_plus, or_and};
ghost use Rattle.cb_matrix.specs.Sparse.{Sparse, IsMatrix};
ghost use Rattle.cb_matrix.specs.Operations.{transposed};
ghost use Rattle.cb_searches.specs.Walks.{AreDistances, AreLevels};
ghost use Rattle.cb_searches.specs.Searches.{HasEdges, IsWholeSearch};

use crate::breadth_first::level_numbers;
use crate::searches::{Search, column_shape};
use cb_dcsc::Block;
use cb_matrix::Matrix;
use cb_semirings::{MinPlus, OrAnd};
use std::alloc::{AllocError, Global};

/// The most rounds before vertices settle one after another. Fewer do if all vertices are a few edges away.
const ROUNDS: u32 = 16;

/// The distance of each vertex from a source, in the graph of a square block: the least weight of a walk. A walk's
/// weight is the sum of its entries' values, saturating at 2^64 - 1. The result is a column; unreachable vertices and
/// those at an infinite distance aren't stored.
///
/// The block is transposed once, unless its transpose is given as `turned`. At most 16 rounds are made. A round costs a few instructions for each
/// entry of the vertices whose numbers fell in the round before, and, if at least one vertex in 32 fell, for each
/// vertex. The rest is the algorithm of Dijkstra (1959) with a heap: it costs the entries of the vertices that it
/// reaches, and for each number that falls the logarithm of how many wait.
pub fn distances(
    alloc: Global,
    graph: &Block<MinPlus>,
    turned: Option<&Block<MinPlus>>,
    source: u32,
) -> Result<Matrix<MinPlus>, AllocError>
    requires square { graph.now.shape.rows ≡ graph.now.shape.cols }
    requires source { source < graph.now.shape.rows }
    requires turned { IfSome turned (λ t. t.now ≡ transposed min_plus graph.now) }
    ensures distances { IfOk result (AreDistances graph.now source) }
    ensures matrix { IfOk result (IsMatrix min_plus) }
{
    // For the proof alone: the contract of this call says that the block is a matrix.
    let _shape = graph.shape();
    if let Some(edges) = turned {
        return distances_by(alloc, graph, edges, source);
    }
    let edges = weighted_edges(alloc, graph)?;
    distances_by(alloc, graph, &edges, source)
}

/// The same, given the edges.
fn distances_by(
    alloc: Global,
    graph: &Block<MinPlus>,
    edges: &Block<MinPlus>,
    source: u32,
) -> Result<Matrix<MinPlus>, AllocError>
    requires edges { HasEdges edges.now graph.now }
    requires source { source < graph.now.shape.rows }
    ensures distances { IfOk result (AreDistances graph.now source) }
    ensures matrix { IfOk result (IsMatrix min_plus) }
{
    let column = nearest_by_edges(alloc, edges, source)?;
    prove_eq!(column.shape(), column_shape(graph.shape()));
    Ok(column)
}

/// The level of each vertex from a source, in the graph of a square block: the least number of entries of a walk. The
/// result is a column; unreachable vertices aren't stored. This is the breadth-first search of Buluç and Gilbert, The
/// Combinatorial BLAS (IJHPCA 2011), section 5.
///
/// The search goes [from the bottom up](crate::breadth_first) at first, without a transpose. A round costs a look at each
/// column that has entries, and at the rows of each column without a level, up to the first that a round before reached.
/// After five looks for each entry in rounds that don't grow fast enough to reach all vertices in two more, or at once if there
/// are more than four vertices for each entry, the block is transposed.
///
/// Given the transpose of the block as `turned`, or once it is made, each round goes in the direction in which it has less to
/// read: it costs the edges from the vertices that the round before reached, or what a round up does. A caller who searches a
/// graph more than once makes the transpose once.
pub fn levels(
    alloc: Global,
    graph: &Block<OrAnd>,
    turned: Option<&Block<OrAnd>>,
    source: u32,
) -> Result<Matrix<MinPlus>, AllocError>
    requires square { graph.now.shape.rows ≡ graph.now.shape.cols }
    requires source { source < graph.now.shape.rows }
    requires turned { IfSome turned (λ t. t.now ≡ transposed or_and graph.now) }
    ensures levels { IfOk result (AreLevels graph.now source) }
    ensures matrix { IfOk result (IsMatrix min_plus) }
{
    let known = level_numbers(alloc, graph, turned, source)?;
    known.column(alloc, column_shape(graph.shape()))
}

/// The edges of a graph: the transposed block.
pub(crate) fn weighted_edges(
    alloc: Global,
    graph: &Block<MinPlus>,
) -> Result<Block<MinPlus>, AllocError>
    requires { graph.now.shape.rows ≡ graph.now.shape.cols }
    ensures { IfOk result (λ edges. HasEdges edges graph.now) }
{
    let shape = graph.shape();
    prove_eq!(shape.rows(), shape.cols());
    cb_reshape::transpose(alloc, graph)
}

/// The edges of a graph, of which each weighs 1, as each stored value already does: the transposed block.
pub(crate) fn unit_edges(alloc: Global, graph: &Block<OrAnd>) -> Result<Block<MinPlus>, AllocError>
    requires { graph.now.shape.rows ≡ graph.now.shape.cols }
    ensures { IfOk result (λ edges. HasEdges edges graph.now) }
{
    let shape = graph.shape();
    prove_eq!(shape.rows(), shape.cols());
    let turned = cb_reshape::transpose(alloc, graph)?;
    Ok(turned.recast())
}

/// The distance of each vertex from the source, given the transposed matrix of the graph as one block.
pub(crate) fn nearest_by_edges(
    alloc: Global,
    edges: &Block<MinPlus>,
    source: u32,
) -> Result<Matrix<MinPlus>, AllocError>
    requires graph { (a : Sparse) × HasEdges edges.now a }
    requires source { source < edges.now.shape.cols }
    ensures { IfOk result (λ column. (a : Sparse) → HasEdges edges.now a → AreDistances a source column) }
{
    let search = search_by_edges(alloc, edges, source)?;
    search.column(alloc)
}

/// The finished search from the source, given the transposed matrix of the graph as one block.
pub(crate) fn search_by_edges(
    alloc: Global,
    edges: &Block<MinPlus>,
    source: u32,
) -> Result<Search, AllocError>
    requires graph { (a : Sparse) × HasEdges edges.now a }
    requires source { source < edges.now.shape.cols }
    ensures { IfOk result (λ s. (a : Sparse) → HasEdges edges.now a → (k : ℕ) × IsWholeSearch a source k s) }
{
    let shape = edges.shape();
    let mut search = Search::begin(alloc, shape, edges.len(), source)?;
    for _round in 0..ROUNDS {
        let fell = search.fell();
        if fell.is_empty() {
            break;
        }
        search = search.round(alloc, edges)?;
    }
    search.settle(alloc, edges)
}
