//! Searches from initial values that some vertices have.
//!
//! All vertices with an initial value wait at the start, and then vertices [settle](crate::dijkstra) one after another.
//! A search from one source is the case in which the source alone has an initial value: 0.
ghost use Rattle.std.specs.Prelude.{◌≡◌, ℕ, All, Contains, IfOk};
ghost use Rattle.std.specs.BinaryHeap.{heap_items};
ghost use Rattle.cb_semirings.specs.Tables.{min_plus};
ghost use Rattle.cb_matrix.specs.Sparse.{Sparse, IsMatrix};
ghost use Rattle.cb_searches.specs.Walks.{column_shape};
ghost use Rattle.cb_searches.specs.Numbers.{number_at, number_in, AreNumbers};
ghost use Rattle.cb_searches.specs.Searches.{HasEdges};
ghost use Rattle.cb_searches.specs.Settling.{tentative};
ghost use Rattle.cb_searches.specs.GivenNumbers.{AreDistancesGiven, AreLevelsGiven};

use crate::dijkstra::{Tentative, settle_waiting};
use crate::numbers::Numbers;
use crate::one_block::{unit_edges, weighted_edges};
use cb_dcsc::Block;
use cb_matrix::Matrix;
use cb_semirings::{MinPlus, OrAnd};
use std::alloc::{AllocError, Global};
use std::collections::BinaryHeap;

/// The distance of each vertex from initial values, in the graph of a square block: the least sum of an initial value and
/// the weight of a walk from its vertex, over all vertices that have an initial value. Initial values and distances are
/// columns; sums saturate at 2^64 - 1, and a vertex whose distance is that isn't stored. A vertex's distance is at most its
/// own initial value.
///
/// Costs a transpose, and then the algorithm of Dijkstra (1959) with a heap, in which all initial values are at the
/// start: the entries of the vertices that it reaches, and for each number that is given or falls the logarithm of how
/// many wait.
pub fn distances_given(
    alloc: Global,
    graph: &Block<MinPlus>,
    given: &Block<MinPlus>,
) -> Result<Matrix<MinPlus>, AllocError>
    requires square { graph.now.shape.rows ≡ graph.now.shape.cols }
    requires column { given.now.shape ≡ column_shape graph.now }
    ensures distances { IfOk result (AreDistancesGiven graph.now given.now) }
    ensures matrix { IfOk result (IsMatrix min_plus) }
{
    let edges = weighted_edges(alloc, graph)?;
    let column = given_by_edges(alloc, &edges, given)?;
    prove_eq!(column.shape(), given.shape());
    Ok(column)
}

/// The level of each vertex from initial values, in the graph of a square block: the least sum of an initial value and the
/// number of entries of a walk from its vertex, over all vertices that have an initial value. The result is that of
/// [`distances_given`] if each entry weighs 1, and so is the cost.
pub fn levels_given(
    alloc: Global,
    graph: &Block<OrAnd>,
    given: &Block<MinPlus>,
) -> Result<Matrix<MinPlus>, AllocError>
    requires square { graph.now.shape.rows ≡ graph.now.shape.cols }
    requires column { given.now.shape ≡ column_shape graph.now }
    ensures levels { IfOk result (AreLevelsGiven graph.now given.now) }
    ensures matrix { IfOk result (IsMatrix min_plus) }
{
    let shape = graph.shape();
    prove_eq!(shape.rows(), shape.cols());
    let edges = unit_edges(alloc, graph)?;
    let column = given_by_edges(alloc, &edges, given)?;
    prove_eq!(column.shape(), given.shape());
    Ok(column)
}

/// The distances from initial values, given the transposed matrix of the graph.
fn given_by_edges(
    alloc: Global,
    edges: &Block<MinPlus>,
    given: &Block<MinPlus>,
) -> Result<Matrix<MinPlus>, AllocError>
    requires graph { (a : Sparse) × HasEdges edges.now a × (given.now.shape ≡ column_shape a) }
    ensures shape { IfOk result (λ column. column.shape ≡ given.now.shape) }
    ensures distances { IfOk result (λ column. (a : Sparse) → HasEdges edges.now a → given.now.shape ≡ column_shape a → AreDistancesGiven a given.now column) }
{
    let mut known = first_numbers(alloc, edges.len(), given)?;
    let mut waiting = all_waiting(alloc, given)?;
    settle_waiting(&mut known, &mut waiting, edges)?;
    known.column(alloc, given.shape())
}

/// The initial values, in a graph with this many entries.
fn first_numbers(
    alloc: Global,
    entries: usize,
    given: &Block<MinPlus>,
) -> Result<Numbers, AllocError>
    requires column { given.now.shape.cols ≡ 1 }
    ensures values { IfOk result (λ known. (v : ℕ) → number_at known v ≡ number_in given.now v) }
    ensures numbers { IfOk result (AreNumbers given.now.shape.rows) }
{
    let shape = given.shape();
    let mut known = Numbers::unknown(alloc, shape.rows(), entries.max(given.len()))?;
    for n in 0..given.len() {
        let entry = given.entry_at(n);
        known.set(entry.row, entry.value)?;
    }
    Ok(known)
}

/// A heap of the vertices that have an initial value, each with it.
fn all_waiting(alloc: Global, given: &Block<MinPlus>) -> Result<BinaryHeap<Tentative>, AllocError>
    ensures { IfOk result (λ waiting. All (λ e. Contains (heap_items waiting) (tentative e)) given.now.entries) }
{
    let mut waiting = BinaryHeap::with_capacity(alloc, given.len())?;
    for n in 0..given.len() {
        waiting.push(Tentative::of(given.entry_at(n)))?;
    }
    Ok(waiting)
}
