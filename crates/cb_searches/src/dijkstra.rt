//! Vertices settled one after another, the least number first.
//!
//! A vertex whose number fell waits in a heap with that number. The vertex with the least number is popped, and the
//! edges from it are relaxed; each vertex whose number falls is pushed in turn. Weights aren't negative, so no later
//! number is less: the number is a distance, and its vertex is settled. A popped number that isn't its vertex's any
//! more is skipped, so the heap is never searched.
//!
//! This is the algorithm of Dijkstra, A Note on Two Problems in Connexion with Graphs (Numerische Mathematik 1959,
//! problem 2), with a binary heap. The order only keeps the work small. The proof holds in any order, and whatever
//! initial values vertices have: each number is an initial value plus the cost of a walk from its vertex, and a vertex that
//! doesn't wait can lower no other; in the end none waits.
ghost use Rattle.std.specs.Prelude.{◌≡◌, ◌==◌, ℕ, ◌<◌, ◌≤◌, min, cond, map, [], ◌∷◌, All, Contains, IfOk, OnOk};
ghost use Rattle.std.proofs.Common.{rules};
ghost use Rattle.std.specs.Cmp.{partial_order_from_own_ties};
ghost use Rattle.std.specs.Cmp.Rules.{comparing};
ghost use Rattle.std.specs.Ordering.{nat_cmp, on, flip_args, as_partial_cmp};
ghost use Rattle.std.specs.BinaryHeap.{heap_items};

use crate::numbers::Numbers;
use cb_dcsc::Block;
use cb_matrix::Entry;
use cb_semirings::{MinPlus, Semiring};
use std::alloc::{AllocError, Global};
use std::cmp::Ordering;
use std::collections::BinaryHeap;

/// A vertex and the number that it fell to. The order is reversed, so that the heap pops the least number first.
#[derive(Clone, Copy)]
pub(crate) struct Tentative {
    number: u64,
    vertex: u32,
}

impl PartialEq for Tentative {
    ghost eq = { on (λ t. t.number) ◌==◌ };

    ghost laws = { Prim.search (comparing, rules) };

    fn eq(&self, other: &Self) -> bool {
        self.number == other.number
    }
}

impl Eq for Tentative {
    ghost laws = { Prim.search (comparing, rules) };
}

impl PartialOrd for Tentative {
    ghost partial_cmp = { as_partial_cmp (flip_args (on (λ t. t.number) nat_cmp)) };

    ghost laws = { partial_order_from_own_ties (Prim.search (comparing, rules)) (Prim.search (comparing, rules)) };

    fn partial_cmp(&self, other: &Self) -> Option<Ordering> {
        Some(self.cmp(other))
    }
}

impl Ord for Tentative {
    ghost cmp = { flip_args (on (λ t. t.number) nat_cmp) };

    ghost total = { Prim.search (comparing, rules) };

    ghost matches_partial_cmp = { Prim.search (comparing, rules) };

    ghost matches_eq = { Prim.search (comparing, rules) };

    fn cmp(&self, other: &Self) -> Ordering {
        other.number.cmp(&self.number)
    }
}

ghost use Rattle.cb_dcsc.specs.Columns.{in_column, rows_of, values_of};
ghost use Rattle.cb_searches.specs.Numbers.{number_at, AreNumbers};
ghost use Rattle.cb_searches.specs.Settling.{KeepSettling, IsNoMoreWork, tentative};

impl Tentative {
    /// The row of an entry as a vertex, and its value as the number that the vertex fell to.
    pub(crate) fn of(entry: Entry) -> Self
        ensures { result ≡ tentative entry }
    {
        Tentative {
            number: entry.value,
            vertex: entry.row,
        }
    }
}

/// Settles every vertex, given the vertices that may still lower others: the numbers become distances. The edges are
/// the entries of the transposed matrix.
///
/// Costs a few instructions for each edge of the vertices that settle, and a push and a pop for each number that falls,
/// logarithmic in how many wait. The heap has at most an entry for each vertex that waits at first and for each edge.
pub(crate) fn settle(
    alloc: Global,
    known: &mut Numbers,
    edges: &Block<MinPlus>,
    fell: &[Entry],
) -> Result<(), AllocError>
    requires numbers { AreNumbers edges.now.shape.rows known.old }
    ensures numbers { OnOk result (AreNumbers edges.now.shape.rows known.new) }
    ensures settled { OnOk result (KeepSettling edges.now known.old (map tentative fell.now) known.new []) }
{
    let mut waiting = waiting_of(alloc, fell)?;
    settle_waiting(known, &mut waiting, edges)
}

/// A heap of the numbers that fell.
fn waiting_of(alloc: Global, fell: &[Entry]) -> Result<BinaryHeap<Tentative>, AllocError>
    ensures { IfOk result (λ waiting. All (λ e. Contains (heap_items waiting) (tentative e)) fell.now) }
{
    let mut waiting = BinaryHeap::with_capacity(alloc, fell.len())?;
    for entry in fell {
        waiting.push(Tentative::of(*entry))?;
    }
    Ok(waiting)
}

/// Settles vertices until none waits.
pub(crate) fn settle_waiting(
    known: &mut Numbers,
    waiting: &mut BinaryHeap<Tentative>,
    edges: &Block<MinPlus>,
) -> Result<(), AllocError>
    requires numbers { AreNumbers edges.now.shape.rows known.old }
    ensures numbers { OnOk result (AreNumbers edges.now.shape.rows known.new) }
    ensures settled { OnOk result (KeepSettling edges.now known.old (heap_items waiting.old) known.new []) }
{
    while let Some(least) = waiting.pop() {
        if least.number == known.number_of(least.vertex) {
            relax_edges(known, waiting, edges, least)?;
        }
    }
    Ok(())
}

/// Relaxes the edges from a vertex that has this number.
fn relax_edges(
    known: &mut Numbers,
    waiting: &mut BinaryHeap<Tentative>,
    edges: &Block<MinPlus>,
    from: Tentative,
) -> Result<(), AllocError>
    requires numbers { AreNumbers edges.now.shape.rows known.old }
    requires current { number_at known.old from.vertex ≡ from.number }
    ensures numbers { OnOk result (AreNumbers edges.now.shape.rows known.new) }
    ensures work { OnOk result (IsNoMoreWork edges.now.shape.rows known.old (heap_items waiting.old) known.new (heap_items waiting.new)) }
    ensures settling { OnOk result (KeepSettling edges.now known.old (from ∷ heap_items waiting.old) known.new (heap_items waiting.new)) }
{
    // For the proof alone: the contract of this call says that the rows of a column ascend and are inside the block.
    let _shape = edges.shape();
    let (rows, values) = edges_of(edges, from.vertex);
    for n in 0..rows.len() {
        let to = Tentative {
            number: from.number.saturating_add(values[n]),
            vertex: rows[n],
        };
        lower(known, waiting, to)?;
    }
    Ok(())
}

/// The edges from a vertex: a column of the block. If all columns before it have entries too, its number is its place
/// among them; otherwise a binary search finds it.
#[inline(always)]
pub(crate) fn edges_of<S: Semiring>(edges: &Block<S>, vertex: u32) -> (&[u32], &[u64])
    ensures rows { result.0.now ≡ rows_of (in_column vertex edges.now.entries) }
    ensures values { result.1.now ≡ values_of (in_column vertex edges.now.entries) }
{
    let n = vertex as usize;
    if n < edges.columns() && edges.column_number(n) == vertex {
        return edges.nth_column(n);
    }
    edges.column(vertex)
}

/// Lowers the number of a vertex, which then waits with it, if the new number is less.
#[inline(always)]
fn lower(
    known: &mut Numbers,
    waiting: &mut BinaryHeap<Tentative>,
    to: Tentative,
) -> Result<(), AllocError>
    requires vertex { (n : ℕ) × AreNumbers n known.old × (to.vertex < n) }
    ensures least { OnOk result ((v : ℕ) → number_at known.new v ≡ cond (v == to.vertex) (min (number_at known.old v) to.number) (number_at known.old v)) }
    ensures stays { OnOk result ((t : Tentative) → Contains (heap_items waiting.old) t → Contains (heap_items waiting.new) t) }
    ensures waits { OnOk result (to.number < number_at known.old to.vertex → Contains (heap_items waiting.new) to) }
    ensures numbers { OnOk result ((n : ℕ) → AreNumbers n known.old → to.vertex < n → AreNumbers n known.new) }
    ensures work { OnOk result ((n : ℕ) → to.vertex < n → IsNoMoreWork n known.old (heap_items waiting.old) known.new (heap_items waiting.new)) }
{
    if to.number < known.number_of(to.vertex) {
        known.set(to.vertex, to.number)?;
        waiting.push(to)?;
    }
    Ok(())
}
