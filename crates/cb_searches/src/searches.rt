//! A search for the least weights of walks from one vertex of a graph, round by round.
//!
//! The numbers approach the least ones. A round multiplies the transposed matrix by the numbers that fell in the round
//! before, in min-plus, and takes over the lower ones. The search ends when no number falls, at the latest after as
//! many rounds as there are vertices.
//!
//! If the transposed matrix is one block, the numbers are in a list and many of them fell, a round makes no product: it
//! [relaxes the edges](crate::relaxations) in the list itself.
ghost use Rattle.std.specs.Prelude.{◌≡◌, ◌≢◌, ℕ, ◌<◌, filter, All, AllPairs, IfOk, OnOk};
ghost use Rattle.cb_semirings.specs.Tables.{min_plus};
ghost use Rattle.cb_matrix.specs.Sparse.{Sparse, IsMatrix, value_at};
ghost use Rattle.cb_matrix.specs.Values.{product, product_shape};
ghost use Rattle.cb_matrix.specs.Operations.{transposed};
ghost use Rattle.cb_searches.specs.Walks.{infinite, AreDistances};
ghost use Rattle.cb_searches.specs.Numbers.{number_at, number_in, reached_by, AreLeast, HaveFallen, HaveStayed, AreNumbers, is_lower};
ghost use Rattle.cb_searches.specs.Searches.{HasEnded, IsSearch, IsWholeSearch, IsNextRound, HasMadeRounds};

use crate::dijkstra::settle;
use crate::numbers::Numbers;
use crate::relaxations::relax_list;
use cb_dcsc::Block;
use cb_matrix::{Entry, Matrix, Shape};
use cb_semirings::{MinPlus, Semiring};
use std::alloc::{AllocError, Global};

/// The most vertices for each that fell with which a round goes over the list of all numbers.
const VERTICES_PER_FALLEN: usize = 32;

/// A search: the numbers of the vertices so far, and those that fell in the last round.
#[derive(Drop)]
pub struct Search {
    known: Numbers,
    /// The numbers that fell in the last round, as a column.
    fell: Matrix<MinPlus>,
}

impl Search {
    /// A search in the graph of a square matrix of this shape, with this many entries. At first the source has the
    /// number 0. Takes memory for a number for each vertex, or less if there are many more vertices than entries.
    pub fn begin(
        alloc: Global,
        shape: Shape,
        entries: usize,
        source: u32,
    ) -> Result<Self, AllocError>
        requires { source < shape.rows }
        ensures { IfOk result (λ search. (a : Sparse) → IsMatrix min_plus a → a.shape ≡ shape → a.shape.rows ≡ a.shape.cols → IsSearch a source 0 search) }
    {
        let shape = column_shape(shape);
        let known = Numbers::begin(alloc, shape.rows(), entries, source)?;
        let fell = known.column(alloc, shape)?;
        Ok(Search { known, fell })
    }

    /// The numbers that fell in the last round.
    pub fn fell(&self) -> &Matrix<MinPlus>
        ensures { result.now ≡ self.now.fell }
    {
        &self.fell
    }

    /// One more round, given what it reaches: lower numbers are taken over.
    pub fn advance(self, alloc: Global, reached: &Matrix<MinPlus>) -> Result<Self, AllocError>
        requires round { HasMadeRounds (λ a. reached.now ≡ product min_plus (transposed min_plus a) self.fell) self }
        ensures { IfOk result (IsNextRound (λ a. reached.now ≡ product min_plus (transposed min_plus a) self.fell) self) }
    {
        let shape = self.fell.shape();
        prove_eq!(shape.cols(), 1);
        let mut known = self.known;
        let fell = take_lower(alloc, &mut known, reached)?;
        Ok(Search { known, fell })
    }

    /// One more round, given the transposed matrix as one block. If the numbers are in a list and at least one vertex
    /// in 32 fell, the edges are relaxed in the list, at a few instructions for each vertex. Otherwise the round makes
    /// a product.
    pub fn round(self, alloc: Global, edges: &Block<MinPlus>) -> Result<Self, AllocError>
        requires round { HasMadeRounds (λ a. edges.now ≡ transposed min_plus a) self }
        ensures { IfOk result (IsNextRound (λ a. edges.now ≡ transposed min_plus a) self) }
    {
        let shape = self.fell.shape();
        prove_eq!(shape.cols(), 1);
        let mut known = self.known;
        let fell = relax(alloc, &mut known, edges, &self.fell)?;
        Ok(Search { known, fell })
    }

    /// Replaces all remaining rounds, given the transposed matrix as one block: vertices [settle](crate::dijkstra) one
    /// after another, until no number can fall.
    pub(crate) fn settle(self, alloc: Global, edges: &Block<MinPlus>) -> Result<Self, AllocError>
        requires round { HasMadeRounds (λ a. edges.now ≡ transposed min_plus a) self }
        ensures { IfOk result (λ s. (a : Sparse) (source k : ℕ) → IsSearch a source k self → edges.now ≡ transposed min_plus a → IsWholeSearch a source k s) }
    {
        let shape = self.fell.shape();
        let mut known = self.known;
        settle(alloc, &mut known, edges, self.fell.entries())?;
        Ok(Search {
            known,
            fell: Matrix::empty(alloc, shape),
        })
    }

    /// The numbers as a column.
    pub fn column(&self, alloc: Global) -> Result<Matrix<MinPlus>, AllocError>
        requires search { (a : Sparse) × (source : ℕ) × (k : ℕ) × IsSearch a source k self.now }
        ensures { IfOk result (λ column. (a : Sparse) (source k : ℕ) → IsSearch a source k self.now → HasEnded a k self.now → AreDistances a source column) }
    {
        self.known.column(alloc, self.fell.shape())
    }
}

/// The shape of a column with as many rows as this shape.
pub fn column_shape(shape: Shape) -> Shape
    ensures { result ≡ record { rows = shape.rows; cols = 1 } }
{
    Shape::new(shape.rows(), 1).unwrap()
}

/// Whether an entry is below the number of its row.
fn is_lower(known: &Numbers, entry: &Entry) -> bool
    ensures { result ≡ is_lower known.now entry.now }
{
    entry.value < known.number_of(entry.row)
}

/// The entries below the numbers of their rows.
fn lower_entries(
    alloc: Global,
    known: &Numbers,
    entries: &[Entry],
) -> Result<Vec<Entry>, AllocError>
    ensures { IfOk result (λ v. v.items ≡ filter (is_lower known.now) entries.now) }
{
    let mut lower = Vec::new(alloc);
    for entry in entries {
        if is_lower(known, entry) {
            lower.push(*entry)?;
        }
    }
    Ok(lower)
}

/// Takes over the values of the entries.
fn take_over(known: &mut Numbers, entries: &[Entry]) -> Result<(), AllocError>
    requires numbers { (n : ℕ) × AreNumbers n known.old × All (λ e. (e.row < n) × (e.value < infinite)) entries.now }
    requires rows { AllPairs (λ d e. d.row ≢ e.row) entries.now }
    requires column { All (λ e. e.column ≡ 0) entries.now }
    ensures values { OnOk result ((v : ℕ) → number_at known.new v ≡ value_at (number_at known.old v) entries.now v 0) }
    ensures finite { OnOk result ((n : ℕ) → AreNumbers n known.old → All (λ e. (e.row < n) × (e.value < infinite)) entries.now → AreNumbers n known.new) }
{
    for entry in entries {
        known.set(entry.row, entry.value)?;
    }
    Ok(())
}

/// Takes over the values below the numbers so far, and returns their entries.
fn take_lower(
    alloc: Global,
    known: &mut Numbers,
    reached: &Matrix<MinPlus>,
) -> Result<Matrix<MinPlus>, AllocError>
    requires column { reached.now.shape.cols ≡ 1 }
    requires finite { AreNumbers reached.now.shape.rows known.old }
    ensures finite { OnOk result (AreNumbers reached.now.shape.rows known.new) }
    ensures least { OnOk result (AreLeast (number_at known.old) (number_in reached.now) (number_at known.new)) }
    ensures shape { IfOk result (λ fell. fell.shape ≡ reached.now.shape) }
    ensures new { IfOk result (HaveFallen (number_at known.old) (number_in reached.now)) }
    ensures old { IfOk result (HaveStayed (number_at known.old) (number_in reached.now)) }
{
    let shape = reached.shape();
    let lower = lower_entries(alloc, known, reached.entries())?;
    take_over(known, &lower)?;
    Ok(Matrix::from_ordered(shape, lower))
}

/// Takes over the lower numbers that one round reaches from those that fell, and returns them.
fn relax(
    alloc: Global,
    known: &mut Numbers,
    edges: &Block<MinPlus>,
    fell: &Matrix<MinPlus>,
) -> Result<Matrix<MinPlus>, AllocError>
    requires agree { edges.now.shape.cols ≡ fell.now.shape.rows }
    requires column { fell.now.shape.cols ≡ 1 }
    requires finite { AreNumbers edges.now.shape.rows known.old }
    ensures finite { OnOk result (AreNumbers edges.now.shape.rows known.new) }
    ensures least { OnOk result (AreLeast (number_at known.old) (reached_by edges.now fell.now) (number_at known.new)) }
    ensures shape { IfOk result (λ m. m.shape ≡ product_shape edges.now fell.now) }
    ensures new { IfOk result (HaveFallen (number_at known.old) (reached_by edges.now fell.now)) }
    ensures old { IfOk result (HaveStayed (number_at known.old) (reached_by edges.now fell.now)) }
{
    if let Numbers::Dense(list) = known {
        if list.len() / VERTICES_PER_FALLEN <= fell.len() {
            return relax_list(alloc, list, edges, fell);
        }
    }
    let reached = vector_product(alloc, edges, fell)?;
    take_lower(alloc, known, &reached)
}

/// The product of a block and a vector, which is a column with as many rows as the block has columns.
pub fn vector_product<S: Semiring>(
    alloc: Global,
    block: &Block<S>,
    vector: &Matrix<S>,
) -> Result<Matrix<S>, AllocError>
    requires { block.now.shape.cols ≡ vector.now.shape.rows }
    ensures { IfOk result (λ m. m ≡ product S.arithmetic block.now vector.now) }
{
    let column = Block::from_ordered(alloc, vector.shape(), vector.entries())?;
    let product = cb_product::multiply(alloc, block, &column)?;
    as_matrix(&product)
}

/// A block as a matrix. Copies its entries.
fn as_matrix<S: Semiring>(block: &Block<S>) -> Result<Matrix<S>, AllocError>
    ensures { IfOk result (λ m. m ≡ block.now) }
{
    let shape = block.shape();
    let entries = block.entries()?;
    Ok(Matrix::from_ordered(shape, entries))
}
