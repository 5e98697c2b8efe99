//! The numbers that a search gives to the vertices of a graph.
//!
//! A list with a place for each vertex is fastest, but costs memory and time for each vertex, and a graph may have many
//! more vertices than entries. Such a graph gets a tree of the vertices that have a number.
ghost use Rattle.std.specs.Prelude.{◌≡◌, ◌≢◌, ℕ, ◌<◌, ◌==◌, cond, length, slice_index_or, IfOk, OnErr, OnOk};
ghost use Rattle.cb_semirings.specs.Tables.{min_plus};
ghost use Rattle.cb_matrix.specs.Sparse.{at};
ghost use Rattle.cb_searches.specs.Walks.{infinite};
ghost use Rattle.cb_searches.specs.Numbers.{number_at, AreNumbers};
ghost use Rattle.cb_searches.specs.declared.numbers.Numbers.TheVariants.{Tree};

use cb_matrix::{Entry, Matrix, Shape};
use cb_semirings::MinPlus;
use std::alloc::{AllocError, Global};
use std::collections::BTreeMap;

/// The most vertices for each entry that are numbered in a list.
const VERTICES_PER_ENTRY: usize = 4;

/// The numbers of the vertices of a graph so far. A vertex without a number has infinity.
#[derive(Drop)]
pub enum Numbers {
    /// The number of each vertex.
    Dense(Vec<u64>),
    /// The finite numbers.
    Tree(BTreeMap<u32, u64>),
}

impl Numbers {
    /// The numbers at the start, in a graph with this many vertices and entries: the source has 0.
    pub fn begin(
        alloc: Global,
        vertices: u32,
        entries: usize,
        source: u32,
    ) -> Result<Self, AllocError>
        requires { source < vertices }
        ensures here { IfOk result (λ known. number_at known source ≡ 0) }
        ensures there { IfOk result (λ known. (v : ℕ) → v ≢ source → number_at known v ≡ infinite) }
        ensures numbers { IfOk result (λ known. AreNumbers vertices known) }
    {
        let mut known = Self::unknown(alloc, vertices, entries)?;
        known.set(source, 0)?;
        Ok(known)
    }

    /// No numbers, in a graph with this many vertices and entries. Takes memory for a number for each vertex, or none
    /// yet if there are many more vertices than entries.
    pub fn unknown(alloc: Global, vertices: u32, entries: usize) -> Result<Self, AllocError>
        ensures infinite { IfOk result (λ known. (v : ℕ) → number_at known v ≡ infinite) }
        ensures numbers { IfOk result (λ known. AreNumbers vertices known) }
    {
        let vertices = vertices as usize;
        if vertices / VERTICES_PER_ENTRY <= entries {
            Ok(Numbers::Dense(vec![in alloc; u64::MAX; vertices]?))
        } else {
            Ok(Numbers::Tree(BTreeMap::new(alloc)))
        }
    }

    /// The number of a vertex, or `u64::MAX` if it has none.
    pub fn number_of(&self, vertex: u32) -> u64
        ensures { result ≡ number_at self.now vertex }
    {
        match self {
            Numbers::Dense(list) => list.get(vertex as usize).copied().unwrap_or(u64::MAX),
            Numbers::Tree(tree) => tree.get(&vertex).copied().unwrap_or(u64::MAX),
        }
    }

    /// Whether the numbers are in a list, so that a look-up takes constant time.
    pub(crate) fn is_list(&self) -> bool {
        matches!(self, Numbers::Dense(_))
    }

    /// Gives a vertex a number. In constant time in a list, and logarithmic in a tree. If memory is refused, the numbers
    /// stay as they were.
    pub fn set(&mut self, vertex: u32, number: u64) -> Result<(), AllocError>
        requires vertex { (n : ℕ) × AreNumbers n self.old × (vertex < n) }
        ensures values { OnOk result ((v : ℕ) → number_at self.new v ≡ cond (v == vertex) number (number_at self.old v)) }
        ensures numbers { OnOk result ((n : ℕ) → AreNumbers n self.old → vertex < n → number < infinite → AreNumbers n self.new) }
        ensures err { OnErr result ((v : ℕ) → number_at self.new v ≡ number_at self.old v) }
    {
        match self {
            Numbers::Dense(list) => list[vertex as usize] = number,
            Numbers::Tree(tree) => {
                tree.insert(vertex, number)?;
            }
        }
        Ok(())
    }

    /// The finite numbers as a column. Costs a few instructions for each place of the list, or for each vertex in the
    /// tree.
    pub fn column(&self, alloc: Global, shape: Shape) -> Result<Matrix<MinPlus>, AllocError>
        requires column { shape.cols ≡ 1 }
        requires numbers { AreNumbers shape.rows self.now }
        ensures shape { IfOk result (λ m. m.shape ≡ shape) }
        ensures values { IfOk result (λ m. (v : ℕ) → at min_plus m v 0 ≡ number_at self.now v) }
    {
        match self {
            Numbers::Dense(list) => list_column(alloc, shape, list),
            Numbers::Tree(tree) => tree_column(alloc, shape, tree),
        }
    }
}

/// The finite numbers of a list, as a column.
fn list_column(alloc: Global, shape: Shape, list: &[u64]) -> Result<Matrix<MinPlus>, AllocError>
    requires column { shape.cols ≡ 1 }
    requires length { length list.now ≡ shape.rows }
    ensures shape { IfOk result (λ m. m.shape ≡ shape) }
    ensures values { IfOk result (λ m. (v : ℕ) → at min_plus m v 0 ≡ slice_index_or list.now v infinite) }
{
    let count = list.iter().filter(|number| **number != u64::MAX).count();
    let mut entries = Vec::with_capacity(alloc, count)?;
    for vertex in 0..shape.rows() {
        let value = list[vertex as usize];
        if value != u64::MAX {
            entries.push(Entry {
                row: vertex,
                column: 0,
                value,
            })?;
        }
    }
    Ok(Matrix::from_ordered(shape, entries))
}

/// The numbers of a tree as a column.
fn tree_column(
    alloc: Global,
    shape: Shape,
    tree: &BTreeMap<u32, u64>,
) -> Result<Matrix<MinPlus>, AllocError>
    requires column { shape.cols ≡ 1 }
    requires numbers { AreNumbers shape.rows (Tree tree.now) }
    ensures shape { IfOk result (λ m. m.shape ≡ shape) }
    ensures values { IfOk result (λ m. (v : ℕ) → at min_plus m v 0 ≡ number_at (Tree tree.now) v) }
{
    let mut entries = Vec::with_capacity(alloc, tree.len())?;
    for (vertex, number) in tree {
        entries.push(Entry {
            row: *vertex,
            column: 0,
            value: *number,
        })?;
    }
    Ok(Matrix::from_ordered(shape, entries))
}
