//! Edges relaxed in a list of the numbers of all vertices.
//!
//! To relax an edge is to lower the number of the vertex that it leads to, if the number of the vertex that it comes
//! from plus the edge's weight is less. The sums go straight into the list, so no product is made, and a copy of the
//! list from before shows which numbers fell.
ghost use Rattle.std.specs.Prelude.{◌≡◌, ℕ, ◌≤◌, length, All, IfOk, OnOk};
ghost use Rattle.cb_semirings.specs.Tables.{min_plus};
ghost use Rattle.cb_matrix.specs.Sparse.{at};
ghost use Rattle.cb_matrix.specs.Values.{product_shape};
ghost use Rattle.cb_searches.specs.Walks.{infinite};
ghost use Rattle.cb_searches.specs.Numbers.{fallen, listed_at, reached_by, AreLeast, HaveFallen, HaveStayed};

use cb_dcsc::Block;
use cb_dense::add_product;
use cb_matrix::{Entry, Matrix, Shape};
use cb_semirings::MinPlus;
use std::alloc::{AllocError, Global};

/// Relaxes the edges from the vertices whose numbers fell, and returns the numbers that fall now, as a column. The
/// edges are the entries of the transposed matrix. Costs what [`add_product`] does, and a few instructions for each
/// vertex. If memory for copies of the list and of the column is refused, the list stays as it was.
pub(crate) fn relax_list(
    alloc: Global,
    list: &mut [u64],
    edges: &Block<MinPlus>,
    fell: &Matrix<MinPlus>,
) -> Result<Matrix<MinPlus>, AllocError>
    requires length { length list.old ≡ edges.now.shape.rows }
    requires values { All (λ x. x ≤ infinite) list.old }
    requires agree { edges.now.shape.cols ≡ fell.now.shape.rows }
    requires column { fell.now.shape.cols ≡ 1 }
    ensures length { length list.new ≡ length list.old }
    ensures values { All (λ x. x ≤ infinite) list.new }
    ensures least { OnOk result (AreLeast (listed_at list.old) (reached_by edges.now fell.now) (listed_at list.new)) }
    ensures shape { IfOk result (λ m. m.shape ≡ product_shape edges.now fell.now) }
    ensures new { IfOk result (HaveFallen (listed_at list.old) (reached_by edges.now fell.now)) }
    ensures old { IfOk result (HaveStayed (listed_at list.old) (reached_by edges.now fell.now)) }
{
    let shape = edges.shape().with_columns_of(fell.shape());
    let before = Vec::from_slice(alloc, list)?;
    let column = Block::from_ordered(alloc, fell.shape(), fell.entries())?;
    add_product::<MinPlus>(list, edges, &column);
    fallen_column(alloc, shape, &before, list)
}

/// The numbers that are below what they were before, as a column.
fn fallen_column(
    alloc: Global,
    shape: Shape,
    before: &[u64],
    now: &[u64],
) -> Result<Matrix<MinPlus>, AllocError>
    requires column { shape.cols ≡ 1 }
    requires before { length before.now ≡ shape.rows }
    requires now { length now.now ≡ shape.rows }
    ensures shape { IfOk result (λ m. m.shape ≡ shape) }
    ensures values { IfOk result (λ m. (v : ℕ) → at min_plus m v 0 ≡ fallen before.now now.now v) }
{
    let mut entries = Vec::new(alloc);
    for vertex in 0..shape.rows() {
        let value = now[vertex as usize];
        if value < before[vertex as usize] {
            entries.push(Entry {
                row: vertex,
                column: 0,
                value,
            })?;
        }
    }
    Ok(Matrix::from_ordered(shape, entries))
}
