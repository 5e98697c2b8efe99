//! The Kronecker product.
ghost use Rattle.std.specs.Prelude.{◌≡◌, ◌≢◌, ℕ, ◌<◌, ◌≤◌, ◌*◌, ◌+◌, length, All, AllPairs, IfOk, OnOk};
ghost use Rattle.cb_matrix.specs.Sparse.{IsMatrix};
ghost use Rattle.cb_matrix.specs.Values.{empty_matrix};
ghost use Rattle.cb_product.specs.SparseColumn.{IsSparseColumn};
ghost use Rattle.cb_operations.specs.SelectionAnswers.{kronecker, pair_shape};
ghost use Rattle.cb_selections.specs.KernelSteps.{IsPaired};

use crate::shape_of;
use cb_dcsc::Block;
use cb_matrix::LIMIT;
use cb_semirings::Semiring;
use std::alloc::{AllocError, Global};

/// The Kronecker product of two blocks: each value of the first is replaced by its products with all of the second.
/// Products of zero aren't stored.
///
/// Costs a few instructions for each pair of an entry of the first and one of the second.
pub fn kronecker<S: Semiring>(
    alloc: Global,
    left: &Block<S>,
    right: &Block<S>,
) -> Result<Block<S>, AllocError>
    requires rows { left.now.shape.rows * right.now.shape.rows ≤ LIMIT }
    requires cols { left.now.shape.cols * right.now.shape.cols ≤ LIMIT }
    ensures { IfOk result (λ product. product ≡ kronecker S.arithmetic left.now right.now) }
{
    let outer = left.shape();
    let inner = right.shape();
    let shape = shape_of(outer.rows() * inner.rows(), outer.cols() * inner.cols());
    let mut out = Block::empty(alloc, shape);
    let mut rows = Vec::new(alloc);
    let mut values = Vec::new(alloc);
    push_products(&mut out, &mut rows, &mut values, left, right)?;
    Ok(out)
}

/// Stores the Kronecker product in an empty block. The lists hold one column at a time.
fn push_products<S: Semiring>(
    out: &mut Block<S>,
    kept_rows: &mut Vec<u32>,
    kept_values: &mut Vec<u64>,
    left: &Block<S>,
    right: &Block<S>,
) -> Result<(), AllocError>
    requires left { IsMatrix S.arithmetic left.now }
    requires right { IsMatrix S.arithmetic right.now }
    requires rows { left.now.shape.rows * right.now.shape.rows ≤ LIMIT }
    requires cols { left.now.shape.cols * right.now.shape.cols ≤ LIMIT }
    requires out_matrix { IsMatrix S.arithmetic out.old }
    requires empty { out.old ≡ empty_matrix (pair_shape left.now right.now) }
    ensures { OnOk result (out.new ≡ kronecker S.arithmetic left.now right.now) }
{
    let height = right.shape().rows();
    let width = right.shape().cols();
    let outer = left.column_numbers();
    let inner = right.column_numbers();
    for n in 0..outer.len() {
        let (left_rows, left_values) = left.nth_column(n);
        for m in 0..inner.len() {
            let (rows, values) = right.nth_column(m);
            pair_column::<S>(
                kept_rows,
                kept_values,
                left_rows,
                left_values,
                rows,
                values,
                height,
            )?;
            let column = outer[n] * width + inner[m];
            out.push_column(column, kept_rows, kept_values)?;
        }
    }
    Ok(())
}

/// Fills the two lists with the rows and values of the Kronecker product of two columns, of which the second has `height`
/// rows.
fn pair_column<S: Semiring>(
    kept_rows: &mut Vec<u32>,
    kept_values: &mut Vec<u64>,
    left_rows: &[u32],
    left_values: &[u64],
    rows: &[u32],
    values: &[u64],
    height: u32,
) -> Result<(), AllocError>
    requires left { IsSparseColumn S.arithmetic left_rows.now left_values.now }
    requires right { IsSparseColumn S.arithmetic rows.now values.now }
    requires low { All (λ i. i < height) rows.now }
    requires limit { All (λ i. (i + 1) * height ≤ LIMIT) left_rows.now }
    ensures column { OnOk result (IsSparseColumn S.arithmetic kept_rows.new.items kept_values.new.items) }
    ensures values { OnOk result (IsPaired S.arithmetic height left_rows.now left_values.now rows.now values.now kept_rows.new.items kept_values.new.items) }
{
    kept_rows.clear();
    kept_values.clear();
    for n in 0..left_rows.len() {
        for m in 0..rows.len() {
            let value = S::mul(left_values[n], values[m]);
            if value != S::zero() {
                kept_rows.push(left_rows[n] * height + rows[m])?;
                kept_values.push(value)?;
            }
        }
    }
    Ok(())
}
