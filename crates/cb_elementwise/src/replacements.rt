//! Stored values of a block replaced by a rule.
ghost use Rattle.std.specs.Prelude.{◌≡◌, ◌≢◌, ℕ, ◌<◌, length, All, AllPairs, IfOk, OnOk};
ghost use Rattle.cb_semirings.specs.Arithmetic.{IsValue};
ghost use Rattle.cb_matrix.specs.Sparse.{IsMatrix};
ghost use Rattle.cb_matrix.specs.Values.{empty_matrix};
ghost use Rattle.cb_product.specs.SparseColumn.{IsSparseColumn};
ghost use Rattle.cb_operations.specs.SelectionAnswers.{replaced};
ghost use Rattle.cb_elementwise.specs.Replaced.{IsReplaced};

use crate::value_rules::ValueRule;
use cb_dcsc::Block;
use cb_semirings::Semiring;
use std::alloc::{AllocError, Global};

/// The block with a rule applied to each entry, without zeros. It gets room for this many entries at the start.
///
/// Costs a few instructions for each entry, and for each column that has entries.
pub fn replaced<S: Semiring, R: ValueRule<S>>(
    alloc: Global,
    block: &Block<S>,
    rule: &R,
    room: usize,
) -> Result<Block<S>, AllocError>
    requires { (i j : ℕ) → i < block.now.shape.rows → j < block.now.shape.cols → R.fits rule.now i j }
    ensures { IfOk result (λ m. m ≡ replaced S.arithmetic (R.made rule.now) block.now) }
{
    let mut out = Block::empty(alloc, block.shape());
    out.reserve(room)?;
    let mut rows = Vec::new(alloc);
    let mut values = Vec::new(alloc);
    push_columns(&mut out, &mut rows, &mut values, block, rule)?;
    Ok(out)
}

/// Stores the block with the rule applied in an empty block. The lists hold one column at a time.
fn push_columns<S: Semiring, R: ValueRule<S>>(
    out: &mut Block<S>,
    kept_rows: &mut Vec<u32>,
    kept_values: &mut Vec<u64>,
    block: &Block<S>,
    rule: &R,
) -> Result<(), AllocError>
    requires matrix { IsMatrix S.arithmetic block.now }
    requires out_matrix { IsMatrix S.arithmetic out.old }
    requires empty { out.old ≡ empty_matrix block.now.shape }
    requires fits { (i j : ℕ) → i < block.now.shape.rows → j < block.now.shape.cols → R.fits rule.now i j }
    ensures { OnOk result (out.new ≡ replaced S.arithmetic (R.made rule.now) block.now) }
{
    let columns = block.column_numbers();
    for n in 0..columns.len() {
        let (rows, values) = block.nth_column(n);
        replace_column(kept_rows, kept_values, columns[n], rows, values, rule)?;
        out.push_column(columns[n], kept_rows, kept_values)?;
    }
    Ok(())
}

/// Fills the two lists with the rows and values of a column after a rule, without zeros.
fn replace_column<S: Semiring, R: ValueRule<S>>(
    kept_rows: &mut Vec<u32>,
    kept_values: &mut Vec<u64>,
    column: u32,
    rows: &[u32],
    values: &[u64],
    rule: &R,
) -> Result<(), AllocError>
    requires fits { All (λ i. R.fits rule.now i column) rows.now }
    requires entries { IsSparseColumn S.arithmetic rows.now values.now }
    ensures column { OnOk result (IsSparseColumn S.arithmetic kept_rows.new.items kept_values.new.items) }
    ensures values { OnOk result (IsReplaced S.arithmetic.zero (λ i. R.made rule.now i column) rows.now values.now kept_rows.new.items kept_values.new.items) }
{
    kept_rows.clear();
    kept_values.clear();
    kept_rows.reserve(rows.len())?;
    kept_values.reserve(rows.len())?;
    for n in 0..rows.len() {
        let value = rule.make(rows[n], column, values[n]);
        if value != S::zero() {
            kept_rows.push_reserved(rows[n]);
            kept_values.push_reserved(value);
        }
    }
    Ok(())
}
