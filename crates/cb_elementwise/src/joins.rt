//! The joint walk over the columns of two blocks.
ghost use Rattle.std.specs.Prelude.{◌≡◌, ℕ, ◌<◌, length, slice_index, slice_index_or, All, IfOk, OnOk};
ghost use Rattle.cb_matrix.specs.Sparse.{IsMatrix};
ghost use Rattle.cb_matrix.specs.Values.{empty_matrix};
ghost use Rattle.cb_dcsc.specs.Columns.{columns_with_entries};
ghost use Rattle.cb_elementwise.specs.JoinedMatrices.{combined_matrix, with_kept};

use crate::column_joins::join_columns;
use crate::rules::Rule;
use cb_dcsc::Block;
use cb_semirings::Semiring;
use std::alloc::{AllocError, Global};

/// The block that has at each place what the rule makes of the two values there. It gets room for this many entries at
/// the start.
pub(crate) fn joined<S: Semiring, R: Rule<S>>(
    alloc: Global,
    rule: &R,
    left: &Block<S>,
    right: &Block<S>,
    room: usize,
) -> Result<Block<S>, AllocError>
    requires { right.now.shape ≡ left.now.shape }
    ensures { IfOk result (λ m. m ≡ combined_matrix S.arithmetic (R.combined rule.now) left.now right.now) }
{
    let shape = left.shape();
    prove_eq!(right.shape(), shape);
    let mut out = Block::empty(alloc, shape);
    out.reserve(room)?;
    let mut rows = Vec::new(alloc);
    let mut values = Vec::new(alloc);
    push_columns(&mut out, &mut rows, &mut values, left, right, rule)?;
    Ok(out)
}

/// Stores the columns of two blocks, joined by a rule, in an empty block. The lists hold one column at a time.
fn push_columns<S: Semiring, R: Rule<S>>(
    out: &mut Block<S>,
    rows: &mut Vec<u32>,
    values: &mut Vec<u64>,
    left: &Block<S>,
    right: &Block<S>,
    rule: &R,
) -> Result<(), AllocError>
    requires left { IsMatrix S.arithmetic left.now }
    requires right { IsMatrix S.arithmetic right.now }
    requires shape { right.now.shape ≡ left.now.shape }
    requires out_matrix { IsMatrix S.arithmetic out.old }
    requires empty { out.old ≡ empty_matrix left.now.shape }
    ensures { OnOk result (out.new ≡ combined_matrix S.arithmetic (R.combined rule.now) left.now right.now) }
{
    let left_columns = left.column_numbers();
    let right_columns = right.column_numbers();
    let cols = left.shape().cols();
    let mut x = 0;
    let mut y = 0;
    while x < left_columns.len() || y < right_columns.len() {
        let left_column = nth_or(left_columns, x, cols);
        let right_column = nth_or(right_columns, y, cols);
        if left_column < right_column {
            push_alone(out, left, x, rule.keeps_left())?;
            x += 1;
        } else if right_column < left_column {
            push_alone(out, right, y, rule.keeps_right())?;
            y += 1;
        } else {
            let (left_rows, left_values) = left.nth_column(x);
            let (right_rows, right_values) = right.nth_column(y);
            join_columns(
                rows,
                values,
                left_rows,
                left_values,
                right_rows,
                right_values,
                rule,
            )?;
            out.push_column(left_column, rows, values)?;
            x += 1;
            y += 1;
        }
    }
    Ok(())
}

/// The nth of these columns, or this number if they are fewer.
#[inline(always)]
fn nth_or(columns: &[u32], n: usize, end: u32) -> u32
    ensures { result ≡ slice_index_or columns.now n end }
{
    if n < columns.len() { columns[n] } else { end }
}

/// Stores a column that the other block doesn't have, if the rule keeps it: a copy of the nth column that has entries.
#[inline(always)]
fn push_alone<S: Semiring>(
    out: &mut Block<S>,
    block: &Block<S>,
    n: usize,
    is_kept: bool,
) -> Result<(), AllocError>
    requires matrix { IsMatrix S.arithmetic block.now }
    requires out_matrix { IsMatrix S.arithmetic out.old }
    requires shape { out.old.shape ≡ block.now.shape }
    requires nth { n < length (columns_with_entries block.now.entries) }
    requires before { All (λ e. e.column < slice_index (columns_with_entries block.now.entries) n) out.old.entries }
    ensures ok { OnOk result (out.new ≡ with_kept is_kept (slice_index (columns_with_entries block.now.entries) n) block.now out.old) }
    ensures matrix { IsMatrix S.arithmetic out.new }
{
    if is_kept {
        let (rows, values) = block.nth_column(n);
        out.push_column(block.column_number(n), rows, values)?;
    }
    Ok(())
}
