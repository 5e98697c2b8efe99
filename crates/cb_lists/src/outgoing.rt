//! The lists of a block.
ghost use Rattle.std.specs.Prelude.{◌≡◌, IfOk};
ghost use Rattle.cb_dcsc.specs.Columns.{columns_with_entries, rows_of, values_of};
ghost use Rattle.cb_lists.specs.Lists.{AreStarts, HasLists};

use crate::lists::Columns;
use cb_dcsc::Block;
use cb_semirings::Semiring;
use std::alloc::{AllocError, Global};

/// The lists of a block, without a copy of its entries. They belong to the caller, and may have spare capacity.
pub fn block_lists<S: Semiring>(
    alloc: Global,
    block: Block<S>,
) -> Result<Columns<'static>, AllocError>
    ensures { IfOk result (HasLists block) }
{
    let shape = block.shape();
    let starts = starts_of(alloc, &block)?;
    let (columns, rows, values) = lists_in(alloc, block);
    Ok(Columns {
        nrows: shape.rows(),
        ncols: shape.cols(),
        kind: 0,
        wide: 1,
        columns: columns.leak(),
        starts32: &[],
        starts64: starts.leak(),
        rows: rows.leak(),
        values: values.leak(),
    })
}

/// The columns, rows and values of a block. Those of an empty block are new lists without capacity: the caller has nothing
/// to free for an empty list.
fn lists_in<S: Semiring>(alloc: Global, block: Block<S>) -> (Vec<u32>, Vec<u32>, Vec<u64>)
    ensures columns { result.0.items ≡ columns_with_entries block.entries }
    ensures rows { result.1.items ≡ rows_of block.entries }
    ensures values { result.2.items ≡ values_of block.entries }
{
    if block.len() == 0 {
        return (Vec::new(alloc), Vec::new(alloc), Vec::new(alloc));
    }
    block.into_lists()
}

/// Where each column that has entries starts, and where the last ends; empty for an empty block.
pub fn starts_of<S: Semiring>(alloc: Global, block: &Block<S>) -> Result<Vec<u64>, AllocError>
    ensures { IfOk result (λ v. AreStarts block.now.entries v.items) }
{
    let _matrix = block.shape();
    let _entries = block.len();
    let columns = block.column_numbers().len();
    if columns == 0 {
        return Ok(Vec::new(alloc));
    }
    let mut starts = Vec::with_capacity(alloc, columns + 1)?;
    let mut end = 0;
    starts.push(end)?;
    for n in 0..columns {
        let (rows, _values) = block.nth_column(n);
        end += rows.len() as u64;
        starts.push(end)?;
    }
    Ok(starts)
}
