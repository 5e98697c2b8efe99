//! Some columns of a matrix, as an operand for a thread that makes these columns of the answer.
ghost use Rattle.std.specs.Prelude.{◌≡◌, ◌≤◌, length, All, IfOk, IfSome, OnOk};
ghost use Rattle.cb_matrix.specs.Sparse.{IsMatrix};
ghost use Rattle.cb_dcsc.specs.Columns.{columns_with_entries, with_entries};
ghost use Rattle.cb_layout.specs.Panels.{entries_of_panels, whole_of};
ghost use Rattle.cb_masked.specs.SomeColumns.{only_places};
ghost use Rattle.cb_shares.specs.Shares.{columns_from, panel, among_entries};

use cb_dcsc::{Block, first_from};
use cb_layout::{PanelledMatrix, Whole};
use cb_semirings::Semiring;
use std::alloc::{AllocError, Global};

/// Returns the columns of a matrix from `first` up to, but not including, `end`, in a block of the whole shape. If the matrix
/// is one block that has entries only in these columns, the block is lent; otherwise the entries of these columns are copied.
/// Costs two binary searches for each panel, and the copy.
pub fn columns_between<'a, S: Semiring>(
    alloc: Global,
    matrix: &'a PanelledMatrix<S>,
    first: u32,
    end: u32,
) -> Result<Whole<'a, Block<S>>, AllocError>
    ensures columns { IfOk result (λ made. whole_of made ≡ panel matrix.now first end) }
    ensures matrix { IsMatrix S.arithmetic matrix.now }
{
    let (front, others) = matrix.panels();
    prove_eq!(front.shape(), matrix.shape());
    if others.is_empty() {
        return block_columns(alloc, front, first, end);
    }
    if first == 0 && end >= matrix.shape().cols() {
        return matrix.whole();
    }
    let mut made = copied_columns(alloc, front, first, end)?;
    append_columns(alloc, &mut made, others, first, end)?;
    Ok(Whole::Made(made))
}

/// The only panel of a matrix, which is the whole matrix then, or `None` if it has several.
pub(crate) fn only_panel<S: Semiring>(matrix: &PanelledMatrix<S>) -> Option<&Block<S>>
    ensures { IfSome result (λ block. block.now ≡ matrix.now) }
{
    let (front, others) = matrix.panels();
    if others.is_empty() { Some(front) } else { None }
}

/// The same of a block.
fn block_columns<'a, S: Semiring>(
    alloc: Global,
    block: &'a Block<S>,
    first: u32,
    end: u32,
) -> Result<Whole<'a, Block<S>>, AllocError>
    ensures { IfOk result (λ made. whole_of made ≡ panel block.now first end) }
{
    let (low, high) = places_between(block, first, end);
    if low == 0 && high == block.columns() {
        return Ok(Whole::Lent(block));
    }
    Ok(Whole::Made(copied_columns(alloc, block, first, end)?))
}

/// The same columns of a block that isn't needed any more: the block itself, without a copy, if it has entries in no other.
pub(crate) fn only_between<S: Semiring>(
    alloc: Global,
    block: Block<S>,
    first: u32,
    end: u32,
) -> Result<Block<S>, AllocError>
    ensures { IfOk result (λ made. made ≡ panel block first end) }
{
    let (low, high) = places_between(&block, first, end);
    if low == 0 && high == block.columns() {
        return Ok(block);
    }
    copied_columns(alloc, &block, first, end)
}

/// The place of the first of these columns among those that have entries, and the place after the last.
pub(crate) fn places_between<S: Semiring>(block: &Block<S>, first: u32, end: u32) -> (usize, usize)
    ensures order { result.0 ≤ result.1 }
    ensures within { result.1 ≤ length (columns_with_entries block.now.entries) }
    ensures columns { only_places result.0 result.1 block.now ≡ panel block.now first end }
{
    let columns = block.column_numbers();
    let low = first_from(columns, first);
    let high = first_from(columns, end).max(low);
    (low, high)
}

/// The same columns, copied.
fn copied_columns<S: Semiring>(
    alloc: Global,
    block: &Block<S>,
    first: u32,
    end: u32,
) -> Result<Block<S>, AllocError>
    ensures { IfOk result (λ made. made ≡ panel block.now first end) }
{
    let shape = block.shape();
    let end = end.min(shape.cols());
    let first = first.min(end);
    let mut made = Block::empty(alloc, shape);
    made.append_columns(block, (first, end), (0, first))?;
    Ok(made)
}

/// Appends the columns of panels, one panel after the other, to a block.
fn append_columns<S: Semiring>(
    alloc: Global,
    made: &mut Block<S>,
    panels: &[Block<S>],
    first: u32,
    end: u32,
) -> Result<(), AllocError>
    requires shapes { All (λ panel. panel.shape ≡ made.old.shape) panels.now }
    requires matrix { IsMatrix S.arithmetic (with_entries made.old (among_entries (columns_from first end) (entries_of_panels panels.now))) }
    ensures { OnOk result (made.new ≡ with_entries made.old (among_entries (columns_from first end) (entries_of_panels panels.now))) }
{
    for panel in panels {
        let mut more = copied_columns(alloc, panel, first, end)?;
        made.append(&mut more)?;
    }
    Ok(())
}
