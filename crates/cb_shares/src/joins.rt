//! Panels of a matrix that are put beside one another, and what is known of them together.
ghost use Rattle.std.specs.Prelude.{◌≡◌, ◌↔◌, ◌<◌, IsTrue, All, AllPairs, OnOk, OnErr};
ghost use Rattle.cb_matrix.specs.Sparse.{IsMatrix};
ghost use Rattle.cb_matrix.specs.Values.{empty_matrix};
ghost use Rattle.cb_dcsc.specs.Columns.{with_entries};
ghost use Rattle.cb_reshape.specs.Sums.{matrix_total};
ghost use Rattle.cb_shares.specs.Shares.{AreBefore, JoinsPanels};

use cb_dcsc::Block;
use cb_layout::PanelledMatrix;
use cb_semirings::Semiring;
use std::alloc::{AllocError, Global};

/// Whether the columns of one matrix that have entries are all before those of another. Takes constant time for each panel of
/// the one and each of the other.
pub fn are_before<S: Semiring>(front: &PanelledMatrix<S>, back: &PanelledMatrix<S>) -> bool
    ensures { IsTrue result ↔ AreBefore front.now.entries back.now.entries }
{
    let (first, others) = front.panels();
    is_before_all(first, back) && are_panels_before(others, back)
}

/// Whether those of each of some panels are before those of a matrix.
fn are_panels_before<S: Semiring>(panels: &[Block<S>], back: &PanelledMatrix<S>) -> bool
    ensures { IsTrue result ↔ All (λ panel. AreBefore panel.entries back.now.entries) panels.now }
{
    panels.iter().all(|panel| is_before_all(panel, back))
}

/// Whether those of a block are before those of a matrix.
fn is_before_all<S: Semiring>(block: &Block<S>, back: &PanelledMatrix<S>) -> bool
    ensures { IsTrue result ↔ AreBefore block.now.entries back.now.entries }
{
    let (first, others) = back.panels();
    is_before(block, first) && is_before_panels(block, others)
}

/// Whether those of a block are before those of each of some panels.
fn is_before_panels<S: Semiring>(block: &Block<S>, panels: &[Block<S>]) -> bool
    ensures { IsTrue result ↔ All (λ panel. AreBefore block.now.entries panel.entries) panels.now }
{
    panels.iter().all(|panel| is_before(block, panel))
}

/// Whether those of a block are before those of another.
fn is_before<S: Semiring>(front: &Block<S>, back: &Block<S>) -> bool
    ensures { IsTrue result ↔ AreBefore front.now.entries back.now.entries }
{
    ends_before(front.column_numbers(), back.column_numbers())
}

/// Whether the last of some numbers, which ascend, is before the first of others.
fn ends_before(front: &[u32], back: &[u32]) -> bool
    requires front { AllPairs (λ c d. c < d) front.now }
    requires back { AllPairs (λ c d. c < d) back.now }
    ensures { IsTrue result ↔ All (λ c. All (λ d. c < d) back.now) front.now }
{
    let Some(last) = front.last() else {
        return true;
    };
    let Some(first) = back.first() else {
        return true;
    };
    last < first
}

/// Appends the panels of another matrix after those of a matrix, and leaves the other without entries. If memory is refused,
/// both stay as they were. No entry is copied.
///
/// If both are panels of a matrix, such as a product under a mask, the second next to the first, the matrix becomes the panel
/// of the columns of both.
pub fn join<S: Semiring>(
    alloc: Global,
    front: &mut PanelledMatrix<S>,
    back: &mut PanelledMatrix<S>,
) -> Result<(), AllocError>
    requires shape { back.old.shape ≡ front.old.shape }
    requires matrix { IsMatrix S.arithmetic (with_entries front.old back.old.entries) }
    ensures entries { OnOk result (front.new ≡ with_entries front.old back.old.entries) }
    ensures panels { OnOk result (JoinsPanels S.arithmetic front.old back.old front.new) }
    ensures rest { OnOk result (back.new ≡ empty_matrix back.old.shape) }
    ensures front { OnErr result (front.new ≡ front.old) }
    ensures back { OnErr result (back.new ≡ back.old) }
{
    front.append(alloc, back)?;
    Ok(())
}

/// Returns the sum of all values of a matrix, which is zero if it has no entries. Costs one pass over the values, and no
/// memory.
pub fn total<S: Semiring>(matrix: &PanelledMatrix<S>) -> u64
    ensures { result ≡ matrix_total S.arithmetic matrix.now }
{
    let (first, others) = matrix.panels();
    prove_eq!(first.shape(), matrix.shape());
    let mut sum = cb_reshape::total(first);
    for panel in others {
        sum = S::add(sum, cb_reshape::total(panel));
    }
    sum
}
