//! Panels of a kept matrix, each with a range of its columns, that are joined.
ghost use Rattle.std.specs.Prelude.{◌≡◌, IfOk, IfErr};
ghost use Rattle.cb_shares.specs.Shares.{AreBefore};
ghost use Rattle.cb_kept.specs.Answers.{NoFault};
ghost use Rattle.cb_kept.specs.KeptPanels.{IsKeptJoin, IsPanelJoin, panel_faults};

use crate::faults::Fault;
use crate::kept::{Kept, of_both};
use cb_layout::PanelledMatrix;
use cb_semirings::Semiring;
use cb_shares::{are_before, join};
use std::alloc::Global;

/// Refuses two matrices of different shapes, and columns that aren't after one another.
fn check_join<S: Semiring>(front: &PanelledMatrix<S>, back: &PanelledMatrix<S>) -> Result<(), Fault>
    ensures shapes { IfOk result (λ _. back.now.shape ≡ front.now.shape) }
    ensures before { IfOk result (λ _. AreBefore front.now.entries back.now.entries) }
    ensures none { IfOk result (λ _. NoFault (panel_faults front.now back.now)) }
    ensures fault { IfErr result (panel_faults front.now back.now) }
{
    if back.shape() != front.shape() {
        return Err(Fault::Shapes);
    }
    if !are_before(front, back) {
        return Err(Fault::Order);
    }
    Ok(())
}

/// Appends the panels of a matrix to those of another of its shape, in which all columns are before its own.
fn join_panels<S: Semiring>(
    alloc: Global,
    front: &mut PanelledMatrix<S>,
    back: &mut PanelledMatrix<S>,
) -> Result<(), Fault>
    ensures { IsPanelJoin S.arithmetic front.old back.old front.new back.new result }
{
    check_join(front, back)?;
    prove_eq!(back.shape(), front.shape());
    join(alloc, front, back)?;
    Ok(())
}

/// Joins two kept matrices, if they are over one semiring and panels that can be joined.
#[tactic(auto, unfolding(crate::specs::Kept::semiring_of, crate::specs::Kept::matrix_in, crate::specs::KeptPanels::join_faults), using(crate::proofs::KeptJoins::joined))]
pub(crate) fn join_alone(alloc: Global, front: &mut Kept, back: &mut Kept) -> Result<(), Fault>
    ensures { IsKeptJoin front.old back.old front.new back.new result }
{
    of_both!(front, back, first, last => join_panels(alloc, first, last), Err(Fault::Mixed))
}
