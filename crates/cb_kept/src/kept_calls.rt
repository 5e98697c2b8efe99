//! Calls on kept matrices. What a call does with matrices over one semiring stands in its `impl` of [`KeptCall`]; that they are
//! over one, and which, is found here for all calls.
ghost use Rattle.std.specs.Prelude.{◌<◌, ◌≤◌, length};
ghost use Rattle.cb_semirings.specs.Names.{arithmetic_of};
ghost use Rattle.cb_operations.specs.Operands.{lent_in};
ghost use Rattle.cb_kept.specs.Kept.{semiring_of};
ghost use Rattle.cb_kept.specs.CallsOver.{IsCallOver, IsCallOverCommon, IsCallOnKept};

use crate::faults::Fault;
use crate::kept::{Keep, Kept};
use crate::of_matrix;
use cb_layout::PanelledMatrix;
use std::alloc::Global;

/// A call on matrices over one semiring, whichever it is.
pub(crate) trait KeptCall {
    ghost use Rattle.std.specs.Prelude.{ℕ, List};
    ghost use Rattle.cb_semirings.specs.Arithmetic.{Arithmetic};
    ghost use Rattle.cb_semirings.specs.declared.names.SemiringName.{SemiringName};
    ghost use Rattle.cb_matrix.specs.Sparse.{Sparse};
    ghost use Rattle.cb_kept.specs.declared.faults.Fault.{Fault};

    /// What it returns.
    type Answer;

    /// It takes so many matrices.
    ghost takes: { Self → ℕ → Type 0 };

    /// Its faults, over a semiring.
    ghost faults: { Self → Arithmetic → List Sparse → Fault → Type 0 };

    /// Its answers, over a semiring and its name.
    ghost gives: { Self → SemiringName → Arithmetic → List Sparse → Self.Answer → Type 0 };

    /// Answers the call.
    fn over<S: Keep>(
        &self,
        alloc: Global,
        operands: &[&PanelledMatrix<S>],
    ) -> Result<Self::Answer, Fault>
        requires { takes self.now (length operands.now) }
        ensures { IsCallOver (faults self.now) (gives self.now) S.name S.arithmetic (lent_in operands.now) result };
}

/// Answers a call on kept matrices, one to three, if they are over the semiring of a matrix.
fn call_over<'k, S: Keep + 'k, C: KeptCall>(
    alloc: Global,
    call: &C,
    operands: &[&'k Kept],
    _like: &PanelledMatrix<S>,
) -> Result<C::Answer, Fault>
    requires takes { C.takes call.now (length operands.now) }
    requires some { 0 < length operands.now }
    requires few { length operands.now ≤ 3 }
    ensures { IsCallOnKept (C.faults call.now) (C.gives call.now) S.name S.arithmetic (lent_in operands.now) result }
{
    match operands {
        [a] => {
            let a: &'k PanelledMatrix<S> = S::panels_of(a)?;
            call.over::<S>(alloc, &[a])
        }
        [a, b] => {
            let a: &'k PanelledMatrix<S> = S::panels_of(a)?;
            let b: &'k PanelledMatrix<S> = S::panels_of(b)?;
            call.over::<S>(alloc, &[a, b])
        }
        [a, b, c] => {
            let a: &'k PanelledMatrix<S> = S::panels_of(a)?;
            let b: &'k PanelledMatrix<S> = S::panels_of(b)?;
            let c: &'k PanelledMatrix<S> = S::panels_of(c)?;
            call.over::<S>(alloc, &[a, b, c])
        }
        _ => unreachable!(),
    }
}

/// The same, if they are over the semiring of a kept matrix.
#[tactic(auto, unfolding(crate::specs::Kept::semiring_of))]
fn call_like<C: KeptCall>(
    alloc: Global,
    call: &C,
    operands: &[&Kept],
    like: &Kept,
) -> Result<C::Answer, Fault>
    requires takes { C.takes call.now (length operands.now) }
    requires some { 0 < length operands.now }
    requires few { length operands.now ≤ 3 }
    ensures { IsCallOnKept (C.faults call.now) (C.gives call.now) (semiring_of like.now) (arithmetic_of (semiring_of like.now)) (lent_in operands.now) result }
{
    of_matrix!(like, matrix => call_over(alloc, call, operands, matrix))
}

/// Answers a call on kept matrices, one to three, if they are over one semiring.
pub(crate) fn kept_call<C: KeptCall>(
    alloc: Global,
    call: &C,
    operands: &[&Kept],
) -> Result<C::Answer, Fault>
    requires takes { C.takes call.now (length operands.now) }
    requires some { 0 < length operands.now }
    requires few { length operands.now ≤ 3 }
    ensures { IsCallOverCommon (C.faults call.now) (C.gives call.now) (lent_in operands.now) result }
{
    call_like(alloc, call, operands, operands[0])
}
