//! A kept matrix with its transpose, which calls use that need it.
ghost use Rattle.std.specs.Prelude.{◌≡◌, IfErr, IfOk, IfSome, IsNone};
ghost use Rattle.cb_kept.specs.Kept.{IsTransposeOf, nothing};
ghost use Rattle.cb_kept.specs.KeptPanels.{IsKeptJoin};
ghost use Rattle.cb_kept.specs.Refusals.{IsMemory};

use crate::faults::Fault;
use crate::kept::Kept;
use crate::kept_computations::kept_computation;
use crate::kept_panels::join_alone;
use cb_operations::{Computation, Operation};
use std::alloc::Global;
use std::marker::Model;

/// A kept matrix, and its transpose once that is kept too. Contracts see the matrix.
#[derive(Drop)]
pub struct KeptMatrix {
    matrix: Kept,
    turned: Option<Box<Kept>>,
}

impl Model for KeptMatrix {
    ghost use Rattle.std.specs.Prelude.{IfSome};
    ghost use Rattle.cb_kept.specs.declared.kept.Kept.{Kept};
    ghost use Rattle.std.specs.Box.{box_value};
    ghost use Rattle.cb_kept.specs.Kept.{IsTransposeOf};

    ghost Value = { Kept };

    ghost view = { λ k. k.matrix };

    ghost invariant = { λ k. IfSome k.turned (λ turned. IsTransposeOf k.matrix (box_value turned)) };
}

/// The transpose of a kept matrix.
fn transposed(alloc: Global, matrix: &Kept) -> Result<Kept, Fault>
    ensures ok { IfOk result (IsTransposeOf matrix.now) }
    ensures fault { IfErr result IsMemory }
{
    let columns = matrix.shape().rows();
    let transpose = Some(Computation::Operation(Operation::Transpose));
    // A transpose has no other fault.
    let Ok(turned) = kept_computation(alloc, transpose, &[matrix], 0, columns) else {
        return Err(Fault::Memory);
    };
    Ok(turned)
}

/// Frees a matrix, if there is one.
fn free(place: &mut Option<Box<Kept>>)
    ensures { IsNone place.new }
{
    *place = None;
}

impl KeptMatrix {
    /// This matrix, without its transpose.
    pub fn new(matrix: Kept) -> KeptMatrix
        ensures { result ≡ matrix }
    {
        KeptMatrix {
            matrix,
            turned: None,
        }
    }

    /// The matrix.
    pub fn matrix(&self) -> &Kept
        ensures { result.now ≡ self.now }
    {
        &self.matrix
    }

    /// Its transpose, if that is kept.
    pub fn turned(&self) -> Option<&Kept>
        ensures { IfSome result (λ turned. IsTransposeOf self.now turned.now) }
    {
        match &self.turned {
            Some(turned) => Some(turned),
            None => None,
        }
    }

    /// Keeps the transpose, unless it is kept already. Searches from sources then need no transpose of their own. It takes
    /// as much memory as the matrix; if that is refused, nothing changes.
    pub fn keep_transpose(&mut self, alloc: Global) -> Result<(), Fault>
        ensures same { self.new ≡ self.old }
        ensures fault { IfErr result IsMemory }
    {
        if self.turned.is_none() {
            let turned = transposed(alloc, &self.matrix)?;
            let Ok(turned) = Box::new(alloc, turned) else {
                return Err(Fault::Memory);
            };
            self.turned = Some(turned);
        }
        Ok(())
    }

    /// Frees the lists of both, and leaves a matrix without rows, columns and entries.
    pub fn clear(&mut self, alloc: Global)
        ensures { self.new ≡ nothing }
    {
        free(&mut self.turned);
        self.matrix.set(Kept::nothing(alloc));
    }
}

/// Joins two panels of a product, also of one under a mask or outside it: appends the entries of a matrix to those of another,
/// whose columns are all before its own, and leaves the first of these without entries. At a fault both stay as they were.
/// No entry is copied. Transposes that are kept beside them go.
pub fn kept_join(alloc: Global, front: &mut KeptMatrix, back: &mut KeptMatrix) -> Result<(), Fault>
    ensures { IsKeptJoin front.old back.old front.new back.new result }
{
    free(&mut front.turned);
    free(&mut back.turned);
    join_alone(alloc, &mut front.matrix, &mut back.matrix)
}
