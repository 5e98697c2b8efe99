//! What is computed of matrices: operations, selections, and the product outside a mask.
ghost use Rattle.std.specs.Prelude.{◌≡◌, ◌≤◌, length, IfErr, OnOk};
ghost use Rattle.cb_operations.specs.Computations.{IsRefusal, Suits, operand_count_of, refusal_of};

use crate::operations::{MOST_OPERANDS, Operation};
use crate::refusals::Refusal;
use crate::selections::Selection;
use cb_matrix::Shape;
use cb_semirings::Semiring;

/// What is computed of one, two or three matrices over a semiring. The result is a matrix.
#[derive(Clone, Copy, PartialEq, Eq)]
pub enum Computation {
    /// An operation.
    Operation(Operation),
    /// A selection.
    Selection(Selection),
    /// The product of two matrices outside a mask: only the entries where a third matrix of the product's shape has none. The
    /// mask's values don't matter.
    MultiplyOutside,
}

impl Computation {
    /// How many matrices it takes, 1 to 3.
    pub fn operand_count(self) -> usize
        ensures count { result ≡ operand_count_of self }
        ensures some { 1 ≤ result }
        ensures few { result ≤ MOST_OPERANDS }
    {
        match self {
            Computation::Operation(operation) => operation.operand_count(),
            Computation::Selection(selection) => selection.operand_count(),
            Computation::MultiplyOutside => MOST_OPERANDS,
        }
    }

    /// Why it is refused, if it is.
    fn refusal(self) -> Refusal
        ensures { result ≡ refusal_of self }
    {
        match self {
            Computation::Operation(_operation) => Refusal::Shapes,
            Computation::Selection(selection) => selection.refusal(),
            Computation::MultiplyOutside => Refusal::Shapes,
        }
    }

    /// Refuses shapes of matrices of which it can't be computed over a semiring.
    pub fn check<S: Semiring>(self, shapes: &[Shape]) -> Result<(), Refusal>
        requires { length shapes.now ≡ operand_count_of self }
        ensures ok { OnOk result (Suits self S.arithmetic shapes.now) }
        ensures refused { IfErr result (IsRefusal self S.arithmetic shapes.now) }
    {
        let suits = match self {
            Computation::Operation(operation) => operation.shape_of(shapes).is_some(),
            Computation::Selection(selection) => selection.suits::<S>(shapes),
            Computation::MultiplyOutside => Operation::MultiplyMasked.shape_of(shapes).is_some(),
        };
        if suits { Ok(()) } else { Err(self.refusal()) }
    }
}
