//! Any selection from blocks.
ghost use Rattle.std.specs.Prelude.{◌≡◌, [], ◌∷◌, IfOk};
ghost use Rattle.cb_operations.specs.OperationAnswers.{shapes_in};
ghost use Rattle.cb_operations.specs.SelectionAnswers.{answer_of, operand_count_of, Suits};

use crate::assignments::assign;
use crate::diagonals::{diagonal, diagonal_matrix};
use crate::kronecker_products::kronecker;
use crate::powers::power;
use crate::{apply, select};
use cb_dcsc::Block;
use cb_elementwise::exclude;
use cb_operations::Selection;
use cb_reshape::cut;
use cb_semirings::Semiring;
use std::alloc::{AllocError, Global};

/// Makes a selection from one block, from which it can be made ([`Selection::suits`]).
pub fn selection_of_one<S: Semiring>(
    alloc: Global,
    selection: Selection,
    a: &Block<S>,
) -> Result<Block<S>, AllocError>
    requires count { operand_count_of selection ≡ 1 }
    requires suits { Suits selection S.arithmetic (shapes_in (a.now ∷ [])) }
    ensures { IfOk result (λ m. m ≡ answer_of selection S.arithmetic (a.now ∷ [])) }
{
    match selection {
        Selection::Select(region) => select(alloc, a, region),
        Selection::Apply(function) => apply(alloc, a, function),
        Selection::Diagonal => diagonal(alloc, a),
        Selection::DiagonalMatrix => diagonal_matrix(alloc, a),
        Selection::Power(factors) => power(alloc, a, factors.get()),
        Selection::Part(rows, cols) => cut(alloc, a, rows, cols),
        _ => unreachable!(),
    }
}

/// Makes a selection from two blocks, from which it can be made.
pub fn selection_of_two<S: Semiring>(
    alloc: Global,
    selection: Selection,
    a: &Block<S>,
    b: &Block<S>,
) -> Result<Block<S>, AllocError>
    requires count { operand_count_of selection ≡ 2 }
    requires suits { Suits selection S.arithmetic (shapes_in (a.now ∷ b.now ∷ [])) }
    ensures { IfOk result (λ m. m ≡ answer_of selection S.arithmetic (a.now ∷ b.now ∷ [])) }
{
    match selection {
        Selection::Kronecker => kronecker(alloc, a, b),
        Selection::Assign(corner) => assign(alloc, a, corner, b),
        Selection::Exclude => exclude(alloc, a, b),
        _ => unreachable!(),
    }
}
