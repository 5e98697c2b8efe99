//! The product of two blocks, of which each may be transposed first.
ghost use Rattle.std.specs.Prelude.{◌≡◌, IfOk};
ghost use Rattle.cb_matrix.specs.Values.{product};
ghost use Rattle.cb_selections.specs.TurnedProducts.{turned_if, turned_shape, turned_product};

use cb_dcsc::Block;
use cb_product::multiply;
use cb_reshape::transpose;
use cb_semirings::Semiring;
use std::alloc::{AllocError, Global};

/// The product of two blocks. `turn_left` and `turn_right` say whether the first and the second are transposed before. The
/// shapes have to agree after that.
///
/// Costs the product and the transposes.
pub fn multiply_turned<S: Semiring>(
    alloc: Global,
    left: &Block<S>,
    turn_left: bool,
    right: &Block<S>,
    turn_right: bool,
) -> Result<Block<S>, AllocError>
    requires { (turned_shape turn_left left.now.shape).cols ≡ (turned_shape turn_right right.now.shape).rows }
    ensures { IfOk result (λ m. m ≡ turned_product S.arithmetic turn_left turn_right left.now right.now) }
{
    if turn_right {
        let turned = transpose(alloc, right)?;
        return multiply_left(alloc, left, turn_left, &turned);
    }
    multiply_left(alloc, left, turn_left, right)
}

/// The same, if only the first block may be transposed.
fn multiply_left<S: Semiring>(
    alloc: Global,
    left: &Block<S>,
    turn_left: bool,
    right: &Block<S>,
) -> Result<Block<S>, AllocError>
    requires { (turned_shape turn_left left.now.shape).cols ≡ right.now.shape.rows }
    ensures { IfOk result (λ m. m ≡ product S.arithmetic (turned_if S.arithmetic turn_left left.now) right.now) }
{
    if turn_left {
        let turned = transpose(alloc, left)?;
        return multiply(alloc, &turned, right);
    }
    multiply(alloc, left, right)
}
