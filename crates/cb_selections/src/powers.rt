//! Powers of a square block.
ghost use Rattle.std.specs.Prelude.{◌≡◌, ◌≤◌, IfOk};
ghost use Rattle.cb_operations.specs.SelectionAnswers.{power};

use cb_dcsc::Block;
use cb_product::multiply;
use cb_semirings::Semiring;
use std::alloc::{AllocError, Global};

/// The power of a square block with this many factors. They are multiplied from the left: a product of a semiring need not
/// be associative.
///
/// Costs the products, one less than there are factors.
pub fn power<S: Semiring>(
    alloc: Global,
    block: &Block<S>,
    factors: u32,
) -> Result<Block<S>, AllocError>
    requires square { block.now.shape.rows ≡ block.now.shape.cols }
    requires some { 1 ≤ factors }
    ensures { IfOk result (λ m. m ≡ power S.arithmetic block.now factors) }
{
    if factors == 1 {
        return block.try_clone();
    }
    let mut product = multiply(alloc, block, block)?;
    for _ in 2..factors {
        product = multiply(alloc, &product, block)?;
    }
    Ok(product)
}
